//! The rows of a trace, one after another: its cores, and the line of the record that they did last.
ghost use Rattle.std.specs.Prelude.{◌≡◌, ℕ, ◌+◌, ◌<◌, ◌≤◌, ◌++◌, [], ◌∷◌, length, List, Option, OnOk, OnErr, IfOk, decimal, codes};
ghost use Rattle.text_lines.specs.Hex.{hex_word};
ghost use Rattle.sn_base.specs.Blocks.{bytes_of};
ghost use Rattle.sn_io.specs.Outside.{Rose};
ghost use Rattle.sink_pieces.specs.Pieces.{Report, ends, after, Breaks};
ghost use Rattle.rv_core.specs.Core.{start_of};
ghost use Rattle.rv_core.specs.Flat.{first_cores};
ghost use Rattle.rv_core.specs.Execution.{IsExecution};
ghost use Rattle.access_check.specs.Accesses.{is_done, is_sc};
ghost use Rattle.committed_accesses.specs.Rows.{access_row, access_rows_from, access_rows_of};
ghost use Rattle.committed_accesses.specs.Lines.{next_field, value_field, done_field, access_fields, row_line, row_pieces, header_line, access_pieces};
ghost use Rattle.committed_accesses.specs.Cores.{MayDo, AreGood, core_in, cores_after};
ghost use Rattle.committed_accesses.specs.declared.row_line.TheConstants.{ROW_ROOM};

use crate::access::do_record;
use crate::row_line::RowLine;
use access_check::{Access, Operation};
use rv_core::{CoreState, Record};
use sink_pieces::put_report;
use sn_base::{BlockNo, Image, Memory, NodeId, Width};
use sn_io::{Failed, Sink};
use std::alloc::Global;
use std::marker::Model;

/// The cores of a program, as the records of a trace leave them, and the line of the record that came last. All memory is taken by
/// `start`. Contracts see both.
#[derive(Drop)]
pub struct AccessRows {
    cores: Vec<CoreState>,
    line: RowLine,
}

impl Model for AccessRows {
    ghost use Rattle.committed_accesses.specs.Cores.{RowsState};

    ghost Value = { RowsState };

    ghost view = { λ r. record { cores = r.cores.items; line = r.line } };
}

fn first_core(number: u8, entry: u32) -> CoreState
    requires { number < 16 }
    ensures { result ≡ start_of number entry }
{
    CoreState::start(NodeId::numbered(number), entry)
}

/// The cores of the first nodes, each at the entry.
fn first_cores(alloc: Global, entry: u32, nodes: u8) -> Result<Vec<CoreState>, Memory>
    requires few { nodes ≤ 16 }
    ensures { IfOk result (λ cores. cores.items ≡ first_cores nodes entry) }
{
    let mut cores = Vec::with_capacity(alloc, usize::from(nodes))?;
    'nodes: for number in 0..nodes {
        let unreserved: Option<BlockNo> = None;
        let core = CoreState {
            reservation: unreserved,
            ..first_core(number, entry)
        };
        cores.push(core)?;
    }
    Ok(cores)
}

fn size_of(width: &Width) -> u8
    ensures { result ≡ bytes_of width.now }
{
    match width {
        Width::Byte => 1,
        Width::Half => 2,
        Width::Word => 4,
    }
}

/// Whether a store-conditional was done, as a field; empty at every other access.
fn done_text(operation: &Operation) -> &'static str
    ensures text { result.now ≡ done_field operation.now }
    ensures short { length result.now ≤ 1 }
{
    match operation {
        Operation::Sc(_) => "1",
        Operation::ScFail(_) => "0",
        _ => "",
    }
}

/// A value as a field.
fn write_value(line: &mut RowLine, width: &Width, value: Option<u32>)
    requires { length line.old + 9 ≤ ROW_ROOM }
    ensures text { line.new ≡ line.old ++ next_field (value_field width.now value) }
    ensures short { length line.new ≤ length line.old + 9 }
{
    line.text(",");
    if let Some(value) = value {
        line.value(*width, value);
    }
}

/// The fields of an access.
fn write_access(line: &mut RowLine, access: &Option<Access>)
    requires { length line.old + 33 ≤ ROW_ROOM }
    ensures text { line.new ≡ line.old ++ access_fields access.now }
    ensures short { length line.new ≤ length line.old + 33 }
{
    match access {
        None => line.text(",,,,,"),
        Some(access) => {
            line.text(",");
            line.word(access.address);
            line.text(",");
            line.small(size_of(&access.width));
            write_value(line, &access.width, access.operation.seen());
            write_value(line, &access.width, access.operation.written());
            line.text(",");
            line.text(done_text(&access.operation));
        }
    }
}

/// A row: its core, where that core stands, the word there, and the access.
#[tactic(auto, unfolding(crate::specs::Lines::row_line))]
fn write_row(line: &mut RowLine, core: NodeId, pc: u32, word: Option<u32>, access: &Option<Access>)
    ensures { line.new ≡ row_line (record { core = core; pc = pc; word = word; access = access.now }) }
{
    line.clear();
    line.small(core.number());
    line.text(",");
    line.word(pc);
    line.text(",");
    line.instruction(word);
    write_access(line, access);
    line.text("\n");
}

impl AccessRows {
    /// The cores of a program on so many nodes at its start, with all the memory that rows need.
    pub fn start(alloc: Global, image: &Image, nodes: u8) -> Result<AccessRows, Memory>
        requires few { nodes ≤ 16 }
        ensures { IfOk result (λ rows. rows.cores ≡ first_cores nodes image.now.entry) }
    {
        let cores = first_cores(alloc, image.entry(), nodes)?;
        let line = RowLine::new(alloc)?;
        Ok(AccessRows { cores, line })
    }

    /// Writes the line of a record, which its core does.
    pub fn write(&mut self, image: &Image, taken: &Record)
        requires core { taken.now.core < length self.old.cores }
        requires may { MayDo image.now (core_in self.old.cores taken.now.core) taken.now }
        ensures line { self.new.line ≡ row_line (access_row image.now (core_in self.old.cores taken.now.core) taken.now) }
        ensures cores { self.new.cores ≡ cores_after image.now self.old.cores taken.now }
    {
        let node = usize::from(taken.core.number());
        let mut core = self.cores[node];
        let pc = core.pc;
        let word = image.fetch(pc);
        let access = do_record(&mut core, image, taken);
        write_row(&mut self.line, taken.core, pc, word, &access);
        self.cores[node] = core;
    }

    /// The line that was written last.
    pub fn line(&self) -> &[u8]
        ensures { result.now ≡ self.now.line }
    {
        self.line.bytes()
    }

    /// Puts the lines of records, each in a piece of its own.
    fn put_rows<R: Sink>(
        &mut self,
        image: &Image,
        records: &[Record],
        report: &mut R,
    ) -> Result<(), Failed>
        requires { AreGood image.now self.old.cores records.now }
        ensures ok { OnOk result ((c : Option (List ℕ)) → ends c (R.written report.new) ≡ after (ends c (R.written report.old))
            (row_pieces (access_rows_from image.now (core_in self.old.cores) records.now))) }
        ensures err { OnErr result ((c : Option (List ℕ)) →
            Breaks (row_pieces (access_rows_from image.now (core_in self.old.cores) records.now))
            (ends c (R.written report.old)) (ends c (R.written report.new))) }
        ensures later { R.faults report.old ≤ R.faults report.new }
        ensures cause { OnErr result (Rose (R.faults report.old) (R.faults report.new)) }
    {
        'records: for taken in records {
            self.write(image, taken);
            put_report(report, self.line())?;
        }
        Ok(())
    }

    /// Puts the header and then the lines of a trace, each in a piece of its own. It takes no memory.
    pub fn put<R: Sink>(
        &mut self,
        image: &Image,
        nodes: u8,
        records: &[Record],
        report: &mut R,
    ) -> Result<(), Failed>
        requires start { self.old.cores ≡ first_cores nodes image.now.entry }
        requires execution { IsExecution image.now nodes records.now }
        ensures ok { OnOk result ((c : Option (List ℕ)) → ends c (R.written report.new) ≡ after (ends c (R.written report.old))
            (access_pieces (access_rows_of image.now nodes records.now))) }
        ensures err { OnErr result ((c : Option (List ℕ)) → Breaks (access_pieces (access_rows_of image.now nodes records.now))
            (ends c (R.written report.old)) (ends c (R.written report.new))) }
        ensures later { R.faults report.old ≤ R.faults report.new }
        ensures cause { OnErr result (Rose (R.faults report.old) (R.faults report.new)) }
    {
        put_header(report)?;
        self.put_rows(image, records, report)?;
        Ok(())
    }
}

/// Puts the names of the fields.
#[tactic(auto, unfolding(crate::specs::Lines::header_line))]
fn put_header<R: Sink>(report: &mut R) -> Result<(), Failed>
    ensures ok { OnOk result ((c : Option (List ℕ)) → ends c (R.written report.new) ≡ after (ends c (R.written report.old))
        (Report header_line ∷ [])) }
    ensures err { OnErr result ((c : Option (List ℕ)) → Breaks (Report header_line ∷ [])
        (ends c (R.written report.old)) (ends c (R.written report.new))) }
    ensures later { R.faults report.old ≤ R.faults report.new }
    ensures cause { OnErr result (Rose (R.faults report.old) (R.faults report.new)) }
{
    put_report(
        report,
        b"core,pc,instruction,address,size,read,written,done\n",
    )
}
