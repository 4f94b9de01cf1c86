//! What was read so far of a save file, and what its next line adds.
ghost use Rattle.std.specs.Prelude.{◌≡◌, ◌+◌, ◌<◌, ◌≤◌, true, false, Ok, OnOk, IfOk, IfErr, IfSome, MatchOption, nat_le, ◌&&◌, length};
ghost use Rattle.sn_base.specs.Config.{config_fits};
ghost use Rattle.sn_saved.specs.Saved.{marks_fit};
ghost use Rattle.save_text.specs.Parts.{rank_of};
ghost use Rattle.sn_text.specs.Script.{after};
ghost use Rattle.save_text.specs.Reading.{Reading, top, head_read, config_read, marks_read, least_of, may_add, dead_read, owner_read};
ghost use Rattle.save_text.specs.Reading.{given_read, record_read, is_of, body_read, next_read, is_ended};
ghost use Rattle.save_text.specs.Faults.{IsFaultOf};

use crate::head::{config_in, marks_in};
use crate::part::Part;
use crate::saved::Saved;
use crate::words::{given_in, owner_in};
use route_plan::Dead;
use rv_core::Record;
use sn_base::{BlockNo, Config, NodeId, SwitchId};
use sn_saved::Marks;
use sn_text::{Fault, record_in, rest_after, switch_in};
use std::alloc::Global;
use std::marker::Model;

/// The most records, and the most bytes given.
const MOST_SAVED: u64 = 1_000_000;

/// Why a line adds nothing: it is refused, or memory is lacking.
#[derive(Clone, Copy, PartialEq, Eq, Debug)]
pub enum LineFault {
    Refused(Fault),
    Memory,
}

/// Contracts see what was read, the part of the last line, and the least number with which the next line of that part may
/// begin.
#[derive(Drop)]
pub struct Reading {
    saved: Saved,
    part: Part,
    least: u32,
}

impl Model for Reading {
    ghost use Rattle.save_text.specs.Reading.{Reading};
    ghost use Rattle.save_text.specs.SoFar.{IsSoFar};

    ghost Value = { Reading };

    ghost view = { λ r. record { saved = r.saved; part = r.part; least = r.least } };

    ghost invariant = { λ r. IsSoFar (record { saved = r.saved; part = r.part; least = r.least }) };
}

impl Reading {
    /// Nothing is read yet.
    pub fn new(alloc: Global) -> Reading
        ensures { result ≡ top }
    {
        let config = Config {
            nodes: 0,
            sets: 0,
            ways: 0,
            log: 0,
        };
        let marks = Marks {
            point: 0,
            next_id: 0,
            applied: 0,
            dead: Dead::none(),
        };
        Reading {
            saved: Saved {
                config,
                marks,
                owners: Vec::new(alloc),
                given: Vec::new(alloc),
                committed: Vec::new(alloc),
            },
            part: Part::Top,
            least: 0,
        }
    }

    /// The least number with which a line of a part may begin.
    fn least_of(&self, part: Part) -> u32
        ensures { result ≡ least_of self.now part }
    {
        if self.part.rank() == part.rank() {
            self.least
        } else {
            0
        }
    }

    /// Whether a line of a part may begin with this number.
    fn is_in_order(&self, part: Part, number: u32) -> bool
        ensures { result ≡ nat_le (least_of self.now part) number }
    {
        self.least_of(part) <= number
    }

    /// Whether a list of so many may have one more.
    fn may_add(&self, count: usize) -> bool
        ensures { result ≡ may_add self.now count }
    {
        (count as u64) < MOST_SAVED.min(u64::from(self.saved.marks.applied))
    }

    /// Whether a byte may be given to a node next.
    fn may_give(&self, node: u32) -> bool
        ensures { result ≡ (nat_le (least_of self.now Part.Given) node && may_add self.now (length self.now.saved.given)) }
    {
        self.is_in_order(Part::Given, node) && self.may_add(self.saved.given.len())
    }

    fn read_dead(&mut self, switch: Result<SwitchId, Fault>) -> Result<(), LineFault>
        requires begun { 3 ≤ rank_of self.old.part }
        ensures ok { OnOk result (dead_read self.old switch ≡ Ok self.new) }
        ensures refused { IfErr result (IsFaultOf (dead_read self.old switch)) }
    {
        let switch = switch.map_err(LineFault::Refused)?;
        if self.saved.marks.applied == 0
            || !self.is_in_order(Part::Dead, u32::from(switch.number()))
        {
            return Err(LineFault::Refused(Fault::NotThere));
        }
        self.saved.marks.dead = self.saved.marks.dead.with(switch);
        self.part = Part::Dead;
        self.least = u32::from(switch.number()) + 1;
        Ok(())
    }

    fn read_owner(&mut self, owner: Result<(BlockNo, NodeId), Fault>) -> Result<(), LineFault>
        requires begun { 3 ≤ rank_of self.old.part }
        ensures ok { OnOk result (owner_read self.old owner ≡ Ok self.new) }
        ensures refused { IfErr result (IsFaultOf (owner_read self.old owner)) }
    {
        let (block, node) = owner.map_err(LineFault::Refused)?;
        if self.saved.marks.applied == 0
            || !self.is_in_order(Part::Owners, u32::from(block.number()))
        {
            return Err(LineFault::Refused(Fault::NotThere));
        }
        self.saved
            .owners
            .push((block, node))
            .map_err(|_| LineFault::Memory)?;
        self.part = Part::Owners;
        self.least = u32::from(block.number()) + 1;
        Ok(())
    }

    fn read_given(&mut self, byte: Result<(NodeId, u8), Fault>) -> Result<(), LineFault>
        requires begun { 3 ≤ rank_of self.old.part }
        ensures ok { OnOk result (given_read self.old byte ≡ Ok self.new) }
        ensures refused { IfErr result (IsFaultOf (given_read self.old byte)) }
    {
        let (node, byte) = byte.map_err(LineFault::Refused)?;
        if !self.may_give(u32::from(node.number())) {
            return Err(LineFault::Refused(Fault::NotThere));
        }
        self.saved
            .given
            .push((node, byte))
            .map_err(|_| LineFault::Memory)?;
        self.part = Part::Given;
        self.least = u32::from(node.number());
        Ok(())
    }

    fn read_record(&mut self, taken: Result<Record, Fault>) -> Result<(), LineFault>
        requires begun { 3 ≤ rank_of self.old.part }
        ensures ok { OnOk result (record_read self.old taken ≡ Ok self.new) }
        ensures refused { IfErr result (IsFaultOf (record_read self.old taken)) }
    {
        let taken = taken.map_err(LineFault::Refused)?;
        let count = self.saved.committed.len();
        if self.saved.marks.point == 0 || !self.may_add(count) {
            return Err(LineFault::Refused(Fault::NotThere));
        }
        self.saved
            .committed
            .push(taken)
            .map_err(|_| LineFault::Memory)?;
        self.part = Part::Committed;
        self.least = 0;
        Ok(())
    }

    fn read_head(&mut self, line: &[u8]) -> Result<(), LineFault>
        ensures ok { OnOk result (head_read self.old line.now ≡ Ok self.new) }
        ensures refused { IfErr result (IsFaultOf (head_read self.old line.now)) }
    {
        if line != b"safetynet-save 1".as_slice() {
            return Err(LineFault::Refused(Fault::NotOfForm));
        }
        self.part = Part::Head;
        Ok(())
    }

    fn read_config(&mut self, config: Result<Config, Fault>) -> Result<(), LineFault>
        requires fits { IfOk config (λ c. config_fits c ≡ true) }
        ensures ok { OnOk result (config_read self.old config ≡ Ok self.new) }
        ensures refused { IfErr result (IsFaultOf (config_read self.old config)) }
    {
        self.saved.config = config.map_err(LineFault::Refused)?;
        self.part = Part::Config;
        Ok(())
    }

    fn read_marks(&mut self, marks: Result<Marks, Fault>) -> Result<(), LineFault>
        requires part { self.old.part ≡ Part.Config }
        requires fit { IfOk marks (λ m. marks_fit m ≡ true) }
        ensures ok { OnOk result (marks_read self.old marks ≡ Ok self.new) }
        ensures refused { IfErr result (IsFaultOf (marks_read self.old marks)) }
    {
        self.saved.marks = marks.map_err(LineFault::Refused)?;
        self.part = Part::Marks;
        Ok(())
    }

    /// What stands after the word of a part that may follow.
    fn rest_of<'a>(&self, part: Part, word: &str, line: &'a [u8]) -> Option<&'a [u8]>
        ensures { MatchOption result (is_of self.now part word.now line.now ≡ false)
            (λ rest. (is_of self.now part word.now line.now ≡ true) × (rest.now ≡ after word.now line.now)) }
    {
        if self.part.rank() > part.rank() {
            return None;
        }
        rest_after(line, word)
    }

    #[tactic(auto, unfolding(crate::specs::Reading::body_read))]
    fn read_body(&mut self, line: &[u8]) -> Result<(), LineFault>
        requires begun { 3 ≤ rank_of self.old.part }
        ensures ok { OnOk result (body_read self.old line.now ≡ Ok self.new) }
        ensures refused { IfErr result (IsFaultOf (body_read self.old line.now)) }
    {
        let nodes = self.saved.config.nodes;
        if let Some(rest) = self.rest_of(Part::Dead, "dead ", line) {
            self.read_dead(switch_in(nodes, rest))
        } else if let Some(rest) = self.rest_of(Part::Owners, "owner ", line) {
            self.read_owner(owner_in(nodes, rest))
        } else if let Some(rest) = self.rest_of(Part::Given, "given ", line) {
            self.read_given(given_in(nodes, rest))
        } else if let Some(rest) = self.rest_of(Part::Committed, "rec ", line) {
            self.read_record(record_in(nodes, rest))
        } else if line == b"end".as_slice() && self.part.rank() < Part::End.rank() {
            self.part = Part::End;
            Ok(())
        } else {
            Err(LineFault::Refused(Fault::NotOfForm))
        }
    }

    /// Reads the next line, which an LF ended. What is refused says nothing of what was read before it.
    #[tactic(auto, unfolding(crate::specs::Reading::next_read))]
    pub fn read(&mut self, line: &[u8]) -> Result<(), LineFault>
        ensures ok { OnOk result (next_read self.old line.now ≡ Ok self.new) }
        ensures refused { IfErr result (IsFaultOf (next_read self.old line.now)) }
    {
        match self.part {
            Part::Top => self.read_head(line),
            Part::Head => self.read_config(config_in(line)),
            Part::Config => self.read_marks(marks_in(line)),
            _ => self.read_body(line),
        }
    }

    /// What was read, where its last line was the end and nothing stands behind that.
    pub fn close(self, rest: &[u8]) -> Option<Saved>
        ensures ended { MatchOption result (is_ended self.part rest.now ≡ false)
            (λ saved. (is_ended self.part rest.now ≡ true) × (saved ≡ self.saved)) }
        ensures fits { IfSome result (λ saved. config_fits saved.config ≡ true) }
        ensures numbers { IfSome result (λ saved. marks_fit saved.marks ≡ true) }
    {
        if self.part.rank() == Part::End.rank() && rest.is_empty() {
            Some(self.saved)
        } else {
            None
        }
    }
}
