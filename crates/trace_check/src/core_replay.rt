//! One core's records, replayed by themselves, up to the first record of a core that isn't there.
ghost use Rattle.std.specs.Prelude.{◌≡◌, ℕ, ◌<◌, ◌≤◌, ◌↔◌, ◌++◌, [], ◌∷◌, List, true, false, is_some, length, take, IfOk, IfSome};
ghost use Rattle.std.specs.Prelude.{IsSome, IsTrue};
ghost use Rattle.sn_base.specs.Image.{word_fetched};
ghost use Rattle.rv_decode.specs.Table.{instr_fits};
ghost use Rattle.rv_core.specs.Core.{start_of, is_running, is_input, holds_reservation};
ghost use Rattle.rv_core.specs.Step.{want_of, next_of, instruction_of};
ghost use Rattle.rv_core.specs.Wanted.{IsInside};
ghost use Rattle.sn_consistency.specs.Projections.{Replays, core_step};
ghost use Rattle.projection_places.specs.Passes.{Passes};
ghost use Rattle.trace_check.specs.TaggedEffects.{reads_memory, MayDo, effect_of, core_effects};
ghost use Rattle.trace_check.specs.EffectData.{EffectData};
ghost use Rattle.trace_check.specs.Slots.{IsPassed};
ghost use Rattle.trace_check.specs.Tags.{KeepsNone, AreKept};

use crate::memory_effect::MemoryEffect;
use crate::tagged_effects::TaggedEffects;
use rv_core::{Cause, CoreState, End, Record, Want};
use rv_decode::Instr;
use sn_base::{BlockNo, Image, Memory, NodeId};

/// How many records the core passes, from the first on, and what its own among them do, which is put into `tagged` for so
/// many parts of the blocks.
pub fn replay(
    image: &Image,
    nodes: u8,
    core: NodeId,
    parts: u16,
    records: &[Record],
    tagged: &mut TaggedEffects,
) -> Result<usize, Memory>
    requires inside { core < nodes }
    requires parts { 0 < parts }
    requires few { parts ≤ 16 }
    requires fresh { KeepsNone tagged.old }
    ensures passed { IfOk result (λ p. Passes (IsPassed image.now nodes core records.now) (length records.now) p) }
    ensures tagged { IfOk result (λ p. AreKept parts (core_effects image.now core (start_of core image.now.entry) (take p records.now)) tagged.new) }
{
    let mut state = CoreState::start(core, image.entry());
    'records: for place in 0..records.len() {
        if !replay_record(
            image,
            nodes,
            core,
            parts,
            &mut state,
            &records[place],
            tagged,
        )? {
            return Ok(place);
        }
    }
    Ok(records.len())
}

/// Whether the core passes the record, which it does where the record is that of another core that is there.
fn replay_record(
    image: &Image,
    nodes: u8,
    core: NodeId,
    parts: u16,
    state: &mut CoreState,
    taken: &Record,
    tagged: &mut TaggedEffects,
) -> Result<bool, Memory>
    requires inside { core < nodes }
    requires parts { 0 < parts }
    requires few { parts ≤ 16 }
    ensures good { IfOk result (λ good. IsTrue good ↔ ((taken.now.core < nodes) × (core ≡ taken.now.core →
        Replays image.now nodes state.old taken.now))) }
    ensures state { IfOk result (λ good. good ≡ true → state.new ≡ core_step image.now core state.old taken.now) }
    ensures tagged { IfOk result (λ good. good ≡ true → (did : List EffectData) → AreKept parts did tagged.old →
        AreKept parts (did ++ core_effects image.now core state.old (taken.now ∷ [])) tagged.new) }
    ensures kept { IfOk result (λ good. good ≡ false → tagged.new ≡ tagged.old) }
{
    if taken.core != core {
        return Ok(taken.core.number() < nodes);
    }
    let Some(step) = may_do(image, state, taken) else {
        return Ok(false);
    };
    let effect = take(image, state, step, taken);
    tagged.push(effect, parts)?;
    Ok(true)
}

/// A core's next instruction, or why there is none, and what it wants.
#[derive(Clone, Copy)]
struct Step {
    instruction: Result<Instr, Cause>,
    want: Want,
}

/// The core's next step, where it may have done the record by itself.
fn may_do(image: &Image, state: &CoreState, taken: &Record) -> Option<Step>
    ensures some { IsSome result ↔ ((is_running state.now.end ≡ true) × MayDo state.now (want_of image.now state.now) taken.now) }
    ensures want { IfSome result (λ step. step.want ≡ want_of image.now state.now) }
    ensures instruction { IfSome result (λ step. step.instruction ≡ instruction_of (word_fetched image.now.segments state.now.pc)) }
    ensures fits { IfSome result (λ step. IfOk step.instruction (λ instr. instr_fits instr ≡ true)) }
{
    if state.end != End::Running {
        return None;
    }
    let step = next_step(image, state);
    if !agrees(state, step.want, taken) {
        return None;
    }
    Some(step)
}

/// The step of the next instruction, which is fetched and decoded here alone.
#[tactic(auto, unfolding(rv_core::specs::Step::want_of))]
fn next_step(image: &Image, state: &CoreState) -> Step
    requires { is_running state.now.end ≡ true }
    ensures want { result.want ≡ want_of image.now state.now }
    ensures instruction { result.instruction ≡ instruction_of (word_fetched image.now.segments state.now.pc) }
    ensures fits { IfOk result.instruction (λ instr. instr_fits instr ≡ true) }
{
    let instruction = state.instruction(image);
    let want = state.want_by(image, instruction);
    Step { instruction, want }
}

fn agrees(state: &CoreState, want: Want, taken: &Record) -> bool
    requires { IsInside want }
    ensures { IsTrue result ↔ MayDo state.now want taken.now }
{
    (reads_memory(want) || taken.seen == 0)
        && (!taken.sc_done || holds(state, want))
        && taken.read.is_some() == (want == Want::Input)
}

fn reads_memory(want: Want) -> bool
    ensures { result ≡ reads_memory want }
{
    match want {
        Want::Load(_) | Want::Amo(_) | Want::Lr(_) => true,
        Want::Nothing | Want::Store(_) | Want::Sc(_) | Want::Input => false,
    }
}

/// Whether the core wants to do a store-conditional on the block that it has reserved.
fn holds(state: &CoreState, want: Want) -> bool
    requires { IsInside want }
    ensures { result ≡ holds_reservation state.now want }
{
    match want {
        Want::Sc(address) => {
            state.reservation.is_some() && state.reservation == BlockNo::of(address)
        }
        _ => false,
    }
}

/// Does the record's step.
#[tactic(auto, unfolding(rv_core::specs::Step::want_of, rv_core::specs::Step::next_of))]
fn take(image: &Image, state: &mut CoreState, step: Step, taken: &Record) -> MemoryEffect
    requires want { step.want ≡ want_of image.now state.old }
    requires instruction { step.instruction ≡ instruction_of (word_fetched image.now.segments state.old.pc) }
    requires fits { IfOk step.instruction (λ instr. instr_fits instr ≡ true) }
    requires running { is_running state.old.end ≡ true }
    requires may { MayDo state.old (want_of image.now state.old) taken.now }
    ensures effect { result ≡ effect_of image.now state.old taken.now }
    ensures state { state.new ≡ (next_of image.now state.old taken.now.seen taken.now.sc_done taken.now.read).core }
{
    let effect = state.finish_by(
        image,
        step.instruction,
        taken.seen,
        taken.sc_done,
        taken.read,
    );
    MemoryEffect::new(step.want, effect.write)
}
