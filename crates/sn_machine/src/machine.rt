//! The machine: its program and sizes, its parts, and the life that it has.
ghost use Rattle.std.specs.Prelude.{◌≡◌, ◌+◌, ◌≤◌, max, true, List, [], ◌∷◌, ◌++◌, length, IfOk, OnOk, OnErr};
ghost use Rattle.sn_base.specs.Config.{config_fits};
ghost use Rattle.sn_base.specs.Events.{event_fits};
ghost use Rattle.sn_base.specs.declared.event.Event.{Event};
ghost use Rattle.rv_core.specs.Execution.{end_of};
ghost use Rattle.sn_saved.specs.Resumed.{resumed};
ghost use Rattle.sn_saved.specs.Saved.{IsAccepted};
ghost use Rattle.sn_model.specs.Refusals.{is_refusal};
ghost use Rattle.consistent_cuts.specs.Headline.{IsStepOfRun};
ghost use Rattle.consistent_cuts.specs.Origins.{Origin, Resumed};
ghost use Rattle.sn_machine.specs.Machine.{IsApplied, HasRun, HasRunFrom, IsConsistentWithItsRun, machine_with_room, next_of};
ghost use Rattle.sn_machine.specs.Resumed.{saved_by};

use crate::hardware::Hardware;
use crate::view::View;
use rv_core::Record;
use sn_base::{Answer, BlockNo, Config, Event, Image, Memory, NodeId};
use sn_flat::Flat;
use sn_model::Sent;
use sn_saved::Marks;
use std::alloc::Global;
use std::marker::Model;

/// A machine. Contracts see its program, its sizes, its state, what the last event sent, how many events were applied to it
/// and for how many more it has room.
pub struct Machine {
    pub(crate) image: Image,
    pub(crate) config: Config,
    pub(crate) hardware: Hardware,
    applied: u32,
    spare: u32,
}

impl Model for Machine {
    ghost use Rattle.sn_machine.specs.Invariant.{IsMachine};
    ghost use Rattle.sn_machine.specs.Machine.{MachineData};
    ghost use Rattle.sn_machine.specs.Parts.{state_of, sent_of};

    ghost Value = { MachineData };

    ghost view = { λ m. record {
      image = m.image;
      config = m.config;
      state = state_of m.hardware;
      sent = sent_of m.hardware;
      applied = m.applied;
      spare = m.spare;
    } };

    ghost invariant = { λ m. IsMachine m.image m.config m.hardware m.applied m.spare };
}

// Written here, so that it is proved here: a derived one is proved anew in each crate that lets a machine go.
impl Drop for Machine {
    fn drop(self) {
        let Machine {
            image: _,
            config: _,
            hardware: _,
            applied: _,
            spare: _,
        } = self;
    }
}

impl Machine {
    /// A machine of these sizes at the start of a program, with room for no event.
    pub fn new(alloc: Global, image: Image, config: Config) -> Result<Machine, Memory>
        requires fits { config_fits config ≡ true }
        ensures start { IfOk result (λ m. m ≡ machine_with_room image config 0) }
        ensures led { IfOk result (λ m. HasRun m []) }
    {
        let hardware = Hardware::new(alloc, &image, config)?;
        Ok(Machine {
            image,
            config,
            hardware,
            applied: 0,
            spare: 0,
        })
    }

    /// A machine of these sizes at the start of a program, with room for so many events.
    pub fn with_room(
        alloc: Global,
        image: Image,
        config: Config,
        events: u32,
    ) -> Result<Machine, Memory>
        requires fits { config_fits config ≡ true }
        requires few { events ≤ 4000000000 }
        ensures start { IfOk result (λ m. m ≡ machine_with_room image config events) }
        ensures led { IfOk result (λ m. HasRun m []) }
    {
        let mut machine = Machine::new(alloc, image, config)?;
        match machine.reserve(events) {
            Ok(()) => Ok(machine),
            Err(_) => {
                drop(machine);
                Err(Memory)
            }
        }
    }

    /// A machine that goes on from a recovery point, with room for no event. What is said of the point must be what a machine
    /// may go on from, and `flat` the flat machine after the records.
    pub fn at_cut(
        alloc: Global,
        image: Image,
        config: Config,
        flat: &Flat,
        records: &[Record],
        owners: &[(BlockNo, NodeId)],
        given: &[(NodeId, u8)],
        marks: Marks,
    ) -> Result<Machine, Memory>
        requires accepted { IsAccepted image (saved_by config marks owners.now given.now records.now) }
        requires flat { flat.now ≡ end_of image config.nodes records.now }
        ensures resumed { IfOk result (λ m. m ≡ record {
          image = image;
          config = config;
          state = resumed image (saved_by config marks owners.now given.now records.now);
          sent = [];
          applied = marks.applied;
          spare = 0;
        }) }
        ensures led { IfOk result (λ m. HasRunFrom m (Resumed (saved_by config marks owners.now given.now records.now)) []) }
    {
        let applied = marks.applied;
        let hardware = Hardware::at_cut(
            alloc, &image, config, flat, records, owners, given, marks,
        )?;
        Ok(Machine {
            image,
            config,
            hardware,
            applied,
            spare: 0,
        })
    }

    /// Makes room for at least so many more events; a machine takes 4,000,000,000 in its life.
    pub fn reserve(&mut self, events: u32) -> Result<(), Memory>
        requires { self.old.applied + events ≤ 4000000000 }
        ensures ok { OnOk result (self.new ≡ record self.old { spare = max self.old.spare events }) }
        ensures err { OnErr result (self.new ≡ self.old) }
    {
        self.hardware.reserve(events)?;
        self.spare = self.spare.max(events);
        Ok(())
    }

    /// For how many more events there is room.
    pub fn spare(&self) -> u32
        ensures { result ≡ self.now.spare }
    {
        self.spare
    }

    /// How many events were applied, refused ones too.
    pub fn applied(&self) -> u32
        ensures same { result ≡ self.now.applied }
        ensures fits { result + self.now.spare ≤ 4000000000 }
    {
        self.applied
    }

    /// The answer that `apply` would give now.
    pub fn foresee(&self, event: Event) -> Answer
        requires fits { event_fits self.now.config.nodes event ≡ true }
        ensures { result ≡ (next_of self.now event).answer }
    {
        self.hardware.foresee(&self.image, event)
    }

    /// Applies an event. It takes no memory, and an event that is refused leaves the machine as it was but for the count of
    /// events.
    pub fn apply(&mut self, event: Event) -> Answer
        requires fits { event_fits self.old.config.nodes event ≡ true }
        requires room { 1 ≤ self.old.spare }
        ensures applied { IsApplied self.old self.new event result }
        ensures led { (origin : Origin) (events : List Event) → HasRunFrom self.old origin events →
            HasRunFrom self.new origin (events ++ event ∷ []) }
        ensures run { IsStepOfRun self.old.image self.old.config self.old.state event (next_of self.old event) }
        ensures refused { is_refusal result ≡ true → self.new.state ≡ self.old.state }
    {
        let answer = self.hardware.apply(&self.image, event);
        self.applied += 1;
        self.spare -= 1;
        answer
    }

    /// The messages that the last event sent, in order of their numbers.
    pub fn sent(&self) -> &[Sent]
        ensures same { result.now ≡ self.now.sent }
        ensures few { length result.now ≤ 17 }
    {
        self.hardware.sent()
    }

    /// The program.
    pub fn image(&self) -> &Image
        ensures { result.now ≡ self.now.image }
    {
        &self.image
    }

    /// The sizes.
    pub fn config(&self) -> &Config
        ensures same { result.now ≡ self.now.config }
        ensures fits { config_fits self.now.config ≡ true }
    {
        &self.config
    }

    /// The cut at the recovery point.
    pub fn recovered(&self) -> View<'_>
        ensures shown { result ≡ self.now }
        ensures consistent { IsConsistentWithItsRun self.now }
    {
        // For the prover alone: the program's invariant.
        let _ = &self.image;
        View { machine: self }
    }
}
