//! A machine and its driver, whose turns publish.
ghost use Rattle.std.specs.Prelude.{◌≡◌, ◌+◌, ◌^◌, ◌<◌, ◌≤◌, length, [], ◌∷◌, ◌++◌, IfOk, IfErr};
ghost use Rattle.sn_model.specs.Machine.{start_of};
ghost use Rattle.due_events.specs.Numbers.{first_numbers};
ghost use Rattle.sn_driver.specs.Turns.{due_at};
ghost use Rattle.snap_board.specs.Fronts.{EndsIn};
ghost use Rattle.snap_board.specs.Snap.{SnapData};
ghost use Rattle.sn_monitor.specs.Cut.{snap_now};
ghost use Rattle.sn_monitor.specs.Goes.{IsWatchable};
ghost use Rattle.sn_monitor.specs.Monitored.{Shows, IsTurn, first_monitored, is_validation};

use crate::cut::snap_of;
use sn_base::{Answer, Event, Memory};
use sn_driver::{Driver, Turn};
use sn_machine::Machine;
use snap_board::{Board, Receipt, Watcher};
use std::alloc::Global;
use std::marker::Model;
use std::sync::Wait;

/// What a turn published.
#[derive(Clone, Copy, PartialEq, Eq, Debug)]
pub enum Published {
    /// Nothing was validated.
    Nothing,
    /// The snapshot of the new cut.
    New,
    /// Something was validated, and memory was lacking: the snapshot wasn't published.
    Memory,
}

/// Memory was lacking: both as they were.
#[derive(Drop)]
pub struct MonitorRefused {
    pub machine: Machine,
    pub driver: Driver,
}

/// A machine that is monitored. It is let go by `end`.
pub struct Monitored {
    machine: Machine,
    driver: Driver,
    watch: u32,
    board: Board,
}

impl Model for Monitored {
    ghost use Rattle.sn_monitor.specs.Goes.{Goes, IsWatchable};
    ghost use Rattle.sn_monitor.specs.Monitored.{MonitoredData};

    ghost Value = { MonitoredData };

    ghost view = { λ m. record {
      machine = m.machine;
      driver = m.driver;
      watch = m.watch;
      board = m.board.board;
      published = m.board.published;
    } };

    ghost invariant = { λ m. Goes m.machine m.driver m.board.published × IsWatchable m.watch };
}

// Whether a turn did a validation.
fn is_validation(turn: &Turn) -> bool
    ensures { result ≡ is_validation turn.now }
{
    match turn {
        Turn::Did(_, Answer::Validated(_)) => true,
        _ => false,
    }
}

// Publishes the snapshot of the cut at the recovery point, which is above what was published.
fn publish(rt: &impl Wait, board: &mut Board, machine: &Machine, watch: u32) -> Published
    requires watched { IsWatchable watch }
    requires few { length machine.now.state.committed < 2 ^ 32 }
    requires below { (s : SnapData) → EndsIn board.old.published s → s.point < machine.now.state.fabric.point }
    ensures shows { Shows result board.old.published (snap_now machine.now watch) board.new.published }
    ensures same { board.new.board ≡ board.old.board }
{
    match board.show(rt, snap_of(machine, watch)) {
        Ok(()) => Published::New,
        Err(Memory) => Published::Memory,
    }
}

impl Monitored {
    /// Publishes the start's snapshot. It waits only where the watcher's place isn't given at once.
    pub fn new(
        rt: &impl Wait,
        alloc: Global,
        machine: Machine,
        driver: Driver,
        watch: u32,
    ) -> Result<(Monitored, Watcher), MonitorRefused>
        requires fresh { (machine.applied ≡ 0) × (machine.state ≡ start_of machine.image machine.config.nodes) }
        requires nodes { driver.nodes ≡ machine.config.nodes }
        requires first { driver.numbers ≡ first_numbers }
        requires watched { IsWatchable watch }
        ensures ok { IfOk result (λ made. (made.0 ≡ first_monitored machine driver watch made.0.board)
            × (made.1 ≡ record { board = made.0.board; front = snap_now machine watch ∷ [] })) }
        ensures err { IfErr result (λ refused. (refused.machine ≡ machine) × (refused.driver ≡ driver)) }
    {
        // For the prover alone: how many events a machine's life has.
        let _life = machine.applied();
        match Board::new(rt, alloc, &snap_of(&machine, watch)) {
            Ok((board, watcher)) => Ok((
                Monitored {
                    machine,
                    driver,
                    watch,
                    board,
                },
                watcher,
            )),
            Err(Memory) => Err(MonitorRefused { machine, driver }),
        }
    }

    /// One turn of the driver. Where it validates, the snapshot of the new cut is published, which may wait for a watcher that is
    /// looking.
    pub fn turn(&mut self, rt: &impl Wait, worker: u32, pick: u32) -> (Turn, Published)
        requires room { 1 ≤ self.old.machine.spare }
        requires worker { worker < self.old.machine.config.nodes }
        ensures { IsTurn self.old worker pick result.0 result.1 self.new }
    {
        let Monitored {
            machine,
            driver,
            watch,
            board,
        } = self;
        let turn = driver.turn(machine, worker, pick);
        let published = if is_validation(&turn) {
            publish(rt, board, machine, *watch)
        } else {
            Published::Nothing
        };
        (turn, published)
    }

    /// What names the list that is published so far.
    pub fn receipt(&mut self) -> Receipt
        ensures names { result ≡ record { board = self.old.board; list = self.old.published } }
        ensures same { self.new ≡ self.old }
    {
        self.board.receipt()
    }

    /// The event that a turn would do. None where the machine is over or a recovery found nodes cut off.
    pub fn due(&self, worker: u32, pick: u32) -> Option<Event>
        requires room { 1 ≤ self.now.machine.spare }
        requires worker { worker < self.now.machine.config.nodes }
        ensures { result ≡ due_at self.now.driver self.now.machine worker pick }
    {
        self.driver.due(&self.machine, worker, pick)
    }

    /// For how many more events the machine has room.
    pub fn spare(&self) -> u32
        ensures { result ≡ self.now.machine.spare }
    {
        self.machine.spare()
    }

    /// The machine as it stands. It may wait for a watcher that is looking, and nothing is shown any more.
    pub fn end(self, rt: &impl Wait) -> Machine
        ensures { result ≡ self.machine }
    {
        let Monitored {
            machine,
            driver: _driver,
            watch: _watch,
            board,
        } = self;
        board.end(rt);
        machine
    }
}
