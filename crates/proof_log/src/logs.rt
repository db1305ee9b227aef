// Logs.
ghost use Rattle.std.specs.Prelude.{◌≡◌, ◌-◌, ◌<◌, [], ◌∷◌, ◌++◌, All, OnOk, OnErr, max};
ghost use Rattle.proof_log.specs.Steps.{IsStep};

use crate::steps::Step;
use std::alloc::{AllocError, Global};
use std::marker::Model;

/// The steps of a search, in the order in which they were made, and room for further ones.
///
/// Contracts see it as `LogView` of `specs/Steps.antt`: its steps, the oldest first, and for how many more there is room.
#[derive(Drop)]
pub struct Log {
    steps: Vec<Step>,
    room: usize,
}

impl Model for Log {
    ghost use Rattle.std.specs.Prelude.{length, vec_capacity};
    ghost use Rattle.proof_log.specs.Steps.{HoldsLog, LogView};

    ghost Value = { LogView };

    ghost view = { λ l. record { steps = l.steps.items; room = l.room } };

    ghost invariant = { λ l. HoldsLog l.steps.items l.room (vec_capacity l.steps) };
}

impl Log {
    /// The log without steps and without room.
    pub fn new(alloc: Global) -> Self
        ensures { result ≡ record { steps = []; room = 0 } }
    {
        Log {
            steps: Vec::new(alloc),
            room: 0,
        }
    }

    /// Its steps, the oldest first.
    pub fn steps(&self) -> &[Step]
        ensures value { result.now ≡ self.now.steps }
        ensures steps { All IsStep self.now.steps }
    {
        self.steps.as_slice()
    }

    /// Makes room for so many steps, unless there is. Only memory can run out, and then nothing changes.
    pub fn reserve(&mut self, steps: usize) -> Result<(), AllocError>
        ensures ok { OnOk result (self.new ≡ record self.old { room = max steps self.old.room }) }
        ensures err { OnErr result (self.new ≡ self.old) }
    {
        if steps <= self.room {
            return Ok(());
        }
        self.steps.reserve(steps)?;
        self.room = steps;
        Ok(())
    }

    /// Puts a step behind the others. The room that there is stays. Only memory can run out, and then nothing changes.
    pub fn push(&mut self, step: Step) -> Result<(), AllocError>
        requires { IsStep step }
        ensures ok { OnOk result (self.new ≡ record self.old { steps = self.old.steps ++ step ∷ [] }) }
        ensures err { OnErr result (self.new ≡ self.old) }
    {
        self.steps.reserve(self.room + 1)?;
        self.steps.push_reserved(step);
        Ok(())
    }

    /// Puts a step behind the others into the room that there is. It takes no memory.
    pub fn push_reserved(&mut self, step: Step)
        requires step { IsStep step }
        requires room { 0 < self.old.room }
        ensures { self.new ≡ record { steps = self.old.steps ++ step ∷ []; room = self.old.room - 1 } }
    {
        self.steps.push_reserved(step);
        self.room -= 1;
    }
}
