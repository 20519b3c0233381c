//! The record of an abort signal.
ghost use Rattle.std.specs.Prelude.{◌≡◌, ◌≤◌, ◌++◌, length, IsOk, OnErr, OnOk};
ghost use Rattle.ws_pipe.specs.Seen.{HasMemberRoom, aborts_of, has_room};
ghost use Rattle.ws_promise.specs.Seen.{HasEffectRoom};
ghost use Rattle.ws_steps.specs.Operations.{signal_operation};
ghost use Rattle.ws_steps.specs.Pipes as rows;
ghost use Rattle.ws_steps.specs.Places.{own_signal, members_alone};

use std::alloc::Global;
use std::marker::Model;
use ws_promise::Agenda;
use ws_steps::{Effect, PipeOperation, SignalOperation};
use ws_value::{NoMemory, PipeId, Plain};

/// Aborts pipes with a reason, in order.
fn abort_all(pipes: &[PipeId], fx: &mut Agenda, reason: Plain)
    requires effect_room { HasEffectRoom (length pipes.now) fx.old }
    ensures { fx.new ≡ record fx.old { effects = fx.old.effects ++ rows.abort_all reason pipes.now } }
{
    for pipe in pipes {
        fx.push(Effect::Pipe(*pipe, PipeOperation::Abort(reason)));
    }
}

/// An abort signal. It is seen as its slots, with the places that there are for pipes.
#[derive(Drop)]
pub struct Signal {
    reason: Option<Plain>,
    /// The pipes that it aborts, in the order in which they were added.
    pipes: Vec<PipeId>,
}

impl Model for Signal {
    ghost use Rattle.std.specs.Prelude.{vec_capacity};
    ghost use Rattle.ws_pipe.specs.Seen.{SeenSignal};

    ghost Value = { SeenSignal };

    ghost view = { λ x. record {
      signal = record { reason = x.reason; pipes = x.pipes.items };
      room = vec_capacity x.pipes;
    } };
}

impl Signal {
    /// A new signal, which wasn't triggered and has no pipes. Places are made by `reserve`.
    pub fn make(alloc: Global) -> Signal
        ensures { result.signal ≡ rows.new_signal }
    {
        Signal {
            reason: None,
            pipes: Vec::new(alloc),
        }
    }

    /// The reason with which it was triggered, where it was.
    pub fn reason(&self) -> Option<Plain>
        ensures { result ≡ self.now.signal.reason }
    {
        self.reason
    }

    /// Whether there is a place for one pipe more.
    pub fn has_room(&self) -> bool
        ensures { result ≡ has_room self.now }
    {
        self.pipes.len() < self.pipes.capacity()
    }

    /// How many pipes a trigger aborts.
    pub fn aborts(&self) -> usize
        ensures { result ≡ aborts_of self.now.signal }
    {
        match self.reason {
            None => self.pipes.len(),
            Some(_) => 0,
        }
    }

    /// Makes places for `n` more pipes.
    pub fn reserve(&mut self, n: usize) -> Result<(), NoMemory>
        ensures ok { OnOk result (HasMemberRoom n self.new) }
        ensures signal { self.new.signal ≡ self.old.signal }
        ensures grows { self.old.room ≤ self.new.room }
        ensures err { OnErr result (self.new ≡ self.old) }
        ensures ready { HasMemberRoom n self.old → (IsOk result) × (self.new ≡ self.old) }
    {
        if n <= self.pipes.capacity() - self.pipes.len() {
            return Ok(());
        }
        self.pipes.reserve(n)?;
        Ok(())
    }

    /// A pipe is to be aborted by it.
    pub fn add(&mut self, pipe: PipeId)
        requires room { HasMemberRoom 1 self.old }
        ensures { self.new ≡ record self.old { signal = (rows.add_pipe pipe self.old.signal).signal } }
    {
        self.pipes.push_reserved(pipe);
    }

    /// Forgets a pipe, which is over.
    pub fn forget(&mut self, pipe: PipeId)
        ensures { self.new ≡ record self.old { signal = (rows.forget_pipe pipe self.old.signal).signal } }
    {
        self.pipes.retain(|member| pipe.0 != member.0);
    }

    /// Aborts the signal's pipes in order, where it wasn't triggered before.
    pub fn trigger(&mut self, fx: &mut Agenda, reason: Plain)
        requires effect_room { HasEffectRoom (aborts_of self.old.signal) fx.old }
        ensures signal { self.new ≡ record self.old { signal = (rows.trigger reason self.old.signal).signal } }
        ensures effects { fx.new
            ≡ record fx.old { effects = fx.old.effects ++ (rows.trigger reason self.old.signal).effects } }
    {
        if self.reason.is_none() {
            self.reason = Some(reason);
            abort_all(&self.pipes, fx, reason);
        }
    }

    /// Performs an operation of the signal.
    pub fn perform(&mut self, fx: &mut Agenda, operation: SignalOperation)
        requires room { HasMemberRoom (own_signal members_alone operation) self.old }
        requires effect_room { HasEffectRoom (aborts_of self.old.signal) fx.old }
        ensures signal { self.new.signal ≡ (signal_operation operation self.old.signal).signal }
        ensures effects { fx.new.effects ≡ fx.old.effects ++ (signal_operation operation self.old.signal).effects }
        ensures room { self.new.room ≡ self.old.room }
        ensures capacity { fx.new.capacity ≡ fx.old.capacity }
    {
        match operation {
            SignalOperation::Add(pipe) => self.add(pipe),
            SignalOperation::Forget(pipe) => self.forget(pipe),
            SignalOperation::Trigger(reason) => self.trigger(fx, reason),
        }
    }
}
