ghost use Rattle.std.specs.Prelude.{◌≡◌, ◌<◌, [], true, false, Some, IfOk, OnOk, All, length, min};
ghost use Rattle.ws_io.specs.Faults.{HasCause};
ghost use Rattle.ws_io.specs.Gain.{Gains, IsEmptied, KeepsTold, Writes, Finishes, straight};
ghost use Rattle.ws_io.specs.Memory.{held_at, one_more};

use crate::numbers::number_at;
use crate::{Failed, Sink};
use std::alloc::Global;
use std::marker::Model;
use ws_value::NoMemory;

/// A sink that keeps no bytes and doesn't fail. It stands for every list.
#[derive(Drop)]
pub struct SteadySink {
    finished: bool,
    most: Vec<u64>,
    writes: u64,
}

impl Model for SteadySink {
    ghost use Rattle.std.specs.Prelude.{◌<◌, length, All};
    ghost use Rattle.ws_io.specs.Memory.{SteadyGain};

    ghost Value = { SteadyGain };

    ghost view = { λ s. record { finished = s.finished; most = s.most.items; writes = s.writes } };

    ghost invariant = { λ s. (0 < length s.most.items) × All (λ n. 0 < n) s.most.items };
}

impl SteadySink {
    /// A sink whose write k, from 0, takes at most the number at k of `most`, whose last holds on.
    pub fn make(alloc: Global, most: &[u64]) -> Result<SteadySink, NoMemory>
        requires some { 0 < length most.now }
        requires each { All (λ n. 0 < n) most.now }
        ensures { IfOk result (λ sink. sink ≡ record { finished = false; most = most.now; writes = 0 }) }
    {
        Ok(SteadySink {
            finished: false,
            most: most.to_vec(alloc)?,
            writes: 0,
        })
    }
}

impl Sink for SteadySink {
    ghost faults = { λ s. 0 };

    ghost got = { λ s. straight (λ xs. Unit {0}) };

    ghost finished = { λ s. Some s.finished };

    fn write(&mut self, piece: &[u8]) -> Result<usize, Failed>
        ensures answer { IfOk result (λ count. count ≡ min (held_at self.old.most self.old.writes) (length piece.now)) }
        ensures after { self.new ≡ record self.old { writes = one_more self.old.writes } }
        ensures bytes { Writes (straight (λ xs. Unit {0})) (straight (λ xs. Unit {0})) result piece.now }
        ensures cause { HasCause 0 0 result }
    {
        let index = self.writes;
        self.writes = index.saturating_add(1);
        Ok(number_at(self.most.as_slice(), index).min(piece.len() as u64) as usize)
    }

    fn flush(&mut self) -> Result<(), Failed>
        ensures same { self.new ≡ self.old }
        ensures emptied { OnOk result (IsEmptied (straight (λ xs. Unit {0}))) }
        ensures bytes { Gains (straight (λ xs. Unit {0})) (straight (λ xs. Unit {0})) [] }
        ensures finished { KeepsTold (Some self.old.finished) (Some self.new.finished) }
        ensures cause { HasCause 0 0 result }
    {
        Ok(())
    }

    fn finish(&mut self) -> Result<(), Failed>
        ensures after { self.new ≡ record self.old { finished = true } }
        ensures finished { Finishes (Some self.old.finished) (Some self.new.finished) result }
        ensures emptied { OnOk result (IsEmptied (straight (λ xs. Unit {0}))) }
        ensures bytes { Gains (straight (λ xs. Unit {0})) (straight (λ xs. Unit {0})) [] }
        ensures cause { HasCause 0 0 result }
    {
        self.finished = true;
        Ok(())
    }
}
