ghost use Rattle.std.specs.Prelude.{◌≡◌, [], ℕ, Bool, true, OnOk, Option};
ghost use Rattle.ws_io.specs.Faults.{HasCause};
ghost use Rattle.ws_io.specs.Feed.{Feed, HasAtLeast, Reads};
ghost use Rattle.ws_io.specs.Gain.{Gains, Got, IsEmptied, Writes, Finishes, KeepsTold};

/// A call of the outside failed.
#[derive(Clone, Copy, PartialEq, Eq)]
pub struct Failed;

/// What bytes are read from.
pub trait Source {
    /// How often a read has failed, which never falls. It may stop at 2^64 - 1.
    ghost faults: { Self → ℕ };

    /// The bytes given and left and whether the end was met, or nothing where the source doesn't tell.
    ghost feed: { Self → Option Feed };

    /// Moves bytes into the front of the room, and answers how many. With room, 0 means that no byte is left.
    /// At `Failed` no byte was moved.
    fn read(&mut self, room: &mut [u8]) -> Result<usize, Failed>
        ensures bytes { Reads (feed self.old) (feed self.new) result room.new }
        ensures cause { HasCause (faults self.old) (faults self.new) result };

    /// How many bytes reads can give without asking the system: those that were read ahead.
    fn ready(&self) -> usize
        ensures { HasAtLeast (feed self.now) result };
}

/// What bytes are written to. It may hold them back.
pub trait Sink {
    /// How often a write, a flush or a finish has failed, which never falls. It may stop at 2^64 - 1.
    ghost faults: { Self → ℕ };

    /// The bytes that went out, and those that are held back.
    ghost got: { Self → Got };

    /// Whether it was finished, or nothing where the sink doesn't tell.
    ghost finished: { Self → Option Bool };

    /// Whether it was begun, which only a sink that takes a name has to be.
    ghost begun: { Self → Bool } = { λ _. true };

    /// Takes bytes of the front of the piece, at least one of a piece that has one, and answers how many.
    /// At `Failed` it took none.
    fn write(&mut self, piece: &[u8]) -> Result<usize, Failed>
        ensures bytes { Writes (got self.old) (got self.new) result piece.now }
        ensures finished { KeepsTold (finished self.old) (finished self.new) }
        ensures begun { begun self.new ≡ begun self.old }
        ensures cause { HasCause (faults self.old) (faults self.new) result };

    /// Writes all that is held back. At `Failed` what wasn't written is still held.
    fn flush(&mut self) -> Result<(), Failed>
        ensures emptied { OnOk result (IsEmptied (got self.new)) }
        ensures bytes { Gains (got self.old) (got self.new) [] }
        ensures finished { KeepsTold (finished self.old) (finished self.new) }
        ensures begun { begun self.new ≡ begun self.old }
        ensures cause { HasCause (faults self.old) (faults self.new) result };

    /// Writes all that is held back, and says that no more comes.
    fn finish(&mut self) -> Result<(), Failed>
        ensures finished { Finishes (finished self.old) (finished self.new) result }
        ensures emptied { OnOk result (IsEmptied (got self.new)) }
        ensures bytes { Gains (got self.old) (got self.new) [] }
        ensures begun { begun self.new ≡ begun self.old }
        ensures cause { HasCause (faults self.old) (faults self.new) result };
}

/// A place at which a worker may be held. No contract says when.
pub trait Gate: Sync {
    /// Worker `worker` is about to take its turn `turn`, both from 1. It is called on the thread that drives its node.
    fn enter(&self, worker: u32, turn: u64);
}

/// A gate that holds no worker.
pub struct OpenGate;

impl Gate for OpenGate {
    fn enter(&self, _worker: u32, _turn: u64) {}
}
