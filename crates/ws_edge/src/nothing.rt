//! What stands where a node has no input or no output.
ghost use Rattle.std.specs.Prelude.{None};
ghost use Rattle.ws_io.specs.Gain.{straight};

use ws_io::{Failed, Sink, Source};

/// No input, and no output: neither tells anything, and a node with this in their place calls neither.
#[derive(Drop)]
pub struct Nothing;

impl Source for Nothing {
    ghost faults = { λ s. 0 };

    ghost feed = { λ s. None };

    fn read(&mut self, _room: &mut [u8]) -> Result<usize, Failed> {
        Ok(0)
    }

    fn ready(&self) -> usize {
        0
    }
}

impl Sink for Nothing {
    ghost faults = { λ s. 0 };

    ghost got = { λ s. straight (λ xs. ⊥) };

    ghost finished = { λ s. None };

    fn write(&mut self, piece: &[u8]) -> Result<usize, Failed> {
        Ok(piece.len())
    }

    fn flush(&mut self) -> Result<(), Failed> {
        Ok(())
    }

    fn finish(&mut self) -> Result<(), Failed> {
        Ok(())
    }
}
