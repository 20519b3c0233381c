//! A sink that keeps counts alone.
ghost use Rattle.std.specs.Prelude.{◌≡◌, false, sum, Some};
ghost use Rattle.ws_gen.specs.Counted.{Counted};
ghost use Rattle.ws_io.specs.Gain.{straight};

use ws_io::{Failed, Sink};
use ws_lanes::count_byte;

fn sum_of(piece: &[u8]) -> u128
    ensures { result ≡ sum piece.now }
{
    let mut sum = 0;
    for byte in piece {
        sum += *byte as u128;
    }
    sum
}

/// A sink that stands for each list of bytes with these counts. Each stays at its last value once it is there. It takes
/// no memory, and nothing that is asked of it fails.
#[derive(Drop)]
pub struct Counts {
    pub bytes: u128,
    pub newlines: u128,
    pub sum: u128,
    pub finished: bool,
}

impl Counts {
    /// A sink that has taken nothing.
    pub fn none() -> Counts
        ensures { result ≡ record { bytes = 0; newlines = 0; sum = 0; finished = false } }
    {
        Counts {
            bytes: 0,
            newlines: 0,
            sum: 0,
            finished: false,
        }
    }
}

impl Sink for Counts {
    ghost faults = { λ s. 0 };

    ghost got = { λ s. straight (Counted s.bytes s.newlines s.sum) };

    ghost finished = { λ s. Some s.finished };

    fn write(&mut self, piece: &[u8]) -> Result<usize, Failed> {
        self.bytes = self.bytes.saturating_add(piece.len() as u128);
        self.newlines = self
            .newlines
            .saturating_add(count_byte(piece, b'\n') as u128);
        self.sum = self.sum.saturating_add(sum_of(piece));
        Ok(piece.len())
    }

    fn flush(&mut self) -> Result<(), Failed> {
        Ok(())
    }

    fn finish(&mut self) -> Result<(), Failed> {
        self.finished = true;
        Ok(())
    }
}
