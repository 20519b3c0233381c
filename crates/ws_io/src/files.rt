ghost use Rattle.std.specs.Prelude.{◌≡◌, List, ℕ, Option};
ghost use Rattle.ws_io.specs.Files.{LoadsTold, LoadCause};
ghost use Rattle.ws_io.specs.Memory.{one_more};

use std::alloc::Global;
use ws_value::{Blob, Text};

/// Why a text wasn't loaded.
#[derive(Clone, Copy, PartialEq, Eq)]
pub enum LoadRefused {
    /// There is no such text, or it couldn't be read.
    Failed,

    /// The text has more than 1,048,576 bytes.
    TooLong,

    NoMemory,
}

/// Where texts are loaded from by name.
pub trait Files {
    /// How often a load has failed, which never falls. It may stop at 2^64 - 1.
    ghost faults: { Self → ℕ };

    /// How many loads were asked for. It may stop at 2^64 - 1.
    ghost loads: { Self → ℕ };

    /// The text of each name that there is, or nothing where the files don't tell.
    ghost texts: { Self → Option (List ℕ → Option (List ℕ)) };

    /// The text of the name, of at most 1,048,576 bytes.
    fn load(&mut self, alloc: Global, name: &Text) -> Result<Blob, LoadRefused>
        ensures text { LoadsTold (texts self.old) name.now result }
        ensures texts { texts self.new ≡ texts self.old }
        ensures loads { loads self.new ≡ one_more (loads self.old) }
        ensures cause { LoadCause (faults self.old) (faults self.new) result };
}
