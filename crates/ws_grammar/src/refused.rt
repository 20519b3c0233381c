//! Why a script isn't read.
use std::alloc::{AllocError, AllocFailed};
use std::error::Error;
use std::fmt;
use ws_value::NoMemory;

/// Why a script isn't read.
#[derive(Debug, Clone, Copy, PartialEq, Eq)]
pub enum ScriptRefused {
    /// The first line that is outside the grammar, by its number from 1.
    BadLine(u32),
    /// The text has more than 1,048,576 bytes.
    TooLong,
    NoMemory,
}

impl fmt::Display for ScriptRefused {
    fn fmt<W: fmt::Write>(&self, f: &mut fmt::Formatter<W>) -> fmt::Result {
        match self {
            ScriptRefused::BadLine(number) => write!(f, "line {number} is outside the grammar"),
            ScriptRefused::TooLong => write!(f, "the script is too long"),
            ScriptRefused::NoMemory => write!(f, "no memory"),
        }
    }
}

impl Error for ScriptRefused {}

impl From<AllocError> for ScriptRefused {
    ghost use Rattle.std.specs.Prelude.{◌≡◌};
    ghost use Rattle.ws_grammar.specs.declared.refused.ScriptRefused.TheVariants.{NoMemory};

    ghost from_gives = { λ _ refused. refused ≡ NoMemory };

    fn from(_refused: AllocError) -> ScriptRefused {
        ScriptRefused::NoMemory
    }
}

impl<T: Drop> From<AllocFailed<T>> for ScriptRefused {
    ghost use Rattle.std.specs.Prelude.{◌≡◌};
    ghost use Rattle.ws_grammar.specs.declared.refused.ScriptRefused.TheVariants.{NoMemory};

    ghost from_gives = { λ _ refused. refused ≡ NoMemory };

    fn from(_refused: AllocFailed<T>) -> ScriptRefused {
        ScriptRefused::NoMemory
    }
}

impl From<NoMemory> for ScriptRefused {
    ghost use Rattle.std.specs.Prelude.{◌≡◌};
    ghost use Rattle.ws_grammar.specs.declared.refused.ScriptRefused.TheVariants.{NoMemory};

    ghost from_gives = { λ _ refused. refused ≡ NoMemory };

    fn from(_refused: NoMemory) -> ScriptRefused {
        ScriptRefused::NoMemory
    }
}
