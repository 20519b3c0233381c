ghost use Rattle.std.specs.Prelude.{Bool, List, ℕ, Option, MatchResult};
ghost use Rattle.ws_io.specs.Arguments.{IsTold, IsRefused};

use std::alloc::Global;
use ws_value::Text;

/// Why arguments couldn't be had.
#[derive(Clone, Copy)]
pub enum ArgumentsRefused {
    /// An argument isn't UTF-8.
    NotText,

    NoMemory,
}

/// The arguments that a program was started with.
pub trait Arguments {
    /// The arguments, the program's name first, or nothing where they aren't told.
    ghost told: { Self → Option (List (List ℕ)) };

    /// Whether memory can be wanting to them.
    ghost lacking: { Self → Bool };

    /// All of them, the program's name first.
    fn all(&self, alloc: Global) -> Result<Vec<Text>, ArgumentsRefused>
        ensures { MatchResult result (λ all. IsTold (told self.now) all.items) (IsRefused (told self.now) (lacking self.now)) };
}
