//! The ends of edges that a node has, once it is taken apart.
ghost use Rattle.std.specs.Prelude.{◌≡◌, Some, is_some, true};

use crate::node::{Entrance, Exit};
use ws_edge::End;

/// The lower end of the edge above it.
pub fn lower_end(entrance: Entrance) -> End
    requires { is_some entrance.above ≡ true }
    ensures { entrance.above ≡ Some result }
{
    match entrance.above {
        Some(end) => end,
        None => unreachable!(),
    }
}

/// The upper end of the edge below it.
pub fn upper_end(exit: Exit) -> End
    requires { is_some exit.below ≡ true }
    ensures { exit.below ≡ Some result }
{
    match exit.below {
        Some(end) => end,
        None => unreachable!(),
    }
}
