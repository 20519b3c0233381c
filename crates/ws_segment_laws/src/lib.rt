//! Laws of a node of several segments, each of which has stages of its own, what lies before each of them, and what
//! lies behind the last.
//!
//! A segment moves as chunks come into it and go out of it (`Moves`), and a node as all its segments do (`AllMove`).
#![tactic(auto)]

ghost use Rattle.ws_segment_laws.specs.Segments.{EachGoesOn, EachMovesAlone, EachPassageJoins, EachRests};

/// A node of several segments that moved, and then moved again, moved: what came into each is what came first, and
/// then what came, and so it is of what went out.
///
/// Of: nodes.
pub fn each_goes_on()
    ensures { EachGoesOn }
{}

/// A node into which nothing comes and out of which nothing goes has moved.
///
/// Each segment has a part for each of its stages.
///
/// Of: nodes.
pub fn each_rests()
    ensures { EachRests }
{}

/// Where one segment of a node moves and the others rest, the node has moved.
///
/// Of: nodes.
pub fn each_moves_alone()
    ensures { EachMovesAlone }
{}

/// Two passages, one behind the other, are one: what the first hands on enters the second, and what lies in the second
/// lies before what lies in the first.
///
/// Of: nodes.
pub fn each_passage_joins()
    ensures { EachPassageJoins }
{}
