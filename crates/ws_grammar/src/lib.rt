//! The grammar of scripts, and the reader of a script's text. The grammar is a definition of its own, in `specs/`,
//! and the reader is proved to answer exactly it.
#![tactic(auto)]

mod calls;
mod line;
mod messages;
mod numbers;
mod options;
mod refused;
mod script;
mod spelled;
mod values;
mod words;

pub use line::Line;
pub use numbers::{number_u16, number_u32};
pub use refused::ScriptRefused;
pub use script::read_script;
pub use spelled::Spelled;
