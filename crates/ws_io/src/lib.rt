//! The outside of a program: traits for its arguments, input, output and files, forms of them in memory and over std,
//! an output that is held back, and the exit statuses.
#![tactic(auto)]

mod arguments;
mod buffered;
mod files;
mod mem_files;
mod mem_sink;
mod mem_source;
mod numbers;
mod outside;
mod status;
mod std_arguments;
mod std_files;
mod std_sink;
mod std_source;
mod steady_sink;
mod steady_source;
mod whole;

pub use arguments::{Arguments, ArgumentsRefused};
pub use buffered::BufferedSink;
pub use files::{Files, LoadRefused};
pub use mem_files::MemFiles;
pub use mem_sink::MemSink;
pub use mem_source::MemSource;
pub use outside::{Failed, Gate, OpenGate, Sink, Source};
pub use status::Status;
pub use std_arguments::StdArguments;
pub use std_files::StdFiles;
pub use std_sink::StdSink;
pub use std_source::StdSource;
pub use steady_sink::SteadySink;
pub use steady_source::SteadySource;
pub use whole::write_whole;
