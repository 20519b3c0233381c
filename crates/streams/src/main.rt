//! The program: its arguments, its files and its standard streams are handed to the library.
#![tactic(auto)]

use std::process::ExitCode;
use ws_cli::process;
use ws_io::{BufferedSink, OpenGate, StdArguments, StdFiles, StdSink, StdSource};

fn main(rt: HostRuntime) -> ExitCode {
    process(
        &rt,
        rt.alloc(),
        &StdArguments::over(&rt),
        &mut StdFiles::over(&rt),
        &mut StdSource::ahead(rt.alloc(), rt.stdin()),
        &mut BufferedSink::over(rt.alloc(), StdSink::over(rt.stdout())),
        &mut StdSink::over(rt.stderr()),
        &OpenGate,
    )
}
