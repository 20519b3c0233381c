//! The commands, and the program whole.
ghost use Rattle.std.specs.Prelude.{◌≡◌};
ghost use Rattle.std.specs.Process.{exit_status};
ghost use Rattle.ws_io.specs.Emptied.{LeavesNothing};
ghost use Rattle.ws_io.specs.Gain.{IsEmptied, KeepsTold};
ghost use Rattle.ws_io.specs.Moment.{moment};
ghost use Rattle.ws_cli.specs.Check.{PerformsCheck, shelf};
ghost use Rattle.ws_cli.specs.Commands.{EndsWith, PerformsNoted};
ghost use Rattle.ws_cli.specs.Words.{NamesNoFile};

use std::alloc::Global;
use std::process::ExitCode;
use std::sync::Wait;
use std::thread::Threads;
use ws_io::{Arguments, Files, Gate, Sink, Source, Status};
use ws_value::Text;

/// Prints the plan of a pipeline file.
pub fn run_check<F: Files, K: Sink>(
    alloc: Global,
    files: &mut F,
    name: &Text,
    output: &mut K,
) -> Status
    ensures does { PerformsCheck result name.now output.old output.new
        (shelf (F.texts files.old) (F.faults files.old) (F.loads files.old))
        (shelf (F.texts files.new) (F.faults files.new) (F.loads files.new))
        (record { faults = K.faults output.old; finished = K.finished output.old })
        (record { faults = K.faults output.new; finished = K.finished output.new })
        (K.got output.old) (K.got output.new) }
    ensures texts { F.texts files.new ≡ F.texts files.old }
    ensures emptied { IsEmptied (K.got output.old) → LeavesNothing result (K.got output.new) }
{
    ws_cli::run_check(alloc, files, name, output)
}

/// Does what the words after the program's name say.
pub fn top<R: Threads + Wait + Sync, F: Files, S: Source, K: Sink, E: Sink, G: Gate>(
    rt: &R,
    alloc: Global,
    words: &[Text],
    files: &mut F,
    input: &mut S,
    output: &mut K,
    notes: &mut E,
    gate: &G,
) -> Status
    ensures performs { PerformsNoted words.now result
        files.old files.new input.old input.new output.old output.new
        (shelf (F.texts files.old) (F.faults files.old) (F.loads files.old))
        (shelf (F.texts files.new) (F.faults files.new) (F.loads files.new))
        (moment (S.faults input.old) (S.feed input.old) (K.faults output.old) (K.finished output.old))
        (moment (S.faults input.new) (S.feed input.new) (K.faults output.new) (K.finished output.new))
        (K.got output.old) (K.got output.new)
        (E.faults notes.old) (E.faults notes.new) (E.got notes.old) (E.got notes.new) }
    ensures notes_end { KeepsTold (E.finished notes.old) (E.finished notes.new) }
    ensures emptied { IsEmptied (K.got output.old) → LeavesNothing result (K.got output.new) }
    ensures files { NamesNoFile words.now → files.new ≡ files.old }
    ensures texts { F.texts files.new ≡ F.texts files.old }
{
    ws_cli::top(rt, alloc, words, files, input, output, notes, gate)
}

/// Does what the arguments say, and ends with the number of the status.
pub fn process<
    R: Threads + Wait + Sync,
    A: Arguments,
    F: Files,
    S: Source,
    K: Sink,
    E: Sink,
    G: Gate,
>(
    rt: &R,
    alloc: Global,
    arguments: &A,
    files: &mut F,
    input: &mut S,
    output: &mut K,
    notes: &mut E,
    gate: &G,
) -> ExitCode
    ensures ends { EndsWith (A.told arguments.now) (A.lacking arguments.now) (exit_status result)
        files.old files.new input.old input.new output.old output.new
        (shelf (F.texts files.old) (F.faults files.old) (F.loads files.old))
        (shelf (F.texts files.new) (F.faults files.new) (F.loads files.new))
        (moment (S.faults input.old) (S.feed input.old) (K.faults output.old) (K.finished output.old))
        (moment (S.faults input.new) (S.feed input.new) (K.faults output.new) (K.finished output.new))
        (K.got output.old) (K.got output.new)
        (E.faults notes.old) (E.faults notes.new) (E.got notes.old) (E.got notes.new) }
    ensures texts { F.texts files.new ≡ F.texts files.old }
    ensures notes_end { KeepsTold (E.finished notes.old) (E.finished notes.new) }
{
    ws_cli::process(rt, alloc, arguments, files, input, output, notes, gate)
}
