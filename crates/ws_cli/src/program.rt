//! The program whole: from its arguments to the number that it ends with.
ghost use Rattle.std.specs.Prelude.{◌≡◌, ◌<◌, ◌^◌, drop};
ghost use Rattle.std.specs.Process.{exit_status};
ghost use Rattle.ws_io.specs.Faults.{Calm};
ghost use Rattle.ws_io.specs.Gain.{Gains, KeepsTold};
ghost use Rattle.ws_io.specs.Moment.{moment};
ghost use Rattle.ws_io.specs.Notes.{number_of, text_of};
ghost use Rattle.ws_cli.specs.Check.{shelf};
ghost use Rattle.ws_cli.specs.Commands.{EndsWith};

use crate::command::top;
use std::alloc::Global;
use std::process::ExitCode;
use std::sync::Wait;
use std::thread::Threads;
use ws_io::{Arguments, ArgumentsRefused, Files, Gate, Sink, Source, Status};
use ws_value::Text;

/// The arguments after the first, which is the program's name.
fn after_name(arguments: &[Text]) -> &[Text]
    ensures { result.now ≡ drop 1 arguments.now }
{
    match arguments {
        [] => arguments,
        [_, words @ ..] => words,
    }
}

/// Writes the status's text on the notes, and ends with its number.
fn end<E: Sink>(status: Status, notes: &mut E) -> ExitCode
    ensures number { exit_status result ≡ number_of status }
    ensures notes { Calm (E.faults notes.old) (E.faults notes.new)
        → Gains (E.got notes.old) (E.got notes.new) (text_of status) }
    ensures notes_end { KeepsTold (E.finished notes.old) (E.finished notes.new) }
{
    let _ = status.write_text(notes);
    ExitCode::from(status.number())
}

/// Does what the arguments say, and ends with the number of the status. On the notes it writes the edges of a traced
/// run, and then the text of the status. Arguments that aren't UTF-8 end as a wrong usage does.
pub fn process<
    R: Threads + Wait + Sync,
    A: Arguments,
    F: Files,
    S: Source,
    K: Sink,
    E: Sink,
    G: Gate,
>(
    rt: &R,
    alloc: Global,
    arguments: &A,
    files: &mut F,
    input: &mut S,
    output: &mut K,
    notes: &mut E,
    gate: &G,
) -> ExitCode
    ensures ends { EndsWith (A.told arguments.now) (A.lacking arguments.now) (exit_status result)
        files.old files.new input.old input.new output.old output.new
        (shelf (F.texts files.old) (F.faults files.old) (F.loads files.old))
        (shelf (F.texts files.new) (F.faults files.new) (F.loads files.new))
        (moment (S.faults input.old) (S.feed input.old) (K.faults output.old) (K.finished output.old))
        (moment (S.faults input.new) (S.feed input.new) (K.faults output.new) (K.finished output.new))
        (K.got output.old) (K.got output.new)
        (E.faults notes.old) (E.faults notes.new) (E.got notes.old) (E.got notes.new) }
    ensures texts { F.texts files.new ≡ F.texts files.old }
    ensures notes_end { KeepsTold (E.finished notes.old) (E.finished notes.new) }
{
    let all = match arguments.all(alloc) {
        Ok(all) => all,
        Err(ArgumentsRefused::NotText) => return end(Status::Usage, notes),
        Err(ArgumentsRefused::NoMemory) => return end(Status::NoMemory, notes),
    };
    let words = after_name(&all);
    let status = top(rt, alloc, words, files, input, output, notes, gate);
    ExitCode::from(status.number())
}
