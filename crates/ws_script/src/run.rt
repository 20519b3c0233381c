//! A script whole: its text is read, and its lines are performed.
ghost use Rattle.std.specs.Prelude.{◌≡◌, ◌<◌, ◌≤◌, ◌⊎◌, ℕ, List, length, Option, Ok, Err};
ghost use Rattle.ws_io.specs.Emptied.{LeavesNothing};
ghost use Rattle.ws_io.specs.Faults.{Calm};
ghost use Rattle.ws_io.specs.Feed.{Feed, HasLeft};
ghost use Rattle.ws_io.specs.Gain.{IsEmptied};
ghost use Rattle.ws_io.specs.Moment.{moment};
ghost use Rattle.ws_grammar.specs.declared.line.Line.{Line};
ghost use Rattle.ws_grammar.specs.Lines.{lines, most_bytes};
ghost use Rattle.ws_script.specs.Ends.{ScriptEnds};
ghost use Rattle.ws_script.specs.Reading.{ReadsText};

use crate::perform::perform;
use crate::read::read_text;
use std::alloc::Global;
use ws_grammar::{ScriptRefused, read_script};
use ws_io::{Sink, Source, Status};

/// Reads the lines of a text, which was the input, and performs them.
fn run_text<K: Sink>(alloc: Global, text: &[u8], output: &mut K) -> Status
    ensures ends { (before after : Option Feed) (count count' : ℕ) → ReadsText before after count count' text.now
        → ScriptEnds result
        (moment count before (K.faults output.old) (K.finished output.old))
        (moment count' after (K.faults output.new) (K.finished output.new))
        (K.got output.old) (K.got output.new) }
    ensures emptied { IsEmptied (K.got output.old) → LeavesNothing result (K.got output.new) }
{
    match read_script(alloc, text) {
        Ok(lines) => perform(alloc, lines, output),
        Err(ScriptRefused::BadLine(number)) => Status::Script(number),
        Err(ScriptRefused::TooLong) => Status::Script(0),
        Err(ScriptRefused::NoMemory) => Status::NoMemory,
    }
}

/// Performs the script that the input holds, and writes what it prints on the output.
///
/// The whole input is read before the first line is performed. A script of more than 1,048,576 bytes is refused at
/// line 0, and one with a line outside the grammar at the first such line, counted from 1; then nothing is performed.
pub fn run_script<S: Source, K: Sink>(alloc: Global, input: &mut S, output: &mut K) -> Status
    // What it may end with.
    ensures ends { ScriptEnds result
        (moment (S.faults input.old) (S.feed input.old) (K.faults output.old) (K.finished output.old))
        (moment (S.faults input.new) (S.feed input.new) (K.faults output.new) (K.finished output.new))
        (K.got output.old) (K.got output.new) }

    // The output holds nothing back then, if it held nothing before.
    ensures emptied { IsEmptied (K.got output.old) → LeavesNothing result (K.got output.new) }

    // Where nothing fails, what is in the grammar and short enough is performed whole, or memory can't be had.
    ensures complete { (text : List ℕ) (found : List Line) → HasLeft (S.feed input.old) text
        → length text ≤ most_bytes → lines text ≡ Ok found
        → Calm (S.faults input.old) (S.faults input.new) → Calm (K.faults output.old) (K.faults output.new)
        → (result ≡ Status.Done) ⊎ (result ≡ Status.NoMemory) }

    // Where no read fails, what is outside the grammar is refused at its first bad line; what is too long, at line 0.
    ensures outside { (text : List ℕ) (n : ℕ) → HasLeft (S.feed input.old) text → length text ≤ most_bytes
        → lines text ≡ Err n
        → Calm (S.faults input.old) (S.faults input.new) → (result ≡ Status.Script n) ⊎ (result ≡ Status.NoMemory) }
    ensures too_long { (text : List ℕ) → HasLeft (S.feed input.old) text → most_bytes < length text
        → Calm (S.faults input.old) (S.faults input.new) → (result ≡ Status.Script 0) ⊎ (result ≡ Status.NoMemory) }
{
    match read_text(alloc, input) {
        Ok(text) => run_text(alloc, &text, output),
        Err(status) => status,
    }
}
