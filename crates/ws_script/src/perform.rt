//! The tasks of a script's lines, and the writing of what they print.
ghost use Rattle.std.specs.Prelude.{◌≡◌, ◌≢◌, ◌+◌, ◌<◌, ◌≤◌, ◌++◌, [], length, IfOk, OnOk, IfErr};
ghost use Rattle.ws_io.specs.Emptied.{LeavesNothing};
ghost use Rattle.ws_steps.specs.Run.{heard};
ghost use Rattle.ws_realm.specs.Seen.{oldest};
ghost use Rattle.ws_realm.specs.declared.realm.Why.TheVariants.{Spent};
ghost use Rattle.ws_grammar.specs.Lines.{most_bytes};
ghost use Rattle.ws_script.specs.Printed.{after_line, line_text, script_text};
ghost use Rattle.ws_script.specs.Printing.{PrintsOn, StopsPrinting, Performs};

use crate::print::print_step;
use std::alloc::Global;
use std::collections::VecDeque;
use ws_grammar::Line;
use ws_io::{Failed, Sink, Status, write_whole};
use ws_realm::{Realm, Why};
use ws_value::{Blob, NoMemory};

/// How much text waits before it is written.
const FULL: usize = 65_536;

/// Why a realm that isn't spent performs nothing.
fn want_of_memory(why: Why) -> NoMemory
    requires { why ≢ Spent }
{
    match why {
        Why::NoMemory => NoMemory,
        Why::Spent => unreachable!(),
    }
}

/// Performs the task of a line, for which the realm has room: the answer is what it prints.
fn perform_line(alloc: Global, realm: &mut Realm, line: Line) -> Result<Blob, NoMemory>
    requires { realm.old.slots.age + line.jobs < oldest }
    ensures text { IfOk result (λ text. text ≡ line_text line realm.old.slots) }
    ensures slots { OnOk result (realm.new.slots ≡ heard (after_line line realm.old.slots)) }
{
    let Line { number, jobs, call } = line;
    let call = call.into_call(alloc)?;
    let reply = match realm.call(call) {
        Ok(reply) => reply,
        Err(refused) => return Err(want_of_memory(refused.why)),
    };
    if let Err(why) = realm.work(jobs) {
        return Err(want_of_memory(why));
    }
    print_step(alloc, number, &reply, realm)
}

/// Writes the text that waits.
fn flush<K: Sink>(text: &mut Vec<u8>, output: &mut K) -> Result<(), Status>
    ensures ok { OnOk result (PrintsOn
        (record { faults = K.faults output.old; finished = K.finished output.old })
        (record { faults = K.faults output.new; finished = K.finished output.new })
        (K.got output.old) (K.got output.new) text.old.items text.new.items) }
    ensures empty { OnOk result (text.new.items ≡ []) }
    ensures err { IfErr result (λ status. StopsPrinting status
        (record { faults = K.faults output.old; finished = K.finished output.old })
        (record { faults = K.faults output.new; finished = K.finished output.new })
        (K.got output.old) (K.got output.new) text.old.items) }
{
    match write_whole(output, text.as_slice()) {
        Ok(()) => {
            text.clear();
            Ok(())
        }
        Err(Failed) => Err(Status::WriteFault),
    }
}

/// Writes what the output holds back, at the end of a script for which memory couldn't be had.
fn stop<K: Sink>(output: &mut K) -> Status
    ensures { StopsPrinting result
        (record { faults = K.faults output.old; finished = K.finished output.old })
        (record { faults = K.faults output.new; finished = K.finished output.new })
        (K.got output.old) (K.got output.new) [] }
{
    match output.flush() {
        Ok(()) => Status::NoMemory,
        Err(Failed) => Status::WriteFault,
    }
}

/// Writes the text of the lines before the one for which memory couldn't be had.
fn give_up<K: Sink>(text: &mut Vec<u8>, output: &mut K) -> Status
    ensures { StopsPrinting result
        (record { faults = K.faults output.old; finished = K.finished output.old })
        (record { faults = K.faults output.new; finished = K.finished output.new })
        (K.got output.old) (K.got output.new) text.old.items }
{
    match flush(text, output) {
        Ok(()) => stop(output),
        Err(status) => status,
    }
}

/// Performs a line. What it prints waits behind the text of the lines before, which is written once it is long.
fn print_line<K: Sink>(
    alloc: Global,
    realm: &mut Realm,
    line: Line,
    text: &mut Vec<u8>,
    output: &mut K,
) -> Result<(), Status>
    requires { realm.old.slots.age + line.jobs < oldest }
    ensures ok { OnOk result (PrintsOn
        (record { faults = K.faults output.old; finished = K.finished output.old })
        (record { faults = K.faults output.new; finished = K.finished output.new })
        (K.got output.old) (K.got output.new) (text.old.items ++ line_text line realm.old.slots) text.new.items) }
    ensures slots { OnOk result (realm.new.slots ≡ heard (after_line line realm.old.slots)) }
    ensures err { IfErr result (λ status. StopsPrinting status
        (record { faults = K.faults output.old; finished = K.finished output.old })
        (record { faults = K.faults output.new; finished = K.finished output.new })
        (K.got output.old) (K.got output.new) (text.old.items ++ line_text line realm.old.slots)) }
{
    let Ok(printed) = perform_line(alloc, realm, line) else {
        return Err(give_up(text, output));
    };
    if text.extend_from_slice(printed.as_slice()).is_err() {
        return Err(give_up(text, output));
    }
    if text.len() < FULL {
        return Ok(());
    }
    flush(text, output)
}

/// Performs the lines in a new realm, and writes what they print.
fn print_lines<K: Sink>(alloc: Global, lines: Vec<Line>, output: &mut K) -> Result<(), Status>
    requires { length lines.items ≤ most_bytes + 1 }
    ensures ok { OnOk result (PrintsOn
        (record { faults = K.faults output.old; finished = K.finished output.old })
        (record { faults = K.faults output.new; finished = K.finished output.new })
        (K.got output.old) (K.got output.new) (script_text lines.items) []) }
    ensures err { IfErr result (λ status. StopsPrinting status
        (record { faults = K.faults output.old; finished = K.finished output.old })
        (record { faults = K.faults output.new; finished = K.finished output.new })
        (K.got output.old) (K.got output.new) (script_text lines.items)) }
{
    let Ok(mut realm) = Realm::make(alloc) else {
        return Err(Status::NoMemory);
    };
    let mut text = Vec::new(alloc);
    let mut waiting = VecDeque::from(lines);
    while let Some(line) = waiting.pop_front() {
        print_line(alloc, &mut realm, line, &mut text, output)?;
    }
    flush(&mut text, output)
}

/// Performs the lines of a script, writes what they print, and finishes the output.
pub(crate) fn perform<K: Sink>(alloc: Global, lines: Vec<Line>, output: &mut K) -> Status
    requires { length lines.items ≤ most_bytes + 1 }
    ensures performs { Performs result (script_text lines.items)
        (record { faults = K.faults output.old; finished = K.finished output.old })
        (record { faults = K.faults output.new; finished = K.finished output.new })
        (K.got output.old) (K.got output.new) }
    ensures emptied { LeavesNothing result (K.got output.new) }
{
    if let Err(status) = print_lines(alloc, lines, output) {
        return status;
    }
    match output.finish() {
        Ok(()) => Status::Done,
        Err(Failed) => Status::WriteFault,
    }
}
