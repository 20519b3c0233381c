//! The lines of a task. After want of memory a part of a line may have been appended. Where what an event tells is a
//! pair, `pair` is the two reasons that its tee keeps.
ghost use Rattle.std.specs.Prelude.{◌≡◌, ◌++◌, OnOk, codes};
ghost use Rattle.std.specs.Option.{option_copied};
ghost use Rattle.ws_print.specs.Values.{numbered, plain_text, value_text};
ghost use Rattle.ws_print.specs.Events.{reply_line, host_call_text, host_text, outcome_text, outcome_if_known, settled_text, signal_text, message_text, post_text, again_text, tee_in_call, tee_in_outcome};

use crate::append::{append, append_number, append_numbered};
use crate::replies::{print_promise, print_reply_text};
use crate::values::{print_plain, print_value, tee_in, tee_in_value};
use ws_steps::{HostCall, Reply};
use ws_value::{HostId, Message, NoMemory, Outcome, Plain, PortId, StreamId, TeeId, Value};

/// Appends the line of a reply: the number of the script's line, from 1, a blank, the reply. The rank is that of the
/// promise that the reply names, from 0, and is read for no other reply.
pub fn print_reply(
    out: &mut Vec<u8>,
    number: u32,
    reply: &Reply,
    rank: Option<u64>,
) -> Result<(), NoMemory>
    ensures appended { OnOk result (out.new.items ≡ out.old.items ++ reply_line number rank reply.now) }
{
    append_number(out, number)?;
    append(out, b" ")?;
    print_reply_text(out, reply, rank)?;
    append(out, b"\n")
}

/// Appends words, a stream's number, a blank and a reason.
fn print_for_reason(
    out: &mut Vec<u8>,
    words: &[u8],
    stream: StreamId,
    reason: Plain,
    pair: Option<(Plain, Plain)>,
) -> Result<(), NoMemory>
    ensures appended { OnOk result (out.new.items
        ≡ out.old.items ++ (numbered words.now stream.0 ++ codes " " ++ plain_text pair reason)) }
{
    append_numbered(out, words, stream.0)?;
    append(out, b" ")?;
    print_plain(out, reason, pair)
}

/// Appends words, a stream's number, a blank and a chunk.
fn print_for_chunk(
    out: &mut Vec<u8>,
    words: &[u8],
    stream: StreamId,
    chunk: &Value,
    pair: Option<(Plain, Plain)>,
) -> Result<(), NoMemory>
    ensures appended { OnOk result (out.new.items
        ≡ out.old.items ++ (numbered words.now stream.0 ++ codes " " ++ value_text pair chunk.now)) }
{
    append_numbered(out, words, stream.0)?;
    append(out, b" ")?;
    print_value(out, chunk, pair)
}

/// Appends a call of a host's algorithm.
fn print_host_call(
    out: &mut Vec<u8>,
    call: &HostCall,
    pair: Option<(Plain, Plain)>,
) -> Result<(), NoMemory>
    ensures appended { OnOk result (out.new.items ≡ out.old.items ++ host_call_text pair call.now) }
{
    match call {
        HostCall::Start(stream) => append_numbered(out, b"start s", stream.0),
        HostCall::Pull(stream) => append_numbered(out, b"pull s", stream.0),
        HostCall::Cancel(stream, reason) => print_for_reason(
            out,
            b"cancel s",
            *stream,
            *reason,
            pair,
        ),
        HostCall::Write(stream, value) => print_for_chunk(out, b"write s", *stream, value, pair),
        HostCall::Close(stream) => append_numbered(out, b"close s", stream.0),
        HostCall::Abort(stream, reason) => print_for_reason(
            out, b"abort s", *stream, *reason, pair,
        ),
        HostCall::Transform(stream, value) => print_for_chunk(
            out,
            b"transform s",
            *stream,
            value,
            pair,
        ),
        HostCall::Flush(stream) => append_numbered(out, b"flush s", stream.0),
        HostCall::CancelTransform(stream, reason) => print_for_reason(
            out,
            b"canceltransform s",
            *stream,
            *reason,
            pair,
        ),
    }
}

/// Appends the line of a call of a host's algorithm, whose promise the host settles by the number `id`.
pub fn print_host(
    out: &mut Vec<u8>,
    id: HostId,
    call: &HostCall,
    pair: Option<(Plain, Plain)>,
) -> Result<(), NoMemory>
    ensures appended { OnOk result (out.new.items ≡ out.old.items ++ host_text pair id call.now) }
{
    append_numbered(out, b"  host h", id.0)?;
    append(out, b" ")?;
    print_host_call(out, call, pair)?;
    append(out, b"\n")
}

/// Appends the state of a promise, with its result.
fn print_outcome(
    out: &mut Vec<u8>,
    outcome: &Outcome,
    pair: Option<(Plain, Plain)>,
) -> Result<(), NoMemory>
    ensures appended { OnOk result (out.new.items ≡ out.old.items ++ outcome_text pair outcome.now) }
{
    match outcome {
        Outcome::Pending => append(out, b"pending"),
        Outcome::Fulfilled(plain) => {
            append(out, b"fulfilled ")?;
            print_plain(out, *plain, pair)
        }
        Outcome::Given(value) => {
            append(out, b"given ")?;
            print_value(out, value, pair)
        }
        Outcome::Finished(value) => {
            append(out, b"finished ")?;
            print_value(out, value, pair)
        }
        Outcome::Rejected(reason) => {
            append(out, b"rejected ")?;
            print_plain(out, *reason, pair)
        }
    }
}

/// Appends the state of a promise that may not be there.
fn print_outcome_if_known(
    out: &mut Vec<u8>,
    outcome: Option<&Outcome>,
    pair: Option<(Plain, Plain)>,
) -> Result<(), NoMemory>
    ensures appended { OnOk result (out.new.items ≡ out.old.items ++ outcome_if_known pair (option_copied outcome.entry)) }
{
    match outcome {
        Some(outcome) => print_outcome(out, outcome, pair),
        None => append(out, b"unknown"),
    }
}

/// Appends the line of a settled promise, with its rank among the promises that replies named, and `unknown` where the
/// outcome is none.
pub fn print_settled(
    out: &mut Vec<u8>,
    rank: Option<u64>,
    outcome: Option<&Outcome>,
    pair: Option<(Plain, Plain)>,
) -> Result<(), NoMemory>
    ensures appended { OnOk result (out.new.items ≡ out.old.items ++ settled_text pair rank (option_copied outcome.entry)) }
{
    append(out, b"  ")?;
    print_promise(out, rank)?;
    append(out, b" ")?;
    print_outcome_if_known(out, outcome, pair)?;
    append(out, b"\n")
}

/// Appends the line of a writable stream's first abort, which its sink is signalled.
pub fn print_signal(
    out: &mut Vec<u8>,
    stream: StreamId,
    reason: Plain,
    pair: Option<(Plain, Plain)>,
) -> Result<(), NoMemory>
    ensures appended { OnOk result (out.new.items ≡ out.old.items ++ signal_text pair stream reason) }
{
    print_for_reason(out, b"  signal s", stream, reason, pair)?;
    append(out, b"\n")
}

/// Appends a message.
fn print_message(out: &mut Vec<u8>, message: &Message) -> Result<(), NoMemory>
    ensures appended { OnOk result (out.new.items ≡ out.old.items ++ message_text message.now) }
{
    match message {
        Message::Pull => append(out, b"pull"),
        Message::Chunk(value) => {
            append(out, b"chunk ")?;
            print_value(out, value, None)
        }
        Message::Close => append(out, b"close"),
        Message::Error(reason) => {
            append(out, b"error ")?;
            print_plain(out, *reason, None)
        }
    }
}

/// Appends the line of a message that was posted.
pub fn print_post(out: &mut Vec<u8>, port: PortId, message: &Message) -> Result<(), NoMemory>
    ensures appended { OnOk result (out.new.items ≡ out.old.items ++ post_text port message.now) }
{
    append_numbered(out, b"  post c", port.0)?;
    append(out, b" ")?;
    print_message(out, message)?;
    append(out, b"\n")
}

/// Appends the line that says that a job is still queued, where one is.
pub fn print_again(out: &mut Vec<u8>, again: bool) -> Result<(), NoMemory>
    ensures appended { OnOk result (out.new.items ≡ out.old.items ++ again_text again) }
{
    if again {
        append(out, b"  again\n")
    } else {
        Ok(())
    }
}

/// The tee whose two reasons a call of a host's algorithm tells.
pub fn tee_in_call(call: &HostCall) -> Option<TeeId>
    ensures { result ≡ tee_in_call call.now }
{
    match call {
        HostCall::Start(_) => None,
        HostCall::Pull(_) => None,
        HostCall::Cancel(_, reason) => tee_in(*reason),
        HostCall::Write(_, value) => tee_in_value(value),
        HostCall::Close(_) => None,
        HostCall::Abort(_, reason) => tee_in(*reason),
        HostCall::Transform(_, value) => tee_in_value(value),
        HostCall::Flush(_) => None,
        HostCall::CancelTransform(_, reason) => tee_in(*reason),
    }
}

/// The tee whose two reasons a promise has settled with.
pub fn tee_in_outcome(outcome: Option<&Outcome>) -> Option<TeeId>
    ensures { result ≡ tee_in_outcome (option_copied outcome.entry) }
{
    match outcome? {
        Outcome::Pending => None,
        Outcome::Fulfilled(plain) => tee_in(*plain),
        Outcome::Given(value) => tee_in_value(value),
        Outcome::Finished(value) => tee_in_value(value),
        Outcome::Rejected(reason) => tee_in(*reason),
    }
}
