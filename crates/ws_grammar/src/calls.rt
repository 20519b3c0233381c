//! The call that a line's words spell.
ghost use Rattle.std.specs.Prelude.{◌≡◌, ◌+◌, IfOk, map};
ghost use Rattle.ws_grammar.specs.Numbers.{number_below};
ghost use Rattle.ws_grammar.specs.Calls.{size_named, start_named, kind_named, side_named, readable_call, longest_auto, longest_room, bytes_call, writable_call, transform_call, desired_call, cancel_call, close_call, abort_call, write_call, read_into_call, respond_call, enqueue_call, fail_call, settle_ok_call, settle_fail_call, pipe_call, trigger_call, deliver_call, deliver_with_call};
ghost use Rattle.ws_grammar.specs.Calls.{call_alone, call_on_one, call_on_two, call_on_three, call_on_four, call_on_more, call_of};

use crate::Spelled;
use crate::messages::{message_alone, message_with};
use crate::numbers::{number_u8, number_u64};
use crate::options::{PipeOptions, options_of};
use crate::values::{
    bytes_of, host_named, lock_named, port_named, reason_of, request_named, signal_named,
    stream_named, value_of,
};
use std::alloc::Global;
use ws_steps::{Answer, Call, Kind, Side, SizeBy, StartBy};
use ws_value::NoMemory;

/// The longest room that a byte stream's controller makes of itself.
const LONGEST_AUTO: u64 = 4_096;

/// The longest room of a read.
const LONGEST_ROOM: u64 = 65_536;

/// How a queue measures a chunk.
fn size_named(word: &[u8]) -> Option<SizeBy>
    ensures { result ≡ size_named word.now }
{
    if word == b"count".as_slice() {
        Some(SizeBy::Count)
    } else if word == b"bytes".as_slice() {
        Some(SizeBy::ByteLength)
    } else {
        None
    }
}

/// When a start algorithm gives its result.
fn start_named(word: &[u8]) -> Option<StartBy>
    ensures { result ≡ start_named word.now }
{
    if word == b"now".as_slice() {
        Some(StartBy::Now)
    } else if word == b"later".as_slice() {
        Some(StartBy::Later)
    } else {
        None
    }
}

/// Whose algorithms a transform stream performs.
fn kind_named(word: &[u8]) -> Option<Kind>
    ensures { result ≡ kind_named word.now }
{
    if word == b"identity".as_slice() {
        Some(Kind::Identity)
    } else if word == b"host".as_slice() {
        Some(Kind::Host)
    } else {
        None
    }
}

/// The stream at an end of a port.
fn side_named(word: &[u8]) -> Option<Side>
    ensures { result ≡ side_named word.now }
{
    if word == b"readable".as_slice() {
        Some(Side::Readable)
    } else if word == b"writable".as_slice() {
        Some(Side::Writable)
    } else {
        None
    }
}

/// A new readable stream.
fn readable_call(hwm: &[u8], size: &[u8], start: &[u8]) -> Option<Call>
    ensures { result ≡ readable_call hwm.now size.now start.now }
{
    Some(Call::MakeReadable {
        hwm: number_u64(hwm)?,
        size: size_named(size)?,
        start: start_named(start)?,
    })
}

/// The length of the rooms that a byte stream's controller makes of itself.
fn auto_of(word: &[u8]) -> Option<u64>
    ensures { result ≡ number_below (longest_auto + 1) word.now }
{
    let len = number_u64(word)?;
    if len <= LONGEST_AUTO { Some(len) } else { None }
}

/// A new byte stream.
fn bytes_call(hwm: &[u8], auto: &[u8], start: &[u8]) -> Option<Call>
    ensures { result ≡ bytes_call hwm.now auto.now start.now }
{
    Some(Call::MakeBytes {
        hwm: number_u64(hwm)?,
        auto: auto_of(auto)?,
        start: start_named(start)?,
    })
}

/// A new writable stream.
fn writable_call(hwm: &[u8], size: &[u8], start: &[u8]) -> Option<Call>
    ensures { result ≡ writable_call hwm.now size.now start.now }
{
    Some(Call::MakeWritable {
        hwm: number_u64(hwm)?,
        size: size_named(size)?,
        start: start_named(start)?,
    })
}

/// A new transform stream, with the mark of its writable half first.
fn transform_call(kind: &[u8], whwm: &[u8], rhwm: &[u8], start: &[u8]) -> Option<Call>
    ensures { result ≡ transform_call kind.now whwm.now rhwm.now start.now }
{
    Some(Call::MakeTransform {
        kind: kind_named(kind)?,
        whwm: number_u64(whwm)?,
        rhwm: number_u64(rhwm)?,
        start: start_named(start)?,
    })
}

/// The desired size of a stream, or of a writer.
fn desired_call(object: &[u8]) -> Option<Call>
    ensures { result ≡ desired_call object.now }
{
    match stream_named(object) {
        Some(stream) => Some(Call::Desired(stream)),
        None => lock_named(object).map(Call::DesiredBy),
    }
}

/// A cancel of a stream, or by a reader.
fn cancel_call(object: &[u8], reason: &[u8]) -> Option<Call>
    ensures { result ≡ cancel_call object.now reason.now }
{
    let reason = reason_of(reason)?;
    match stream_named(object) {
        Some(stream) => Some(Call::Cancel(stream, reason)),
        None => Some(Call::CancelBy(lock_named(object)?, reason)),
    }
}

/// The close of a stream, or by a writer.
fn close_call(object: &[u8]) -> Option<Call>
    ensures { result ≡ close_call object.now }
{
    match stream_named(object) {
        Some(stream) => Some(Call::Close(stream)),
        None => lock_named(object).map(Call::CloseBy),
    }
}

/// An abort of a stream, or by a writer.
fn abort_call(object: &[u8], reason: &[u8]) -> Option<Call>
    ensures { result ≡ abort_call object.now reason.now }
{
    let reason = reason_of(reason)?;
    match stream_named(object) {
        Some(stream) => Some(Call::Abort(stream, reason)),
        None => Some(Call::AbortBy(lock_named(object)?, reason)),
    }
}

/// A chunk that a writer writes.
fn write_call(alloc: Global, lock: &[u8], value: &[u8]) -> Result<Option<Call>, NoMemory>
    ensures { IfOk result (λ call. call ≡ write_call lock.now value.now) }
{
    let Some(lock) = lock_named(lock) else {
        return Ok(None);
    };
    let value = value_of(alloc, value)?;
    Ok(value.map(|value| Call::Write(lock, value)))
}

/// The length of the room of a read.
fn room_len_of(word: &[u8]) -> Option<usize>
    ensures { result ≡ number_below (longest_room + 1) word.now }
{
    let len = number_u64(word)?;
    if len <= LONGEST_ROOM {
        Some(len as usize)
    } else {
        None
    }
}

/// A read into a room, where this is a least number of elements.
fn read_into_call(lock: &[u8], len: &[u8], element: &[u8], least: Option<u64>) -> Option<Spelled>
    ensures { result ≡ read_into_call lock.now len.now element.now least }
{
    Some(Spelled::read_into(
        lock_named(lock)?,
        room_len_of(len)?,
        number_u8(element)?,
        least?,
    ))
}

/// The bytes that were written into a request's view.
fn respond_call(alloc: Global, request: &[u8], bytes: &[u8]) -> Result<Option<Call>, NoMemory>
    ensures { IfOk result (λ call. call ≡ respond_call request.now bytes.now) }
{
    let Some(request) = request_named(request) else {
        return Ok(None);
    };
    let bytes = bytes_of(alloc, bytes)?;
    Ok(bytes.map(|bytes| Call::Respond(request, bytes)))
}

/// A chunk for a stream's queue.
fn enqueue_call(alloc: Global, stream: &[u8], value: &[u8]) -> Result<Option<Call>, NoMemory>
    ensures { IfOk result (λ call. call ≡ enqueue_call stream.now value.now) }
{
    let Some(stream) = stream_named(stream) else {
        return Ok(None);
    };
    let value = value_of(alloc, value)?;
    Ok(value.map(|value| Call::Enqueue(stream, value)))
}

/// The error of a stream.
fn fail_call(stream: &[u8], reason: &[u8]) -> Option<Call>
    ensures { result ≡ fail_call stream.now reason.now }
{
    Some(Call::Fail(stream_named(stream)?, reason_of(reason)?))
}

/// The promise of a host's algorithm, fulfilled.
fn settle_ok_call(host: &[u8], answer: &[u8]) -> Option<Call>
    ensures { result ≡ settle_ok_call host.now answer.now }
{
    if answer == b"ok".as_slice() {
        Some(Call::Settle(host_named(host)?, Answer::Ok))
    } else {
        None
    }
}

/// The promise of a host's algorithm, rejected.
fn settle_fail_call(host: &[u8], answer: &[u8], reason: &[u8]) -> Option<Call>
    ensures { result ≡ settle_fail_call host.now answer.now reason.now }
{
    if answer == b"fail".as_slice() {
        Some(Call::Settle(host_named(host)?, Answer::Fail(reason_of(reason)?)))
    } else {
        None
    }
}

/// A pipe from one stream to another, with options.
fn pipe_call(source: &[u8], dest: &[u8], options: &[&[u8]]) -> Option<Call>
    ensures { result ≡ pipe_call source.now dest.now (map (λ word. word.now) options.now) }
{
    let source = stream_named(source)?;
    let dest = stream_named(dest)?;
    let PipeOptions { prevent, signal } = options_of(options)?;
    Some(Call::Pipe {
        source,
        dest,
        prevent,
        signal,
    })
}

/// The trigger of a signal.
fn trigger_call(signal: &[u8], reason: &[u8]) -> Option<Call>
    ensures { result ≡ trigger_call signal.now reason.now }
{
    Some(Call::Trigger(signal_named(signal)?, reason_of(reason)?))
}

/// The coming of a message of one word.
fn deliver_call(port: &[u8], message: &[u8]) -> Option<Call>
    ensures { result ≡ deliver_call port.now message.now }
{
    let port = port_named(port)?;
    message_alone(message).map(|message| Call::Deliver(port, message))
}

/// The coming of a message that carries something.
fn deliver_with_call(
    alloc: Global,
    port: &[u8],
    message: &[u8],
    carried: &[u8],
) -> Result<Option<Call>, NoMemory>
    ensures { IfOk result (λ call. call ≡ deliver_with_call port.now message.now carried.now) }
{
    let Some(port) = port_named(port) else {
        return Ok(None);
    };
    let message = message_with(alloc, message, carried)?;
    Ok(message.map(|message| Call::Deliver(port, message)))
}

/// The call of a word alone.
fn call_alone(word: &[u8]) -> Option<Call>
    ensures { result ≡ call_alone word.now }
{
    if word == b"signal".as_slice() {
        Some(Call::MakeSignal)
    } else if word == b"step".as_slice() {
        Some(Call::Step)
    } else {
        None
    }
}

/// The call of a word and one more.
fn call_on_one(word: &[u8], first: &[u8]) -> Option<Call>
    ensures { result ≡ call_on_one word.now first.now }
{
    if word == b"reader".as_slice() {
        stream_named(first).map(Call::GetReader)
    } else if word == b"tee".as_slice() {
        stream_named(first).map(Call::Tee)
    } else if word == b"byob".as_slice() {
        stream_named(first).map(Call::GetByob)
    } else if word == b"writer".as_slice() {
        stream_named(first).map(Call::GetWriter)
    } else if word == b"read".as_slice() {
        lock_named(first).map(Call::Read)
    } else if word == b"closed".as_slice() {
        lock_named(first).map(Call::Closed)
    } else if word == b"ready".as_slice() {
        lock_named(first).map(Call::Ready)
    } else if word == b"release".as_slice() {
        lock_named(first).map(Call::Release)
    } else if word == b"close".as_slice() {
        close_call(first)
    } else if word == b"finish".as_slice() {
        stream_named(first).map(Call::Finish)
    } else if word == b"terminate".as_slice() {
        stream_named(first).map(Call::Terminate)
    } else if word == b"request".as_slice() {
        stream_named(first).map(Call::Request)
    } else if word == b"desired".as_slice() {
        desired_call(first)
    } else if word == b"send".as_slice() {
        stream_named(first).map(Call::Send)
    } else if word == b"open".as_slice() {
        side_named(first).map(Call::Open)
    } else if word == b"state".as_slice() {
        stream_named(first).map(Call::State)
    } else {
        None
    }
}

/// The call of a word and two more.
fn call_on_two(
    alloc: Global,
    word: &[u8],
    first: &[u8],
    second: &[u8],
) -> Result<Option<Call>, NoMemory>
    ensures { IfOk result (λ call. call ≡ call_on_two word.now first.now second.now) }
{
    if word == b"cancel".as_slice() {
        Ok(cancel_call(first, second))
    } else if word == b"abort".as_slice() {
        Ok(abort_call(first, second))
    } else if word == b"write".as_slice() {
        write_call(alloc, first, second)
    } else if word == b"enqueue".as_slice() {
        enqueue_call(alloc, first, second)
    } else if word == b"respond".as_slice() {
        respond_call(alloc, first, second)
    } else if word == b"fail".as_slice() {
        Ok(fail_call(first, second))
    } else if word == b"pipe".as_slice() {
        Ok(pipe_call(first, second, &[]))
    } else if word == b"trigger".as_slice() {
        Ok(trigger_call(first, second))
    } else if word == b"deliver".as_slice() {
        Ok(deliver_call(first, second))
    } else if word == b"settle".as_slice() {
        Ok(settle_ok_call(first, second))
    } else {
        Ok(None)
    }
}

/// The call of a word and three more.
fn call_on_three(
    alloc: Global,
    word: &[u8],
    first: &[u8],
    second: &[u8],
    third: &[u8],
) -> Result<Option<Spelled>, NoMemory>
    ensures { IfOk result (λ call. call ≡ call_on_three word.now first.now second.now third.now) }
{
    if word == b"readable".as_slice() {
        Ok(readable_call(first, second, third).map(Spelled::whole))
    } else if word == b"bytes".as_slice() {
        Ok(bytes_call(first, second, third).map(Spelled::whole))
    } else if word == b"writable".as_slice() {
        Ok(writable_call(first, second, third).map(Spelled::whole))
    } else if word == b"readinto".as_slice() {
        Ok(read_into_call(first, second, third, Some(1)))
    } else if word == b"deliver".as_slice() {
        Ok(deliver_with_call(alloc, first, second, third)?.map(Spelled::whole))
    } else if word == b"settle".as_slice() {
        Ok(settle_fail_call(first, second, third).map(Spelled::whole))
    } else if word == b"pipe".as_slice() {
        Ok(pipe_call(first, second, &[third]).map(Spelled::whole))
    } else {
        Ok(None)
    }
}

/// The call of a word and four more.
fn call_on_four(
    word: &[u8],
    first: &[u8],
    second: &[u8],
    third: &[u8],
    fourth: &[u8],
) -> Option<Spelled>
    ensures { result ≡ call_on_four word.now first.now second.now third.now fourth.now }
{
    if word == b"transform".as_slice() {
        transform_call(first, second, third, fourth).map(Spelled::whole)
    } else if word == b"readinto".as_slice() {
        read_into_call(first, second, third, number_u64(fourth))
    } else if word == b"pipe".as_slice() {
        pipe_call(first, second, &[third, fourth]).map(Spelled::whole)
    } else {
        None
    }
}

/// The call of a word and more than four.
fn call_on_more(word: &[u8], first: &[u8], second: &[u8], more: &[&[u8]]) -> Option<Spelled>
    ensures { result ≡ call_on_more word.now first.now second.now (map (λ word. word.now) more.now) }
{
    if word == b"pipe".as_slice() {
        pipe_call(first, second, more).map(Spelled::whole)
    } else {
        None
    }
}

/// The call that a line's words spell.
pub fn call_of(alloc: Global, words: &[&[u8]]) -> Result<Option<Spelled>, NoMemory>
    ensures { IfOk result (λ call. call ≡ call_of (map (λ word. word.now) words.now)) }
{
    match words {
        [] => Ok(None),
        [word] => Ok(call_alone(word).map(Spelled::whole)),
        [word, first] => Ok(call_on_one(word, first).map(Spelled::whole)),
        [word, first, second] => {
            let call = call_on_two(alloc, word, first, second)?;
            Ok(call.map(Spelled::whole))
        }
        [word, first, second, third] => call_on_three(alloc, word, first, second, third),
        [word, first, second, third, fourth] => {
            Ok(call_on_four(word, first, second, third, fourth))
        }
        [word, first, second, _, _, _, ..] => Ok(call_on_more(word, first, second, &words[3..])),
    }
}
