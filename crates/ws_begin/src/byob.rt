//! The calls on BYOB readers and requests, which byte streams alone have.
ghost use Rattle.std.specs.Prelude.{◌≡◌, ◌*◌, true, length};
ghost use Rattle.ws_steps.specs.LockCalls as lock_calls;
ghost use Rattle.ws_steps.specs.ControllerCalls as controller_calls;
ghost use Rattle.ws_steps.specs.Calls as calls;
ghost use Rattle.ws_steps.specs.Descriptors.{respond_throws};
ghost use Rattle.ws_steps.specs.Slots.{byte_at, has_byte};
ghost use Rattle.ws_steps.specs.declared.calls.Call.TheVariants as call;
ghost use Rattle.ws_begin.specs.Begin.{Answers, CanBegin, CanMake};
ghost use Rattle.ws_tables.specs.View.{slots_of};

use crate::replies::{TYPE_ERROR, UNSUPPORTED, rejected, rejected_with, thrown_by};
use ws_steps::{ByteOperation, Effect, Lock, ReadRequest, Reply};
use ws_tables::Tables;
use ws_value::{Chunk, Fault, LockId, RequestId, Room, StreamId};

/// A new BYOB reader takes the stream.
#[tactic(auto, unfolding(ws_steps::specs::Calls::begin))]
pub(crate) fn get_byob(tables: &mut Tables, i: StreamId) -> Reply
    requires ready { CanBegin tables.old }
    ensures { Answers (calls.begin (call.GetByob i) (slots_of tables.old)) result tables.old tables.new }
{
    if !tables.has_source(i) {
        return UNSUPPORTED;
    }
    if tables.is_source_locked(i) || !tables.has_byte(i) {
        return TYPE_ERROR;
    }
    let l = LockId(tables.locks.len() as u128);
    let closed = tables.promises.fresh();
    tables.locks.push_reserved(Lock::ByobReader {
        stream: Some(i),
        closed,
    });
    tables.caused.push(Effect::Byte(i, ByteOperation::InitializeByobReader(closed)));
    Reply::Lock(l)
}

/// Whether a room of this length may be viewed by elements of this size: of 1, 2, 4 or 8 bytes, and whole ones.
fn is_view(room: usize, element: u8) -> bool
    ensures { result ≡ lock_calls.is_view room element }
{
    (element == 1 || element == 2 || element == 4 || element == 8) && room % element as usize == 0
}

/// Whether so many elements may be wanted at least of such a view: one, and no more than there are.
fn has_least(room: usize, element: u8, least: u64) -> bool
    requires view { lock_calls.is_view room element ≡ true }
    ensures { result ≡ lock_calls.has_least room element least }
{
    0 < least && least <= (room / element as usize) as u64
}

/// With what a read is rejected of which so many elements may not be wanted.
fn least_fault(room: usize, least: u64) -> Fault
    ensures { result ≡ lock_calls.least_fault room least }
{
    if room == 0 || least == 0 {
        Fault::TypeError
    } else {
        Fault::RangeError
    }
}

/// How many bytes these elements have.
#[tactic(auto, using(crate::proofs::Elements::least_fits))]
fn bytes_of(room: usize, element: u8, least: u64) -> u64
    requires view { lock_calls.is_view room element ≡ true }
    requires least { lock_calls.has_least room element least ≡ true }
    ensures { result ≡ least * element }
{
    least * u64::from(element)
}

/// ReadableStreamBYOBReaderRead of a reader that has the stream.
fn read_into_stream(tables: &mut Tables, i: StreamId, room: Room, element: u8, least: u64) -> Reply
    requires ready { CanBegin tables.old }
    requires view { lock_calls.is_view (length room) element ≡ true }
    requires least { lock_calls.has_least (length room) element least ≡ true }
    ensures { Answers (lock_calls.read_into room element least i (slots_of tables.old)) result tables.old tables.new }
{
    let minimum = bytes_of(room.len(), element, least);
    let promise = tables.promises.fresh();
    let operation = ByteOperation::PullInto {
        room,
        element,
        minimum,
        request: ReadRequest::Promise(promise),
    };
    tables.caused.push(Effect::Byte(i, operation));
    Reply::Promise(promise)
}

/// `reader.read(view, { min })` of a BYOB reader. What is wrong with the view or the least number comes before a
/// release.
#[tactic(auto, unfolding(ws_steps::specs::Calls::begin))]
pub(crate) fn read_into(
    tables: &mut Tables,
    l: LockId,
    room: Room,
    element: u8,
    least: u64,
) -> Reply
    requires ready { CanBegin tables.old }
    ensures { Answers (calls.begin (call.ReadInto l room element least) (slots_of tables.old))
        result tables.old tables.new }
{
    if !is_view(room.len(), element) {
        return UNSUPPORTED;
    }
    match tables.lock(l) {
        Some(
            Lock::ByobReader {
                stream: Some(i),
                ..
            },
        ) => {
            if !tables.has_source(i) {
                return UNSUPPORTED;
            }
            if !has_least(room.len(), element, least) {
                return rejected_with(tables, least_fault(room.len(), least));
            }
            read_into_stream(tables, i, room, element, least)
        }
        Some(Lock::ByobReader { stream: None, .. }) => {
            if !has_least(room.len(), element, least) {
                return rejected_with(tables, least_fault(room.len(), least));
            }
            rejected(tables)
        }
        Some(Lock::Reader { .. } | Lock::Writer(_) | Lock::ReleasedWriter(_) | Lock::Inner)
        | None => UNSUPPORTED,
    }
}

/// ReadableByteStreamControllerGetBYOBRequest: the request that there is, or where there is none, but a descriptor, a
/// new one.
#[tactic(auto, unfolding(ws_steps::specs::Calls::begin))]
pub(crate) fn request(tables: &mut Tables, i: StreamId) -> Reply
    requires ready { CanBegin tables.old }
    requires room { CanMake tables.old }
    ensures { Answers (calls.begin (call.Request i) (slots_of tables.old)) result tables.old tables.new }
{
    if !tables.has_byte(i) {
        return UNSUPPORTED;
    }
    let Some(left) = tables.byte(i).room_left() else {
        return Reply::Request(None);
    };
    if let Some(q) = tables.byte(i).request() {
        return Reply::Request(Some((q, left)));
    }
    let q = RequestId(tables.byob_requests.len() as u128);
    tables.byob_requests.push_reserved(i);
    tables
        .caused
        .push(Effect::Byte(i, ByteOperation::MakeRequest(q)));
    Reply::Request(Some((q, left)))
}

/// ReadableByteStreamControllerRespond, to a request that has this stream still: it may throw.
fn respond_to(tables: &mut Tables, i: StreamId, bytes: Chunk) -> Reply
    requires there { has_byte i (slots_of tables.old) ≡ true }
    requires ready { CanBegin tables.old }
    ensures { Answers
        (controller_calls.respond_unless i bytes (slots_of tables.old) (respond_throws (length bytes) (byte_at i (slots_of tables.old)).stream.state (byte_at i (slots_of tables.old)).descriptors))
        result tables.old tables.new }
{
    if let Some(fault) = tables.byte(i).respond_throws(bytes.len()) {
        return thrown_by(fault);
    }
    tables
        .caused
        .push(Effect::Byte(i, ByteOperation::Respond(bytes)));
    Reply::Done
}

/// `request.respond(length)`, with the bytes that were written into its view. One that was invalidated has no view any
/// more.
#[tactic(auto, unfolding(ws_steps::specs::Calls::begin))]
pub(crate) fn respond(tables: &mut Tables, q: RequestId, bytes: Chunk) -> Reply
    requires ready { CanBegin tables.old }
    ensures { Answers (calls.begin (call.Respond q bytes) (slots_of tables.old)) result tables.old tables.new }
{
    let Some(i) = tables.stream_of_request(q) else {
        return UNSUPPORTED;
    };
    if !tables.has_byte(i) {
        return TYPE_ERROR;
    }
    match tables.byte(i).request() {
        Some(r) if r.0 == q.0 => respond_to(tables, i, bytes),
        Some(_) | None => TYPE_ERROR,
    }
}
