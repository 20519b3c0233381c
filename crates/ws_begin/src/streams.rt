//! The making of streams.
ghost use Rattle.ws_steps.specs.Calls as calls;
ghost use Rattle.ws_steps.specs.declared.calls.Call.TheVariants as call;
ghost use Rattle.ws_begin.specs.Begin.{Answers, CanBegin, CanMake};
ghost use Rattle.ws_tables.specs.View.{slots_of};

use ws_byte::ByteStream;
use ws_readable::Readable;
use ws_steps::{Effect, Owner, Reply, SizeBy, StartBy, Step};
use ws_tables::{Stream, Tables};
use ws_value::StreamId;
use ws_writable::Writable;

/// The most streams of a realm.
pub(crate) const MOST_STREAMS: usize = 1024;

#[tactic(auto, unfolding(ws_steps::specs::Calls::begin))]
pub(crate) fn make_readable(tables: &mut Tables, hwm: u64, size: SizeBy, start: StartBy) -> Reply
    requires ready { CanBegin tables.old }
    requires room { CanMake tables.old }
    ensures { Answers (calls.begin (call.MakeReadable hwm size start) (slots_of tables.old))
        result tables.old tables.new }
{
    if tables.streams.len() >= MOST_STREAMS {
        return Reply::TooMany;
    }
    let i = StreamId(tables.streams.len() as u32);
    let stream = Readable::make(tables.alloc, Owner::Host, hwm, size);
    tables.streams.push_reserved(Stream::Readable(stream));
    tables.grown.push_reserved(i);
    tables
        .caused
        .push(Effect::StartAlgorithm(i, Step::ReadableStart(i), start));
    Reply::Made(i)
}

/// `new ReadableStream` over a byte source.
#[tactic(auto, unfolding(ws_steps::specs::Calls::begin))]
pub(crate) fn make_bytes(tables: &mut Tables, hwm: u64, auto: u64, start: StartBy) -> Reply
    requires ready { CanBegin tables.old }
    requires room { CanMake tables.old }
    ensures { Answers (calls.begin (call.MakeBytes hwm auto start) (slots_of tables.old))
        result tables.old tables.new }
{
    if tables.streams.len() >= MOST_STREAMS {
        return Reply::TooMany;
    }
    let i = StreamId(tables.streams.len() as u32);
    let stream = ByteStream::make(tables.alloc, hwm, auto);
    tables.streams.push_reserved(Stream::Bytes(stream));
    tables.grown.push_reserved(i);
    tables
        .caused
        .push(Effect::StartAlgorithm(i, Step::ReadableStart(i), start));
    Reply::Made(i)
}

#[tactic(auto, unfolding(ws_steps::specs::Calls::begin))]
pub(crate) fn make_writable(tables: &mut Tables, hwm: u64, size: SizeBy, start: StartBy) -> Reply
    requires ready { CanBegin tables.old }
    requires room { CanMake tables.old }
    ensures { Answers (calls.begin (call.MakeWritable hwm size start) (slots_of tables.old))
        result tables.old tables.new }
{
    if tables.streams.len() >= MOST_STREAMS {
        return Reply::TooMany;
    }
    let i = StreamId(tables.streams.len() as u32);
    let stream = Writable::make(tables.alloc, Owner::Host, hwm, size);
    tables.streams.push_reserved(Stream::Writable(stream));
    tables.grown.push_reserved(i);
    tables
        .caused
        .push(Effect::StartAlgorithm(i, Step::WritableStart(i), start));
    Reply::Made(i)
}
