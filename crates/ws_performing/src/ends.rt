//! What pipes and transform streams look at, found in the tables.
ghost use Rattle.std.specs.Prelude.{◌≡◌, map, slice_get};
ghost use Rattle.ws_steps.specs.Slots.{as_readable, as_source, as_writable, ends_of, halves_of};
ghost use Rattle.ws_tables.specs.View.{stream_of};

use ws_pipe::PipeEnds;
use ws_steps::{ReadableState, WritableState};
use ws_tables::Stream;
use ws_transform::TransformHalves;
use ws_value::{Plain, StreamId};

/// What a pipe between these streams looks at.
pub fn pipe_ends(streams: &Vec<Stream>, source: StreamId, dest: StreamId) -> PipeEnds<'_>
    ensures { result
        ≡ ends_of
        (as_source (slice_get (map stream_of streams.now.items) source.0))
        (as_writable (slice_get (map stream_of streams.now.items) dest.0)) }
{
    let (source_state, source_error) = match streams.get(source.0 as usize) {
        Some(Stream::Readable(stream)) => (stream.state(), stream.stored_error()),
        Some(Stream::Bytes(stream)) => (stream.state(), stream.stored_error()),
        Some(Stream::Writable(_)) | None => (ReadableState::Closed, &Plain::Undefined),
    };
    match streams.get(dest.0 as usize) {
        Some(Stream::Writable(stream)) => PipeEnds {
            source_state,
            source_error,
            dest_state: stream.state(),
            dest_error: stream.stored_error(),
            dest_closing: stream.is_closing(),
            dest_wants: stream.wants_chunk(),
            dest_ready: stream.ready(),
            dest_abort: stream.answered_abort(),
        },
        Some(Stream::Readable(_) | Stream::Bytes(_)) | None => PipeEnds {
            source_state,
            source_error,
            dest_state: WritableState::Closed,
            dest_error: &Plain::Undefined,
            dest_closing: false,
            dest_wants: false,
            dest_ready: None,
            dest_abort: None,
        },
    }
}

/// What a transform stream with these halves looks at.
pub fn transform_halves(
    streams: &Vec<Stream>,
    readable: StreamId,
    writable: StreamId,
) -> TransformHalves<'_>
    ensures { result
        ≡ halves_of
        (as_readable (slice_get (map stream_of streams.now.items) readable.0))
        (as_writable (slice_get (map stream_of streams.now.items) writable.0)) }
{
    let (writable_state, writable_error) = match streams.get(writable.0 as usize) {
        Some(Stream::Writable(stream)) => (stream.state(), stream.stored_error()),
        Some(Stream::Readable(_) | Stream::Bytes(_)) | None => (
            WritableState::Closed,
            &Plain::Undefined,
        ),
    };
    match streams.get(readable.0 as usize) {
        Some(Stream::Readable(stream)) => TransformHalves {
            can_enqueue: stream.can_close_or_enqueue(),
            should_pull: stream.should_call_pull(),
            readable_state: stream.state(),
            readable_error: stream.stored_error(),
            writable_state,
            writable_error,
        },
        Some(Stream::Bytes(_) | Stream::Writable(_)) | None => TransformHalves {
            can_enqueue: false,
            should_pull: false,
            readable_state: ReadableState::Closed,
            readable_error: &Plain::Undefined,
            writable_state,
            writable_error,
        },
    }
}
