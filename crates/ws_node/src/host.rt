//! What the host of a node does as it is asked: a pull reads the input once, a transform or a flush asks the stage and
//! enqueues what comes out. What a write and a close do to the output is in `output`.
ghost use Rattle.std.specs.Prelude.{◌≡◌, ◌<◌, ◌≤◌, ◌+◌, ◌-◌, ◌^◌, ℕ, suc, [], false, length, true, IfOk, MatchOption, None, OnErr, reverse};
ghost use Rattle.ws_chain_laws.specs.Chain.{source_of};
ghost use Rattle.ws_io.specs.Moment.{moment};
ghost use Rattle.ws_node.specs.Hears.{Hears, MayHear};
ghost use Rattle.ws_node.specs.Host.{GivesPiece};
ghost use Rattle.ws_steps.specs.declared.calls.HostCall.TheVariants as host_call;
ghost use Rattle.ws_node.specs.Moves.{Answers, Asks, Empties, Enqueues, Flushes, MayAnswer, MayTake, PutsOut, Reads, Takes, settles_by, takes_chunk, transforms_by};
ghost use Rattle.ws_node.specs.Node.{is_busy, stage_of};
ghost use Rattle.ws_node.specs.Past.{Driven, HasCounts};
ghost use Rattle.ws_node.specs.Turns.{GivesHeard, HasHeard, IsBegun, NoneHeard, SameEnds};
ghost use Rattle.ws_node.specs.Went.{Went};

use crate::node::{Entrance, Input, Node, Output};
use std::alloc::Global;
use ws_io::{Failed, Sink, Source};
use ws_realm::{Call, Chunk, Event, Fault, HostId, NoMemory, Plain, StreamId, Value, Why};
use ws_stages::{Ending, Pushed};
use ws_steps::HostCall;
use ws_value::Room;

/// The most jobs of one turn.
const JOBS_OF_A_TURN: u32 = 100_000;

/// The most events of one turn.
const EVENTS_OF_A_TURN: u32 = 64;

/// The most bytes of one read of the input.
const MOST_OF_A_READ: u64 = 4096;

/// Reads the input once. The piece is empty at the input's end.
fn read_piece<S: Source>(
    alloc: Global,
    input: &mut S,
    want: usize,
) -> Result<Result<Chunk, Failed>, NoMemory>
    requires { 0 < want }
    ensures piece { IfOk result (λ piece.
        GivesPiece (S.feed input.old) (S.feed input.new) (S.faults input.old) (S.faults input.new) want piece) }
    ensures none { OnErr result (input.new ≡ input.old) }
{
    let mut room = Room::of(alloc, want)?;
    match input.read(room.as_mut_slice()) {
        Ok(count) => Ok(Ok(room.into_chunk(count))),
        Err(Failed) => Ok(Err(Failed)),
    }
}

/// The number of the stage, from 1, whose transform stream has this readable half.
fn stage_of(readable: StreamId) -> u32
    ensures { result ≡ stage_of readable }
{
    readable.0 / 2
}

/// The place of that stage, from 0. No stage has the source, or a stream of an odd number.
fn place_of(readable: StreamId) -> Option<usize>
    ensures { MatchOption result ((k : ℕ) → readable ≡ source_of (suc k) → ⊥)
        (λ place. readable ≡ source_of (suc place)) }
{
    if readable.0 == 0 || readable.0 % 2 == 1 {
        return None;
    }
    Some((readable.0 / 2 - 1) as usize)
}

/// Turns a list round. Most have one chunk.
#[inline(always)]
fn turn_round(chunks: &mut Vec<Chunk>)
    ensures { chunks.new.items ≡ reverse chunks.old.items }
{
    if chunks.len() > 1 {
        chunks.as_mut_slice().reverse();
    }
}

impl Node {
    /// Performs jobs, and does at each event what it asks, until there is nothing to do, a message waits to be posted,
    /// or a turn's share is done.
    pub fn go_on<S: Source, K: Sink>(&mut self, alloc: Global, input: &mut S, output: &mut K)
        requires { Driven self.old }
        ensures driven { Driven self.new }
        ensures went { Went self.old self.new
            (moment (S.faults input.old) (S.feed input.old) (K.faults output.old) (K.finished output.old))
            (moment (S.faults input.new) (S.feed input.new) (K.faults output.new) (K.finished output.new))
            (K.got output.old) (K.got output.new) }
        ensures begun { is_busy self.old.core ≡ true → self.new.core.stopped ≡ None
            → IsBegun self.old self.new }
        ensures idle { is_busy self.old.core ≡ false → SameEnds self.old self.new }
        ensures gives { GivesHeard self.old self.new }
    {
        // the first round stands apart, since it tells what the turn began with
        let mut jobs = self.work(JOBS_OF_A_TURN);
        if !self.hear(alloc, input, output) {
            return;
        }
        for _ in 1..EVENTS_OF_A_TURN {
            if self.waits() {
                return;
            }
            jobs = self.work(jobs);
            if !self.hear(alloc, input, output) {
                return;
            }
        }
    }

    /// Takes what happened first of what the host hasn't heard of, and does what it asks. False says that there is
    /// none, or that the realm has stopped.
    fn hear<S: Source, K: Sink>(&mut self, alloc: Global, input: &mut S, output: &mut K) -> bool
        requires { Driven self.old }
        ensures driven { Driven self.new }
        ensures went { Went self.old self.new
            (moment (S.faults input.old) (S.feed input.old) (K.faults output.old) (K.finished output.old))
            (moment (S.faults input.new) (S.feed input.new) (K.faults output.new) (K.finished output.new))
            (K.got output.old) (K.got output.new) }
        ensures gives { GivesHeard self.old self.new }
        ensures heard { result ≡ true → HasHeard self.old self.new }
        ensures none { result ≡ false → self.new.core.stopped ≡ None → NoneHeard self.old }
        ensures ends { result ≡ false → SameEnds self.old self.new }
    {
        if self.core.stopped.is_some() {
            return false;
        }
        let Some(event) = self.core.realm.next_event() else {
            return false;
        };
        self.hear_of(event, output);
        self.empty_before_read(input, output);
        self.read(alloc, input);
        true
    }

    /// Does what an event asks; what a port posted waits at its end.
    #[inline(always)]
    fn hear_of<K: Sink>(&mut self, event: Event, output: &mut K)
        requires { MayHear self.old event }
        ensures { Hears event self.old self.new
            (record { faults = K.faults output.old; finished = K.finished output.old })
            (record { faults = K.faults output.new; finished = K.finished output.new })
            (K.got output.old) (K.got output.new) }
    {
        match event {
            Event::Host { id, call } => self.answer(id, call, output),
            Event::Post { port, message } => self.wait(port, message),
            Event::Settled(_) => {}
            Event::Signal { .. } => {}
        }
    }

    /// Does what a call of the host asks.
    #[inline(always)]
    fn answer<K: Sink>(&mut self, id: HostId, call: HostCall, output: &mut K)
        requires { MayAnswer self.old call }
        ensures { Answers id call self.old self.new
            (record { faults = K.faults output.old; finished = K.finished output.old })
            (record { faults = K.faults output.new; finished = K.finished output.new })
            (K.got output.old) (K.got output.new) }
    {
        match call {
            HostCall::Pull(_) => self.entrance.asked = Some(id),
            HostCall::Write(stream, value) => self.write(id, stream, value, output),
            HostCall::Close(stream) => self.close(id, stream, output),
            HostCall::Start(_) => self.settle_rarely(id),
            HostCall::Cancel(..) => self.settle_rarely(id),
            HostCall::Abort(..) => self.settle_rarely(id),
            HostCall::Transform(stream, value) => self.transform(id, stream, value),
            HostCall::Flush(stream) => self.flush(id, stream),
            HostCall::CancelTransform(..) => self.settle_rarely(id),
        }
    }

    /// Writes what the output holds back. An output for which that fails takes no more.
    pub fn empty<K: Sink>(&mut self, output: &mut K)
        ensures { Empties self.old self.new
            (record { faults = K.faults output.old; finished = K.finished output.old })
            (record { faults = K.faults output.new; finished = K.finished output.new })
            (K.got output.old) (K.got output.new) }
    {
        if self.core.stopped.is_some() {
            return;
        }
        if !self.exit.output.is_open() {
            return;
        }
        match output.flush() {
            Ok(()) => {}
            Err(Failed) => self.exit.output = Output::Failed,
        }
    }

    /// The same, where the input is to be read and would ask the system for more: nobody else writes what is held
    /// while that isn't there.
    fn empty_before_read<S: Source, K: Sink>(&mut self, input: &S, output: &mut K)
        ensures { Empties self.old self.new
            (record { faults = K.faults output.old; finished = K.finished output.old })
            (record { faults = K.faults output.new; finished = K.finished output.new })
            (K.got output.old) (K.got output.new) }
    {
        if self.entrance.ahead > 0 || self.entrance.asked.is_none() || input.ready() > 0 {
            return;
        }
        self.empty(output)
    }

    /// Answers the pull that waits by one read of the input, once all that was read before was had. An input that
    /// ended or failed isn't read again, and none is once an error came up.
    #[inline(always)]
    fn read<S: Source>(&mut self, alloc: Global, input: &mut S)
        requires { HasCounts self.old.entrance }
        ensures { Reads self.old self.new
            (S.feed input.old) (S.feed input.new) (S.faults input.old) (S.faults input.new) }
    {
        if self.entrance.ahead > 0 {
            return;
        }
        self.read_next(alloc, input)
    }

    /// The same, once all that was read before was had: at most events it wasn't.
    #[inline(never)]
    fn read_next<S: Source>(&mut self, alloc: Global, input: &mut S)
        requires counts { HasCounts self.old.entrance }
        requires had { self.old.entrance.ahead ≡ 0 }
        ensures { Reads self.old self.new
            (S.feed input.old) (S.feed input.new) (S.faults input.old) (S.faults input.new) }
    {
        if self.core.stopped.is_some() {
            return;
        }
        if self.exit.broken {
            return;
        }
        if !self.entrance.input.is_open() {
            return;
        }
        let Some(pull) = self.entrance.asked else {
            return;
        };
        self.entrance.asked = None;
        let want = (self.entrance.most - self.entrance.taken + 1).min(MOST_OF_A_READ) as usize;
        match read_piece(alloc, input, want) {
            Ok(piece) => {
                self.take(piece);
                self.settle(pull)
            }
            Err(NoMemory) => self.core.stopped = Some(Why::NoMemory),
        }
    }

    /// Hands what a read gave to the stream that the input feeds.
    fn take(&mut self, piece: Result<Chunk, Failed>)
        requires { MayTake self.old piece }
        ensures { Takes piece self.old self.new }
    {
        match piece {
            Ok(chunk) => self.take_chunk(chunk),
            Err(Failed) => {
                self.entrance.input = Input::Failed;
                self.ask(Call::Fail(self.entrance.source, Plain::Fault(Fault::Read)))
            }
        }
    }

    /// An empty piece is the end; one with which more is taken than may be fails the source.
    fn take_chunk(&mut self, chunk: Chunk)
        requires { self.old.entrance.taken + length chunk < 2 ^ 64 }
        ensures { takes_chunk chunk self.old self.new }
    {
        if chunk.is_empty() {
            self.entrance.input = Input::Ended;
            return self.ask(Call::Finish(self.entrance.source));
        }
        let count = chunk.len() as u64;
        self.entrance.taken += count;
        self.entrance.ahead = count;
        if self.entrance.taken > self.entrance.most {
            self.entrance.input = Input::TooLong;
            return self.ask(Call::Fail(self.entrance.source, Plain::Fault(Fault::TooMuch)));
        }
        let _taken = self.enqueue(self.entrance.source, chunk);
    }

    /// A chunk that came to a stage is pushed. A stage that is over is asked nothing more, and nothing is answered for
    /// it.
    fn transform(&mut self, id: HostId, stream: StreamId, value: Value)
        requires { MayAnswer self.old (host_call.Transform stream value) }
        ensures { transforms_by id stream value self.old self.new }
    {
        let Value::Bytes(chunk) = value else {
            return self.settle(id);
        };
        let Some(place) = place_of(stream) else {
            return;
        };
        let Some(work) = self.core.stages.get_mut(place) else {
            return;
        };
        if !work.is_live() {
            return;
        }
        if place == 0 {
            self.entrance.had(chunk.len());
        }
        let pushed = work.push(chunk);
        self.put_out(id, stream, place, pushed)
    }

    /// The input of a stage has ended.
    #[cold]
    #[inline(never)]
    fn flush(&mut self, id: HostId, stream: StreamId)
        ensures { Flushes id stream self.old self.new }
    {
        let Some(place) = place_of(stream) else {
            return;
        };
        let Some(work) = self.core.stages.get_mut(place) else {
            return;
        };
        if !work.is_live() {
            return;
        }
        let pushed = work.flush();
        self.put_out(id, stream, place, pushed)
    }

    /// What came out of the stage at this place is enqueued behind it, and what was asked has ended as the stage did.
    #[inline(always)]
    fn put_out(
        &mut self,
        id: HostId,
        stream: StreamId,
        place: usize,
        pushed: Result<Pushed, NoMemory>,
    )
        ensures { PutsOut id stream pushed self.old self.new }
    {
        match pushed {
            Ok(pushed) => {
                let mut chunks = pushed.chunks;
                self.enqueue_all(stream, &mut chunks);
                self.hand_back(place, chunks);
                self.settle_by(id, stream, pushed.ending)
            }
            Err(NoMemory) => self.core.stopped = Some(Why::NoMemory),
        }
    }

    /// Enqueues chunks in order, and takes them out of their list. Where one can't be taken, the rest is dropped.
    #[inline(always)]
    fn enqueue_all(&mut self, stream: StreamId, chunks: &mut Vec<Chunk>)
        ensures enqueued { Enqueues stream chunks.old.items self.old self.new }
        ensures none { chunks.new.items ≡ [] }
    {
        turn_round(chunks);
        while let Some(chunk) = chunks.pop() {
            if !self.enqueue(stream, chunk) {
                chunks.clear();
                return;
            }
        }
    }

    /// Hands an empty list back to the stage at this place, which answered it.
    #[inline(always)]
    fn hand_back(&mut self, place: usize, list: Vec<Chunk>)
        requires { list.items ≡ [] }
        ensures { self.new ≡ self.old }
    {
        if let Some(work) = self.core.stages.get_mut(place) {
            work.take_back(list);
        }
    }

    /// What was asked of a stage is done, or has failed by its ending.
    #[inline(always)]
    fn settle_by(&mut self, id: HostId, stream: StreamId, ending: Ending)
        ensures { Asks (settles_by self.old.core.first id stream ending) self.old self.new }
    {
        match ending {
            Ending::Fine => self.settle(id),
            Ending::Bad { code, place } => {
                let index = u32::from(self.core.first) + stage_of(stream);
                self.fail(id, Fault::Stage { index, code, place })
            }
        }
    }
}

impl Entrance {
    /// So many bytes more of what was read were had.
    pub(crate) fn had(&mut self, count: usize)
        ensures { self.new ≡ record self.old { ahead = self.old.ahead - count } }
    {
        self.ahead = self.ahead.saturating_sub(count as u64);
    }
}
