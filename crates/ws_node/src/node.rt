//! A node: a realm, from a source that the input or an edge feeds through the stages to a sink that feeds the output
//! or an edge, and what its host knows of these.
ghost use Rattle.std.specs.Prelude.{◌≡◌, ◌↔◌, ◌≤◌, ◌<◌, true, false, Err, IfOk, OnErr, OnOk, None, Some};
ghost use Rattle.ws_realm.specs.Seen.{oldest, outcome_named};
ghost use Rattle.ws_realm.specs.declared.realm.Why.TheVariants as why;
ghost use Rattle.ws_steps.specs.Run as steps;
ghost use Rattle.ws_node.specs.Ends.{EndsAs, status_of, unless_finished};
ghost use Rattle.ws_node.specs.Moves.{Asks, IsDoneBy, Works, fails, fault_of, is_readable, is_writable, settles, shut};
ghost use Rattle.ws_node.specs.Node.{feeds_edge, has_ended, has_settled, is_busy, outcome_of_pipe};
ghost use Rattle.ws_node.specs.Past.{Driven};
ghost use Rattle.ws_steps.specs.declared.calls.Call.TheVariants.{Deliver, Enqueue};
ghost use Rattle.ws_value.specs.declared.value.Value.TheVariants.{Bytes};
ghost use Rattle.ws_node.specs.Turns.{HasWorked};

use ws_edge::End;
use ws_io::Status;
use ws_realm::{
    Answer, Call, Chunk, Fault, HostId, Message, Outcome, Plain, PortId, PromiseId, Realm, Reply,
    SignalId, StreamId, Value, Why,
};
use ws_stages::Work;

/// What became of the input.
#[derive(Clone, Copy)]
pub enum Input {
    /// The input may be read.
    Open,
    /// A read answered that nothing is left.
    Ended,
    /// A read failed.
    Failed,
    /// More was read than the run may take.
    TooLong,
    /// There is none: chunks come over an edge, and no error has come by it.
    Edge,
    /// An error came over the edge, with this reason.
    Broken(Plain),
}

/// What became of the output.
#[derive(Clone, Copy)]
pub enum Output {
    /// The output may be written and finished.
    Open,
    /// The output was finished.
    Finished,
    /// A write failed, or finishing it.
    Failed,
    /// More was to be written once the output had all bytes before the abort.
    Aborted,
    /// There is none: chunks go out over an edge.
    Edge,
}

/// The abort of a run after some bytes of output.
#[derive(Clone, Copy)]
pub struct Abort {
    /// The signal of the last pipe.
    pub signal: SignalId,
    /// How many bytes are yet to be written before it.
    pub left: u64,
}

/// What every node has: its realm, its stages and its pipes.
#[derive(Drop)]
pub struct Core {
    pub realm: Realm,
    /// The stages, in order.
    pub stages: Vec<Work>,
    /// How many stages are on the nodes before it.
    pub first: u16,
    /// The promises of the pipes into the stages.
    pub pipes_before: Vec<PromiseId>,
    /// The promise of the pipe into the sink.
    pub pipe: PromiseId,
    /// Why the realm performs no more.
    pub stopped: Option<Why>,
}

/// Where a node is fed: the stream that the input feeds, and what was read; or the end of the edge from the node above
/// it, whose port is then port 0.
#[derive(Drop)]
pub struct Entrance {
    /// The stream that the input or the edge feeds.
    pub source: StreamId,
    /// The most bytes that the run may take.
    pub most: u64,
    /// The bytes that were read.
    pub taken: u64,
    /// The bytes of these that the first stage, or where there is none the output, hasn't had.
    pub ahead: u64,
    /// The pull that isn't answered yet.
    pub asked: Option<HostId>,
    pub input: Input,
    pub above: Option<End>,
}

/// Where a node feeds: the stream that feeds the output, and the abort; or the end of the edge to the node below it,
/// whose port is the next.
#[derive(Drop)]
pub struct Exit {
    /// The stream that feeds the output or the edge.
    pub sink: StreamId,
    pub abort: Option<Abort>,
    pub output: Output,
    pub below: Option<End>,
    /// Whether an error came up over the edge.
    pub broken: bool,
}

/// The realm of a run, and what its host knows. The streams were made in order: the source, for each stage the two
/// halves of its transform stream, and the sink.
#[derive(Drop)]
pub struct Node {
    pub core: Core,
    pub entrance: Entrance,
    pub exit: Exit,
}

impl Core {
    /// Whether a job is queued, or the host hasn't heard of something.
    pub fn is_busy(&self) -> bool
        ensures { result ≡ is_busy self.now }
    {
        self.realm.queued() > 0 || self.realm.has_event()
    }

    /// Whether a pipe has settled.
    fn has_settled(&self, pipe: PromiseId) -> bool
        ensures { result ≡ has_settled (outcome_named pipe self.now.realm.slots) }
    {
        match self.realm.outcome(pipe) {
            Some(Outcome::Pending) => false,
            Some(_) => true,
            None => false,
        }
    }

    /// Whether each pipe has settled, and the host has heard of everything.
    pub fn has_ended(&self) -> bool
        ensures { result ≡ has_ended self.now }
    {
        if self.realm.has_event() || !self.has_settled(self.pipe) {
            return false;
        }
        for pipe in &self.pipes_before {
            if !self.has_settled(*pipe) {
                return false;
            }
        }
        true
    }
}

impl Node {
    /// The realm performs a call, unless it has stopped. A refusal stops it.
    pub fn ask(&mut self, call: Call)
        ensures { Asks call self.old self.new }
    {
        if self.core.stopped.is_some() {
            return;
        }
        if let Err(why) = perform(&mut self.core.realm, call) {
            self.core.stopped = Some(why);
        }
    }

    /// Tells the realm that what the host was asked is done.
    pub fn settle(&mut self, id: HostId)
        ensures { Asks (settles id) self.old self.new }
    {
        if self.core.stopped.is_some() {
            return;
        }
        if let Err(why) = self.core.realm.settle_done(id) {
            self.core.stopped = Some(why);
        }
    }

    /// The same as `settle`, of what is asked once or never.
    #[cold]
    #[inline(never)]
    pub fn settle_rarely(&mut self, id: HostId)
        ensures { Asks (settles id) self.old self.new }
    {
        self.settle(id)
    }

    /// What was asked has failed.
    #[cold]
    #[inline(never)]
    pub fn fail(&mut self, id: HostId, fault: Fault)
        ensures { Asks (fails id fault) self.old self.new }
    {
        self.ask(Call::Settle(id, Answer::Fail(Plain::Fault(fault))))
    }

    /// Delivers a message to a port. A refusal stops the realm.
    pub fn deliver(&mut self, port: PortId, message: Message)
        ensures { Asks (Deliver port message) self.old self.new }
    {
        if self.core.stopped.is_some() {
            return;
        }
        if let Err(why) = self.core.realm.deliver(port, message) {
            self.core.stopped = Some(why);
        }
    }

    /// Enqueues a chunk. False says that the stream takes no more, or that the realm has stopped.
    pub fn enqueue(&mut self, stream: StreamId, chunk: Chunk) -> bool
        ensures asks { Asks (Enqueue stream (Bytes chunk)) self.old self.new }
        ensures done { result ≡ true ↔ IsDoneBy (Enqueue stream (Bytes chunk)) self.old self.new }
    {
        if self.core.stopped.is_some() {
            return false;
        }
        match self.core.realm.enqueue(stream, Value::Bytes(chunk)) {
            Ok(done) => done,
            Err(why) => {
                self.core.stopped = Some(why);
                false
            }
        }
    }

    /// The realm performs jobs until none is queued, or `most` were; how many more there might have been is answered.
    /// A refusal stops it.
    pub fn work(&mut self, most: u32) -> u32
        ensures works { Works self.old self.new }
        ensures worked { 0 < most → self.new.core.stopped ≡ None → HasWorked self.old self.new }
        ensures within { result ≤ most }
    {
        if self.core.stopped.is_some() {
            return most;
        }
        let mut left = most;
        while left > 0 {
            match self.core.realm.job() {
                Ok(true) => left -= 1,
                Ok(false) => return left,
                Err(why) => {
                    self.core.stopped = Some(why);
                    return left;
                }
            }
        }
        left
    }

    /// How the pipe into the sink has settled.
    fn outcome(&self) -> &Outcome
        requires { Driven self.now }
        ensures { outcome_of_pipe self.now.core ≡ Some result.now }
    {
        match self.core.realm.outcome(self.core.pipe) {
            Some(outcome) => outcome,
            None => unreachable!(),
        }
    }

    /// The status that follows from how the pipe into the sink settled, and with 0 from an output that was finished.
    pub fn status(&self) -> Option<Status>
        requires driven { Driven self.now }
        requires sunk { feeds_edge self.now.exit.output ≡ false }
        ensures { EndsAs result self.now }
    {
        match self.outcome() {
            Outcome::Pending => {
                if let Some(Why::NoMemory) = self.core.stopped {
                    return Some(self.exit.unless_finished(Status::NoMemory));
                }
                None
            }
            Outcome::Fulfilled(_) => Some(Status::Done),
            Outcome::Rejected(reason) => Some(self.exit.unless_finished(status_of(*reason))),
            Outcome::Given(_) => unreachable!(),
            Outcome::Finished(_) => unreachable!(),
        }
    }
}

impl Exit {
    /// An output that was finished has all that came out, whatever is wanting afterwards.
    fn unless_finished(&self, status: Status) -> Status
        ensures { result ≡ unless_finished self.now.output status }
    {
        match self.output {
            Output::Finished => Status::Done,
            Output::Open => status,
            Output::Failed => status,
            Output::Aborted => status,
            Output::Edge => status,
        }
    }
}

impl Input {
    /// Whether the input may be read.
    pub fn is_open(self) -> bool
        ensures { result ≡ is_readable self }
    {
        match self {
            Input::Open => true,
            Input::Ended => false,
            Input::Failed => false,
            Input::TooLong => false,
            Input::Edge => false,
            Input::Broken(_) => false,
        }
    }
}

impl Output {
    /// Whether the output may be written and finished.
    pub fn is_open(self) -> bool
        ensures { result ≡ is_writable self }
    {
        match self {
            Output::Open => true,
            Output::Finished => false,
            Output::Failed => false,
            Output::Aborted => false,
            Output::Edge => false,
        }
    }

    /// How what is asked of it fails, once it isn't open.
    pub fn fault(self) -> Fault
        ensures { result ≡ fault_of self }
    {
        match self {
            Output::Open => Fault::Write,
            Output::Finished => Fault::Write,
            Output::Failed => Fault::Write,
            Output::Aborted => Fault::Abort,
            Output::Edge => Fault::Write,
        }
    }

    /// The output after a call of it that failed, or that wasn't made.
    pub fn shut(self) -> Output
        ensures { result ≡ shut self }
    {
        match self {
            Output::Open => Output::Failed,
            Output::Finished => Output::Finished,
            Output::Failed => Output::Failed,
            Output::Aborted => Output::Aborted,
            Output::Edge => Output::Edge,
        }
    }
}

/// The status that a reason names with which the pipe was rejected: want of memory where it names none of the others.
fn status_of(reason: Plain) -> Status
    ensures { result ≡ status_of reason }
{
    match reason {
        Plain::Fault(Fault::Stage { index, code, place }) => Status::Stage { index, code, place },
        Plain::Fault(Fault::Abort) => Status::Aborted,
        Plain::Fault(Fault::Read) => Status::ReadFault,
        Plain::Fault(Fault::Write) => Status::WriteFault,
        Plain::Fault(Fault::TooMuch) => Status::TooMuch,
        _ => Status::NoMemory,
    }
}

/// A call on a realm. One that is refused leaves it as it was.
fn perform(realm: &mut Realm, call: Call) -> Result<Reply, Why>
    ensures reply { IfOk result (λ reply. reply ≡ steps.reply_to call realm.old.slots) }
    ensures slots { OnOk result (realm.new.slots ≡ steps.after_call call realm.old.slots) }
    ensures refused { OnErr result (realm.new ≡ realm.old) }
    ensures spent { (result ≡ Err why.Spent) ↔ (realm.old.slots.age ≡ oldest) }
{
    match realm.call(call) {
        Ok(reply) => Ok(reply),
        Err(refused) => Err(refused.why),
    }
}
