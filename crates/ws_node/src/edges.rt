//! What a node does at the ends of its edges: it posts what waits, takes at most one message from each end, and hands
//! it to its realm; what a port of its realm posts waits there.
ghost use Rattle.std.specs.Prelude.{◌≡◌, ◌&&◌, if◌then◌else◌, length, not};
ghost use Rattle.ws_steps.specs.Queues.{is_empty};
ghost use Rattle.ws_value.specs.declared.value.Message.TheVariants.{Error};
ghost use Rattle.ws_node.specs.Edges.{Brings, BringsUp, PostsBoth, TakesAbove, TakesBelow, TellsBoth, Waits, WaitsAbove, WaitsBelow, broken_after, broken_by, had_entrance, posts_at, takes_more, tells_at};
ghost use Rattle.ws_node.specs.Messages.{as_fair, is_fair, is_fair_reason};
ghost use Rattle.ws_node.specs.Node.{is_over, port_below, sent_at, waiting_at};

use crate::node::{Entrance, Exit, Input, Node};
use ws_edge::End;
use ws_realm::{Fault, Message, NoMemory, Plain, PortId, Value, Why};

/// The port of the edge above.
const PORT_ABOVE: PortId = PortId(0);

/// A chunk has fewer bytes than this.
const BOUND_OF_A_CHUNK: usize = 1 << 25;

/// Whether a node may send this reason on: a fault, but not that something couldn't be cloned.
fn is_fair_reason(reason: &Plain) -> bool
    ensures { result ≡ is_fair_reason reason.now }
{
    match reason {
        Plain::Fault(Fault::DataClone) => false,
        Plain::Fault(_) => true,
        _ => false,
    }
}

/// Whether a message is one that a node of a pipeline sends.
fn is_fair(message: &Message) -> bool
    ensures { result ≡ is_fair message.now }
{
    match message {
        Message::Pull => true,
        Message::Chunk(Value::Bytes(chunk)) => chunk.len() < BOUND_OF_A_CHUNK,
        Message::Chunk(Value::Plain(_)) => false,
        Message::Close => true,
        Message::Error(reason) => is_fair_reason(reason),
    }
}

/// The message as a node takes it: any other than those of a pipeline's nodes is taken for an error.
fn as_fair(message: Message) -> Message
    ensures { result ≡ as_fair message }
{
    if is_fair(&message) {
        return message;
    }
    Message::Error(Plain::Fault(Fault::TypeError))
}

/// Posts what waits at an end. True says that a message was posted.
fn post_at(end: &mut Option<End>) -> bool
    ensures { posts_at result end.old end.new }
{
    match end {
        Some(end) => end.post().some,
        None => false,
    }
}

/// Tells the neighbour at an end that no memory was to be had.
fn tell_at(end: &mut Option<End>)
    ensures { tells_at end.old end.new }
{
    if let Some(end) = end {
        end.tell_last(Plain::Fault(Fault::NoMemory));
    }
}

impl Entrance {
    /// The port of the edge below: the next one behind that of the edge above.
    fn port_below(&self) -> PortId
        ensures { result ≡ port_below self.now }
    {
        match self.above {
            Some(_) => PortId(1),
            None => PortId(0),
        }
    }

    /// The bytes of a chunk were had, where no stage has them first.
    fn had_of(&mut self, bare: bool, message: &Message)
        ensures { self.new ≡ (if bare then had_entrance message.now self.old else self.old) }
    {
        if !bare {
            return;
        }
        if let Message::Chunk(Value::Bytes(chunk)) = message {
            self.had(chunk.len());
        }
    }
}

impl Input {
    /// Whether more is taken of the edge above.
    fn takes_more(self) -> bool
        ensures { result ≡ takes_more self }
    {
        match self {
            Input::Edge => true,
            Input::Open => false,
            Input::Ended => false,
            Input::Failed => false,
            Input::TooLong => false,
            Input::Broken(_) => false,
        }
    }

    /// After a message of the edge above: the reason of the first error is remembered.
    fn broken_by(self, message: &Message) -> Input
        ensures { result ≡ broken_by message.now self }
    {
        match message {
            Message::Error(reason) => self.after_error(*reason),
            Message::Pull => self,
            Message::Chunk(_) => self,
            Message::Close => self,
        }
    }

    /// After an error.
    fn after_error(self, reason: Plain) -> Input
        ensures { result ≡ broken_by (Error reason) self }
    {
        match self {
            Input::Edge => Input::Broken(reason),
            Input::Open => self,
            Input::Ended => self,
            Input::Failed => self,
            Input::TooLong => self,
            Input::Broken(_) => self,
        }
    }
}

impl Exit {
    /// Whether an error came up, after a message of the edge below.
    fn broken_by(&self, message: &Message) -> bool
        ensures { result ≡ broken_after message.now self.now.broken }
    {
        match message {
            Message::Error(_) => true,
            Message::Pull => self.broken,
            Message::Chunk(_) => self.broken,
            Message::Close => self.broken,
        }
    }
}

/// Whether nothing waits at an end.
fn all_posted(end: &Option<End>) -> bool
    ensures { result ≡ is_empty (waiting_at end.now) }
{
    match end {
        Some(end) => end.all_posted(),
        None => true,
    }
}

/// How many messages were posted at an end.
fn posted_at(end: &Option<End>) -> u64
    ensures { result ≡ length (sent_at end.now) }
{
    match end {
        Some(end) => end.posted(),
        None => 0,
    }
}

impl Node {
    /// Posts what waits at both ends. True says that a message was posted.
    pub fn post(&mut self) -> bool
        ensures { PostsBoth result self.old self.new }
    {
        let above = post_at(&mut self.entrance.above);
        let below = post_at(&mut self.exit.below);
        above || below
    }

    /// Tells both neighbours that no memory was to be had, and posts that.
    pub fn tell(&mut self)
        ensures { TellsBoth self.old self.new }
    {
        tell_at(&mut self.entrance.above);
        tell_at(&mut self.exit.below);
        let _ = self.post();
    }

    /// Takes at most one message of the edge above while its port is held and no error has come, and hands it to the
    /// realm. True says that there was one.
    pub fn take_above(&mut self) -> bool
        ensures { TakesAbove result self.old self.new }
    {
        if self.core.stopped.is_some() || !self.core.realm.live(PORT_ABOVE) {
            return false;
        }
        if !self.entrance.input.takes_more() {
            return false;
        }
        let Some(end) = &mut self.entrance.above else {
            return false;
        };
        let Some(message) = end.take() else {
            return false;
        };
        self.bring(as_fair(message));
        true
    }

    /// Hands a message to the stream that the edge above feeds. The first error is remembered.
    fn bring(&mut self, message: Message)
        ensures { Brings message self.old self.new }
    {
        self.entrance.input = self.entrance.input.broken_by(&message);
        self.deliver(PORT_ABOVE, message)
    }

    /// Takes at most one message of the edge below while its port is held, and hands it to the realm. True says that
    /// there was one.
    pub fn take_below(&mut self) -> bool
        ensures { TakesBelow result self.old self.new }
    {
        let port = self.entrance.port_below();
        if self.core.stopped.is_some() || !self.core.realm.live(port) {
            return false;
        }
        let Some(end) = &mut self.exit.below else {
            return false;
        };
        let Some(message) = end.take() else {
            return false;
        };
        self.bring_up(port, as_fair(message));
        true
    }

    /// Hands a message to the port of the edge below. Behind an error nothing more is read.
    fn bring_up(&mut self, port: PortId, message: Message)
        ensures { BringsUp port message self.old self.new }
    {
        self.exit.broken = self.exit.broken_by(&message);
        self.deliver(port, message)
    }

    /// What a port of the realm posts waits at its end. Where there is no memory for that, the realm stops.
    pub fn wait(&mut self, port: PortId, message: Message)
        ensures { Waits port message self.old self.new }
    {
        if port.0 == self.entrance.port_below().0 {
            self.wait_below(message)
        } else if port.0 == PORT_ABOVE.0 {
            self.wait_above(message)
        }
    }

    /// A pull, or an error that goes up.
    fn wait_above(&mut self, message: Message)
        ensures { WaitsAbove message self.old self.new }
    {
        let Some(end) = &mut self.entrance.above else {
            return;
        };
        if let Err(NoMemory) = end.push(message) {
            self.core.stopped = Some(Why::NoMemory);
        }
    }

    /// A chunk, a close or an error. A chunk of what was read was had where no stage has it first.
    fn wait_below(&mut self, message: Message)
        ensures { WaitsBelow message self.old self.new }
    {
        let Some(end) = &mut self.exit.below else {
            return;
        };
        self.entrance.had_of(self.core.stages.is_empty(), &message);
        if let Err(NoMemory) = end.push(message) {
            self.core.stopped = Some(Why::NoMemory);
        }
    }

    /// Whether a message waits to be posted.
    pub fn waits(&self) -> bool
        ensures { result
            ≡ not (is_empty (waiting_at self.now.entrance.above) && is_empty (waiting_at self.now.exit.below)) }
    {
        !all_posted(&self.entrance.above) || !all_posted(&self.exit.below)
    }

    /// How many messages were posted to the node above.
    pub fn posted_above(&self) -> u64
        ensures { result ≡ length (sent_at self.now.entrance.above) }
    {
        posted_at(&self.entrance.above)
    }

    /// How many messages were posted to the node below.
    pub fn posted_below(&self) -> u64
        ensures { result ≡ length (sent_at self.now.exit.below) }
    {
        posted_at(&self.exit.below)
    }

    /// Whether each pipe has settled, the host has heard of everything, and nothing waits to be posted.
    pub fn is_over(&self) -> bool
        ensures { result ≡ is_over self.now }
    {
        self.core.has_ended() && all_posted(&self.entrance.above) && all_posted(&self.exit.below)
    }
}
