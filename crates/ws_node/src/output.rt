//! What is done to the output of a node: a write writes its chunk whole, a close finishes it, and both count towards the
//! abort.
ghost use Rattle.std.specs.Prelude.{◌≡◌, false, Some};
ghost use Rattle.ws_node.specs.declared.node.Output.TheVariants as output_is;
ghost use Rattle.ws_node.specs.Moves.{DrawsNear, Fails, Finishes, Writes, finishes_by, is_sink, writes_by};
ghost use Rattle.ws_node.specs.Node.{is_reached};
ghost use Rattle.ws_steps.specs.Histories.{is_same};

use crate::node::{Abort, Exit, Node, Output};
use ws_io::{Failed, Sink, write_whole};
use ws_realm::{Call, Chunk, Fault, HostId, Plain, StreamId, Value};

impl Node {
    /// A chunk of the sink is written to the output.
    #[inline(never)]
    pub fn write<K: Sink>(&mut self, id: HostId, stream: StreamId, value: Value, output: &mut K)
        ensures { writes_by id value self.old self.new
            (record { faults = K.faults output.old; finished = K.finished output.old })
            (record { faults = K.faults output.new; finished = K.finished output.new })
            (K.got output.old) (K.got output.new) (is_sink self.old.exit stream) }
    {
        if !self.exit.is_sink(stream) {
            return self.settle_rarely(id);
        }
        match value {
            Value::Bytes(chunk) => self.write_chunk(id, &chunk, output),
            Value::Plain(_) => self.settle_rarely(id),
        }
    }

    /// Writes a chunk whole. An output that was finished or has failed takes no more, nor does one that has all bytes
    /// before the abort.
    #[inline(always)]
    fn write_chunk<K: Sink>(&mut self, id: HostId, chunk: &Chunk, output: &mut K)
        ensures { Writes id chunk.now self.old self.new
            (record { faults = K.faults output.old; finished = K.finished output.old })
            (record { faults = K.faults output.new; finished = K.finished output.new })
            (K.got output.old) (K.got output.new) }
    {
        if !self.exit.output.is_open() {
            return self.fail_output(id);
        }
        if self.exit.is_reached() {
            self.exit.output = Output::Aborted;
            return self.fail_output(id);
        }
        match write_whole(output, chunk.as_slice()) {
            Ok(()) => {
                if self.core.stages.is_empty() {
                    self.entrance.had(chunk.len());
                }
                self.draw_near(chunk.len() as u64);
                self.settle(id)
            }
            Err(Failed) => self.fail_output(id),
        }
    }

    /// Counts bytes that were written. Where these are all before the abort, its signal is triggered.
    #[inline(always)]
    fn draw_near(&mut self, count: u64)
        ensures { DrawsNear count self.old self.new }
    {
        if let Some(abort) = self.exit.abort {
            self.draw_nearer(abort, count)
        }
    }

    /// The same, of a run with an abort.
    #[inline(never)]
    fn draw_nearer(&mut self, abort: Abort, count: u64)
        requires { self.old.exit.abort ≡ Some abort }
        ensures { DrawsNear count self.old self.new }
    {
        let left = abort.left.saturating_sub(count);
        self.exit.abort = Some(Abort { left, ..abort });
        if left == 0 {
            self.ask(Call::Trigger(abort.signal, Plain::Fault(Fault::Abort)))
        }
    }

    /// The close of the sink finishes the output.
    #[cold]
    #[inline(never)]
    pub fn close<K: Sink>(&mut self, id: HostId, stream: StreamId, output: &mut K)
        ensures { finishes_by id self.old self.new
            (record { faults = K.faults output.old; finished = K.finished output.old })
            (record { faults = K.faults output.new; finished = K.finished output.new })
            (K.got output.old) (K.got output.new) (is_sink self.old.exit stream) }
    {
        if !self.exit.is_sink(stream) {
            return self.settle(id);
        }
        self.finish(id, output)
    }

    /// Finishes the output, once.
    fn finish<K: Sink>(&mut self, id: HostId, output: &mut K)
        ensures { Finishes id self.old self.new
            (record { faults = K.faults output.old; finished = K.finished output.old })
            (record { faults = K.faults output.new; finished = K.finished output.new })
            (K.got output.old) (K.got output.new) }
    {
        if !self.exit.output.is_open() {
            return self.fail_output(id);
        }
        match output.finish() {
            Ok(()) => {
                self.exit.output = Output::Finished;
                self.settle(id)
            }
            Err(Failed) => self.fail_output(id),
        }
    }

    /// What the output was asked for has failed.
    #[cold]
    #[inline(never)]
    fn fail_output(&mut self, id: HostId)
        ensures { Fails id self.old self.new }
    {
        self.exit.output = self.exit.output.shut();
        self.fail(id, self.exit.output.fault())
    }
}

impl Exit {
    /// Whether this is the stream that feeds the output. A node that feeds an edge has none.
    fn is_sink(&self, stream: StreamId) -> bool
        ensures { result ≡ is_sink self.now stream }
    {
        match self.output {
            Output::Edge => false,
            _ => self.sink.0 == stream.0,
        }
    }

    /// Whether the output has all bytes before the abort.
    fn is_reached(&self) -> bool
        ensures { result ≡ is_reached self.now.abort }
    {
        match self.abort {
            Some(abort) => abort.left == 0,
            None => false,
        }
    }
}
