//! What names a promise, and the release of those that nobody needs.
ghost use Rattle.std.specs.Prelude.{◌≡◌, map, nat_lt, true, false};
ghost use Rattle.ws_alike.specs.Alike.{release, trim};
ghost use Rattle.ws_alike.specs.Named.{in_all, in_lock, in_pipe, in_port, in_slots, in_stream, in_tee, in_transform};
ghost use Rattle.ws_tables.specs.View.{stream_of, tee_of};

use crate::tables::{Stream, Tables};
use ws_alike::lock_names;
use ws_cross::Port;
use ws_pipe::Pipe;
use ws_steps::Lock;
use ws_tee::Tee;
use ws_transform::Transform;
use ws_value::PromiseId;

impl Stream {
    /// Whether the stream names this promise.
    pub fn names(&self, p: PromiseId) -> bool
        ensures { result ≡ nat_lt 0 (in_stream p (stream_of self.now)) }
    {
        match self {
            Stream::Readable(stream) => stream.names(p),
            Stream::Bytes(stream) => stream.names(p),
            Stream::Writable(stream) => stream.names(p),
        }
    }
}

fn streams_name(streams: &Vec<Stream>, p: PromiseId) -> bool
    ensures { result ≡ nat_lt 0 (in_all (in_stream p) (map stream_of streams.now.items)) }
{
    for stream in streams {
        if stream.names(p) {
            return true;
        }
    }
    false
}

fn transforms_name(transforms: &Vec<Transform>, p: PromiseId) -> bool
    ensures { result ≡ nat_lt 0 (in_all (in_transform p) transforms.now.items) }
{
    for transform in transforms {
        if transform.names(p) {
            return true;
        }
    }
    false
}

fn tees_name(tees: &Vec<Tee>, p: PromiseId) -> bool
    ensures { result ≡ nat_lt 0 (in_all (in_tee p) (map tee_of tees.now.items)) }
{
    for tee in tees {
        if tee.names(p) {
            return true;
        }
    }
    false
}

fn ports_name(ports: &Vec<Port>, p: PromiseId) -> bool
    ensures { result ≡ nat_lt 0 (in_all (in_port p) ports.now.items) }
{
    for port in ports {
        if port.names(p) {
            return true;
        }
    }
    false
}

fn pipes_name(pipes: &Vec<Pipe>, p: PromiseId) -> bool
    ensures { result ≡ nat_lt 0 (in_all (in_pipe p) pipes.now.items) }
{
    for pipe in pipes {
        if pipe.names(p) {
            return true;
        }
    }
    false
}

fn locks_name(locks: &Vec<Lock>, p: PromiseId) -> bool
    ensures { result ≡ nat_lt 0 (in_all (in_lock p) locks.now.items) }
{
    for lock in locks {
        if lock_names(p, lock) {
            return true;
        }
    }
    false
}

impl Tables {
    ghost use Rattle.ws_tables.specs.View.{slots_of};

    /// Whether a record, a job or a reaction names this promise.
    pub fn names(&self, p: PromiseId) -> bool
        ensures { result ≡ nat_lt 0 (in_slots p (slots_of self.now)) }
    {
        self.promises.names(p)
            || streams_name(&self.streams, p)
            || transforms_name(&self.transforms, p)
            || tees_name(&self.tees, p)
            || ports_name(&self.ports, p)
            || pipes_name(&self.pipes, p)
            || locks_name(&self.locks, p)
            || self.hosts.names(p)
    }

    /// Releases `p`, where nothing names it.
    fn release_unnamed(&mut self, p: PromiseId)
        ensures named { nat_lt 0 (in_slots p (slots_of self.old)) ≡ true → self.new ≡ self.old }
        ensures unnamed { nat_lt 0 (in_slots p (slots_of self.old)) ≡ false → self.new ≡ record self.old {
          promises = record self.old.promises { table = release p self.old.promises.table };
        } }
    {
        if self.names(p) {
            return;
        }
        self.promises.release(p);
    }

    /// Releases each promise that isn't needed. It takes no memory.
    pub fn tidy(&mut self)
        ensures { self.new ≡ record self.old {
          promises = record self.old.promises { table = (trim (slots_of self.old)).promises };
        } }
    {
        let mut from = PromiseId(0);
        while let Some(p) = self.promises.spent_from(from) {
            // The number that is given next is above `p`, so the one after `p` fits.
            let _end = self.promises.next_id();
            self.release_unnamed(p);
            from = PromiseId(p.0 + 1);
        }
    }
}
