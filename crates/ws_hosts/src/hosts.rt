//! The promises that a host is to settle.
ghost use Rattle.std.specs.Prelude.{◌≡◌, ◌≤◌, ◌<◌, ◌+◌, ◌++◌, ◌∷◌, [], length, Some, None, OnErr, OnOk, IfSome, IfNone, nat_lt, slice_get, slice_set};
ghost use Rattle.ws_alike.specs.Named.{in_all, in_option};
ghost use Rattle.ws_hosts.specs.Hosts.{NoneOpen};

use std::alloc::Global;
use std::marker::Model;
use ws_alike::option_names;
use ws_places::Places;
use ws_value::{NoMemory, PromiseId};

/// The promises of the calls of a host's algorithms, until the host settles them: a call that was settled takes no
/// memory. They are seen as the promises by the numbers of the calls, where none stands for one that was settled, and
/// as the number of calls for which there are places.
#[derive(Drop)]
pub struct Hosts {
    open: Places<PromiseId>,
    limit: usize,
}

impl Model for Hosts {
    ghost use Rattle.std.specs.Prelude.{◌+◌, ◌≤◌};
    ghost use Rattle.ws_hosts.specs.Hosts.{SeenHosts, hosts_from};

    ghost Value = { SeenHosts };

    ghost view = { λ a. record { items = hosts_from 0 a.open.next a.open.kept; capacity = a.limit } };

    ghost invariant = { λ a. (a.open.next ≤ a.limit) × (a.limit ≤ a.open.next + a.open.spare) };
}

impl Hosts {
    /// No calls, and no places.
    pub fn new(alloc: Global) -> Hosts
        ensures { result ≡ record { items = []; capacity = 0 } }
    {
        Hosts {
            open: Places::make(alloc),
            limit: 0,
        }
    }

    /// How many calls there were.
    #[inline(always)]
    pub fn len(&self) -> usize
        ensures is { result ≡ length self.now.items }
        ensures within { result ≤ self.now.capacity }
    {
        self.open.next()
    }

    /// For how many calls there are places, with those that there were.
    #[inline(always)]
    pub fn capacity(&self) -> usize
        ensures { result ≡ self.now.capacity }
    {
        self.limit
    }

    /// Makes places for `n` further calls. A refusal changes nothing.
    pub fn reserve(&mut self, n: usize) -> Result<(), NoMemory>
        ensures ok { OnOk result (n + length self.new.items ≤ self.new.capacity) }
        ensures items { self.new.items ≡ self.old.items }
        ensures capacity { self.old.capacity ≤ self.new.capacity }
        ensures refused { OnErr result (self.new ≡ self.old) }
    {
        self.open.reserve(n)?;
        let Some(limit) = self.open.next().checked_add(self.open.spare()) else {
            return Err(NoMemory);
        };
        self.limit = limit;
        Ok(())
    }

    /// One more call, with its promise.
    #[inline]
    pub fn push(&mut self, promise: PromiseId)
        requires { length self.old.items < self.old.capacity }
        ensures { self.new ≡ record self.old { items = self.old.items ++ Some promise ∷ [] } }
    {
        let _number = self.open.keep(promise);
    }

    /// The promise of a call, where it isn't settled.
    #[inline]
    pub fn promise(&self, h: usize) -> Option<PromiseId>
        requires { h < length self.now.items }
        ensures { slice_get self.now.items h ≡ Some result }
    {
        match self.open.get(h) {
            Some(promise) => Some(*promise),
            None => None,
        }
    }

    /// A call is settled.
    #[inline]
    pub fn settle(&mut self, h: usize)
        requires { h < length self.old.items }
        ensures { self.new ≡ record self.old { items = slice_set self.old.items h None } }
    {
        self.open.release(h);
    }

    /// The least number from this one on of a call that isn't settled.
    fn open_from(&self, h: usize) -> Option<usize>
        ensures some { IfSome result (λ n. (h ≤ n) × (n < length self.now.items) × NoneOpen h n self.now.items) }
        ensures none { IfNone result (NoneOpen h (length self.now.items) self.now.items) }
    {
        self.open.kept_from(h)
    }

    /// Whether this is the promise of a call that isn't settled.
    pub fn names(&self, p: PromiseId) -> bool
        ensures { result ≡ nat_lt 0 (in_all (in_option p) self.now.items) }
    {
        let _len = self.len();
        let mut at = 0;
        while let Some(h) = self.open_from(at) {
            if option_names(p, &self.promise(h)) {
                return true;
            }
            at = h + 1;
        }
        false
    }
}
