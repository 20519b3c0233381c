//! The promises that nobody needs.
ghost use Rattle.std.specs.Prelude.{◌≡◌, ◌≤◌, ◌<◌, IfSome, IfNone, length, nat_lt};
ghost use Rattle.ws_alike.specs.Alike.{NoneLoose, kept_in, release as released};
ghost use Rattle.ws_alike.specs.Named.{in_table};

use crate::promises::Promises;
use ws_slots::{count_kept, firsts_name, release, spent_from, waiting_names};
use ws_value::PromiseId;

impl Promises {
    /// How many promises are kept: all but those that were fulfilled with undefined while nobody watched them, and
    /// those that were released.
    pub fn kept(&self) -> usize
        ensures { result ≡ kept_in self.now.table.entries }
    {
        count_kept(&self.slots)
    }

    /// Whether a job or a reaction that waits names this promise.
    pub fn names(&self, p: PromiseId) -> bool
        ensures { result ≡ nat_lt 0 (in_table p self.now.table) }
    {
        if self.jobs.names(p) {
            return true;
        }
        if firsts_name(&self.slots, p) {
            return true;
        }
        waiting_names(&self.waiting, p)
    }

    /// The first promise from this one on that has settled, that nobody watches, and that has a place.
    pub fn spent_from(&self, from: PromiseId) -> Option<PromiseId>
        ensures some { IfSome result (λ p. (from.0 ≤ p.0) × (p.0 < length self.now.table.entries)
            × NoneLoose from.0 p.0 self.now.table) }
        ensures none { IfNone result (NoneLoose from.0 (length self.now.table.entries) self.now.table) }
    {
        spent_from(&self.slots, from)
    }

    /// Releases `p`, where it has settled and nobody watches it. Its place is used again, its number isn't.
    pub fn release(&mut self, p: PromiseId)
        ensures { self.new ≡ record self.old { table = released p self.old.table } }
    {
        release(&mut self.slots, p);
    }
}
