//! Reactions in short form.
ghost use Rattle.std.specs.Prelude.{◌≡◌, Some, IsSome};
ghost use Rattle.ws_jobs.specs.Shorts.{reaction_in};
ghost use Rattle.ws_promise.specs.Seen.{HasPromiseRoom, HasJobRoom};
ghost use Rattle.ws_steps.specs.Promises as table;
ghost use Rattle.ws_steps.specs.declared.promises.Reaction.{Reaction as AnyReaction};

use crate::promises::Promises;
use ws_jobs::{Short, reaction_in};
use ws_slots::wait_first;
use ws_value::PromiseId;

impl Promises {
    /// Makes a pending promise, for which this reaction waits.
    #[inline(always)]
    pub fn fresh_waiting(&mut self, first: Short) -> PromiseId
        requires promises { HasPromiseRoom 1 self.old }
        requires jobs { HasJobRoom 1 self.old }
        requires waits { IsSome (reaction_in first) }
        ensures id { result ≡ table.next_id self.old.table }
        ensures table { (r : AnyReaction) → reaction_in first ≡ Some r → self.new
            ≡ record self.old { table = table.react (table.next_id self.old.table) r (table.fresh self.old.table) } }
    {
        let _few = self.jobs.capacity();
        let number = self.slots.len();
        self.slots.push_waiting(first);
        self.reactions += 1;
        PromiseId(number as u128)
    }

    /// Has this reaction wait for `p`, or queues its job where `p` has settled.
    #[inline(always)]
    pub fn react_short(&mut self, p: PromiseId, first: Short)
        requires jobs { HasJobRoom 1 self.old }
        requires waits { IsSome (reaction_in first) }
        ensures { (r : AnyReaction) → reaction_in first ≡ Some r
            → self.new ≡ record self.old { table = table.react p r self.old.table } }
    {
        let _few = self.jobs.capacity();
        if wait_first(&mut self.slots, p, first) {
            self.reactions += 1;
            return;
        }
        self.react_apart(p, first);
    }

    #[inline(never)]
    fn react_apart(&mut self, p: PromiseId, first: Short)
        requires jobs { HasJobRoom 1 self.old }
        requires waits { IsSome (reaction_in first) }
        ensures { (r : AnyReaction) → reaction_in first ≡ Some r
            → self.new ≡ record self.old { table = table.react p r self.old.table } }
    {
        match reaction_in(first) {
            Some(reaction) => self.register(p, &reaction),
            None => unreachable!(),
        }
    }
}
