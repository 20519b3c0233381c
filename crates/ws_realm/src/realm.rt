//! A realm.
ghost use Rattle.std.specs.Prelude.{◌≡◌, ◌+◌, ◌<◌, ◌≤◌, ◌≢◌, ◌↔◌, ◌^◌, true, false, not, length, option_map, IsOk, IfOk, OnOk, IfErr, OnErr, Ok, Err, Some, None, IsErrAnd, if◌then◌else◌};
ghost use Rattle.ws_steps.specs.Promises as table;
ghost use Rattle.ws_steps.specs.declared.calls.Answer.TheVariants as answer;
ghost use Rattle.ws_steps.specs.declared.calls.Call.TheVariants as call;
ghost use Rattle.ws_steps.specs.declared.calls.Reply.TheVariants as reply;
ghost use Rattle.ws_steps.specs.declared.calls.Thrown.{Thrown};
ghost use Rattle.ws_steps.specs.Laws.{errs};
ghost use Rattle.ws_steps.specs.Queues.{is_empty};
ghost use Rattle.ws_steps.specs.Run as run;
ghost use Rattle.ws_steps.specs.Slots.{empty, is_live, pair_at};
ghost use Rattle.ws_alike.specs.Alike.{Alike, EachKeptIsNeeded, kept, trim};
ghost use Rattle.ws_realm.specs.Seen.{StopsWithin, outcome_named, oldest};
ghost use Rattle.ws_realm.specs.declared.realm.Why.TheVariants as why;

use std::alloc::Global;
use std::marker::Model;
use ws_calls::{
    count_places, enqueue_at_hand, perform_at_hand, perform_call, perform_enqueue, perform_job,
    settle_done,
};
use ws_prepare::{prepare, prepare_work};
use ws_steps::{Call, Event, Reply};
use ws_tables::Tables;
use ws_value::{
    HostId, Message, NoMemory, Outcome, Plain, PortId, PromiseId, StreamId, TeeId, Value,
};

/// The most calls and jobs of a realm.
const OLDEST: u64 = 1 << 62;

/// Why a realm performs nothing.
#[derive(Clone, Copy, PartialEq, Eq)]
pub enum Why {
    /// The memory that the call or job can need couldn't be had.
    NoMemory,
    /// The realm performed 2^62 calls and jobs.
    Spent,
}

/// A refusal by `Realm::call`, for want of memory or because the realm is spent: the call, which is handed back (it is
/// always there), and the cause.
#[derive(Drop)]
pub struct NoRoom {
    pub call: Option<Call>,
    pub why: Why,
}

/// A realm of readable, writable and transform streams, with their readers and writers, the BYOB requests of byte
/// streams, its tees, its message ports, its pipes and signals, its promises, its one job queue, and what its host
/// hasn't heard of yet. It is seen as its slots, and whether all memory was taken that the next call or job can need.
pub struct Realm {
    tables: Tables,
    prepared: bool,
    /// For how many of the jobs that each chunk meets places were found.
    places: u32,
}

// A derived drop is written out, field by field, at each place where a realm may be dropped. This one is called there.
impl Drop for Realm {
    fn drop(self) {
        let Realm {
            tables: _,
            prepared: _,
            places: _,
        } = self;
    }
}

impl Model for Realm {
    ghost use Rattle.std.specs.Prelude.{◌≡◌, ◌≤◌, ◌<◌, ◌^◌, true};
    ghost use Rattle.ws_calls.specs.Credit.{AreFound};
    ghost use Rattle.ws_tables.specs.Room.{IsPrepared, IsResting};
    ghost use Rattle.ws_realm.specs.Seen.{SeenRealm};
    ghost use Rattle.ws_tables.specs.View.{slots_of};

    ghost Value = { SeenRealm };

    ghost view = { λ r. record { slots = slots_of r.tables; prepared = r.prepared } };

    // Between calls and jobs no effect waits.
    ghost invariant = { λ r. IsResting r.tables × (r.tables.age ≤ 2 ^ 62)
        × (r.prepared ≡ true → IsPrepared r.tables × (r.tables.age < 2 ^ 62))
        × AreFound r.places r.tables };
}

impl Realm {
    /// A new realm.
    pub fn make(alloc: Global) -> Result<Realm, NoMemory>
        ensures { IfOk result (λ realm. realm.slots ≡ empty) }
    {
        Ok(Realm {
            tables: Tables::make(alloc)?,
            prepared: false,
            places: 0,
        })
    }

    /// Takes all memory that the next call or job can need, whichever it is: after Ok that one is performed without
    /// taking any. For each byte stream whose controller allocates rooms that includes one room, which the next read
    /// may use, and for each tee a second copy of the chunk that it holds. A refusal changes nothing.
    pub fn prepare(&mut self) -> Result<(), Why>
        ensures slots { self.new.slots ≡ self.old.slots }
        ensures ready { OnOk result (self.new.prepared ≡ true) }
        ensures spent { (result ≡ Err why.Spent) ↔ (self.old.slots.age ≡ oldest) }
        ensures refused { OnErr result (self.new ≡ self.old) }
        ensures prepared { self.old.prepared ≡ true → IsOk result }
    {
        if self.prepared {
            return Ok(());
        }
        if self.tables.age == OLDEST {
            return Err(Why::Spent);
        }
        self.places = 0;
        match prepare(&mut self.tables) {
            Ok(()) => {
                self.prepared = true;
                Ok(())
            }
            Err(NoMemory) => Err(Why::NoMemory),
        }
    }

    /// Performs a call with all that it causes, and watches the promise that it answers. One that throws changes
    /// nothing, but for the close of a byte stream in whose first descriptor a part of an element was filled: that
    /// errors the stream. A call that is refused is handed back, and nothing changes.
    pub fn call(&mut self, call: Call) -> Result<Reply, NoRoom>
        ensures reply { IfOk result (λ reply. reply ≡ run.reply_to call self.old.slots) }
        ensures slots { OnOk result (self.new.slots ≡ run.after_call call self.old.slots) }
        ensures throws { (t : Thrown) → errs call self.old.slots ≡ false → result ≡ Ok (reply.Throws t)
            → self.new.slots ≡ run.older self.old.slots }
        ensures spent { IsErrAnd result (λ refused. refused.why ≡ why.Spent) ↔ (self.old.slots.age ≡ oldest) }
        ensures handed_back { IfErr result (λ refused. refused.call ≡ Some call) }
        ensures untouched { OnErr result (self.new ≡ self.old) }
        ensures prepared { self.old.prepared ≡ true → IsOk result }
    {
        if let Err(why) = self.prepare() {
            return Err(NoRoom {
                call: Some(call),
                why,
            });
        }
        self.prepared = false;
        self.places = 0;
        Ok(perform_call(&mut self.tables, call))
    }

    /// Performs `Call::Enqueue` without making a call and a reply of it, as each chunk meets it. Whether the stream
    /// took the chunk: it doesn't where the call throws. A refusal changes nothing and drops the chunk: who would have
    /// it back makes the call, or prepares before.
    pub fn enqueue(&mut self, i: StreamId, chunk: Value) -> Result<bool, Why>
        ensures done { IfOk result (λ done.
            (done ≡ true) ↔ (run.reply_to (call.Enqueue i chunk) self.old.slots ≡ reply.Done)) }
        ensures slots { OnOk result (self.new.slots ≡ run.after_call (call.Enqueue i chunk) self.old.slots) }
        ensures spent { (result ≡ Err why.Spent) ↔ (self.old.slots.age ≡ oldest) }
        ensures untouched { OnErr result (self.new ≡ self.old) }
        ensures prepared { self.old.prepared ≡ true → IsOk result }
    {
        if self.tables.age == OLDEST {
            return Err(Why::Spent);
        }
        if self.places == 0 {
            self.find_places();
        }
        match enqueue_at_hand(&mut self.tables, i, chunk, self.places) {
            Ok(left) => {
                self.prepared = false;
                self.places = left;
                Ok(true)
            }
            Err(chunk) => self.enqueue_prepared(i, chunk),
        }
    }

    /// Looks for how many jobs there are places.
    #[inline(never)]
    fn find_places(&mut self)
        ensures { self.new ≡ self.old }
    {
        self.places = count_places(&self.tables);
    }

    /// The same, by a look for the places of this one alone.
    #[inline(never)]
    fn enqueue_prepared(&mut self, i: StreamId, chunk: Value) -> Result<bool, Why>
        requires young { self.old.slots.age < oldest }
        ensures done { IfOk result (λ done.
            (done ≡ true) ↔ (run.reply_to (call.Enqueue i chunk) self.old.slots ≡ reply.Done)) }
        ensures slots { OnOk result (self.new.slots ≡ run.after_call (call.Enqueue i chunk) self.old.slots) }
        ensures wanting { IfErr result (λ refused. refused ≡ why.NoMemory) }
        ensures untouched { OnErr result (self.new ≡ self.old) }
        ensures prepared { self.old.prepared ≡ true → IsOk result }
    {
        self.places = 0;
        if let Err(NoMemory) = prepare_work(&mut self.tables, self.prepared) {
            return Err(Why::NoMemory);
        }
        self.prepared = false;
        Ok(perform_enqueue(&mut self.tables, i, chunk))
    }

    /// Performs `Call::Deliver`, as each message of a port meets it. Whether there is such a port: else the call
    /// throws. What is delivered to one that isn't entangled any more reaches nothing. A refusal changes nothing and
    /// drops the message: who would have it back makes the call, or prepares before.
    pub fn deliver(&mut self, c: PortId, message: Message) -> Result<bool, Why>
        ensures done { IfOk result (λ done.
            (done ≡ true) ↔ (run.reply_to (call.Deliver c message) self.old.slots ≡ reply.Done)) }
        ensures slots { OnOk result (self.new.slots ≡ run.after_call (call.Deliver c message) self.old.slots) }
        ensures spent { (result ≡ Err why.Spent) ↔ (self.old.slots.age ≡ oldest) }
        ensures untouched { OnErr result (self.new ≡ self.old) }
        ensures prepared { self.old.prepared ≡ true → IsOk result }
    {
        self.prepare()?;
        self.prepared = false;
        self.places = 0;
        Ok(matches!(
            perform_call(&mut self.tables, Call::Deliver(c, message)),
            Reply::Done
        ))
    }

    /// Performs `Call::Settle` with `Answer::Ok` without making a call and a reply of it, as each chunk meets it.
    /// Whether the host had been asked so, and hadn't answered: else the call throws. It takes no memory, so the one
    /// refusal is that of a spent realm, which changes nothing.
    pub fn settle_done(&mut self, h: HostId) -> Result<bool, Why>
        ensures done { IfOk result (λ done.
            (done ≡ true) ↔ (run.reply_to (call.Settle h answer.Ok) self.old.slots ≡ reply.Done)) }
        ensures slots { OnOk result (self.new.slots ≡ run.after_call (call.Settle h answer.Ok) self.old.slots) }
        ensures spent { (result ≡ Err why.Spent) ↔ (self.old.slots.age ≡ oldest) }
        ensures alone { IfErr result (λ refused. refused ≡ why.Spent) }
        ensures untouched { OnErr result (self.new ≡ self.old) }
    {
        if self.tables.age == OLDEST {
            return Err(Why::Spent);
        }
        self.prepared = false;
        Ok(settle_done(&mut self.tables, h))
    }

    /// Performs the first job with all that it causes. False says that no job is queued, and then no memory is taken.
    /// A refusal changes nothing.
    #[inline(always)]
    pub fn job(&mut self) -> Result<bool, Why>
        ensures worked { IfOk result (λ worked. worked ≡ not (run.is_idle self.old.slots)) }
        ensures slots { OnOk result (self.new.slots
            ≡ (if run.is_idle self.old.slots then self.old.slots else run.after_job self.old.slots)) }
        ensures spent { (result ≡ Err why.Spent) ↔ (self.old.slots.age ≡ oldest) }
        ensures idle { self.old.slots.age < oldest → run.is_idle self.old.slots ≡ true → result ≡ Ok false }
        ensures untouched { OnErr result (self.new ≡ self.old) }
        ensures prepared { self.old.prepared ≡ true → IsOk result }
    {
        if self.tables.age == OLDEST {
            return Err(Why::Spent);
        }
        if self.queued() == 0 {
            return Ok(false);
        }
        if self.places == 0 {
            self.find_places();
        }
        match perform_at_hand(&mut self.tables, self.places) {
            Some(left) => {
                self.prepared = false;
                self.places = left;
                Ok(true)
            }
            None => self.job_prepared(),
        }
    }

    /// The same, by a look for the places of this one alone.
    #[inline(never)]
    fn job_prepared(&mut self) -> Result<bool, Why>
        requires young { self.old.slots.age < oldest }
        ensures worked { IfOk result (λ worked. worked ≡ not (run.is_idle self.old.slots)) }
        ensures slots { OnOk result (self.new.slots
            ≡ (if run.is_idle self.old.slots then self.old.slots else run.after_job self.old.slots)) }
        ensures wanting { IfErr result (λ refused. refused ≡ why.NoMemory) }
        ensures untouched { OnErr result (self.new ≡ self.old) }
        ensures prepared { self.old.prepared ≡ true → IsOk result }
    {
        self.places = 0;
        if let Err(NoMemory) = prepare_work(&mut self.tables, self.prepared) {
            return Err(Why::NoMemory);
        }
        self.prepared = false;
        Ok(perform_job(&mut self.tables))
    }

    /// Performs jobs until none is queued, or `most` were. One that is queued may be refused: then those before it
    /// were performed whole, and it changes nothing, so what the host hasn't heard of waits still.
    pub fn work(&mut self, most: u32) -> Result<(), Why>
        ensures slots { OnOk result (self.new.slots ≡ run.work most self.old.slots) }
        ensures partly { OnErr result (StopsWithin most self.old self.new) }
        ensures spent { OnErr result ((result ≡ Err why.Spent) ↔ (self.new.slots.age ≡ oldest)) }
        ensures early { self.old.slots.age + most ≤ oldest → result ≢ Err why.Spent }
    {
        for _done in 0..most {
            if self.queued() == 0 {
                return Ok(());
            }
            self.job()?;
        }
        Ok(())
    }

    /// The state of `p` with its result: none says that no reply has named `p`. One that a reply has named stays as long
    /// as its realm.
    pub fn outcome(&self, p: PromiseId) -> Option<&Outcome>
        ensures { option_map (λ outcome. outcome.now) result ≡ outcome_named p self.now.slots }
    {
        match self.tables.promises.rank(p) {
            Some(_rank) => Some(self.tables.promises.outcome(p)),
            None => None,
        }
    }

    /// How many calls and jobs were performed.
    pub fn age(&self) -> u64
        ensures { result ≡ self.now.slots.age }
    {
        self.tables.age
    }

    /// How many jobs are queued.
    pub fn queued(&self) -> u64
        ensures { result ≡ length self.now.slots.promises.jobs }
    {
        self.tables.promises.queued() as u64
    }

    /// How many promises the realm keeps: all but those that were fulfilled with undefined while nobody watched them,
    /// and those that `tidy` released.
    pub fn kept(&self) -> u64
        ensures { result ≡ kept self.now.slots }
    {
        self.tables.promises.kept() as u64
    }

    /// Releases each promise that isn't needed: one that has settled, that no reply has named, and that no record, job
    /// or reaction names. It takes no memory, and the slots stay alike.
    pub fn tidy(&mut self)
        ensures slots { self.new.slots ≡ trim self.old.slots }
        ensures alike { Alike self.old.slots self.new.slots }
        ensures needed { EachKeptIsNeeded self.new.slots }
        ensures prepared { self.new.prepared ≡ self.old.prepared }
    {
        self.tables.tidy();
    }

    /// Whether there is something that the host hasn't heard of yet.
    pub fn has_event(&self) -> bool
        ensures { result ≡ not (is_empty self.now.slots.promises.events) }
    {
        self.tables.promises.has_event()
    }

    /// How many promises became watched before `p`: none says that no reply has named `p`.
    pub fn rank(&self, p: PromiseId) -> Option<u64>
        ensures { result ≡ table.rank_at self.now.slots.promises p }
    {
        self.tables.promises.rank(p)
    }

    /// The two reasons that tee `t` keeps, which `Plain::Pair` names: none says that there is no such tee, or that not
    /// both of its branches were cancelled yet.
    pub fn pair(&self, t: TeeId) -> Option<(Plain, Plain)>
        ensures { result ≡ pair_at t self.now.slots }
    {
        self.tables.pair(t)
    }

    /// Whether there is a port `c` and it is entangled: what its stream tells is posted, and what is delivered to it
    /// reaches the stream.
    pub fn live(&self, c: PortId) -> bool
        ensures { result ≡ is_live c self.now.slots }
    {
        self.tables.is_live(c)
    }

    /// Takes out what the host hears of next.
    pub fn next_event(&mut self) -> Option<Event>
        ensures event { result ≡ run.first_event self.old.slots.promises.events }
        ensures slots { self.new.slots ≡ run.after_event self.old.slots }
        ensures prepared { self.new.prepared ≡ self.old.prepared }
    {
        self.tables.promises.next_event()
    }
}
