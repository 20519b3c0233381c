//! The taking of memory before a call or a job.
ghost use Rattle.std.specs.Prelude.{◌≡◌, ◌+◌, ◌<◌, ◌≤◌, ◌^◌, true, IfSome, IsOk, OnOk, vec_len};
ghost use Rattle.ws_tables.specs.Room.{EachHasCopies, EachHasMembers, EachHasPlaces, HaveMembers, IsCopied, IsCovered, IsPrepared, IsReady, IsResting};
ghost use Rattle.ws_prepare.specs.declared.memory.TheConstants.{PLACES_FOR_ANY, PLACES_FOR_SEVERAL};
ghost use Rattle.ws_prepare.specs.Preparing.{HasMembersAt, HasNotes, HasPlacesAt, HasRecords, HasTurns, IsMade, MembersGrow, PlacesStay, StaysBesideAgenda, StaysBesideSignals, StaysBesideStreams, StaysBesideTees, base_places};
ghost use Rattle.ws_tables.specs.View.{slots_of};

use ws_tables::{LIST_PLACES, Stream, Tables};
use ws_value::{NoMemory, SignalId, StreamId};

/// How many places serve any list for each pipe that a signal would abort and for each tee: as many as the list that
/// needs the most, which is the agenda.
const PLACES_FOR_EACH: usize = 15;

/// And how many for what any call or job takes by itself.
const PLACES_FOR_ANY: usize = 34;

/// Where a job or an enqueuing finds fewer, more are made before it: so many serve sixteen of the jobs that each chunk
/// meets, one after another. Of the agenda these need 454, which `LEAST_PLACES` and `SPARE_TURNS` give it at once.
const PLACES_FOR_SEVERAL: usize = 230;

/// At least so many are made at once.
const LEAST_PLACES: usize = 512;

/// Where the agenda gets places, it gets so many more, so that it needn't be moved again where a few more read requests
/// wait.
const SPARE_TURNS: usize = 64;

/// Up to so many read requests, aborts and tees the places for them are reckoned without a look for an overflow.
const FEW: usize = 0x7fff_ffff;

/// How many places serve any list, beside those of read requests that wait.
fn base(tables: &Tables) -> Option<usize>
    ensures { IfSome result (λ n. n ≡ base_places tables.now) }
{
    let both = tables.aborts.checked_add(tables.tees.len())?;
    both.checked_mul(PLACES_FOR_EACH)?
        .checked_add(PLACES_FOR_ANY)
}

/// Whether no stream and no signal waits for places, and no tee for copies.
#[inline]
fn is_made(tables: &Tables) -> bool
    requires covered { IsCovered tables.now }
    requires members { HaveMembers tables.now }
    requires copied { IsCopied tables.now }
    ensures { result ≡ true → IsMade tables.now }
{
    if !tables.grown.is_empty() {
        return false;
    }
    if !tables.full.is_empty() {
        return false;
    }
    !tables.uncopied
}

/// Whether there are places for `turns` effects.
#[inline]
fn has_turns(tables: &Tables, turns: usize) -> bool
    ensures { result ≡ true → HasTurns turns tables.now }
{
    turns <= tables.caused.capacity()
        && turns <= tables.others.capacity()
        && turns <= tables.under_way.capacity()
}

/// Whether there are places for `n` hosts' answers, to note `n` streams that grew, and to note a signal.
#[inline]
fn has_notes(tables: &Tables, n: usize) -> bool
    ensures { result ≡ true → HasNotes n tables.now }
{
    n <= tables.hosts.capacity() - tables.hosts.len()
        && n <= tables.grown.capacity() - tables.grown.len()
        && tables.full.len() < tables.full.capacity()
}

/// Whether there are places for the records that a call can make.
#[inline]
fn has_records(tables: &Tables) -> bool
    ensures { result ≡ true → HasRecords tables.now }
{
    2 <= tables.locks.capacity() - tables.locks.len()
        && 2 <= tables.streams.capacity() - tables.streams.len()
        && tables.byob_requests.len() < tables.byob_requests.capacity()
        && tables.transforms.len() < tables.transforms.capacity()
        && tables.tees.len() < tables.tees.capacity()
        && tables.ports.len() < tables.ports.capacity()
        && tables.pipes.len() < tables.pipes.capacity()
        && tables.signals.len() < tables.signals.capacity()
}

/// Whether there is all memory for what the next call or job adds to the records that there are, and `base` places in
/// any list.
#[inline]
fn has_places(tables: &Tables, base: usize) -> bool
    requires resting { IsResting tables.now }
    requires base { base_places tables.now ≤ base }
    requires small { base + tables.now.waiting + tables.now.waiting < 2 ^ 64 }
    ensures { result ≡ true → IsReady tables.now }
{
    let jobs = base + tables.waiting;
    let turns = jobs + tables.waiting;
    if !is_made(tables) {
        return false;
    }
    if !has_turns(tables, turns) {
        return false;
    }
    if !tables.promises.has_room(base, jobs) {
        return false;
    }
    has_notes(tables, base)
}

/// Whether there is all memory for what the next call or job adds to the records that there are, and `any` places in
/// any list beside those for aborts and tees. Mostly no signal would abort a pipe and no tee is there.
#[inline]
fn is_ready(tables: &Tables, any: usize) -> bool
    requires resting { IsResting tables.now }
    requires least { PLACES_FOR_ANY ≤ any }
    requires few { any ≤ PLACES_FOR_SEVERAL }
    ensures { result ≡ true → IsReady tables.now }
{
    if tables.waiting > FEW {
        return false;
    }
    if tables.aborts == 0 && tables.tees.len() == 0 {
        return has_places(tables, any);
    }
    if tables.aborts > FEW || tables.tees.len() > FEW {
        return false;
    }
    let base = (tables.aborts + tables.tees.len()) * PLACES_FOR_EACH + any;
    has_places(tables, base)
}

/// Makes places in each list of the stream of this number, where there is one, and a room for a byte stream that
/// allocates rooms.
fn prepare_stream(tables: &mut Tables, i: StreamId) -> Result<(), NoMemory>
    ensures ok { OnOk result (HasPlacesAt i tables.new) }
    ensures places { PlacesStay tables.old.streams.items tables.new.streams.items }
    ensures slots { slots_of tables.new ≡ slots_of tables.old }
    ensures rest { StaysBesideStreams tables.old tables.new }
    ensures grown { tables.new.grown ≡ tables.old.grown }
{
    if tables.streams.len() <= i.0 as usize {
        return Ok(());
    }
    match &mut tables.streams[i.0 as usize] {
        Stream::Readable(stream) => stream.reserve(LIST_PLACES),
        Stream::Bytes(stream) => stream.reserve(LIST_PLACES),
        Stream::Writable(stream) => stream.reserve(LIST_PLACES),
    }
}

/// Makes places in each list of each stream that had fewer, and a room for each byte stream that allocates rooms
/// and had none.
fn prepare_streams(tables: &mut Tables) -> Result<(), NoMemory>
    requires covered { IsCovered tables.old }
    ensures ok { OnOk result (EachHasPlaces tables.new.streams.items) }
    ensures empty { OnOk result (vec_len tables.new.grown ≡ 0) }
    ensures covered { IsCovered tables.new }
    ensures slots { slots_of tables.new ≡ slots_of tables.old }
    ensures rest { StaysBesideStreams tables.old tables.new }
{
    while let Some(i) = tables.grown.pop() {
        if let Err(NoMemory) = prepare_stream(tables, i) {
            tables.grown.push_reserved(i);
            return Err(NoMemory);
        }
    }
    Ok(())
}

/// Makes a place in the list of the signal of this number, where there is one.
fn prepare_signal(tables: &mut Tables, a: SignalId) -> Result<(), NoMemory>
    ensures ok { OnOk result (HasMembersAt a tables.new) }
    ensures members { MembersGrow tables.old.signals.items tables.new.signals.items }
    ensures slots { slots_of tables.new ≡ slots_of tables.old }
    ensures rest { StaysBesideSignals tables.old tables.new }
    ensures full { tables.new.full ≡ tables.old.full }
{
    if tables.signals.len() as u128 <= a.0 {
        return Ok(());
    }
    tables.signals[a.0 as usize].reserve(1)
}

/// Makes a place in the list of each signal that had none.
fn prepare_signals(tables: &mut Tables) -> Result<(), NoMemory>
    requires members { HaveMembers tables.old }
    ensures ok { OnOk result (EachHasMembers 1 tables.new.signals.items) }
    ensures empty { OnOk result (vec_len tables.new.full ≡ 0) }
    ensures members { HaveMembers tables.new }
    ensures slots { slots_of tables.new ≡ slots_of tables.old }
    ensures rest { StaysBesideSignals tables.old tables.new }
{
    while let Some(a) = tables.full.pop() {
        if let Err(NoMemory) = prepare_signal(tables, a) {
            tables.full.push_reserved(a);
            return Err(NoMemory);
        }
    }
    Ok(())
}

/// Makes a second copy of each chunk that a tee holds, where there is none.
fn copy_chunks(tables: &mut Tables) -> Result<(), NoMemory>
    requires ready { IsCopied tables.old }
    ensures ok { OnOk result (EachHasCopies 1 tables.new.tees.items) }
    ensures ready { IsCopied tables.new }
    ensures slots { slots_of tables.new ≡ slots_of tables.old }
    ensures rest { StaysBesideTees tables.old tables.new }
{
    if !tables.uncopied {
        return Ok(());
    }
    let mut at = 0;
    while at < tables.tees.len() {
        tables.tees[at].prepare(tables.alloc)?;
        at += 1;
    }
    tables.uncopied = false;
    Ok(())
}

/// Makes places on the agenda for `turns` effects.
fn prepare_agenda(tables: &mut Tables, turns: usize) -> Result<(), NoMemory>
    requires resting { IsResting tables.old }
    ensures ok { OnOk result (HasTurns turns tables.new) }
    ensures slots { slots_of tables.new ≡ slots_of tables.old }
    ensures resting { IsResting tables.new }
    ensures rest { StaysBesideAgenda tables.old tables.new }
{
    if has_turns(tables, turns) {
        return Ok(());
    }
    let Some(many) = turns.checked_add(SPARE_TURNS) else {
        return Err(NoMemory);
    };
    tables.caused.reserve(many)?;
    tables.others.reserve(many)?;
    tables.under_way.reserve(many)?;
    Ok(())
}

/// Takes the memory that isn't there yet.
#[cold]
#[inline(never)]
fn take_all(tables: &mut Tables) -> Result<(), NoMemory>
    requires resting { IsResting tables.old }
    ensures ok { OnOk result (IsPrepared tables.new) }
    ensures slots { slots_of tables.new ≡ slots_of tables.old }
    ensures resting { IsResting tables.new }
{
    prepare_streams(tables)?;
    prepare_signals(tables)?;
    copy_chunks(tables)?;
    let Some(least) = base(tables) else {
        return Err(NoMemory);
    };
    let base = least.max(LEAST_PLACES);
    let Some(jobs) = base.checked_add(tables.waiting) else {
        return Err(NoMemory);
    };
    let Some(turns) = jobs.checked_add(tables.waiting) else {
        return Err(NoMemory);
    };
    prepare_agenda(tables, turns)?;
    tables.promises.reserve(base)?;
    tables.promises.reserve_jobs(jobs)?;
    tables.hosts.reserve(base)?;
    tables.byob_requests.reserve(1)?;
    tables.locks.reserve(2)?;
    tables.streams.reserve(2)?;
    tables.transforms.reserve(1)?;
    tables.tees.reserve(1)?;
    tables.ports.reserve(1)?;
    tables.pipes.reserve(1)?;
    tables.signals.reserve(1)?;
    tables.grown.reserve(base)?;
    tables.full.reserve(1)?;
    Ok(())
}

/// Takes all memory that the next call or job can need, whichever it is: what any takes by itself, the steps of
/// each read request that waits, the abort of each pipe by its signal, and the read and the cancel by each tee,
/// which gets a second copy of the chunk that it holds. `room` of the definitions has the numbers. Each byte
/// stream whose controller allocates rooms has one ready, for a call or job reads a stream once at most.
pub fn prepare(tables: &mut Tables) -> Result<(), NoMemory>
    requires resting { IsResting tables.old }
    ensures ok { OnOk result (IsPrepared tables.new) }
    ensures slots { slots_of tables.new ≡ slots_of tables.old }
    ensures resting { IsResting tables.new }
{
    if is_ready(tables, PLACES_FOR_ANY) && has_records(tables) {
        return Ok(());
    }
    take_all(tables)
}

/// Takes memory for several jobs. Where that can't be had, what is there may serve the next one.
#[cold]
#[inline(never)]
fn take_for_several(tables: &mut Tables) -> Result<(), NoMemory>
    requires resting { IsResting tables.old }
    ensures ok { OnOk result (IsReady tables.new) }
    ensures slots { slots_of tables.new ≡ slots_of tables.old }
    ensures resting { IsResting tables.new }
{
    match take_all(tables) {
        Err(NoMemory) if !is_ready(tables, PLACES_FOR_ANY) => Err(NoMemory),
        _ => Ok(()),
    }
}

/// Takes all memory that the next job can need, or the enqueuing of a chunk, unless it was taken for any call: neither
/// makes a record. Memory for several is taken at once.
#[inline]
pub fn prepare_work(tables: &mut Tables, prepared: bool) -> Result<(), NoMemory>
    requires resting { IsResting tables.old }
    requires prepared { prepared ≡ true → IsPrepared tables.old }
    ensures ok { OnOk result (IsReady tables.new) }
    ensures slots { slots_of tables.new ≡ slots_of tables.old }
    ensures resting { IsResting tables.new }
    ensures prepared { prepared ≡ true → IsOk result }
{
    if prepared || is_ready(tables, PLACES_FOR_SEVERAL) {
        return Ok(());
    }
    take_for_several(tables)
}
