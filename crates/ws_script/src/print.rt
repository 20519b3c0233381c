//! The printed text of one task.
ghost use Rattle.std.specs.Prelude.{◌≡◌, ◌++◌, IfOk, OnOk, OnErr};
ghost use Rattle.ws_steps.specs.Run.{heard};
ghost use Rattle.ws_script.specs.Printed.{rank_named, pair_named, event_text, events_text, step_text};
ghost use Rattle.ws_script.specs.Heard.{IsPartlyHeard};

use std::alloc::Global;
use ws_print::{
    print_again, print_host, print_post, print_reply, print_settled, print_signal, tee_in,
    tee_in_call, tee_in_outcome,
};
use ws_realm::Realm;
use ws_steps::{Event, Reply};
use ws_value::{Blob, NoMemory, Plain, TeeId};

/// Room for the lines of most tasks.
const ROOM: usize = 96;

/// The number in the name of the promise that a reply names.
fn rank_named(reply: &Reply, realm: &Realm) -> Option<u64>
    ensures { result ≡ rank_named reply.now realm.now.slots }
{
    match reply {
        Reply::Promise(promise) => realm.rank(*promise),
        Reply::Done => None,
        Reply::Made(_) => None,
        Reply::MadeTwo(_, _) => None,
        Reply::Lock(_) => None,
        Reply::Signal(_) => None,
        Reply::Port(_) => None,
        Reply::MadePort(_, _) => None,
        Reply::Request(_) => None,
        Reply::Size(_) => None,
        Reply::State(_) => None,
        Reply::Throws(_) => None,
        Reply::TooMany => None,
    }
}

/// The two reasons that a tee keeps, where an event tells these.
fn pair_named(realm: &Realm, tee: Option<TeeId>) -> Option<(Plain, Plain)>
    ensures { result ≡ pair_named realm.now.slots tee }
{
    realm.pair(tee?)
}

/// Appends the line of an event.
fn append_event(text: &mut Vec<u8>, realm: &Realm, event: Event) -> Result<(), NoMemory>
    ensures { OnOk result (text.new.items ≡ text.old.items ++ event_text realm.now.slots event) }
{
    match event {
        Event::Host { id, call } => {
            let pair = pair_named(realm, tee_in_call(&call));
            print_host(text, id, &call, pair)
        }
        Event::Settled(promise) => {
            let outcome = realm.outcome(promise);
            let pair = pair_named(realm, tee_in_outcome(outcome));
            print_settled(text, realm.rank(promise), outcome, pair)
        }
        Event::Signal { stream, reason } => {
            let pair = pair_named(realm, tee_in(reason));
            print_signal(text, stream, reason, pair)
        }
        Event::Post { port, message } => print_post(text, port, &message),
    }
}

/// Takes the events of a realm, and appends their lines.
fn append_events(text: &mut Vec<u8>, realm: &mut Realm) -> Result<(), NoMemory>
    ensures text { OnOk result (text.new.items
        ≡ text.old.items ++ events_text realm.old.slots realm.old.slots.promises.events) }
    ensures slots { OnOk result (realm.new.slots ≡ heard realm.old.slots) }
    ensures prepared { realm.new.prepared ≡ realm.old.prepared }
    ensures partly { IsPartlyHeard realm.old.slots realm.new.slots }
{
    while let Some(event) = realm.next_event() {
        append_event(text, realm, event)?;
    }
    Ok(())
}

/// The printed lines of one task, which takes the realm's events: the line's number with the reply, each event, and
/// `again` where a job is still queued. At `NoMemory` some of the first events may be taken, and nothing else changed.
pub fn print_step(
    alloc: Global,
    number: u32,
    reply: &Reply,
    realm: &mut Realm,
) -> Result<Blob, NoMemory>
    ensures text { IfOk result (λ text. text ≡ step_text number reply.now realm.old.slots) }
    ensures slots { OnOk result (realm.new.slots ≡ heard realm.old.slots) }
    ensures prepared { realm.new.prepared ≡ realm.old.prepared }
    ensures err { OnErr result (IsPartlyHeard realm.old.slots realm.new.slots) }
{
    let mut text = Vec::with_capacity(alloc, ROOM)?;
    print_reply(&mut text, number, reply, rank_named(reply, realm))?;
    append_events(&mut text, realm)?;
    print_again(&mut text, realm.queued() > 0)?;
    Ok(Blob::from_vec(text))
}
