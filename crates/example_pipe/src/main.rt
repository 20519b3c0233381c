//! An example of a realm: three lines go from a readable stream by a pipe into a writable one, whose host prints them.
#![tactic(auto)]

use std::alloc::Global;
use std::io::{self, Write};
use ws_realm::{
    Call, Chunk, Event, HostCall, NoMemory, NoRoom, Outcome, Plain, Prevent, PromiseId, Realm,
    Reply, SizeBy, StartBy, StreamId, Value, Why,
};

/// What the source has to give.
const LINES: [&'static str; 3] = ["one\n", "two\n", "three\n"];

/// How many events the host hears of at most: some two for each line, and a few for the start and the end.
const MOST_EVENTS: u32 = 100;

/// How many jobs may follow from what the host does at one event.
const MOST_JOBS: u32 = 1000;

/// Why the example ends early.
#[derive(Debug, Drop)]
enum Failed {
    /// Memory couldn't be had, or the realm has performed all the calls that it may.
    Refused,
    /// A call wasn't answered as it is to be.
    Answered,
    Output(io::Error),
}

impl From<NoMemory> for Failed {
    fn from(_: NoMemory) -> Failed {
        Failed::Refused
    }
}

impl From<Why> for Failed {
    fn from(_: Why) -> Failed {
        Failed::Refused
    }
}

impl From<NoRoom> for Failed {
    fn from(_: NoRoom) -> Failed {
        Failed::Refused
    }
}

impl From<io::Error> for Failed {
    fn from(error: io::Error) -> Failed {
        Failed::Output(error)
    }
}

/// The stream that a call makes.
fn made(realm: &mut Realm, call: Call) -> Result<StreamId, Failed> {
    match realm.call(call)? {
        Reply::Made(stream) => Ok(stream),
        _ => Err(Failed::Answered),
    }
}

/// Pipes one stream into the other, and gives the promise of the pipe.
fn piped(realm: &mut Realm, source: StreamId, dest: StreamId) -> Result<PromiseId, Failed> {
    let prevent = Prevent {
        close: false,
        abort: false,
        cancel: false,
    };
    let call = Call::Pipe {
        source,
        dest,
        prevent,
        signal: None,
    };
    match realm.call(call)? {
        Reply::Promise(promise) => Ok(promise),
        _ => Err(Failed::Answered),
    }
}

/// A pull of the source: it gives the line of this number, or its end behind the last.
fn give(realm: &mut Realm, alloc: Global, source: StreamId, number: usize) -> Result<(), Failed> {
    match LINES.get(number) {
        Some(line) => {
            let chunk = Chunk::of(alloc, line.as_bytes())?;
            realm.enqueue(source, Value::Bytes(chunk))?;
        }
        None => {
            realm.call(Call::Finish(source))?;
        }
    }
    Ok(())
}

/// Does what one call of an algorithm asks of the host.
fn answer(
    realm: &mut Realm,
    alloc: Global,
    output: &mut impl Write,
    given: &mut usize,
    call: &HostCall,
) -> Result<(), Failed> {
    match call {
        HostCall::Pull(source) => {
            give(realm, alloc, *source, *given)?;
            *given = given.saturating_add(1);
        }
        HostCall::Write(_, Value::Bytes(chunk)) => output.write_all(chunk.as_slice())?,
        _ => {}
    }
    Ok(())
}

/// Performs jobs, and what the realm tells its host, until there is neither.
fn go_on(realm: &mut Realm, alloc: Global, output: &mut impl Write) -> Result<(), Failed> {
    let mut given = 0;
    for _ in 0..MOST_EVENTS {
        realm.work(MOST_JOBS)?;
        let Some(event) = realm.next_event() else {
            return Ok(());
        };
        if let Event::Host { id, call } = &event {
            answer(realm, alloc, output, &mut given, call)?;
            realm.settle_done(*id)?;
        }
    }
    Ok(())
}

fn main(rt: HostRuntime) -> Result<(), Failed> {
    let alloc = rt.alloc();
    let mut realm = Realm::make(alloc)?;
    let source = made(
        &mut realm,
        Call::MakeReadable {
            hwm: 0,
            size: SizeBy::Count,
            start: StartBy::Now,
        },
    )?;
    let dest = made(
        &mut realm,
        Call::MakeWritable {
            hwm: 1,
            size: SizeBy::Count,
            start: StartBy::Now,
        },
    )?;
    let promise = piped(&mut realm, source, dest)?;
    let mut output = rt.stdout();
    go_on(&mut realm, alloc, &mut output)?;
    if let Some(Outcome::Fulfilled(Plain::Undefined)) = realm.outcome(promise) {
        output.write_all(b"the pipe is fulfilled\n")?;
    }
    Ok(())
}
