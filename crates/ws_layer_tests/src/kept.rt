//! How many promises the realm of a run keeps after each of its turns.
ghost use Rattle.ws_node.specs.Opening.{IsAccepted};

use std::alloc::Global;
use std::test::Fail;
use ws_io::{MemSink, MemSource, Status};
use ws_node::{Turn, Whole};
use ws_plan::read_plan;
use ws_stages::{Plan, check};
use ws_value::NoMemory;

/// More promises than one link needs: fewer than ten are named by each of its two streams, and by its pipe with what
/// waits there.
const MOST_OF_A_LINK: u64 = 30;

/// A run and how it ends: its plan; its input, which is so many bytes in lines of eight, and what comes after them; how
/// many bytes a read gives; and the calls that fail.
#[derive(Clone, Copy)]
struct Case {
    plan: &'static [u8],
    bytes: usize,
    end: &'static [u8],
    read: u64,
    failed_reads: &'static [u64],
    failed_writes: &'static [u64],
    failed_finishes: &'static [u64],
    status: Status,
}

/// A copy of 125 chunks.
const COPY: Case = Case {
    plan: b"version = 1\n",
    bytes: 8000,
    end: b"",
    read: 64,
    failed_reads: &[],
    failed_writes: &[],
    failed_finishes: &[],
    status: Status::Done,
};

/// A thousand lines with their numbers.
const NUMBERED: Case = Case {
    plan: b"version = 1\n[[stage]]\nkind = \"lines\"\n[[stage]]\nkind = \"number\"\n",
    ..COPY
};

static CASES: [Case; 14] = [
    COPY,
    Case {
        failed_reads: &[90],
        status: Status::ReadFault,
        ..COPY
    },
    Case {
        failed_writes: &[70],
        status: Status::WriteFault,
        ..COPY
    },
    Case {
        failed_finishes: &[1],
        status: Status::WriteFault,
        ..COPY
    },
    Case {
        plan: b"version = 1\nmax_input = 3000\n",
        status: Status::TooMuch,
        ..COPY
    },
    NUMBERED,
    Case {
        failed_reads: &[90],
        status: Status::ReadFault,
        ..NUMBERED
    },
    Case {
        failed_writes: &[300],
        status: Status::WriteFault,
        ..NUMBERED
    },
    Case {
        failed_finishes: &[1],
        status: Status::WriteFault,
        ..NUMBERED
    },
    Case {
        plan: b"version = 1\nabort_after = 3000\n[[stage]]\nkind = \"lines\"\n",
        status: Status::Aborted,
        ..COPY
    },
    // The last line is too long for the first stage.
    Case {
        plan: b"version = 1\n[[stage]]\nkind = \"lines\"\nmax = 7\n\
            [[stage]]\nkind = \"hex\"\n[[stage]]\nkind = \"number\"\n",
        end: b"aaaaaaaa",
        status: Status::Stage {
            index: 1,
            code: 1,
            place: 8007,
        },
        ..COPY
    },
    // The second stage, and then the third, gets a byte that isn't hexadecimal.
    Case {
        plan: b"version = 1\n[[stage]]\nkind = \"lines\"\n[[stage]]\nkind = \"unhex\"\n[[stage]]\nkind = \"hex\"\n",
        end: b"zz",
        status: Status::Stage {
            index: 2,
            code: 2,
            place: 8000,
        },
        ..COPY
    },
    Case {
        plan: b"version = 1\n[[stage]]\nkind = \"lines\"\n\
            [[stage]]\nkind = \"mask\"\nkey = \"00\"\n[[stage]]\nkind = \"unhex\"\n",
        end: b"zz",
        status: Status::Stage {
            index: 3,
            code: 2,
            place: 8000,
        },
        ..COPY
    },
    // One digit too few at the end of the third.
    Case {
        plan: b"version = 1\n[[stage]]\nkind = \"lines\"\n\
            [[stage]]\nkind = \"mask\"\nkey = \"00\"\n[[stage]]\nkind = \"unhex\"\n",
        end: b"a",
        status: Status::Stage {
            index: 3,
            code: 3,
            place: 8001,
        },
        ..COPY
    },
];

/// A copy of a million chunks.
const LONG: Case = Case {
    bytes: 1_000_000,
    read: 1,
    ..COPY
};

/// What is read.
fn text(alloc: Global, case: &Case) -> Result<Vec<u8>, NoMemory> {
    let mut text = Vec::new(alloc);
    for place in 0..case.bytes {
        text.push(if place % 8 == 7 { b'\n' } else { b'a' })?;
    }
    text.extend_from_slice(case.end)?;
    Ok(text)
}

/// Whether the run ends so, and keeps few promises after each turn.
fn keeps_few(alloc: Global, plan: &Plan, case: &Case) -> Result<bool, NoMemory>
    requires { IsAccepted plan.now }
{
    let text = text(alloc, case)?;
    let mut input = MemSource::make(alloc, &text, &[case.read.max(1)], case.failed_reads)?;
    let room = text.len().saturating_mul(4);
    let mut output = MemSink::make(alloc, room, &[50], case.failed_writes, case.failed_finishes)?;
    let mut whole = Whole::make(alloc, plan)?;
    let links = (plan.stages.len() as u64).saturating_add(1);
    for _ in 0..10_000_000 {
        let turn = whole.turn(alloc, &mut input, &mut output);
        if whole.kept() > links.saturating_mul(MOST_OF_A_LINK) {
            return Ok(false);
        }
        if turn == Turn::Ended {
            return Ok(whole.status() == Some(case.status));
        }
    }
    Ok(false)
}

/// The same of a plan that is accepted.
fn holds(alloc: Global, case: &Case) -> Result<bool, NoMemory> {
    let Ok(plan) = read_plan(alloc, case.plan) else {
        return Ok(false);
    };
    if check(&plan).is_err() {
        return Ok(false);
    }
    keeps_few(alloc, &plan, case)
}

/// That a run keeps few promises after each turn, well and wherever it fails.
#[test]
fn few_promises_are_kept(rt: HostRuntime) -> Result<(), Fail> {
    for (number, case) in CASES.iter().enumerate() {
        let holds = holds(rt.alloc(), case)?;
        assert!(rt; holds, "case {number}");
    }
    Ok(())
}

/// That it does however long it goes on. With checks, as `rt try` builds it, that takes many minutes.
#[test]
fn a_million_chunks_leave_few_promises(rt: HostRuntime) -> Result<(), Fail> {
    let holds = holds(rt.alloc(), &LONG)?;
    assert!(rt; holds);
    Ok(())
}
