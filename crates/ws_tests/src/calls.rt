//! Calls of which a load, a read, a write, a finish or a note fails.
use crate::faults::FAULTS;
use crate::whole::{Said, perform};
use std::alloc::Global;
use std::sync::Wait;
use std::test::Fail;
use std::thread::Threads;
use ws_cli::ScriptRefused;
use ws_io::{MemSink, MemSource, Status, SteadySink, SteadySource};
use ws_value::NoMemory;

/// A call, how many bytes a read and a write move at most, the calls of its objects that fail, and what must come
/// of it.
#[derive(Clone, Copy)]
pub(crate) struct Case<'a> {
    pub(crate) said: Said<'a>,
    pub(crate) input: &'a [u8],
    pub(crate) most_read: u64,
    pub(crate) most_written: u64,
    pub(crate) failed_reads: &'a [u64],
    pub(crate) failed_writes: &'a [u64],
    pub(crate) failed_finishes: &'a [u64],
    pub(crate) failed_notes: &'a [u64],
    pub(crate) status: Status,
    /// What is written; of a pipeline whose input failed, a first part of it.
    pub(crate) written: &'a [u8],
    pub(crate) told: &'a [u8],
    /// How many reads are made, where that is told.
    pub(crate) reads: Option<u64>,
}

/// Whether all that must come of a call comes of it, in notes of five bytes.
fn holds<R: Threads + Wait + Sync>(rt: &R, alloc: Global, case: &Case) -> Result<bool, NoMemory> {
    let mut input = MemSource::make(
        alloc,
        case.input,
        &[case.most_read.max(1)],
        case.failed_reads,
    )?;
    let mut output = MemSink::make(
        alloc,
        case.written.len() + 16,
        &[case.most_written.max(1)],
        case.failed_writes,
        case.failed_finishes,
    )?;
    let mut notes = MemSink::make(alloc, 100, &[5], case.failed_notes, &[1])?;
    let status = perform(rt, alloc, case.said, &mut input, &mut output, &mut notes)?;
    let is_cut_short = case.status == Status::ReadFault && case.said.words.len() > 1;
    let is_written = if is_cut_short {
        case.written.starts_with(output.got())
    } else {
        output.got() == case.written
    };
    let are_read = match case.reads {
        Some(reads) => input.calls() == reads,
        None => true,
    };
    Ok(
        status == case.status
            && is_written
            && output.finished() == (case.status == Status::Done)
            && notes.got() == case.told
            && are_read,
    )
}

/// A copy of six bytes, of which the first call too many of each kind would fail.
const COPY: Case = Case {
    said: Said {
        words: &[b"run"],
        file: b"",
        failed_loads: &[1],
    },
    input: b"abcdef",
    most_read: 2,
    most_written: 2,
    failed_reads: &[5],
    failed_writes: &[4],
    failed_finishes: &[2],
    failed_notes: &[1],
    status: Status::Done,
    written: b"abcdef",
    told: b"",
    reads: Some(4),
};

/// A read that fails: all that was read before was written, and nothing more is read.
pub(crate) const FAILED_READ: Case = Case {
    failed_notes: &[],
    status: Status::ReadFault,
    told: b"read fault\n",
    ..COPY
};

pub(crate) const FAILED_WRITE: Case = Case {
    failed_notes: &[],
    status: Status::WriteFault,
    told: b"write fault\n",
    ..COPY
};

/// The words that run the file `p`, of which a second load would fail.
pub(crate) const RUN: Said = Said {
    words: &[b"run", b"p"],
    file: b"version = 1\n",
    failed_loads: &[2],
};

/// A pipeline whose second read fails, and whose finish would.
const PIPELINE: Case = Case {
    said: RUN,
    input: b"ab",
    most_written: 4096,
    failed_reads: &[2],
    failed_writes: &[],
    failed_finishes: &[1],
    written: b"ab",
    reads: Some(2),
    ..FAILED_READ
};

/// An input of three bytes in one read.
const LIMIT: Case = Case {
    input: b"abc",
    most_read: 4096,
    failed_reads: &[],
    failed_finishes: &[2],
    failed_notes: &[1],
    status: Status::Done,
    written: b"abc",
    told: b"",
    reads: None,
    ..PIPELINE
};

const TOO_MUCH: Case = Case {
    failed_notes: &[],
    status: Status::TooMuch,
    written: b"",
    told: b"input too long\n",
    ..LIMIT
};

/// Blocks whose writes fail.
const BLOCKS: Case = Case {
    said: Said {
        file: b"version = 1\n[[stage]]\nkind = \"fixed\"\nn = 4\n[[stage]]\nkind = \"hex\"\n[[stage]]\nkind = \"unhex\"\n",
        ..RUN
    },
    input: b"abcdefghijkl",
    failed_reads: &[],
    failed_writes: &[],
    failed_finishes: &[2],
    reads: None,
    ..FAILED_WRITE
};

/// A check, of which nothing is read.
const CHECK: Case = Case {
    said: Said {
        words: &[b"check", b"p"],
        ..RUN
    },
    failed_reads: &[1],
    failed_writes: &[],
    failed_finishes: &[],
    written: b"",
    reads: Some(0),
    ..FAILED_WRITE
};

pub(crate) const FAILED_LOAD: Case = Case {
    said: Said {
        words: &[b"check", b"p"],
        failed_loads: &[1],
        ..RUN
    },
    failed_writes: &[1],
    failed_finishes: &[1],
    status: Status::LoadFault,
    told: b"load fault\n",
    ..CHECK
};

/// A script, of which each read fails in turn before its bad line is told.
const SCRIPT: Case = Case {
    said: Said {
        words: &[b"script"],
        file: b"",
        failed_loads: &[1],
    },
    input: b"nothing\nat all\n",
    most_read: 7,
    most_written: 4096,
    failed_reads: &[4],
    failed_writes: &[1],
    failed_finishes: &[1],
    written: b"",
    ..FAILED_READ
};

const STEP: Case = Case {
    input: b"step",
    failed_reads: &[3],
    status: Status::WriteFault,
    told: b"write fault\n",
    reads: Some(2),
    ..SCRIPT
};

static CASES: [Case; 34] = [
    COPY,
    Case {
        input: b"",
        written: b"",
        failed_reads: &[2],
        reads: Some(1),
        ..COPY
    },
    // each read, each write, the finish and the notes fail in turn
    Case {
        failed_reads: &[1],
        written: b"",
        reads: Some(1),
        ..FAILED_READ
    },
    Case {
        failed_reads: &[2],
        written: b"ab",
        reads: Some(2),
        ..FAILED_READ
    },
    Case {
        failed_reads: &[3],
        written: b"abcd",
        reads: Some(3),
        ..FAILED_READ
    },
    Case {
        failed_reads: &[4],
        ..FAILED_READ
    },
    Case {
        failed_writes: &[1],
        written: b"",
        reads: Some(1),
        ..FAILED_WRITE
    },
    Case {
        failed_writes: &[2],
        written: b"ab",
        reads: Some(2),
        ..FAILED_WRITE
    },
    Case {
        failed_writes: &[3],
        written: b"abcd",
        reads: Some(3),
        ..FAILED_WRITE
    },
    Case {
        failed_finishes: &[1],
        ..FAILED_WRITE
    },
    Case {
        failed_reads: &[2],
        failed_notes: &[2],
        written: b"ab",
        told: b"read ",
        reads: Some(2),
        ..FAILED_READ
    },
    // the input of a pipeline
    PIPELINE,
    Case {
        said: Said {
            file: b"version = 1\nworkers = 2\n[[stage]]\nkind = \"lines\"\n[[stage]]\nkind = \"number\"\nworker = 2\n",
            ..RUN
        },
        input: b"abcdef",
        written: b"",
        ..PIPELINE
    },
    Case {
        said: Said {
            file: b"version = 1\n[[stage]]\nkind = \"hex\"\n[[stage]]\nkind = \"lines\"\n",
            ..RUN
        },
        written: b"6162",
        ..PIPELINE
    },
    Case {
        said: Said {
            file: b"version = 1\n[[stage]]\nkind = \"lines\"\n",
            ..RUN
        },
        ..PIPELINE
    },
    // the notes of a traced run, within the line of what went down the first edge
    Case {
        said: Said {
            words: &[b"run", b"--trace", b"p"],
            file: b"version = 1\nworkers = 1\n[[stage]]\nkind = \"hex\"\n",
            ..RUN
        },
        failed_notes: &[6],
        written: b"616263",
        told: b"edge 1 down c3",
        ..LIMIT
    },
    // the most bytes of input
    Case {
        said: Said {
            file: b"version = 1\nmax_input = 0\n",
            ..RUN
        },
        ..TOO_MUCH
    },
    Case {
        said: Said {
            file: b"version = 1\nmax_input = 2\n",
            ..RUN
        },
        ..TOO_MUCH
    },
    Case {
        said: Said {
            file: b"version = 1\nmax_input = 3\n",
            ..RUN
        },
        ..LIMIT
    },
    Case {
        said: Said {
            file: b"version = 1\nmax_input = 4\n",
            ..RUN
        },
        ..LIMIT
    },
    // a file, and the writes of its plan
    FAILED_LOAD,
    Case {
        said: Said {
            failed_loads: &[1],
            ..RUN
        },
        ..FAILED_LOAD
    },
    Case {
        said: Said {
            words: &[b"check", b"q"],
            ..RUN
        },
        ..FAILED_LOAD
    },
    Case {
        failed_writes: &[1],
        ..CHECK
    },
    Case {
        failed_writes: &[3],
        written: b"plan",
        ..CHECK
    },
    Case {
        failed_finishes: &[1],
        written: b"plan 1 workers 0 max_input 1099511627776\n",
        ..CHECK
    },
    // a script
    Case {
        failed_reads: &[1],
        reads: Some(1),
        ..SCRIPT
    },
    Case {
        failed_reads: &[2],
        reads: Some(2),
        ..SCRIPT
    },
    Case {
        failed_reads: &[3],
        reads: Some(3),
        ..SCRIPT
    },
    SCRIPT,
    Case {
        failed_reads: &[5],
        status: Status::Script(1),
        told: b"script refused 1\n",
        ..SCRIPT
    },
    STEP,
    Case {
        failed_writes: &[2],
        written: b"1 done\n",
        ..STEP
    },
    Case {
        failed_writes: &[],
        failed_finishes: &[2],
        failed_notes: &[1],
        status: Status::Done,
        written: b"1 done\n",
        told: b"",
        ..STEP
    },
];

/// Each write of two bytes fails in turn, and then the finish, whatever a read gives.
static FAILED_BLOCKS: [Case; 4] = [
    Case {
        failed_writes: &[1],
        written: b"",
        ..BLOCKS
    },
    Case {
        failed_writes: &[4],
        written: b"abcdef",
        ..BLOCKS
    },
    Case {
        failed_writes: &[6],
        written: b"abcdefghij",
        ..BLOCKS
    },
    Case {
        failed_finishes: &[1],
        written: b"abcdefghijkl",
        ..BLOCKS
    },
];

/// A text of steps whose seventeenth write fails has its first 65,536 bytes written by then.
fn are_parts_written<R: Threads + Wait + Sync>(rt: &R, alloc: Global) -> Result<bool, NoMemory> {
    let mut text = Vec::with_capacity(alloc, 16)?;
    for _ in 0..9000 {
        text.extend_from_slice(b"step\n")?;
    }
    let mut input = MemSource::make(alloc, &text, &[4096], &[])?;
    let mut output = MemSink::make(alloc, 65_536, &[4096], &[17], &[])?;
    let mut notes = MemSink::make(alloc, 16, &[5], &[], &[])?;
    let status = perform(rt, alloc, SCRIPT.said, &mut input, &mut output, &mut notes)?;
    Ok(
        status == Status::WriteFault
            && output.got().len() == 65_536
            && output.got().starts_with(b"1 done\n2 done\n"),
    )
}

/// How a copy ends between a source and a sink that don't fail.
fn steady_copy<R: Threads + Wait + Sync>(rt: &R, alloc: Global) -> Result<Status, NoMemory> {
    let mut input = SteadySource::make(alloc, b"abc", &[2])?;
    let mut output = SteadySink::make(alloc, &[2])?;
    let mut notes = SteadySink::make(alloc, &[1])?;
    perform(rt, alloc, COPY.said, &mut input, &mut output, &mut notes)
}

/// That nothing is read after a failed read or past the end, that the last bytes before a fault are written, that
/// notes that fail change nothing, that a script's text is written in parts as it grows, and a text of
/// `ScriptRefused`, which the program doesn't print.
#[test]
fn failing_calls(rt: HostRuntime) -> Result<(), Fail> {
    let alloc = rt.alloc();
    for (number, case) in CASES.iter().enumerate() {
        assert!(rt; holds(&rt, alloc, case)?, "case {number}");
    }
    for (number, case) in FAULTS.iter().enumerate() {
        assert!(rt; holds(&rt, alloc, case)?, "fault {number}");
    }
    for (number, case) in FAILED_BLOCKS.iter().enumerate() {
        for most_read in [1, 5, 4096] {
            let case = Case { most_read, ..*case };
            assert!(rt;
                holds(&rt, alloc, &case)?,
                "blocks {number}, reads of {most_read}"
            );
        }
    }
    assert!(rt; are_parts_written(&rt, alloc)?);
    assert!(rt; steady_copy(&rt, alloc)? == Status::Done);
    let text = format!(in alloc; "{}", ScriptRefused::BadLine(2))?;
    assert_eq!(rt; text.as_str(), "line 2 is outside the grammar");
    Ok(())
}
