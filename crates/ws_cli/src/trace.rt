//! The notes of a command: the edges of a traced run, and then the status.
ghost use Rattle.std.specs.Prelude.{◌≡◌, ◌+◌, ◌++◌, OnOk, codes};
ghost use Rattle.ws_io.specs.Faults.{HasCause};
ghost use Rattle.ws_io.specs.Gain.{Gains, KeepsTold};
ghost use Rattle.ws_io.specs.Notes.{text_of};
ghost use Rattle.ws_cli.specs.TraceText.{edge_text, line_text, mark_text, marks_text, trace_text};

use crate::numbers::write_number;
use ws_edge::Mark;
use ws_io::{Failed, Sink, write_whole};
use ws_runner::{EdgeTrace, Finished};

fn write_mark<E: Sink>(notes: &mut E, mark: &Mark) -> Result<(), Failed>
    ensures bytes { OnOk result (Gains (E.got notes.old) (E.got notes.new) (mark_text mark.now)) }
    ensures finished { KeepsTold (E.finished notes.old) (E.finished notes.new) }
    ensures cause { HasCause (E.faults notes.old) (E.faults notes.new) result }
{
    match mark {
        Mark::Pull => write_whole(notes, b" pull"),
        Mark::Chunk(length) => write_number(notes, b" c", *length),
        Mark::Close => write_whole(notes, b" close"),
        Mark::Error => write_whole(notes, b" error"),
    }
}

fn write_marks<E: Sink>(notes: &mut E, marks: &[Mark]) -> Result<(), Failed>
    ensures bytes { OnOk result (Gains (E.got notes.old) (E.got notes.new) (marks_text marks.now)) }
    ensures finished { KeepsTold (E.finished notes.old) (E.finished notes.new) }
    ensures cause { HasCause (E.faults notes.old) (E.faults notes.new) result }
{
    for mark in marks {
        write_mark(notes, mark)?;
    }
    Ok(())
}

/// Writes the line of one way over an edge.
fn write_line<E: Sink>(
    notes: &mut E,
    number: u64,
    way: &[u8],
    marks: &[Mark],
    taken: u64,
) -> Result<(), Failed>
    ensures bytes { OnOk result (Gains (E.got notes.old) (E.got notes.new) (line_text number way.now marks.now taken)) }
    ensures finished { KeepsTold (E.finished notes.old) (E.finished notes.new) }
    ensures cause { HasCause (E.faults notes.old) (E.faults notes.new) result }
{
    write_number(notes, b"edge ", number)?;
    write_whole(notes, way)?;
    write_marks(notes, marks)?;
    write_number(notes, b" taken ", taken)?;
    write_whole(notes, b"\n")
}

fn write_edge<E: Sink>(notes: &mut E, number: u64, edge: &EdgeTrace) -> Result<(), Failed>
    ensures bytes { OnOk result (Gains (E.got notes.old) (E.got notes.new) (edge_text number edge.now)) }
    ensures finished { KeepsTold (E.finished notes.old) (E.finished notes.new) }
    ensures cause { HasCause (E.faults notes.old) (E.faults notes.new) result }
{
    write_line(notes, number, b" down", &edge.down, edge.down_taken)?;
    write_line(notes, number, b" up", &edge.up, edge.up_taken)
}

fn write_trace<E: Sink>(notes: &mut E, edges: &[EdgeTrace]) -> Result<(), Failed>
    ensures bytes { OnOk result (Gains (E.got notes.old) (E.got notes.new) (trace_text edges.now)) }
    ensures finished { KeepsTold (E.finished notes.old) (E.finished notes.new) }
    ensures cause { HasCause (E.faults notes.old) (E.faults notes.new) result }
{
    for (i, edge) in edges.iter().enumerate() {
        write_edge(notes, i as u64 + 1, edge)?;
    }
    Ok(())
}

/// Writes the lines of the edges, and then the text of the status, which takes no memory.
pub fn write_notes<E: Sink>(notes: &mut E, finished: &Finished) -> Result<(), Failed>
    ensures bytes { OnOk result (Gains (E.got notes.old) (E.got notes.new)
        (trace_text finished.now.edges.items ++ text_of finished.now.status)) }
    ensures finished { KeepsTold (E.finished notes.old) (E.finished notes.new) }
    ensures cause { HasCause (E.faults notes.old) (E.faults notes.new) result }
{
    write_trace(notes, &finished.edges)?;
    finished.status.write_text(notes)
}
