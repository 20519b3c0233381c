ghost use Rattle.std.specs.Prelude.{◌≡◌, ◌++◌, codes};
ghost use Rattle.ws_io.specs.Faults.{HasCause};
ghost use Rattle.ws_io.specs.Gain.{KeepsTold};
ghost use Rattle.ws_io.specs.Notes.{number_of, text_of};
ghost use Rattle.ws_io.specs.Written.{WroteFirst};

use crate::{Failed, Sink, write_whole};
use itoa::{Buffer, Integer};

/// How a command ended.
#[derive(Clone, Copy, PartialEq, Eq)]
pub enum Status {
    /// The run, script or check is complete.
    Done,

    /// The stage of this index, from 1, is bad, with its own code, at this place, from 0, of its own input.
    Stage { index: u32, code: u8, place: u128 },

    /// The words have none of the program's forms.
    Usage,

    /// The plan was refused, by the number of the refusal.
    Plan(u8),

    ReadFault,
    WriteFault,

    /// The plan's own abort was reached.
    Aborted,

    NoMemory,

    /// The line of this number was refused, or at 0 the script is too long.
    Script(u32),

    LoadFault,

    /// More bytes were taken than the plan's most.
    TooMuch,
}

/// Writes words and a number in decimal.
fn write_number<E: Sink, I: Integer>(notes: &mut E, words: &[u8], number: I) -> Result<(), Failed>
    ensures bytes { WroteFirst (E.got notes.old) (E.got notes.new) result (words.now ++ I.text number) }
    ensures finished { KeepsTold (E.finished notes.old) (E.finished notes.new) }
    ensures begun { E.begun notes.new ≡ E.begun notes.old }
    ensures cause { HasCause (E.faults notes.old) (E.faults notes.new) result }
{
    write_whole(notes, words)?;
    write_whole(notes, Buffer::new().format(number).as_bytes())
}

/// Writes words, a number in decimal and a line feed.
fn write_line<E: Sink, I: Integer>(notes: &mut E, words: &[u8], number: I) -> Result<(), Failed>
    ensures bytes { WroteFirst (E.got notes.old) (E.got notes.new) result (words.now ++ I.text number ++ codes "\n") }
    ensures finished { KeepsTold (E.finished notes.old) (E.finished notes.new) }
    ensures begun { E.begun notes.new ≡ E.begun notes.old }
    ensures cause { HasCause (E.faults notes.old) (E.faults notes.new) result }
{
    write_number(notes, words, number)?;
    write_whole(notes, b"\n")
}

/// Writes the text of a stage that ended badly.
fn write_stage<E: Sink>(notes: &mut E, index: u32, code: u8, place: u128) -> Result<(), Failed>
    ensures bytes { WroteFirst (E.got notes.old) (E.got notes.new) result (text_of (Status.Stage index code place)) }
    ensures finished { KeepsTold (E.finished notes.old) (E.finished notes.new) }
    ensures begun { E.begun notes.new ≡ E.begun notes.old }
    ensures cause { HasCause (E.faults notes.old) (E.faults notes.new) result }
{
    write_number(notes, b"stage ", index)?;
    write_number(notes, b" code ", code)?;
    write_line(notes, b" place ", place)
}

impl Status {
    /// The exit status of the program.
    pub fn number(&self) -> u8
        ensures { result ≡ number_of self.now }
    {
        match self {
            Status::Done => 0,
            Status::Stage { .. } => 1,
            Status::Usage => 2,
            Status::Plan(_) => 3,
            Status::ReadFault => 4,
            Status::WriteFault => 5,
            Status::Aborted => 6,
            Status::NoMemory => 7,
            Status::Script(_) => 8,
            Status::LoadFault => 9,
            Status::TooMuch => 10,
        }
    }

    /// Writes what the status says, which takes no memory.
    pub fn write_text<E: Sink>(&self, notes: &mut E) -> Result<(), Failed>
        ensures bytes { WroteFirst (E.got notes.old) (E.got notes.new) result (text_of self.now) }
        ensures finished { KeepsTold (E.finished notes.old) (E.finished notes.new) }
        ensures begun { E.begun notes.new ≡ E.begun notes.old }
        ensures cause { HasCause (E.faults notes.old) (E.faults notes.new) result }
    {
        match self {
            Status::Done => write_whole(notes, b""),
            Status::Stage { index, code, place } => write_stage(notes, *index, *code, *place),
            Status::Usage => write_whole(
                notes,
                b"usage: streams run [[--trace] FILE] | script | check FILE | gen N SEED FILE\n",
            ),
            Status::Plan(refusal) => write_line(notes, b"plan refused ", *refusal),
            Status::ReadFault => write_whole(notes, b"read fault\n"),
            Status::WriteFault => write_whole(notes, b"write fault\n"),
            Status::Aborted => write_whole(notes, b"aborted\n"),
            Status::NoMemory => write_whole(notes, b"no memory\n"),
            Status::Script(line) => write_line(notes, b"script refused ", *line),
            Status::LoadFault => write_whole(notes, b"load fault\n"),
            Status::TooMuch => write_whole(notes, b"input too long\n"),
        }
    }
}
