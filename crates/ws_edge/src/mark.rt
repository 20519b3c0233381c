//! What is remembered of a message that was posted.
ghost use Rattle.std.specs.Prelude.{◌≡◌, ◌+◌, OnOk};
ghost use Rattle.ws_edge.specs.Marks.{HasRoom, kept, mark_by, mark_of, remembered};

use ws_value::{Message, NoMemory, Value};

/// What a message was, without what it carried.
#[derive(Clone, Copy)]
pub enum Mark {
    Pull,

    /// With the length of the chunk in bytes: 0 where it isn't bytes, which no node sends.
    Chunk(u64),
    Close,
    Error,
}

impl Mark {
    /// The mark of a message.
    fn of(m: &Message) -> Mark
        ensures { result ≡ mark_of m.now }
    {
        match m {
            Message::Pull => Mark::Pull,
            Message::Chunk(Value::Bytes(chunk)) => Mark::Chunk(chunk.len() as u64),
            Message::Chunk(Value::Plain(_)) => Mark::Chunk(0),
            Message::Close => Mark::Close,
            Message::Error(_) => Mark::Error,
        }
    }
}

/// Room for so many more marks, where marks are kept.
pub(crate) fn reserve(marks: &mut Option<Vec<Mark>>, more: usize) -> Result<(), NoMemory>
    ensures kept { kept marks.new ≡ kept marks.old }
    ensures room { OnOk result (HasRoom marks.new more) }
    ensures grows { (n : _) → HasRoom marks.old n → HasRoom marks.new n }
{
    if let Some(marks) = marks {
        marks.reserve(more)?;
    }
    Ok(())
}

/// The mark of a message, where marks are kept.
pub(crate) fn mark_in(marks: &Option<Vec<Mark>>, m: &Message) -> Option<Mark>
    ensures { result ≡ mark_by marks.now m.now }
{
    match marks {
        Some(_) => Some(Mark::of(m)),
        None => None,
    }
}

/// Keeps a mark, where marks are kept.
pub(crate) fn remember(marks: &mut Option<Vec<Mark>>, mark: Option<Mark>)
    requires { HasRoom marks.old 1 }
    ensures kept { kept marks.new ≡ remembered (kept marks.old) mark }
    ensures room { (n : _) → HasRoom marks.old (n + 1) → HasRoom marks.new n }
{
    if let Some(marks) = marks {
        if let Some(mark) = mark {
            marks.push_reserved(mark);
        }
    }
}
