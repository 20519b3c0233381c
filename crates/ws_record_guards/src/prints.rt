//! The printed text of replies and events.
ghost use Rattle.std.specs.Prelude.{◌≡◌, ◌++◌, OnOk};
ghost use Rattle.std.specs.Option.{option_copied};
ghost use Rattle.ws_print.specs.Events.{reply_line, settled_text, signal_text};

use ws_steps::Reply;
use ws_value::{NoMemory, Outcome, Plain, StreamId};

/// Appends the line of a reply.
pub fn print_reply(
    out: &mut Vec<u8>,
    number: u32,
    reply: &Reply,
    rank: Option<u64>,
) -> Result<(), NoMemory>
    ensures appended { OnOk result (out.new.items ≡ out.old.items ++ reply_line number rank reply.now) }
{
    ws_print::print_reply(out, number, reply, rank)
}

/// Appends the line of a settled promise.
pub fn print_settled(
    out: &mut Vec<u8>,
    rank: Option<u64>,
    outcome: Option<&Outcome>,
    pair: Option<(Plain, Plain)>,
) -> Result<(), NoMemory>
    ensures appended { OnOk result (out.new.items ≡ out.old.items ++ settled_text pair rank (option_copied outcome.entry)) }
{
    ws_print::print_settled(out, rank, outcome, pair)
}

/// Appends the line of a writable stream's first abort.
pub fn print_signal(
    out: &mut Vec<u8>,
    stream: StreamId,
    reason: Plain,
    pair: Option<(Plain, Plain)>,
) -> Result<(), NoMemory>
    ensures appended { OnOk result (out.new.items ≡ out.old.items ++ signal_text pair stream reason) }
{
    ws_print::print_signal(out, stream, reason, pair)
}
