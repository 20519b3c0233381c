//! The two ends of a row in one hand again.
ghost use Rattle.std.specs.Prelude.{◌≡◌, true, ◌++◌, ◌-◌, length};
ghost use Rattle.ws_port.specs.Ends.{IsAtRow, CanTake};
ghost use Rattle.ws_port.specs.Rest.{messages_in, filled_from};

use crate::ends::{Receiver, Sender, joined, take_at};
use crate::rule::{Board, Chair};
use ws_value::Message;

/// What lay in a row when its ends met: so many messages, in order, from the first place on.
#[derive(Drop)]
pub struct Rest {
    pub places: [Option<Message>; 8],
    pub count: usize,
}

/// Ends a row, and hands back the messages that were posted and not taken.
pub fn meet(s: Sender, r: Receiver) -> Rest
    requires { s.row ≡ r.row }
    ensures rest { s.sent ≡ r.received ++ messages_in result.places }
    ensures count { result.count ≡ length (messages_in result.places) }
    ensures places { result.places ≡ filled_from (messages_in result.places) (8 - result.count) }
{
    let (board, mut seat, mut taken) = joined(s, r);
    emptied(&board, &mut seat, &mut taken)
}

/// Takes all that lies in the row, with a seat that has both parts.
fn emptied(board: &Board, seat: &mut Chair, taken: &mut u64) -> Rest
    requires table { IsAtRow board.now.shared.table_id seat.old.table_id }
    requires seat { CanTake seat.old.me taken.old × (seat.old.me.0.sends ≡ true) }
    ensures rest { seat.old.me.0.outgoing.sent ≡ seat.old.me.0.incoming.received ++ messages_in result.places }
    ensures count { result.count ≡ length (messages_in result.places) }
    ensures places { result.places ≡ filled_from (messages_in result.places) (8 - result.count) }
{
    let mut places = [None, None, None, None, None, None, None, None];
    let mut count = 0;
    'messages: loop {
        match take_at(board, seat, taken) {
            Some(m) => {
                places[count] = Some(m);
                count += 1;
            }
            None => return Rest { places, count },
        }
    }
}
