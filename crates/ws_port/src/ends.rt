//! The two ends of a row.
ghost use Rattle.std.specs.Prelude.{◌≡◌, true, [], ◌∷◌, ◌++◌, ◌+◌, ◌<◌, ◌≤◌, ◌^◌, length, IfOk, IfErr, IfSome, IfNone, OnOk, OnErr, OnSome};
ghost use Rattle.std.specs.Arc.{arc_value};
ghost use Rattle.ws_port.specs.declared.ends.PostRefused.TheVariants.{Full};
ghost use Rattle.ws_port.specs.Ends.{IsAtRow, CanPost, CanTake, IsWithin, Posted, Taken};

use crate::rule::{Board, Chair, LookForMessage, LookForRoom, Parts, Post, Take};
use std::alloc::Global;
use std::marker::Model;
use std::sync::Arc;
use ws_value::{Message, NoMemory};

/// The word that counts the messages that were posted.
const POSTED: usize = 0;

/// The word that counts those that were taken.
const TAKEN: usize = 1;

/// Why a message isn't posted, with the message.
#[derive(Drop)]
pub enum PostRefused {
    /// As this call looked, eight messages lay in the row.
    Full(Message),
}

/// The end that posts. Contracts see which row it is of, what it has posted, how many of these it last found taken,
/// and how often it looked.
#[derive(Drop)]
pub struct Sender {
    board: Arc<Board, Global>,
    seat: Chair,
    posted: u64,
}

impl Model for Sender {
    ghost Value = { Posted };

    ghost view = { λ s. record { row = s.seat.table_id; sent = s.seat.me.0.outgoing.sent; seen = s.seat.me.0.outgoing.seen; looks = s.seat.me.0.outgoing.looks } };

    ghost invariant = { λ s. IsAtRow (arc_value s.board).shared.table_id s.seat.table_id × CanPost s.seat.me s.posted };
}

/// The end that takes. Contracts see which row it is of, what it has taken, how many it last found posted, and how
/// often it looked.
#[derive(Drop)]
pub struct Receiver {
    board: Arc<Board, Global>,
    seat: Chair,
    taken: u64,
}

impl Model for Receiver {
    ghost Value = { Taken };

    ghost view = { λ r. record { row = r.seat.table_id; received = r.seat.me.0.incoming.received; seen = r.seat.me.0.incoming.seen; looks = r.seat.me.0.incoming.looks } };

    ghost invariant = { λ r. IsAtRow (arc_value r.board).shared.table_id r.seat.table_id × CanTake r.seat.me r.taken };
}

/// A new row, with its two ends. It takes all the memory that the row will ever need.
pub fn pair(alloc: Global) -> Result<(Sender, Receiver), NoMemory>
    ensures row { IfOk result (λ ends. ends.0.row ≡ ends.1.row) }
    ensures sender { IfOk result (λ ends. (ends.0.sent ≡ []) × (ends.0.seen ≡ 0) × (ends.0.looks ≡ 0)) }
    ensures receiver { IfOk result (λ ends. (ends.1.received ≡ []) × (ends.1.seen ≡ 0) × (ends.1.looks ≡ 0)) }
{
    let (table, mut seat) = Board::vacant(alloc, &[0, 0], 8, &())?;
    let board = Arc::new(alloc, table)?;
    let theirs = Arc::try_clone(&board)?;
    let other = board.shared.split_seat::<Parts>(&mut seat);
    let sender = Sender {
        board,
        seat,
        posted: 0,
    };
    let receiver = Receiver {
        board: theirs,
        seat: other,
        taken: 0,
    };
    Ok((sender, receiver))
}

impl Sender {
    /// Posts a message. It is refused where this call's look found eight messages in the row.
    pub fn post(&mut self, m: Message) -> Result<(), PostRefused>
        requires { length self.old.sent < 2 ^ 62 }
        ensures row { self.new.row ≡ self.old.row }
        ensures looked { self.new.looks ≡ self.old.looks + 1 }
        ensures posted { OnOk result (self.new.sent ≡ self.old.sent ++ m ∷ []) }
        ensures room { OnOk result (length self.old.sent < self.new.seen + 8) }
        ensures full { OnErr result (length self.old.sent ≡ self.new.seen + 8) }
        ensures refused { IfErr result (λ refused. (refused ≡ Full m) × (self.new.sent ≡ self.old.sent)) }
    {
        let taken = self.board.shared.load::<LookForRoom>(&mut self.seat, TAKEN);
        if self.posted == taken + 8 {
            return Err(PostRefused::Full(m));
        }
        let place = (self.posted % 8) as usize;
        let _ = self.board.shared.exchange(&mut self.seat, place, Some(m));
        self.posted += 1;
        self.board
            .shared
            .store::<Post>(&mut self.seat, POSTED, self.posted);
        Ok(())
    }
}

impl Receiver {
    /// Takes the next message. There is none where this call's look found none in the row.
    pub fn take(&mut self) -> Option<Message>
        ensures row { self.new.row ≡ self.old.row }
        ensures looked { self.new.looks ≡ self.old.looks + 1 }
        ensures taken { IfSome result (λ m. self.new.received ≡ self.old.received ++ m ∷ []) }
        ensures found { OnSome result (length self.old.received < self.new.seen) }
        ensures empty { IfNone result (length self.old.received ≡ self.new.seen) }
        ensures untaken { IfNone result (self.new.received ≡ self.old.received) }
    {
        take_at(&self.board, &mut self.seat, &mut self.taken)
    }
}

/// One look for a message, and where there is one, its taking. A seat that has both parts learns of the whole row.
pub(crate) fn take_at(board: &Board, seat: &mut Chair, taken: &mut u64) -> Option<Message>
    requires table { IsAtRow board.now.shared.table_id seat.old.table_id }
    requires seat { CanTake seat.old.me taken.old }
    ensures table { seat.new.table_id ≡ seat.old.table_id }
    ensures seat { CanTake seat.new.me taken.new }
    ensures parts { (seat.new.me.0.sends ≡ seat.old.me.0.sends) × (seat.new.me.0.outgoing ≡ seat.old.me.0.outgoing) }
    ensures looked { seat.new.me.0.incoming.looks ≡ seat.old.me.0.incoming.looks + 1 }
    ensures taken { IfSome result (λ m. seat.new.me.0.incoming.received ≡ seat.old.me.0.incoming.received ++ m ∷ []) }
    ensures found { OnSome result (length seat.old.me.0.incoming.received < seat.new.me.0.incoming.seen) }
    ensures empty { IfNone result (length seat.old.me.0.incoming.received ≡ seat.new.me.0.incoming.seen) }
    ensures untaken { IfNone result (seat.new.me.0.incoming.received ≡ seat.old.me.0.incoming.received) }
    ensures whole { seat.old.me.0.sends ≡ true → IsWithin seat.old.me.0 seat.new.me.0 }
    ensures all { IfNone result (seat.old.me.0.sends ≡ true → seat.old.me.0.outgoing.sent ≡ seat.new.me.0.incoming.received) }
{
    let posted = board.shared.load::<LookForMessage>(seat, POSTED);
    if posted == *taken {
        return None;
    }
    let place = (*taken % 8) as usize;
    let found = board.shared.exchange(seat, place, None);
    *taken += 1;
    board.shared.store::<Take>(seat, TAKEN, *taken);
    found
}

/// Both parts of the row in one seat.
pub(crate) fn joined(s: Sender, r: Receiver) -> (Arc<Board, Global>, Chair, u64)
    requires { s.row ≡ r.row }
    ensures table { IsAtRow (arc_value result.0).shared.table_id result.1.table_id }
    ensures seat { CanTake result.1.me result.2 × (result.1.me.0.sends ≡ true) }
    ensures lists { (result.1.me.0.outgoing.sent ≡ s.sent) × (result.1.me.0.incoming.received ≡ r.received) }
{
    let Sender {
        board,
        mut seat,
        posted: _,
    } = s;
    let Receiver {
        board: _,
        seat: other,
        taken,
    } = r;
    board.shared.join_seat::<Parts>(&mut seat, other);
    (board, seat, taken)
}
