//! The two ends of a row.
ghost use Rattle.std.specs.Prelude.{◌≡◌, true, [], ◌∷◌, ◌++◌, ◌<◌, ◌^◌, length, IfOk, IfErr, IfSome, IfNone, OnOk};
ghost use Rattle.std.specs.Arc.{arc_value};
ghost use Rattle.crossbeam_queue.specs.Passes.{view, IsPassOf, ruled_capacity};
ghost use Rattle.ws_port.specs.declared.ends.PostRefused.TheVariants.{Full};
ghost use Rattle.ws_first_port.specs.Rule.{log};
ghost use Rattle.ws_first_port.specs.Ends.{Posted, Taken};

use crate::rule::{Line, Log, Parts, Post, Take};
use crossbeam_queue::Pass;
use std::alloc::Global;
use std::marker::Model;
use std::sync::{Arc, Wait};
use ws_port::PostRefused;
use ws_value::{Message, NoMemory};

/// The end that posts. Contracts see which row it is of, and what it has posted.
#[derive(Drop)]
pub struct Sender {
    line: Arc<Line, Global>,
    pass: Pass<Message, Log>,
}

impl Model for Sender {
    ghost Value = { Posted };

    ghost view = { λ s. record { row = s.pass.table_id; sent = s.pass.me.0.client.sent } };

    ghost invariant = { λ s. IsPassOf (arc_value s.line) s.pass × (ruled_capacity (arc_value s.line) ≡ 8) × (s.pass.me.0.client.sends ≡ true) };
}

/// The end that takes. Contracts see which row it is of, and what it has taken.
#[derive(Drop)]
pub struct Receiver {
    line: Arc<Line, Global>,
    pass: Pass<Message, Log>,
}

impl Model for Receiver {
    ghost Value = { Taken };

    ghost view = { λ r. record { row = r.pass.table_id; received = r.pass.me.0.client.received } };

    ghost invariant = { λ r. IsPassOf (arc_value r.line) r.pass × (ruled_capacity (arc_value r.line) ≡ 8) × (r.pass.me.0.client.takes ≡ true) };
}

/// A new row, with its two ends. It takes all the memory that the row will ever need.
pub fn pair(alloc: Global) -> Result<(Sender, Receiver), NoMemory>
    ensures row { IfOk result (λ ends. ends.0.row ≡ ends.1.row) }
    ensures sender { IfOk result (λ ends. ends.0.sent ≡ []) }
    ensures receiver { IfOk result (λ ends. ends.1.received ≡ []) }
{
    let (queue, mut pass) = Line::ruled(alloc, 8)?;
    let line = Arc::new(alloc, queue)?;
    let theirs = Arc::try_clone(&line)?;
    let other = line.another::<Parts>(&mut pass);
    Ok((
        Sender { line, pass },
        Receiver {
            line: theirs,
            pass: other,
        },
    ))
}

impl Sender {
    /// Posts a message. It is refused where the row was full at one moment of the call.
    pub fn post<R: Wait>(&mut self, rt: &R, m: Message) -> Result<(), PostRefused>
        requires { length self.old.sent < 2 ^ 62 }
        ensures row { self.new.row ≡ self.old.row }
        ensures posted { OnOk result (self.new.sent ≡ self.old.sent ++ m ∷ []) }
        ensures refused { IfErr result (λ refused. (refused ≡ Full m) × (self.new.sent ≡ self.old.sent)) }
    {
        match self.line.push_as::<Post, R>(rt, &mut self.pass, m) {
            Ok(()) => Ok(()),
            Err(back) => Err(PostRefused::Full(back)),
        }
    }
}

impl Receiver {
    /// Takes the next message. There is none where the row was empty at one moment of the call.
    pub fn take<R: Wait>(&mut self, rt: &R) -> Option<Message>
        ensures row { self.new.row ≡ self.old.row }
        ensures taken { IfSome result (λ m. self.new.received ≡ self.old.received ++ m ∷ []) }
        ensures untaken { IfNone result (self.new.received ≡ self.old.received) }
    {
        self.line.pop_as::<Take, R>(rt, &mut self.pass)
    }
}

/// Both parts of the row in one pass.
pub(crate) fn joined(s: Sender, r: Receiver) -> (Arc<Line, Global>, Pass<Message, Log>)
    requires { s.row ≡ r.row }
    ensures { IsPassOf (arc_value result.0) result.1 × (view result.1 ≡ log true true s.sent r.received) }
{
    let Sender { line, mut pass } = s;
    let Receiver {
        line: _,
        pass: other,
    } = r;
    line.absorb::<Parts>(&mut pass, other);
    (line, pass)
}
