//! The two ends of a row in one hand again.
ghost use Rattle.std.specs.Prelude.{◌≡◌, true, ◌++◌, ◌-◌, length};
ghost use Rattle.crossbeam_queue.specs.Passes.{view, IsPassOf};
ghost use Rattle.ws_port.specs.Rest.{messages_in, filled_from};

use crate::ends::{Receiver, Sender, joined};
use crate::rule::{Line, Log, Whole};
use crossbeam_queue::Pass;
use std::sync::Wait;
use ws_port::Rest;
use ws_value::Message;

/// Ends a row, and hands back the messages that were posted and not taken.
pub fn meet<R: Wait>(rt: &R, s: Sender, r: Receiver) -> Rest
    requires { s.row ≡ r.row }
    ensures rest { s.sent ≡ r.received ++ messages_in result.places }
    ensures count { result.count ≡ length (messages_in result.places) }
    ensures places { result.places ≡ filled_from (messages_in result.places) (8 - result.count) }
{
    let (line, mut pass) = joined(s, r);
    emptied(rt, &line, &mut pass)
}

/// Takes all that lies in the queue, with a pass that has both parts.
fn emptied<R: Wait>(rt: &R, line: &Line, pass: &mut Pass<Message, Log>) -> Rest
    requires { IsPassOf line.now pass.old × ((view pass.old).sends ≡ true) × ((view pass.old).takes ≡ true) }
    ensures rest { (view pass.old).sent ≡ (view pass.old).received ++ messages_in result.places }
    ensures count { result.count ≡ length (messages_in result.places) }
    ensures places { result.places ≡ filled_from (messages_in result.places) (8 - result.count) }
{
    let mut places = [None, None, None, None, None, None, None, None];
    line.learn_as::<Whole>(pass);
    let mut count = 0;
    while count < 8 {
        match line.pop_as::<Whole, R>(rt, pass) {
            Some(m) => {
                places[count] = Some(m);
                count += 1;
            }
            None => return Rest { places, count },
        }
    }
    line.learn_as::<Whole>(pass);
    Rest { places, count }
}
