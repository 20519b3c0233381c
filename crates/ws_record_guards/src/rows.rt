//! Rows of messages between threads.
ghost use Rattle.std.specs.Prelude.{◌≡◌, [], ◌∷◌, ◌++◌, ◌+◌, ◌-◌, ◌<◌, ◌^◌, length, IfErr, IfNone, IfSome, OnErr, OnOk, OnSome};
ghost use Rattle.ws_port.specs.Rest.{messages_in, filled_from};
ghost use Rattle.ws_port.specs.declared.ends.PostRefused.TheVariants.{Full};

use ws_port::{PostRefused, Receiver, Rest, Sender};
use ws_value::Message;

/// Posts a message, where this call's look found fewer than eight in the row.
pub fn post(sender: &mut Sender, m: Message) -> Result<(), PostRefused>
    requires { length sender.old.sent < 2 ^ 62 }
    ensures row { sender.new.row ≡ sender.old.row }
    ensures looked { sender.new.looks ≡ sender.old.looks + 1 }
    ensures posted { OnOk result (sender.new.sent ≡ sender.old.sent ++ m ∷ []) }
    ensures room { OnOk result (length sender.old.sent < sender.new.seen + 8) }
    ensures full { OnErr result (length sender.old.sent ≡ sender.new.seen + 8) }
    ensures refused { IfErr result (λ refused. (refused ≡ Full m) × (sender.new.sent ≡ sender.old.sent)) }
{
    sender.post(m)
}

/// Takes the next message, where this call's look found one in the row.
pub fn take(receiver: &mut Receiver) -> Option<Message>
    ensures row { receiver.new.row ≡ receiver.old.row }
    ensures looked { receiver.new.looks ≡ receiver.old.looks + 1 }
    ensures taken { IfSome result (λ m. receiver.new.received ≡ receiver.old.received ++ m ∷ []) }
    ensures found { OnSome result (length receiver.old.received < receiver.new.seen) }
    ensures empty { IfNone result (length receiver.old.received ≡ receiver.new.seen) }
    ensures untaken { IfNone result (receiver.new.received ≡ receiver.old.received) }
{
    receiver.take()
}

/// Ends a row, and hands back the messages that were posted and not taken.
pub fn meet(s: Sender, r: Receiver) -> Rest
    requires { s.row ≡ r.row }
    ensures rest { s.sent ≡ r.received ++ messages_in result.places }
    ensures count { result.count ≡ length (messages_in result.places) }
    ensures places { result.places ≡ filled_from (messages_in result.places) (8 - result.count) }
{
    ws_port::meet(s, r)
}
