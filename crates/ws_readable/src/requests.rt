//! The requests of a reader, which are all answered at once.
ghost use Rattle.std.specs.Prelude.{◌≡◌, ◌+◌, ◌++◌, length, []};
ghost use Rattle.std.specs.VecDeque.{deque_len, deque_capacity};
ghost use Rattle.ws_promise.specs.Seen.{HasEffectRoom};
ghost use Rattle.ws_steps.specs.Readable.{close_all, error_all};

use std::collections::VecDeque;
use ws_promise::Agenda;
use ws_steps::{Effect, ReadRequest};
use ws_value::{Plain, StreamId};

/// Takes all requests and causes their close steps, in order.
pub fn close_requests(requests: &mut VecDeque<ReadRequest>, me: StreamId, fx: &mut Agenda)
    requires { HasEffectRoom (deque_len requests.old) fx.old }
    ensures effects { fx.new ≡ record fx.old { effects = fx.old.effects ++ close_all me requests.old.items } }
    ensures caused { length fx.new.effects ≡ deque_len requests.old + length fx.old.effects }
    ensures emptied { requests.new.items ≡ [] }
    ensures capacity { deque_capacity requests.new ≡ deque_capacity requests.old }
{
    while let Some(request) = requests.pop_front() {
        fx.push(Effect::CloseSteps(me, request));
    }
}

/// Takes all requests and causes their error steps, in order.
pub fn error_requests(requests: &mut VecDeque<ReadRequest>, me: StreamId, fx: &mut Agenda, e: Plain)
    requires { HasEffectRoom (deque_len requests.old) fx.old }
    ensures effects { fx.new ≡ record fx.old { effects = fx.old.effects ++ error_all me e requests.old.items } }
    ensures caused { length fx.new.effects ≡ deque_len requests.old + length fx.old.effects }
    ensures emptied { requests.new.items ≡ [] }
    ensures capacity { deque_capacity requests.new ≡ deque_capacity requests.old }
{
    while let Some(request) = requests.pop_front() {
        fx.push(Effect::ErrorSteps(me, request, e));
    }
}
