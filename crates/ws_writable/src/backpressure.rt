//! Backpressure, and the ready promise that follows it.
ghost use Rattle.std.specs.Prelude.{◌≡◌};
ghost use Rattle.ws_promise.specs.Seen.{HasPromiseRoom, SeenAgenda};
ghost use Rattle.ws_steps.specs.Writable as rows;
ghost use Rattle.ws_writable.specs.Seen.{acts_of};

use crate::Writable;
use ws_promise::Promises;
use ws_value::Plain;

impl Writable {
    /// WritableStreamDefaultControllerGetBackpressure.
    pub fn has_backpressure(&self) -> bool
        ensures { result ≡ rows.has_backpressure self.now.slots }
    {
        self.queue.total() >= u128::from(self.hwm)
    }

    /// WritableStreamUpdateBackpressure.
    #[tactic(auto, unfolding(ws_steps::specs::Writable::update_backpressure))]
    pub fn update_backpressure(&mut self, p: &mut Promises, backpressure: bool)
        requires promise_room { HasPromiseRoom 1 p.old }
        ensures row { (fx : SeenAgenda) → acts_of self.new p.new fx
            ≡ rows.update_backpressure backpressure (acts_of self.old p.old fx) }
        ensures room { self.new.room ≡ self.old.room }
        ensures promise_room { p.new.room ≡ p.old.room }
    {
        if backpressure == self.backpressure {
            return;
        }
        self.backpressure = backpressure;
        if let Some(writer) = &mut self.writer {
            if backpressure {
                writer.ready = p.fresh();
            } else {
                p.fulfil(writer.ready, Plain::Undefined);
            }
        }
    }

    /// Brings the backpressure up to date, where the stream isn't closing and is writable.
    #[tactic(auto, unfolding(ws_steps::specs::Writable::refresh_backpressure))]
    pub(crate) fn refresh_backpressure(&mut self, p: &mut Promises)
        requires promise_room { HasPromiseRoom 1 p.old }
        ensures row { (fx : SeenAgenda) → acts_of self.new p.new fx
            ≡ rows.refresh_backpressure (acts_of self.old p.old fx) }
        ensures room { self.new.room ≡ self.old.room }
        ensures promise_room { p.new.room ≡ p.old.room }
    {
        if !self.is_closing() && self.is_writable() {
            let backpressure = self.has_backpressure();
            self.update_backpressure(p, backpressure);
        }
    }
}
