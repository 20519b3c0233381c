//! Calls and jobs of a realm, over its tables.
ghost use Rattle.std.specs.Prelude.{◌≡◌, ◌<◌, ◌≤◌, ◌+◌, ◌^◌, false, not, if◌then◌else◌, IfNone, IfSome};
ghost use Rattle.ws_calls.specs.Credit.{AreFound};
ghost use Rattle.ws_steps.specs.Run as run;
ghost use Rattle.ws_tables.specs.Room.{IsPrepared, IsReady, IsResting};
ghost use Rattle.ws_tables.specs.View.{slots_of};

use ws_steps::{Call, Reply};
use ws_tables::Tables;

/// Performs a call.
pub fn perform_call(tables: &mut Tables, call: Call) -> Reply
    requires prepared { IsPrepared tables.old }
    requires resting { IsResting tables.old }
    requires young { tables.old.age < 2 ^ 62 }
    ensures reply { result ≡ run.reply_to call (slots_of tables.old) }
    ensures slots { slots_of tables.new ≡ run.after_call call (slots_of tables.old) }
    ensures resting { IsResting tables.new }
    ensures age { tables.new.age ≡ tables.old.age + 1 }
{
    ws_calls::perform_call(tables, call)
}

/// Performs the first job.
pub fn perform_job(tables: &mut Tables) -> bool
    requires ready { IsReady tables.old }
    requires resting { IsResting tables.old }
    requires young { tables.old.age < 2 ^ 62 }
    ensures worked { result ≡ not (run.is_idle (slots_of tables.old)) }
    ensures slots { slots_of tables.new
        ≡ (if run.is_idle (slots_of tables.old) then slots_of tables.old else run.after_job (slots_of tables.old)) }
    ensures resting { IsResting tables.new }
    ensures age { tables.new.age ≤ tables.old.age + 1 }
{
    ws_calls::perform_job(tables)
}

/// For how many jobs there are places.
pub fn count_places(tables: &Tables) -> u32
    requires resting { IsResting tables.now }
    ensures { AreFound result tables.now }
{
    ws_calls::count_places(tables)
}

/// Performs the first job in places that were found before.
pub fn perform_at_hand(tables: &mut Tables, places: u32) -> Option<u32>
    requires found { AreFound places tables.old }
    requires resting { IsResting tables.old }
    requires young { tables.old.age < 2 ^ 62 }
    ensures busy { IfSome result (λ left. run.is_idle (slots_of tables.old) ≡ false) }
    ensures slots { IfSome result (λ left. slots_of tables.new ≡ run.after_job (slots_of tables.old)) }
    ensures found { IfSome result (λ left. AreFound left tables.new) }
    ensures resting { IsResting tables.new }
    ensures age { tables.new.age ≤ tables.old.age + 1 }
    ensures untouched { IfNone result (tables.new ≡ tables.old) }
{
    ws_calls::perform_at_hand(tables, places)
}
