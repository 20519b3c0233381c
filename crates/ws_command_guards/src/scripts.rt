//! Scripts.
ghost use Rattle.std.specs.Prelude.{◌≡◌, ◌<◌, ◌≤◌, ◌⊎◌, ℕ, List, length, Ok, Err, IfOk, OnOk, OnErr};
ghost use Rattle.ws_io.specs.Emptied.{LeavesNothing};
ghost use Rattle.ws_io.specs.Faults.{Calm};
ghost use Rattle.ws_io.specs.Feed.{HasLeft};
ghost use Rattle.ws_io.specs.Gain.{IsEmptied};
ghost use Rattle.ws_io.specs.Moment.{moment};
ghost use Rattle.ws_steps.specs.Run.{heard};
ghost use Rattle.ws_grammar.specs.declared.line.Line.{Line};
ghost use Rattle.ws_grammar.specs.Lines.{lines, most_bytes};
ghost use Rattle.ws_script.specs.Ends.{ScriptEnds};
ghost use Rattle.ws_script.specs.Heard.{IsPartlyHeard};
ghost use Rattle.ws_script.specs.Printed.{step_text};

use std::alloc::Global;
use ws_io::{Sink, Source, Status};
use ws_realm::Realm;
use ws_steps::Reply;
use ws_value::{Blob, NoMemory};

/// Performs the script that the input holds.
pub fn run_script<S: Source, K: Sink>(alloc: Global, input: &mut S, output: &mut K) -> Status
    ensures ends { ScriptEnds result
        (moment (S.faults input.old) (S.feed input.old) (K.faults output.old) (K.finished output.old))
        (moment (S.faults input.new) (S.feed input.new) (K.faults output.new) (K.finished output.new))
        (K.got output.old) (K.got output.new) }
    ensures emptied { IsEmptied (K.got output.old) → LeavesNothing result (K.got output.new) }
    ensures complete { (text : List ℕ) (found : List Line) → HasLeft (S.feed input.old) text
        → length text ≤ most_bytes → lines text ≡ Ok found
        → Calm (S.faults input.old) (S.faults input.new) → Calm (K.faults output.old) (K.faults output.new)
        → (result ≡ Status.Done) ⊎ (result ≡ Status.NoMemory) }
    ensures outside { (text : List ℕ) (n : ℕ) → HasLeft (S.feed input.old) text → length text ≤ most_bytes
        → lines text ≡ Err n
        → Calm (S.faults input.old) (S.faults input.new) → (result ≡ Status.Script n) ⊎ (result ≡ Status.NoMemory) }
    ensures too_long { (text : List ℕ) → HasLeft (S.feed input.old) text → most_bytes < length text
        → Calm (S.faults input.old) (S.faults input.new) → (result ≡ Status.Script 0) ⊎ (result ≡ Status.NoMemory) }
{
    ws_script::run_script(alloc, input, output)
}

/// The printed lines of one task.
pub fn print_step(
    alloc: Global,
    number: u32,
    reply: &Reply,
    realm: &mut Realm,
) -> Result<Blob, NoMemory>
    ensures text { IfOk result (λ text. text ≡ step_text number reply.now realm.old.slots) }
    ensures slots { OnOk result (realm.new.slots ≡ heard realm.old.slots) }
    ensures prepared { realm.new.prepared ≡ realm.old.prepared }
    ensures err { OnErr result (IsPartlyHeard realm.old.slots realm.new.slots) }
{
    ws_script::print_step(alloc, number, reply, realm)
}
