//! The check of a pipeline file: its plan is printed, or refused.
ghost use Rattle.std.specs.Prelude.{◌≡◌};
ghost use Rattle.ws_io.specs.Emptied.{LeavesNothing};
ghost use Rattle.ws_io.specs.Gain.{IsEmptied};
ghost use Rattle.ws_plan.specs.PlanText.{check_text};
ghost use Rattle.ws_script.specs.Printing.{Performs};
ghost use Rattle.ws_cli.specs.Check.{PerformsCheck, shelf};

use crate::file::load_plan;
use std::alloc::Global;
use ws_flow::Plan;
use ws_io::{Failed, Files, Sink, Status, write_whole};
use ws_plan::plan_text;
use ws_value::Text;

/// Writes the text of a plan, which is made whole first, and finishes the output.
fn print_plan<K: Sink>(alloc: Global, plan: &Plan, output: &mut K) -> Status
    ensures ends { Performs result (check_text plan.now)
        (record { faults = K.faults output.old; finished = K.finished output.old })
        (record { faults = K.faults output.new; finished = K.finished output.new })
        (K.got output.old) (K.got output.new) }
    ensures unwritten { result ≡ Status.NoMemory → output.new ≡ output.old }
    ensures emptied { LeavesNothing result (K.got output.new) }
{
    let Ok(text) = plan_text(alloc, plan) else {
        return Status::NoMemory;
    };
    if write_whole(output, text.as_slice()).is_err() {
        return Status::WriteFault;
    }
    match output.finish() {
        Ok(()) => Status::Done,
        Err(Failed) => Status::WriteFault,
    }
}

/// Loads a pipeline file, and writes the text of its plan on the output, which it then finishes.
///
/// Nothing is written where the file can't be loaded, its plan is refused, or memory can't be had.
pub fn run_check<F: Files, K: Sink>(
    alloc: Global,
    files: &mut F,
    name: &Text,
    output: &mut K,
) -> Status
    ensures does { PerformsCheck result name.now output.old output.new
        (shelf (F.texts files.old) (F.faults files.old) (F.loads files.old))
        (shelf (F.texts files.new) (F.faults files.new) (F.loads files.new))
        (record { faults = K.faults output.old; finished = K.finished output.old })
        (record { faults = K.faults output.new; finished = K.finished output.new })
        (K.got output.old) (K.got output.new) }
    ensures texts { F.texts files.new ≡ F.texts files.old }
    ensures emptied { IsEmptied (K.got output.old) → LeavesNothing result (K.got output.new) }
{
    match load_plan(alloc, files, name) {
        Ok(plan) => print_plan(alloc, &plan, output),
        Err(status) => status,
    }
}
