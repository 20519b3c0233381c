//! Pipeline files.
ghost use Rattle.std.specs.Prelude.{◌≡◌};
ghost use Rattle.ws_plan.specs.Answers.{Reads, planned_as};
ghost use Rattle.ws_plan.specs.Reading.{reading};

use std::alloc::Global;
use ws_flow::Plan;
use ws_plan::PlanRefused;

/// Reads a pipeline file: its plan, or the cause for which it is refused first.
pub fn read_plan(alloc: Global, text: &[u8]) -> Result<Plan, PlanRefused>
    ensures { Reads planned_as result (reading text.now) }
{
    ws_plan::read_plan(alloc, text)
}
