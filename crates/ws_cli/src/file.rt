//! A pipeline file as it is loaded: its plan, or the status of a command that has none.
ghost use Rattle.std.specs.Prelude.{◌≡◌, IfOk};
ghost use Rattle.ws_io.specs.Memory.{one_more};
ghost use Rattle.ws_node.specs.Opening.{IsAccepted};
ghost use Rattle.ws_cli.specs.Check.{shelf};
ghost use Rattle.ws_cli.specs.Planned.{Loads, ReadsText};

use std::alloc::Global;
use ws_flow::{Plan, Refusal};
use ws_io::{Files, LoadRefused, Status};
use ws_plan::{PlanRefused, read_plan};
use ws_value::{Blob, Text};

/// The plan of a text.
fn plan_of(alloc: Global, text: &Blob) -> Result<Plan, Status>
    ensures reads { ReadsText result text.now }
    ensures accepted { IfOk result IsAccepted }
{
    match read_plan(alloc, text.as_slice()) {
        Ok(plan) => Ok(plan),
        Err(PlanRefused::Cause(cause)) => Err(Status::Plan(cause.number())),
        Err(PlanRefused::NoMemory) => Err(Status::NoMemory),
    }
}

/// Loads a pipeline file. Where there is no plan, the status says why.
pub fn load_plan<F: Files>(alloc: Global, files: &mut F, name: &Text) -> Result<Plan, Status>
    ensures accepted { IfOk result IsAccepted }
    ensures loads { Loads result name.now
        (shelf (F.texts files.old) (F.faults files.old) (F.loads files.old))
        (shelf (F.texts files.new) (F.faults files.new) (F.loads files.new)) }
    ensures texts { F.texts files.new ≡ F.texts files.old }
    ensures once { F.loads files.new ≡ one_more (F.loads files.old) }
{
    match files.load(alloc, name) {
        Ok(text) => plan_of(alloc, &text),
        Err(LoadRefused::Failed) => Err(Status::LoadFault),
        Err(LoadRefused::TooLong) => Err(Status::Plan(Refusal::FileTooLong.number())),
        Err(LoadRefused::NoMemory) => Err(Status::NoMemory),
    }
}
