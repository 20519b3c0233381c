//! The text of a plan.
ghost use Rattle.std.specs.Prelude.{◌≡◌, ◌++◌, IfOk, OnOk};
ghost use Rattle.ws_plan.specs.PlanText.{abort_text, check_text, plan_line, stage_line, stage_lines};

use crate::stages::append_stage;
use crate::words::{append, append_numbered, append_signed};
use std::alloc::Global;
use ws_flow::{Placed, Plan};
use ws_value::{Blob, NoMemory};

/// Appends the line of the stage of this number, from 1.
fn append_line(
    alloc: Global,
    out: &mut Vec<u8>,
    number: usize,
    placed: &Placed,
) -> Result<(), NoMemory>
    ensures { OnOk result (out.new.items ≡ out.old.items ++ stage_line number placed.now) }
{
    append_numbered(out, b"stage ", number)?;
    append(out, b" ")?;
    append_stage(alloc, out, &placed.stage)?;
    append_signed(out, b" worker ", placed.worker)?;
    append(out, b"\n")
}

/// Appends the bytes of output after which the run is aborted, where there are any.
fn append_abort(out: &mut Vec<u8>, after: Option<i64>) -> Result<(), NoMemory>
    ensures { OnOk result (out.new.items ≡ out.old.items ++ abort_text after) }
{
    match after {
        None => Ok(()),
        Some(bytes) => append_signed(out, b" abort_after ", bytes),
    }
}

/// Appends the line of the plan itself.
fn append_plan(out: &mut Vec<u8>, plan: &Plan) -> Result<(), NoMemory>
    ensures { OnOk result (out.new.items ≡ out.old.items ++ plan_line plan.now) }
{
    append_signed(out, b"plan 1 workers ", plan.workers)?;
    append_signed(out, b" max_input ", plan.max_input)?;
    append_abort(out, plan.abort_after)?;
    append(out, b"\n")?;
    Ok(())
}

/// The text of a plan: a line of the plan, and one for each stage.
pub fn plan_text(alloc: Global, plan: &Plan) -> Result<Blob, NoMemory>
    ensures { IfOk result (λ text. text ≡ check_text plan.now) }
{
    let mut out = Vec::new(alloc);
    append_plan(&mut out, plan)?;
    let mut number = 1;
    for placed in &plan.stages {
        append_line(alloc, &mut out, number, placed)?;
        number += 1;
    }
    Ok(Blob::from_vec(out))
}
