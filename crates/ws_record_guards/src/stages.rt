//! Stages at work, and the check of a plan.
ghost use Rattle.std.specs.Prelude.{◌≡◌, ◌+◌, ◌<◌, ◌^◌, true, IfOk, OnErr, OnOk, length};
ghost use Rattle.ws_flow.specs.declared.plan.Ending.TheVariants.{Fine};
ghost use Rattle.ws_flow.specs.Parts.{Over};
ghost use Rattle.ws_flow.specs.Plans.{refusal};
ghost use Rattle.ws_flow.specs.Stages.{is_in_range, machine, HasLength};
ghost use Rattle.ws_stages.specs.Answers.{Answers};
ghost use Rattle.ws_stages.specs.Checks.{answer_of};
ghost use Rattle.ws_stages.specs.State.{IsLive, begun, is_live, kept_in};

use std::alloc::Global;
use ws_flow::{Plan, Refusal, Stage};
use ws_stages::{Pushed, Work};
use ws_value::{Chunk, NoMemory};

/// The stage with none of its input.
pub fn make(alloc: Global, stage: &Stage) -> Result<Work, NoMemory>
    requires { is_in_range stage.now ≡ true }
    ensures { IfOk result (λ work. work ≡ begun stage.now) }
{
    Work::make(alloc, stage)
}

/// Whether the stage may be asked for more.
pub fn is_live(work: &Work) -> bool
    ensures { result ≡ is_live work.now.work }
{
    work.is_live()
}

/// A chunk of the stage's input, and what comes out.
pub fn push(work: &mut Work, chunk: Chunk) -> Result<Pushed, NoMemory>
    requires live { IsLive work.old.work }
    requires count { work.old.pushes < 2 ^ 62 }
    requires length { HasLength work.old.stage (length chunk) }
    ensures pushed { IfOk result (λ pushed.
        Answers pushed work.new.work ((machine work.old.stage).push (kept_in work.old.work) chunk)) }
    ensures wanting { OnErr result (work.new.work ≡ Over Fine) }
    ensures stage { work.new.stage ≡ work.old.stage }
    ensures count { OnOk result (work.new.pushes ≡ work.old.pushes + 1) }
{
    work.push(chunk)
}

/// Whether a plan is one that can be run, or else its first refusal.
pub fn check(plan: &Plan) -> Result<(), Refusal>
    ensures { result ≡ answer_of (refusal plan.now) }
{
    ws_stages::check(plan)
}
