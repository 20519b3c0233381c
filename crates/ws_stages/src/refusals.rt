//! Which plans are refused.
ghost use Rattle.std.specs.Prelude.{◌≡◌, false, pos};
ghost use Rattle.std.specs.List.{list_all};
ghost use Rattle.ws_flow.specs.Plans.{are_in_order, are_numbers_within, each_has_stage, has_stage, is_abort_within, is_placed_within, refusal, sees_known_chunks};
ghost use Rattle.ws_flow.specs.Stages.{is_in_range, is_within};
ghost use Rattle.ws_stages.specs.Checks.{answer_of, stages_in};

use crate::kinds::{is_in_range, is_known, may_see};
use ws_flow::{Placed, Plan, Refusal, Stage};

/// The most stages, workers and stages `hex` of a plan.
const MOST_STAGES: usize = 16;

const MOST_WORKERS: i64 = 8;

const MOST_HEX: usize = 4;

/// The most bytes of input, and the most bytes of output before an abort: 2^40.
const MOST_BYTES: i64 = 1_099_511_627_776;

/// Whether a stage's numbers are in their range and its worker is one of so many, or the caller where there are none.
fn is_placed_within(workers: i64, placed: &Placed) -> bool
    ensures { result ≡ is_placed_within workers placed.now }
{
    is_in_range(&placed.stage)
        && if workers <= 0 {
            0 <= placed.worker && placed.worker <= 0
        } else {
            1 <= placed.worker && placed.worker <= workers
        }
}

fn are_placed_within(workers: i64, stages: &[Placed]) -> bool
    ensures { result ≡ list_all (is_placed_within workers) stages.now }
{
    stages
        .iter()
        .all(|placed| is_placed_within(workers, placed))
}

/// Whether the bytes of output before an abort are in their range, where there are any.
fn is_abort_within(after: Option<i64>) -> bool
    ensures { result ≡ is_abort_within after }
{
    match after {
        None => true,
        Some(bytes) => 1 <= bytes && bytes <= MOST_BYTES,
    }
}

/// Whether each number of a plan is in its range.
fn are_numbers_within(plan: &Plan) -> bool
    ensures { result ≡ are_numbers_within plan.now }
{
    if plan.workers < 0 || !is_abort_within(plan.abort_after) {
        return false;
    }
    if plan.max_input < 0 || plan.max_input > MOST_BYTES {
        return false;
    }
    are_placed_within(plan.workers, &plan.stages)
}

/// Whether no stage sees chunks that depend on how the input was cut.
fn sees_known_chunks(stages: &[Placed]) -> bool
    ensures { result ≡ sees_known_chunks false (stages_in stages.now) }
{
    let mut known = false;
    for placed in stages {
        if !may_see(known, &placed.stage) {
            return false;
        }
        known = is_known(known, &placed.stage);
    }
    true
}

/// Whether no stage's worker is less than that of the one before.
fn are_in_order(stages: &[Placed]) -> bool
    ensures { result ≡ are_in_order (pos 0) stages.now }
{
    let mut before = 0;
    for placed in stages {
        if placed.worker < before {
            return false;
        }
        before = placed.worker;
    }
    true
}

fn has_stage(worker: u64, stages: &[Placed]) -> bool
    ensures { result ≡ has_stage worker stages.now }
{
    stages
        .iter()
        .any(|placed| placed.worker.unsigned_abs() == worker)
}

/// Whether each worker has a stage.
fn each_has_stage(workers: u64, stages: &[Placed]) -> bool
    ensures { result ≡ each_has_stage workers stages.now }
{
    for worker in 0..workers {
        if !has_stage(worker + 1, stages) {
            return false;
        }
    }
    true
}

/// Whether a plan is one that can be run, or else its first refusal.
pub fn check(plan: &Plan) -> Result<(), Refusal>
    ensures { result ≡ answer_of (refusal plan.now) }
{
    let stages = plan.stages.as_slice();
    if stages.len() > MOST_STAGES {
        return Err(Refusal::TooManyStages);
    }
    if !are_numbers_within(plan) {
        return Err(Refusal::OutOfRange);
    }
    let of_hex = stages
        .iter()
        .filter(|placed| matches!(placed.stage, Stage::Hex))
        .count();
    if of_hex > MOST_HEX {
        return Err(Refusal::TooManyHex);
    }
    if !sees_known_chunks(stages) {
        return Err(Refusal::SeesCutting);
    }
    if plan.workers > MOST_WORKERS {
        return Err(Refusal::TooManyWorkers);
    }
    if !are_in_order(stages) {
        return Err(Refusal::WorkersOutOfOrder);
    }
    if !each_has_stage(plan.workers.unsigned_abs(), stages) {
        return Err(Refusal::IdleWorker);
    }
    Ok(())
}
