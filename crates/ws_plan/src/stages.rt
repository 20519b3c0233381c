//! The stages of a pipeline file, by their kinds.
ghost use Rattle.std.specs.Prelude.{◌≡◌, ◌++◌, OnOk};
ghost use Rattle.toml.specs.View.{items_view, table_view, view};
ghost use Rattle.ws_plan.specs.Answers.{Reads};
ghost use Rattle.ws_plan.specs.Reading.{all_placed, placed_in, placed_of};
ghost use Rattle.ws_plan.specs.Stages.{fixed_of, mask_of, most_of, of_kind, plain_of, stage_text};

use crate::PlanRefused;
use crate::keys::{integer_or, only, some_integer, some_text};
use crate::words::{append, append_bytes, append_signed};
use hex::FromHexError;
use std::alloc::Global;
use toml::{Table, Value};
use ws_flow::{Placed, Refusal, Stage};
use ws_value::{Blob, NoMemory};

/// The most bytes of a line or a frame where the file doesn't say.
const USUAL_MOST: i64 = 65_536;

fn plain(table: &Table, stage: Stage) -> Result<Stage, PlanRefused>
    ensures { Reads (λ s. s) result (plain_of stage (table_view table.now)) }
{
    only(table, &["kind", "worker"])?;
    Ok(stage)
}

/// The key `max` of a stage.
fn most(table: &Table) -> Result<i64, PlanRefused>
    ensures { Reads (λ z. z) result (most_of (table_view table.now)) }
{
    only(table, &["kind", "worker", "max"])?;
    integer_or(table, "max", USUAL_MOST)
}

fn fixed(table: &Table) -> Result<Stage, PlanRefused>
    ensures { Reads (λ s. s) result (fixed_of (table_view table.now)) }
{
    only(table, &["kind", "worker", "n"])?;
    let n = some_integer(table, "n")?;
    Ok(Stage::Fixed { n })
}

fn mask(alloc: Global, table: &Table) -> Result<Stage, PlanRefused>
    ensures { Reads (λ s. s) result (mask_of (table_view table.now)) }
{
    only(table, &["kind", "worker", "key"])?;
    let digits = some_text(table, "key")?;
    match hex::decode(alloc, digits.as_bytes()) {
        Ok(key) => Ok(Stage::Mask {
            key: Blob::from_vec(key),
        }),
        Err(FromHexError::OutOfMemory) => Err(PlanRefused::NoMemory),
        Err(_) => Err(PlanRefused::Cause(Refusal::WrongKey)),
    }
}

fn of_kind(alloc: Global, kind: &str, table: &Table) -> Result<Stage, PlanRefused>
    ensures { Reads (λ s. s) result (of_kind kind.now (table_view table.now)) }
{
    if kind == "lines" {
        let max = most(table)?;
        Ok(Stage::Lines { max })
    } else if kind == "fixed" {
        fixed(table)
    } else if kind == "hex" {
        plain(table, Stage::Hex)
    } else if kind == "unhex" {
        plain(table, Stage::Unhex)
    } else if kind == "mask" {
        mask(alloc, table)
    } else if kind == "number" {
        plain(table, Stage::Number)
    } else if kind == "frame" {
        plain(table, Stage::Frame)
    } else if kind == "unframe" {
        let max = most(table)?;
        Ok(Stage::Unframe { max })
    } else {
        Err(PlanRefused::Cause(Refusal::UnknownKind))
    }
}

/// Appends a stage's kind with its number or key, in lower-case hexadecimal.
pub(crate) fn append_stage(alloc: Global, out: &mut Vec<u8>, stage: &Stage) -> Result<(), NoMemory>
    ensures { OnOk result (out.new.items ≡ out.old.items ++ stage_text stage.now) }
{
    match stage {
        Stage::Lines { max } => append_signed(out, b"lines ", *max),
        Stage::Fixed { n } => append_signed(out, b"fixed ", *n),
        Stage::Hex => append(out, b"hex"),
        Stage::Unhex => append(out, b"unhex"),
        Stage::Mask { key } => append_bytes(alloc, out, b"mask ", key.as_slice()),
        Stage::Number => append(out, b"number"),
        Stage::Frame => append(out, b"frame"),
        Stage::Unframe { max } => append_signed(out, b"unframe ", *max),
    }
}

fn placed_in(alloc: Global, table: &Table, before: i64) -> Result<Placed, PlanRefused>
    ensures { Reads (λ p. p) result (placed_in before (table_view table.now)) }
{
    let kind = some_text(table, "kind")?;
    let stage = of_kind(alloc, kind, table)?;
    let worker = integer_or(table, "worker", before)?;
    Ok(Placed { stage, worker })
}

fn placed(alloc: Global, value: &Value, before: i64) -> Result<Placed, PlanRefused>
    ensures { Reads (λ p. p) result (placed_of before (view value.now)) }
{
    match value.as_table() {
        Some(table) => placed_in(alloc, table, before),
        None => Err(PlanRefused::Cause(Refusal::WrongKey)),
    }
}

/// The stages in file order, each on the worker of the one before where it names none.
pub(crate) fn all_placed(
    alloc: Global,
    values: &[Value],
    first: i64,
) -> Result<Vec<Placed>, PlanRefused>
    ensures { Reads (λ v. v.items) result (all_placed first (items_view values.now)) }
{
    let mut stages = Vec::new(alloc);
    let mut before = first;
    for value in values {
        let stage = placed(alloc, value, before)?;
        before = stage.worker;
        if stages.push(stage).is_err() {
            return Err(PlanRefused::NoMemory);
        }
    }
    Ok(stages)
}
