//! The plan of a pipeline file.
ghost use Rattle.std.specs.Prelude.{◌≡◌};
ghost use Rattle.toml.specs.View.{table_view};
ghost use Rattle.ws_plan.specs.Answers.{Reads, planned_as};
ghost use Rattle.ws_plan.specs.Reading.{accepted, planned, reading, table_in, version_of};

use crate::PlanRefused;
use crate::keys::{integer_at, integer_or, only, some_integer, tables_at};
use crate::stages::all_placed;
use std::alloc::Global;
use toml::Table;
use ws_flow::{Plan, Refusal};
use ws_stages::check;

/// The most bytes of a pipeline file.
const MOST_OF_A_FILE: usize = 1_048_576;

/// The most bytes of input where the file doesn't say: 2^40.
const USUAL_INPUT: i64 = 1_099_511_627_776;

fn version(number: i64) -> Result<(), PlanRefused>
    ensures { Reads (λ u. u) result (version_of number) }
{
    if 1 <= number && number <= 1 {
        Ok(())
    } else {
        Err(PlanRefused::Cause(Refusal::OtherVersion))
    }
}

fn planned(alloc: Global, table: &Table) -> Result<Plan, PlanRefused>
    ensures { Reads planned_as result (planned (table_view table.now)) }
{
    version(some_integer(table, "version")?)?;
    only(
        table,
        &["version", "workers", "abort_after", "max_input", "stage"],
    )?;
    let workers = integer_or(table, "workers", 0)?;
    let abort_after = integer_at(table, "abort_after")?;
    let max_input = integer_or(table, "max_input", USUAL_INPUT)?;
    let tables = tables_at(table, "stage")?;
    let first = if 1 <= workers { 1 } else { 0 };
    let stages = all_placed(alloc, tables, first)?;
    Ok(Plan {
        workers,
        abort_after,
        max_input,
        stages,
    })
}

fn table_in(alloc: Global, text: &[u8]) -> Result<Table, PlanRefused>
    ensures { Reads table_view result (table_in text.now) }
{
    match toml::table_from_slice(alloc, text) {
        Ok(table) => Ok(table),
        Err(error) => {
            if error.is_memory() {
                Err(PlanRefused::NoMemory)
            } else {
                Err(PlanRefused::Cause(Refusal::NotToml))
            }
        }
    }
}

fn accepted(plan: Plan) -> Result<Plan, PlanRefused>
    ensures { Reads planned_as result (accepted (planned_as plan)) }
{
    match check(&plan) {
        Ok(()) => Ok(plan),
        Err(cause) => Err(PlanRefused::Cause(cause)),
    }
}

/// Reads a pipeline file: its plan, or its first refusal.
pub fn read_plan(alloc: Global, text: &[u8]) -> Result<Plan, PlanRefused>
    ensures { Reads planned_as result (reading text.now) }
{
    if text.len() > MOST_OF_A_FILE {
        return Err(PlanRefused::Cause(Refusal::FileTooLong));
    }
    let table = table_in(alloc, text)?;
    let plan = planned(alloc, &table)?;
    accepted(plan)
}
