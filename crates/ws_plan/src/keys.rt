//! What stands at the keys of a table.
ghost use Rattle.std.specs.Prelude.{◌≡◌, map};
ghost use Rattle.std.specs.List.{list_any};
ghost use Rattle.std.specs.Str.{bytes_eq};
ghost use Rattle.toml.specs.Data.{get_member};
ghost use Rattle.toml.specs.View.{items_view, table_view};
ghost use Rattle.ws_plan.specs.Answers.{Reads};
ghost use Rattle.ws_plan.specs.Keys.{are_tables, as_tables, as_text, has_only, integer_at, integer_or, only, some_integer, some_text};

use crate::PlanRefused;
use toml::{Table, Value};
use ws_flow::Refusal;

/// Whether a key is one of these.
fn is_one_of(key: &str, keys: &[&str]) -> bool
    ensures { result ≡ list_any (λ l. bytes_eq key.now l) (map (λ k. k.now) keys.now) }
{
    for known in keys {
        if key == *known {
            return true;
        }
    }
    false
}

/// Whether each key of a table is one of these.
fn has_only(table: &Table, keys: &[&str]) -> bool
    ensures { result ≡ has_only (map (λ k. k.now) keys.now) (table_view table.now) }
{
    for (key, _) in table {
        if !is_one_of(key.as_str(), keys) {
            return false;
        }
    }
    true
}

/// Refuses a table with another key than these.
pub(crate) fn only(table: &Table, keys: &[&str]) -> Result<(), PlanRefused>
    ensures { Reads (λ u. u) result (only (map (λ k. k.now) keys.now) (table_view table.now)) }
{
    if has_only(table, keys) {
        Ok(())
    } else {
        Err(PlanRefused::Cause(Refusal::WrongKey))
    }
}

/// The integer at a key, if anything stands there.
pub(crate) fn integer_at(table: &Table, key: &str) -> Result<Option<i64>, PlanRefused>
    ensures { Reads (λ o. o) result (integer_at key.now (table_view table.now)) }
{
    match table.get(key) {
        None => Ok(None),
        Some(value) => {
            let found = value.as_integer();
            if found.is_some() {
                Ok(found)
            } else {
                Err(PlanRefused::Cause(Refusal::WrongKey))
            }
        }
    }
}

/// The integer at a key, or this one where nothing stands there.
pub(crate) fn integer_or(table: &Table, key: &str, default: i64) -> Result<i64, PlanRefused>
    ensures { Reads (λ z. z) result (integer_or default key.now (table_view table.now)) }
{
    match integer_at(table, key)? {
        Some(integer) => Ok(integer),
        None => Ok(default),
    }
}

/// The integer at a key, where one has to stand.
pub(crate) fn some_integer(table: &Table, key: &str) -> Result<i64, PlanRefused>
    ensures { Reads (λ z. z) result (some_integer key.now (table_view table.now)) }
{
    match integer_at(table, key)? {
        Some(integer) => Ok(integer),
        None => Err(PlanRefused::Cause(Refusal::WrongKey)),
    }
}

/// The text at a key, where one has to stand.
pub(crate) fn some_text<'a>(table: &'a Table, key: &str) -> Result<&'a str, PlanRefused>
    ensures { Reads (λ s. s.now) result (some_text key.now (table_view table.now)) }
{
    match table.get(key) {
        None => Err(PlanRefused::Cause(Refusal::WrongKey)),
        Some(value) => match value.as_str() {
            Some(text) => Ok(text),
            None => Err(PlanRefused::Cause(Refusal::WrongKey)),
        },
    }
}

/// Whether each value is a table.
fn are_tables(values: &[Value]) -> bool
    ensures { result ≡ are_tables (items_view values.now) }
{
    for value in values {
        if !value.is_table() {
            return false;
        }
    }
    true
}

/// The tables of the array at a key, none where nothing stands there.
pub(crate) fn tables_at<'a>(table: &'a Table, key: &str) -> Result<&'a [Value], PlanRefused>
    ensures { Reads (λ vs. items_view vs.now) result (as_tables (get_member key.now (table_view table.now))) }
{
    match table.get(key) {
        None => Ok(&[]),
        Some(value) => match value.as_array() {
            Some(values) => {
                if are_tables(values) {
                    Ok(values.as_slice())
                } else {
                    Err(PlanRefused::Cause(Refusal::WrongKey))
                }
            }
            None => Err(PlanRefused::Cause(Refusal::WrongKey)),
        },
    }
}
