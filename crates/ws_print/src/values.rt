//! Values, reasons and faults.
ghost use Rattle.std.specs.Prelude.{◌≡◌, ◌++◌, OnOk};
ghost use Rattle.hex.specs.Hex.{encode_lower};
ghost use Rattle.ws_print.specs.Values.{fault_text, lone_text, pair_text, plain_text, value_text, tee_in, tee_in_value};

use crate::append::{append, append_numbered};
use ws_value::{Fault, NoMemory, Plain, TeeId, Value};

/// Appends the text of a stage that found its input malformed.
fn print_stage(out: &mut Vec<u8>, index: u32, code: u8, place: u128) -> Result<(), NoMemory>
    ensures appended { OnOk result (out.new.items ≡ out.old.items ++ fault_text (Fault.Stage index code place)) }
{
    append_numbered(out, b"Stage(", index)?;
    append_numbered(out, b",", code)?;
    append_numbered(out, b",", place)?;
    append(out, b")")
}

/// Appends a fault.
pub fn print_fault(out: &mut Vec<u8>, fault: Fault) -> Result<(), NoMemory>
    ensures appended { OnOk result (out.new.items ≡ out.old.items ++ fault_text fault) }
{
    match fault {
        Fault::TypeError => append(out, b"TypeError"),
        Fault::RangeError => append(out, b"RangeError"),
        Fault::DataClone => append(out, b"DataClone"),
        Fault::User(number) => append_numbered(out, b"e", number),
        Fault::Read => append(out, b"Read"),
        Fault::Write => append(out, b"Write"),
        Fault::Stage { index, code, place } => print_stage(out, index, code, place),
        Fault::TooMuch => append(out, b"TooMuch"),
        Fault::Abort => append(out, b"Abort"),
        Fault::NoMemory => append(out, b"NoMemory"),
    }
}

/// Appends a plain value, and of two reasons that a tee keeps only that they are a pair.
fn print_lone(out: &mut Vec<u8>, plain: Plain) -> Result<(), NoMemory>
    ensures appended { OnOk result (out.new.items ≡ out.old.items ++ lone_text plain) }
{
    match plain {
        Plain::Undefined => append(out, b"undefined"),
        Plain::Number(number) => append_numbered(out, b"n", number),
        Plain::Fault(fault) => print_fault(out, fault),
        Plain::Pair(_) => append(out, b"pair"),
        Plain::Local(number) => append_numbered(out, b"k", number),
    }
}

/// Appends the two reasons that a tee keeps.
fn print_pair(out: &mut Vec<u8>, pair: Option<(Plain, Plain)>) -> Result<(), NoMemory>
    ensures appended { OnOk result (out.new.items ≡ out.old.items ++ pair_text pair) }
{
    match pair {
        Some((first, second)) => {
            append(out, b"[")?;
            print_lone(out, first)?;
            append(out, b",")?;
            print_lone(out, second)?;
            append(out, b"]")
        }
        None => append(out, b"pair"),
    }
}

/// Appends a plain value, with the two reasons that its tee keeps, where it is a pair.
pub fn print_plain(
    out: &mut Vec<u8>,
    plain: Plain,
    pair: Option<(Plain, Plain)>,
) -> Result<(), NoMemory>
    ensures appended { OnOk result (out.new.items ≡ out.old.items ++ plain_text pair plain) }
{
    match plain {
        Plain::Pair(_) => print_pair(out, pair),
        Plain::Undefined => print_lone(out, plain),
        Plain::Number(_) => print_lone(out, plain),
        Plain::Fault(_) => print_lone(out, plain),
        Plain::Local(_) => print_lone(out, plain),
    }
}

/// The tee whose two reasons a plain value names.
pub fn tee_in(plain: Plain) -> Option<TeeId>
    ensures { result ≡ tee_in plain }
{
    match plain {
        Plain::Pair(tee) => Some(tee),
        Plain::Undefined => None,
        Plain::Number(_) => None,
        Plain::Fault(_) => None,
        Plain::Local(_) => None,
    }
}

/// The tee whose two reasons a value names.
pub fn tee_in_value(value: &Value) -> Option<TeeId>
    ensures { result ≡ tee_in_value value.now }
{
    match value {
        Value::Plain(plain) => tee_in(*plain),
        Value::Bytes(_) => None,
    }
}

/// Appends bytes in hexadecimal.
fn print_hex(out: &mut Vec<u8>, bytes: &[u8]) -> Result<(), NoMemory>
    ensures appended { OnOk result (out.new.items ≡ out.old.items ++ encode_lower bytes.now) }
{
    let start = out.len();
    let end = start.checked_add(2 * bytes.len()).ok_or(NoMemory)?;
    out.resize(end, 0)?;
    hex::encode_to_slice(bytes, &mut out[start..]).unwrap();
    Ok(())
}

/// Appends a value.
pub fn print_value(
    out: &mut Vec<u8>,
    value: &Value,
    pair: Option<(Plain, Plain)>,
) -> Result<(), NoMemory>
    ensures appended { OnOk result (out.new.items ≡ out.old.items ++ value_text pair value.now) }
{
    match value {
        Value::Plain(plain) => print_plain(out, *plain, pair),
        Value::Bytes(bytes) => {
            append(out, b"x")?;
            print_hex(out, bytes.as_slice())
        }
    }
}
