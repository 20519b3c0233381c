//! Words that are appended to a text.
ghost use Rattle.std.specs.Prelude.{◌≡◌, ◌++◌, OnOk};
ghost use Rattle.hex.specs.Hex.{encode_lower};
ghost use Rattle.ws_plan.specs.Stages.{numbered};

use itoa::{Buffer, Integer};
use std::alloc::Global;
use ws_value::NoMemory;

/// Appends words. After want of memory a part of them may stand there, here and below.
pub(crate) fn append(out: &mut Vec<u8>, words: &[u8]) -> Result<(), NoMemory>
    ensures { OnOk result (out.new.items ≡ out.old.items ++ words.now) }
{
    out.extend_from_slice(words)?;
    Ok(())
}

/// Appends words and a number in decimal.
pub(crate) fn append_numbered<I: Integer>(
    out: &mut Vec<u8>,
    words: &[u8],
    number: I,
) -> Result<(), NoMemory>
    ensures { OnOk result (out.new.items ≡ out.old.items ++ (words.now ++ I.text number)) }
{
    append(out, words)?;
    append(out, Buffer::new().format(number).as_bytes())
}

/// Appends words and a signed number in decimal.
pub(crate) fn append_signed(out: &mut Vec<u8>, words: &[u8], number: i64) -> Result<(), NoMemory>
    ensures { OnOk result (out.new.items ≡ out.old.items ++ numbered words.now number) }
{
    append_numbered(out, words, number)
}

/// Appends words and bytes in lower-case hexadecimal.
pub(crate) fn append_bytes(
    alloc: Global,
    out: &mut Vec<u8>,
    words: &[u8],
    bytes: &[u8],
) -> Result<(), NoMemory>
    ensures { OnOk result (out.new.items ≡ out.old.items ++ (words.now ++ encode_lower bytes.now)) }
{
    let digits = hex::encode(alloc, bytes)?.into_bytes();
    append(out, words)?;
    append(out, digits.as_slice())?;
    Ok(())
}
