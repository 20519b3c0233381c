//! Text at the end of a vector. After want of memory a part of it may stand there.
ghost use Rattle.std.specs.Prelude.{◌≡◌, ◌++◌, OnOk};

use itoa::{Buffer, Integer};
use ws_value::NoMemory;

/// Appends words.
pub fn append(out: &mut Vec<u8>, words: &[u8]) -> Result<(), NoMemory>
    ensures appended { OnOk result (out.new.items ≡ out.old.items ++ words.now) }
{
    out.extend_from_slice(words)?;
    Ok(())
}

/// Appends a number in decimal.
pub fn append_number<I: Integer>(out: &mut Vec<u8>, number: I) -> Result<(), NoMemory>
    ensures appended { OnOk result (out.new.items ≡ out.old.items ++ I.text number) }
{
    append(out, Buffer::new().format(number).as_bytes())
}

/// Appends words and a number in decimal.
pub fn append_numbered<I: Integer>(
    out: &mut Vec<u8>,
    words: &[u8],
    number: I,
) -> Result<(), NoMemory>
    ensures appended { OnOk result (out.new.items ≡ out.old.items ++ (words.now ++ I.text number)) }
{
    append(out, words)?;
    append_number(out, number)
}
