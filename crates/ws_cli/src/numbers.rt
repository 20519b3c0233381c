//! Words and numbers that are written.
ghost use Rattle.std.specs.Prelude.{◌++◌, OnOk};
ghost use Rattle.ws_io.specs.Faults.{HasCause};
ghost use Rattle.ws_io.specs.Gain.{Gains, KeepsTold};
ghost use Rattle.ws_io.specs.Written.{WroteFirst};

use itoa::{Buffer, Integer};
use ws_io::{Failed, Sink, write_whole};

/// Writes words and a number in decimal.
pub fn write_number<K: Sink, I: Integer>(
    output: &mut K,
    words: &[u8],
    number: I,
) -> Result<(), Failed>
    ensures first { WroteFirst (K.got output.old) (K.got output.new) result (words.now ++ I.text number) }
    ensures bytes { OnOk result (Gains (K.got output.old) (K.got output.new) (words.now ++ I.text number)) }
    ensures finished { KeepsTold (K.finished output.old) (K.finished output.new) }
    ensures cause { HasCause (K.faults output.old) (K.faults output.new) result }
{
    write_whole(output, words)?;
    write_whole(output, Buffer::new().format(number).as_bytes())
}
