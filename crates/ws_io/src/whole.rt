ghost use Rattle.std.specs.Prelude.{◌≡◌};
ghost use Rattle.ws_io.specs.Faults.{HasCause};
ghost use Rattle.ws_io.specs.Gain.{KeepsTold};
ghost use Rattle.ws_io.specs.Written.{WroteFirst};

use crate::{Failed, Sink};

/// Writes until the whole piece is taken or a write fails.
pub fn write_whole<K: Sink>(output: &mut K, piece: &[u8]) -> Result<(), Failed>
    ensures bytes { WroteFirst (K.got output.old) (K.got output.new) result piece.now }
    ensures finished { KeepsTold (K.finished output.old) (K.finished output.new) }
    ensures begun { K.begun output.new ≡ K.begun output.old }
    ensures cause { HasCause (K.faults output.old) (K.faults output.new) result }
{
    let mut rest = piece;
    while !rest.is_empty() {
        let count = output.write(rest)?;
        rest = &rest[count..];
    }
    Ok(())
}
