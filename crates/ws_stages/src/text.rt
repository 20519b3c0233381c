//! What stages make of bytes: each one masked, their hexadecimal text, the bytes of such a text, and chunks with a
//! number or a length before them.
ghost use Rattle.std.specs.Prelude.{◌≡◌, ◌∷◌, ◌++◌, ◌+◌, ◌<◌, ◌≤◌, ◌^◌, IfOk, OnOk, decimal, length};
ghost use Rattle.hex.specs.Hex.{hex_digit_value};
ghost use Rattle.ws_flow.specs.declared.plan.Ending.TheVariants.{Fine};
ghost use Rattle.ws_flow.specs.Machines.{One, SomeBytes, byte_push};
ghost use Rattle.ws_flow.specs.Stages.{IsHalf, framed, hex_byte, mask_byte, unhex_byte};
ghost use Rattle.ws_stages.specs.Cuts.{CanTake, handing, handing_some, kept_of, seen_text, with_text};

use crate::cut::Cut;
use itoa::Buffer;
use std::alloc::Global;
use ws_flow::Ending;
use ws_lanes::{mask, put_hex};
use ws_value::{Chunk, NoMemory};

/// The digits of the largest number of 64 bits.
const LONGEST_NUMBER: usize = 20;

/// The bytes, each xor the key's byte at its place, the key repeated.
pub fn masked(cut: &Cut, key: &[u8], bytes: &[u8]) -> Result<Chunk, NoMemory>
    requires key { 0 < length key.now }
    requires most { length key.now ≤ 64 }
    requires room { CanTake cut.now (length bytes.now) }
    ensures { IfOk result (λ chunk. handing cut.now (length bytes.now) chunk
        ≡ byte_push One (mask_byte key.now) (kept_of cut.now) bytes.now) }
{
    let mut text = Vec::from_slice(cut.alloc, bytes)?;
    // modulo the key's length, so that the place of a byte never overflows
    let place = (cut.bytes % key.len() as u128) as u64;
    mask(text.as_mut_slice(), key, place);
    Ok(Chunk::from_vec(text))
}

/// The text of these bytes, in lower case.
pub fn in_hex(cut: &Cut, bytes: &[u8]) -> Result<Chunk, NoMemory>
    requires room { CanTake cut.now (length bytes.now) }
    ensures { IfOk result (λ chunk. handing cut.now (length bytes.now) chunk
        ≡ byte_push One hex_byte (kept_of cut.now) bytes.now) }
{
    let mut text = vec![in cut.alloc; 0; 2 * bytes.len()]?;
    put_hex(text.as_mut_slice(), bytes);
    Ok(Chunk::from_vec(text))
}

/// The value of a digit in either case.
fn digit_value(byte: u8) -> Option<u8>
    ensures { result ≡ hex_digit_value byte }
{
    match byte {
        b'0'..=b'9' => Some(byte - b'0'),
        b'a'..=b'f' => Some(byte - b'a' + 10),
        b'A'..=b'F' => Some(byte - b'A' + 10),
        _ => None,
    }
}

/// Reads one byte of the text.
fn read_digit(cut: &mut Cut, text: &mut Vec<u8>, byte: u8) -> Result<(), NoMemory>
    requires room { cut.old.bytes + 1 < 2 ^ 128 }
    requires fine { cut.old.ending ≡ Fine }
    requires half { IsHalf cut.old.rest.items }
    ensures seen { OnOk result
        (seen_text cut.new text.new.items ≡ with_text text.old.items (unhex_byte (kept_of cut.old) byte)) }
    ensures bytes { OnOk result (cut.new.bytes ≤ cut.old.bytes + 1) }
    ensures count { OnOk result (cut.new.count ≡ cut.old.count) }
    ensures chunks { OnOk result (cut.new.chunks.items ≡ cut.old.chunks.items) }
    ensures half { OnOk result (IsHalf cut.new.rest.items) }
{
    if byte == b'\n' || byte == b'\r' {
        cut.bytes += 1;
        return Ok(());
    }
    let Some(digit) = digit_value(byte) else {
        cut.ending = Ending::Bad {
            code: 2,
            place: cut.bytes,
        };
        return Ok(());
    };
    cut.bytes += 1;
    if cut.rest.is_empty() {
        cut.rest.push(digit)?;
        return Ok(());
    }
    let high = cut.rest[0];
    cut.rest.clear();
    text.push(16 * high + digit)?;
    Ok(())
}

/// The bytes of the digits of this text, until a byte is bad. A digit that is left over waits in the cut for the next.
pub fn from_hex(cut: &mut Cut, bytes: &[u8]) -> Result<Vec<u8>, NoMemory>
    requires room { cut.old.bytes + length bytes.now < 2 ^ 128 }
    requires fine { cut.old.ending ≡ Fine }
    requires half { IsHalf cut.old.rest.items }
    ensures seen { IfOk result (λ text.
        handing_some cut.new text.items ≡ byte_push SomeBytes unhex_byte (kept_of cut.old) bytes.now) }
    ensures bytes { OnOk result (cut.new.bytes ≤ cut.old.bytes + length bytes.now) }
    ensures count { OnOk result (cut.new.count ≡ cut.old.count) }
    ensures chunks { OnOk result (cut.new.chunks.items ≡ cut.old.chunks.items) }
    ensures half { OnOk result (IsHalf cut.new.rest.items) }
{
    let mut text = Vec::new(cut.alloc);
    for byte in bytes {
        read_digit(cut, &mut text, *byte)?;
        if let Ending::Bad { .. } = cut.ending {
            return Ok(text);
        }
    }
    Ok(text)
}

/// The bytes with a number and a blank before them.
pub fn numbered(alloc: Global, number: u64, bytes: &[u8]) -> Result<Chunk, NoMemory>
    ensures { IfOk result (λ chunk. chunk ≡ decimal number ++ 32 ∷ bytes.now) }
{
    let mut text = Vec::with_capacity(alloc, bytes.len() + LONGEST_NUMBER + 1)?;
    text.extend_from_slice(Buffer::new().format(number).as_bytes())?;
    text.push(b' ')?;
    text.extend_from_slice(bytes)?;
    Ok(Chunk::from_vec(text))
}

/// The bytes with their number before them, in four bytes.
pub fn framed(alloc: Global, bytes: &[u8]) -> Result<Chunk, NoMemory>
    requires { length bytes.now < 2 ^ 32 }
    ensures { IfOk result (λ chunk. chunk ≡ framed bytes.now) }
{
    let length = bytes.len() as u32;
    let mut frame = Vec::with_capacity(alloc, bytes.len() + 4)?;
    frame.extend_from_slice(&length.to_be_bytes())?;
    frame.extend_from_slice(bytes)?;
    Ok(Chunk::from_vec(frame))
}
