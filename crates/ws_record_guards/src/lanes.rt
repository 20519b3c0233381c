//! The lane kernels.
ghost use Rattle.std.specs.Prelude.{◌≡◌, ◌==◌, ◌*◌, ◌<◌, ◌≤◌, count_by, length};
ghost use Rattle.hex.specs.Hex.{encode_lower};
ghost use Rattle.ws_lanes.specs.Kernels.{masked};

/// Each byte of the block xor the key's at its place, the key repeated.
pub fn mask(block: &mut [u8], key: &[u8], place: u64)
    requires some { 0 < length key.now }
    requires most { length key.now ≤ 64 }
    ensures { block.new ≡ masked key.now place block.old }
{
    ws_lanes::mask(block, key, place)
}

/// How often the byte stands in the block.
pub fn count_byte(block: &[u8], b: u8) -> u64
    ensures { result ≡ count_by (λ x. x == b) block.now }
{
    ws_lanes::count_byte(block, b)
}

/// Writes the text of these bytes in lower case, two digits for each.
pub fn put_hex(text: &mut [u8], bytes: &[u8])
    requires { length text.old ≡ 2 * length bytes.now }
    ensures { text.new ≡ encode_lower bytes.now }
{
    ws_lanes::put_hex(text, bytes)
}
