//! Decimal numbers.
ghost use Rattle.std.specs.Prelude.{◌≡◌, ◌^◌};
ghost use Rattle.std.specs.Char.{is_ascii_digit};
ghost use Rattle.std.specs.List.{list_all};
ghost use Rattle.ws_grammar.specs.Numbers.{is_decimal, number_below};

/// Whether all bytes are decimal digits.
fn all_digits(word: &[u8]) -> bool
    ensures { result ≡ list_all is_ascii_digit word.now }
{
    word.iter().all(|digit| digit.is_ascii_digit())
}

/// Whether a word is a number in decimal, without leading zeros.
#[tactic(auto, using(crate::proofs::NumberLemmas::is_decimal_long))]
fn is_decimal(word: &[u8]) -> bool
    ensures { result ≡ is_decimal word.now }
{
    match word {
        [] => false,
        [digit] => digit.is_ascii_digit(),
        [first, ..] => *first != b'0' && all_digits(word),
    }
}

/// A decimal number that a `u128` can hold.
pub fn number_u128(word: &[u8]) -> Option<u128>
    ensures { result ≡ number_below (2 ^ 128) word.now }
{
    if !is_decimal(word) {
        return None;
    }
    let Ok(text) = str::from_utf8(word) else {
        return None;
    };
    text.parse().ok()
}

/// A decimal number that a `u64` can hold.
pub fn number_u64(word: &[u8]) -> Option<u64>
    ensures { result ≡ number_below (2 ^ 64) word.now }
{
    u64::try_from(number_u128(word)?).ok()
}

/// A decimal number that a `u32` can hold.
pub fn number_u32(word: &[u8]) -> Option<u32>
    ensures { result ≡ number_below (2 ^ 32) word.now }
{
    u32::try_from(number_u128(word)?).ok()
}

/// A decimal number that a `u16` can hold.
pub fn number_u16(word: &[u8]) -> Option<u16>
    ensures { result ≡ number_below (2 ^ 16) word.now }
{
    u16::try_from(number_u128(word)?).ok()
}

/// A decimal number that a `u8` can hold.
pub fn number_u8(word: &[u8]) -> Option<u8>
    ensures { result ≡ number_below (2 ^ 8) word.now }
{
    u8::try_from(number_u128(word)?).ok()
}
