//! Lists of numbers that say what each call of an object in memory does.
ghost use Rattle.std.specs.Prelude.{◌≡◌, ◌<◌, length};
ghost use Rattle.ws_io.specs.Memory.{held_at, has_number};

/// The number at an index; the last one holds on.
pub(crate) fn number_at(numbers: &[u64], index: u64) -> u64
    requires { 0 < length numbers.now }
    ensures { result ≡ held_at numbers.now index }
{
    let last = numbers.len() - 1;
    numbers[index.min(last as u64) as usize]
}

pub(crate) fn contains(numbers: &[u64], number: u64) -> bool
    ensures { result ≡ has_number numbers.now number }
{
    numbers.iter().any(|x| *x == number)
}
