//! The lines of a script.
ghost use Rattle.std.specs.Prelude.{◌≡◌, ◌+◌, ◌<◌, ◌≤◌, ◌↔◌, ◌++◌, ℕ, List, length, option_map, IfOk, IfErr, OnOk, IsOkUnless, IsErrAnd, ◌⊎◌};
ghost use Rattle.ws_grammar.specs.declared.line.Line.{Line};
ghost use Rattle.ws_grammar.specs.declared.refused.ScriptRefused.TheVariants.{BadLine, TooLong, NoMemory};
ghost use Rattle.ws_grammar.specs.Lines.{lines, most_bytes, is_comment, added_by};
ghost use Rattle.ws_grammar.specs.Refusals.{IsRefusalOf, IsRefusal};

use crate::line::line_of_words;
use crate::words::words_of;
use crate::{Line, ScriptRefused};
use std::alloc::Global;

/// How many bytes a script may have.
const MOST_BYTES: usize = 1_048_576;

/// Whether a line begins with `#`.
fn is_comment(line: &[u8]) -> bool
    ensures { result ≡ is_comment line.now }
{
    matches!(line, [b'#', ..])
}

/// Adds what a line says to the lines before it.
fn add_line(
    alloc: Global,
    found: &mut Vec<Line>,
    number: u32,
    line: &[u8],
) -> Result<(), ScriptRefused>
    ensures added { OnOk result (option_map (λ more. found.old.items ++ more) (added_by number line.now)
        ≡ Some found.new.items) }
    ensures refused { IfErr result (λ refused. IsRefusalOf refused (added_by number line.now) number) }
{
    if is_comment(line) {
        return Ok(());
    }
    let words = words_of(alloc, line)?;
    if words.is_empty() {
        return Ok(());
    }
    match line_of_words(alloc, number, &words)? {
        Some(line) => {
            found.push(line)?;
            Ok(())
        }
        None => Err(ScriptRefused::BadLine(number)),
    }
}

/// The lines of a text that isn't too long.
fn read_lines(alloc: Global, text: &[u8]) -> Result<Vec<Line>, ScriptRefused>
    requires { length text.now ≤ most_bytes }
    ensures read { IfOk result (λ found. lines text.now ≡ Ok found.items) }
    ensures refused { IfErr result (λ refused. IsRefusal refused (lines text.now)) }
{
    let mut found = Vec::new(alloc);
    let mut number = 0;
    for line in text.split(|byte| *byte == b'\n') {
        number += 1;
        add_line(alloc, &mut found, number, line)?;
    }
    Ok(found)
}

/// Reads a script. Its lines end with a line feed, which the last may lack; one carriage return at a line's end is
/// dropped, and empty lines and lines that begin with `#` are passed over, but counted.
pub fn read_script(alloc: Global, text: &[u8]) -> Result<Vec<Line>, ScriptRefused>
    ensures read { IfOk result (λ found. (length text.now ≤ most_bytes) × (lines text.now ≡ Ok found.items)) }
    ensures few { IfOk result (λ found. length found.items ≤ length text.now + 1) }
    ensures bad_line { (n : ℕ) → result ≡ Err (BadLine n) → (length text.now ≤ most_bytes) × (lines text.now ≡ Err n) }
    ensures too_long { (result ≡ Err TooLong) ↔ (most_bytes < length text.now) }
    // What is in the grammar and short enough is read, unless memory runs out.
    ensures accepted { (found : List Line) → lines text.now ≡ Ok found → length text.now ≤ most_bytes
        → IsOkUnless result NoMemory }
    // What is outside the grammar and short enough is refused at its first bad line, unless memory runs out.
    ensures outside { (n : ℕ) → lines text.now ≡ Err n → length text.now ≤ most_bytes
        → IsErrAnd result (λ refused. (refused ≡ BadLine n) ⊎ (refused ≡ NoMemory)) }
{
    if text.len() > MOST_BYTES {
        return Err(ScriptRefused::TooLong);
    }
    read_lines(alloc, text)
}
