//! A line of a script that performs a call.
ghost use Rattle.std.specs.Prelude.{◌≡◌, map, IfOk};
ghost use Rattle.ws_grammar.specs.Lines.{jobs_of, line_of_words};

use crate::Spelled;
use crate::calls::call_of;
use crate::numbers::number_u32;
use std::alloc::Global;
use ws_value::NoMemory;

/// How many jobs run at most after a call.
const MOST_JOBS: u32 = 100_000;

/// A line that performs a call.
#[derive(Drop)]
pub struct Line {
    /// The number of the line in the text, from 1.
    pub number: u32,
    /// How many jobs run at most after the call.
    pub jobs: u32,
    pub call: Spelled,
}

/// How many jobs a prefix allows.
fn jobs_of(digits: &[u8]) -> Option<u32>
    ensures { result ≡ jobs_of digits.now }
{
    let jobs = number_u32(digits)?;
    if jobs <= MOST_JOBS { Some(jobs) } else { None }
}

/// The line that these words spell.
pub fn line_of_words(alloc: Global, number: u32, words: &[&[u8]]) -> Result<Option<Line>, NoMemory>
    ensures { IfOk result (λ line. line ≡ line_of_words number (map (λ word. word.now) words.now)) }
{
    let Some((word, others)) = words.split_first() else {
        return Ok(None);
    };
    let [b'@', digits @ ..] = *word else {
        let call = call_of(alloc, words)?;
        return Ok(call.map(|call| Line {
            number,
            jobs: MOST_JOBS,
            call,
        }));
    };
    let Some(jobs) = jobs_of(digits) else {
        return Ok(None);
    };
    let call = call_of(alloc, others)?;
    Ok(call.map(|call| Line { number, jobs, call }))
}
