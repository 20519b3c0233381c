//! The reading of a script's text.
ghost use Rattle.std.specs.Prelude.{◌<◌, length, IfOk, IfErr};
ghost use Rattle.ws_script.specs.Reading.{ReadsMore, StopsReading, ReadsText, most_of_a_text};

use std::alloc::Global;
use ws_io::{Failed, Source, Status};

/// The most bytes of a script.
const MOST_BYTES: usize = 1_048_576;

/// The most bytes of one read of the input.
const MOST_OF_A_READ: usize = 4096;

/// Reads the input once, into the room, and appends what came. 0 says that the input has ended.
fn read_more<S: Source>(input: &mut S, room: &mut [u8], text: &mut Vec<u8>) -> Result<usize, Status>
    requires { 0 < length room.old }
    ensures more { IfOk result (λ count.
        ReadsMore (S.feed input.old) (S.feed input.new)
        (S.faults input.old) (S.faults input.new) (length room.old) count text.old.items text.new.items) }
    ensures stopped { IfErr result (λ status.
        StopsReading status (length room.old) (S.feed input.old) (S.feed input.new)
        (S.faults input.old) (S.faults input.new)) }
{
    match input.read(room) {
        Ok(count) => {
            if text.extend_from_slice(&room[..count]).is_err() {
                return Err(Status::NoMemory);
            }
            Ok(count)
        }
        Err(Failed) => Err(Status::ReadFault),
    }
}

/// Reads the input to its end, or until it is longer than a script may be.
pub(crate) fn read_text<S: Source>(alloc: Global, input: &mut S) -> Result<Vec<u8>, Status>
    ensures read { IfOk result (λ text.
        ReadsText (S.feed input.old) (S.feed input.new) (S.faults input.old) (S.faults input.new) text.items) }
    ensures stopped { IfErr result (λ status.
        StopsReading status most_of_a_text (S.feed input.old) (S.feed input.new)
        (S.faults input.old) (S.faults input.new)) }
{
    let mut room = [0; MOST_OF_A_READ];
    let mut text = Vec::new(alloc);
    'reads: while text.len() <= MOST_BYTES {
        let want = (MOST_BYTES + 1 - text.len()).min(MOST_OF_A_READ);
        if read_more(input, &mut room[..want], &mut text)? == 0 {
            return Ok(text);
        }
    }
    Ok(text)
}
