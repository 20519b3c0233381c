//! What is done by the kind of a stage.
ghost use Rattle.std.specs.Prelude.{◌≡◌, ◌+◌, ◌≤◌, [], true, IfOk, OnOk, length};
ghost use Rattle.ws_flow.specs.declared.plan.Ending.TheVariants.{Fine};
ghost use Rattle.ws_flow.specs.Plans.{is_known, may_see};
ghost use Rattle.ws_flow.specs.Stages.{HasLength, RestFits, form, is_in_range, machine};
ghost use Rattle.ws_stages.specs.Cuts.{CanTake, kept_of, seen};

use crate::cut::{Blocks, Cut, Frames, Lines, cut_blocks, cut_bytes, cut_lines};
use crate::text::{framed, from_hex, in_hex, masked, numbered};
use std::alloc::Global;
use ws_flow::{Ending, Stage};
use ws_value::{Blob, NoMemory};

/// The most bytes of a line or a frame, of a block, and of a key.
const MOST_OF_A_CHUNK: i64 = 1_048_576;

const MOST_OF_A_BLOCK: i64 = 65_536;

const MOST_OF_A_KEY: usize = 64;

/// Whether a stage's number, or the length of its key, is in its range.
pub(crate) fn is_in_range(stage: &Stage) -> bool
    ensures { result ≡ is_in_range stage.now }
{
    match stage {
        Stage::Lines { max } => 1 <= *max && *max <= MOST_OF_A_CHUNK,
        Stage::Fixed { n } => 1 <= *n && *n <= MOST_OF_A_BLOCK,
        Stage::Mask { key } => 1 <= key.len() && key.len() <= MOST_OF_A_KEY,
        Stage::Unframe { max } => 0 <= *max && *max <= MOST_OF_A_CHUNK,
        Stage::Hex | Stage::Unhex | Stage::Number | Stage::Frame => true,
    }
}

/// Whether a stage may stand where the cutting of its input is `known` not to depend on how that of the plan was cut.
pub(crate) fn may_see(known: bool, stage: &Stage) -> bool
    ensures { result ≡ may_see known (form stage.now) }
{
    match stage {
        Stage::Number | Stage::Frame => known,
        Stage::Lines { .. } | Stage::Fixed { .. } | Stage::Unframe { .. } => true,
        Stage::Hex | Stage::Unhex | Stage::Mask { .. } => true,
    }
}

/// Whether the cutting of what a stage hands on is known not to depend on that, by what is `known` of its input.
pub(crate) fn is_known(known: bool, stage: &Stage) -> bool
    ensures { result ≡ is_known known (form stage.now) }
{
    match stage {
        Stage::Lines { .. } | Stage::Fixed { .. } | Stage::Unframe { .. } => true,
        Stage::Unhex => false,
        Stage::Hex | Stage::Mask { .. } | Stage::Number | Stage::Frame => known,
    }
}

/// An equal stage.
pub(crate) fn copy_of(alloc: Global, stage: &Stage) -> Result<Stage, NoMemory>
    ensures { IfOk result (λ copy. copy ≡ stage.now) }
{
    match stage {
        Stage::Lines { max } => Ok(Stage::Lines { max: *max }),
        Stage::Fixed { n } => Ok(Stage::Fixed { n: *n }),
        Stage::Hex => Ok(Stage::Hex),
        Stage::Unhex => Ok(Stage::Unhex),
        Stage::Mask { key } => Ok(Stage::Mask {
            key: Blob::of(alloc, key.as_slice())?,
        }),
        Stage::Number => Ok(Stage::Number),
        Stage::Frame => Ok(Stage::Frame),
        Stage::Unframe { max } => Ok(Stage::Unframe { max: *max }),
    }
}

/// The stage takes this chunk.
pub(crate) fn take(stage: &Stage, cut: &mut Cut, chunk: &[u8]) -> Result<(), NoMemory>
    requires range { is_in_range stage.now ≡ true }
    requires room { CanTake cut.old (length chunk.now) }
    requires rest { RestFits stage.now cut.old.rest.items }
    requires length { HasLength stage.now (length chunk.now) }
    ensures seen { OnOk result (seen cut.new ≡ (machine stage.now).push (kept_of cut.old) chunk.now) }
    ensures rest { OnOk result (RestFits stage.now cut.new.rest.items) }
    ensures bytes { OnOk result (cut.new.bytes ≤ cut.old.bytes + length chunk.now) }
    ensures count { OnOk result (cut.new.count ≤ cut.old.count + 1) }
{
    match stage {
        Stage::Lines { max } => cut_lines(&Lines(max.unsigned_abs() as usize), cut, chunk),
        Stage::Fixed { n } => cut_blocks(&Blocks(n.unsigned_abs() as usize), cut, chunk),
        Stage::Unframe { max } => cut_bytes(&Frames(max.unsigned_abs() as usize), cut, chunk),
        Stage::Unhex => {
            let text = from_hex(cut, chunk)?;
            cut.hand_on_some(text)
        }
        Stage::Hex => {
            let text = in_hex(cut, chunk)?;
            cut.hand_on(chunk.len(), text)
        }
        Stage::Mask { key } => {
            let text = masked(cut, key.as_slice(), chunk)?;
            cut.hand_on(chunk.len(), text)
        }
        Stage::Number => {
            cut.count += 1;
            cut.chunks.push(numbered(cut.alloc, cut.count, chunk)?)?;
            Ok(())
        }
        Stage::Frame => {
            cut.count += 1;
            cut.chunks.push(framed(cut.alloc, chunk)?)?;
            Ok(())
        }
    }
}

/// The stage's input has ended.
pub(crate) fn finish(stage: &Stage, cut: &mut Cut) -> Result<(), NoMemory>
    requires fine { cut.old.ending ≡ Fine }
    requires chunks { cut.old.chunks.items ≡ [] }
    ensures { OnOk result (seen cut.new ≡ (machine stage.now).flush (kept_of cut.old)) }
{
    if cut.rest.is_empty() {
        return Ok(());
    }
    match stage {
        Stage::Lines { .. } | Stage::Fixed { .. } => cut.close_from(0)?,
        Stage::Unhex => {
            cut.ending = Ending::Bad {
                code: 3,
                place: cut.bytes,
            }
        }
        Stage::Unframe { .. } => {
            cut.ending = Ending::Bad {
                code: 5,
                place: cut.bytes,
            }
        }
        Stage::Hex | Stage::Mask { .. } | Stage::Number | Stage::Frame => {}
    }
    Ok(())
}
