//! Stages that cut their input into chunks wherever it was cut before: `lines` a line at a time, `fixed` a block at a
//! time, `unframe` byte by byte.
ghost use Rattle.std.specs.Prelude.{◌≡◌, ◌∷◌, ◌++◌, [], ◌+◌, ◌<◌, ◌≤◌, ◌^◌, OnOk, length, drop, slice_index};
ghost use Rattle.ws_flow.specs.declared.plan.Ending.TheVariants.{Fine};
ghost use Rattle.ws_flow.specs.Machines.{each_byte};
ghost use Rattle.ws_flow.specs.Stages.{block_byte, line_byte};
ghost use Rattle.ws_stages.specs.Cuts.{HasNoFeed, handing, handing_some, kept_of, seen, too_long_at, with_bytes, with_chunks};

use memchr::memchr;
use std::alloc::Global;
use std::mem;
use ws_flow::Ending;
use ws_value::{Chunk, NoMemory};

/// What a stage has cut of its input's bytes so far: the chunks, and the bytes that no chunk has yet.
#[derive(Drop)]
pub struct Cut {
    pub alloc: Global,
    pub rest: Vec<u8>,
    /// The bytes of the stage's input so far, of a stage that sees bytes.
    pub bytes: u128,
    /// The chunks of the stage's input so far, of a stage that sees chunks.
    pub count: u64,
    pub chunks: Vec<Chunk>,
    pub ending: Ending,
}

impl Cut {
    /// Adds bytes to what is left over.
    fn keep(&mut self, bytes: &[u8]) -> Result<(), NoMemory>
        requires room { self.old.bytes + length bytes.now < 2 ^ 128 }
        ensures kept { OnOk result (kept_of self.new ≡ with_bytes (kept_of self.old) bytes.now) }
        ensures chunks { OnOk result (self.new.chunks.items ≡ self.old.chunks.items) }
        ensures ending { OnOk result (self.new.ending ≡ self.old.ending) }
    {
        self.rest.extend_from_slice(bytes)?;
        self.bytes += bytes.len() as u128;
        Ok(())
    }

    /// The bytes that are left over, but for the first `n`, become a chunk, without a copy.
    pub fn close_from(&mut self, n: usize) -> Result<(), NoMemory>
        requires { n ≤ length self.old.rest.items }
        ensures rest { OnOk result (self.new.rest.items ≡ []) }
        ensures chunks { OnOk result
            (self.new.chunks.items ≡ self.old.chunks.items ++ drop n self.old.rest.items ∷ []) }
        ensures bytes { self.new.bytes ≡ self.old.bytes }
        ensures count { self.new.count ≡ self.old.count }
        ensures ending { self.new.ending ≡ self.old.ending }
    {
        let bytes = mem::replace(&mut self.rest, Vec::new(self.alloc));
        let mut chunk = Chunk::from_vec(bytes);
        chunk.advance(n);
        self.chunks.push(chunk)?;
        Ok(())
    }

    /// The same, with room for as many bytes again.
    fn close_with_room(&mut self, n: usize) -> Result<(), NoMemory>
        requires { n ≤ length self.old.rest.items }
        ensures rest { OnOk result (self.new.rest.items ≡ []) }
        ensures chunks { OnOk result
            (self.new.chunks.items ≡ self.old.chunks.items ++ drop n self.old.rest.items ∷ []) }
        ensures bytes { self.new.bytes ≡ self.old.bytes }
        ensures count { self.new.count ≡ self.old.count }
        ensures ending { self.new.ending ≡ self.old.ending }
    {
        let room = self.rest.len();
        self.close_from(n)?;
        self.rest.reserve_exact(room)?;
        Ok(())
    }

    /// What is left over becomes a chunk with these bytes behind it. Where nothing was left over, the chunk takes as
    /// much room as it has bytes.
    fn close_behind(&mut self, bytes: &[u8]) -> Result<(), NoMemory>
        requires room { self.old.bytes + length bytes.now < 2 ^ 128 }
        ensures rest { OnOk result (self.new.rest.items ≡ []) }
        ensures chunks { OnOk result
            (self.new.chunks.items ≡ self.old.chunks.items ++ (self.old.rest.items ++ bytes.now) ∷ []) }
        ensures bytes { OnOk result (self.new.bytes ≡ self.old.bytes + length bytes.now) }
        ensures count { self.new.count ≡ self.old.count }
        ensures ending { self.new.ending ≡ self.old.ending }
    {
        let mut chunk = mem::replace(&mut self.rest, Vec::new(self.alloc));
        chunk.reserve_exact(bytes.len())?;
        chunk.extend_from_slice(bytes)?;
        self.bytes += bytes.len() as u128;
        self.chunks.push(Chunk::from_vec(chunk))?;
        Ok(())
    }

    /// Adds bytes to what is left over, which make a line as long as it may be. The next byte is bad.
    #[cold]
    fn keep_too_long(&mut self, bytes: &[u8]) -> Result<(), NoMemory>
        requires room { self.old.bytes + length bytes.now < 2 ^ 128 }
        ensures seen { OnOk result (seen self.new ≡ too_long_at self.old bytes.now) }
    {
        self.keep(bytes)?;
        self.ending = Ending::Bad {
            code: 1,
            place: self.bytes,
        };
        Ok(())
    }

    /// Puts out a chunk that is made of so many bytes of the input.
    pub fn hand_on(&mut self, bytes: usize, chunk: Chunk) -> Result<(), NoMemory>
        requires room { self.old.bytes + bytes < 2 ^ 128 }
        ensures seen { OnOk result (seen self.new ≡ handing self.old bytes chunk) }
        ensures rest { self.new.rest.items ≡ self.old.rest.items }
        ensures bytes { self.new.bytes ≡ self.old.bytes + bytes }
        ensures count { self.new.count ≡ self.old.count }
    {
        self.bytes += bytes as u128;
        self.chunks.push(chunk)?;
        Ok(())
    }

    /// Puts out a text as a chunk, where it has a byte.
    pub fn hand_on_some(&mut self, text: Vec<u8>) -> Result<(), NoMemory>
        requires { self.old.chunks.items ≡ [] }
        ensures seen { OnOk result (seen self.new ≡ handing_some self.old text.items) }
        ensures rest { self.new.rest.items ≡ self.old.rest.items }
        ensures bytes { self.new.bytes ≡ self.old.bytes }
        ensures count { self.new.count ≡ self.old.count }
    {
        if !text.is_empty() {
            self.chunks.push(Chunk::from_vec(text))?;
        }
        Ok(())
    }
}

/// What a stage does with each byte.
pub trait ByteStep {
    ghost use Rattle.std.specs.Prelude.{ℕ};
    ghost use Rattle.ws_flow.specs.Machines.{Kept, Pushed};

    ghost step: { Self → Kept → ℕ → Pushed };

    fn step(&self, cut: &mut Cut, byte: u8) -> Result<(), NoMemory>
        requires room { cut.old.bytes + 1 < 2 ^ 128 }
        requires fine { cut.old.ending ≡ Fine }
        ensures seen { OnOk result
            (seen cut.new ≡ with_chunks cut.old.chunks.items (step self.now (kept_of cut.old) byte)) }
        ensures bytes { OnOk result (cut.new.bytes ≤ cut.old.bytes + 1) }
        ensures count { OnOk result (cut.new.count ≡ cut.old.count) };
}

/// `lines`: the most bytes of a line, without its feed.
#[derive(Clone, Copy)]
pub struct Lines(pub usize);

/// `fixed`: the bytes of a block.
#[derive(Clone, Copy)]
pub struct Blocks(pub usize);

/// `unframe`: the most bytes of a frame.
#[derive(Clone, Copy)]
pub struct Frames(pub usize);

impl ByteStep for Blocks {
    ghost use Rattle.ws_flow.specs.Stages.{block_byte};

    ghost step = { λ s. block_byte s.0 };

    fn step(&self, cut: &mut Cut, byte: u8) -> Result<(), NoMemory> {
        cut.rest.push(byte)?;
        cut.bytes += 1;
        if cut.rest.len() == self.0 {
            cut.close_with_room(0)?;
        }
        Ok(())
    }
}

impl ByteStep for Frames {
    ghost use Rattle.ws_flow.specs.Stages.{unframe_byte};

    ghost step = { λ s. unframe_byte s.0 };

    fn step(&self, cut: &mut Cut, byte: u8) -> Result<(), NoMemory> {
        cut.rest.push(byte)?;
        cut.bytes += 1;
        let [a, b, c, d, body @ ..] = cut.rest.as_slice() else {
            return Ok(());
        };
        let length = u32::from_be_bytes([*a, *b, *c, *d]) as usize;
        if length > self.0 {
            cut.ending = Ending::Bad {
                code: 4,
                place: cut.bytes.saturating_sub(4),
            };
        } else if body.len() == length {
            cut.close_with_room(4)?;
        }
        Ok(())
    }
}

/// Cuts these bytes too, until one is bad.
pub fn cut_bytes<S: ByteStep>(stage: &S, cut: &mut Cut, bytes: &[u8]) -> Result<(), NoMemory>
    requires room { cut.old.bytes + length bytes.now < 2 ^ 128 }
    requires fine { cut.old.ending ≡ Fine }
    ensures seen { OnOk result (seen cut.new
        ≡ with_chunks cut.old.chunks.items (each_byte (S.step stage.now) (kept_of cut.old) bytes.now)) }
    ensures bytes { OnOk result (cut.new.bytes ≤ cut.old.bytes + length bytes.now) }
    ensures count { OnOk result (cut.new.count ≡ cut.old.count) }
{
    for byte in bytes {
        stage.step(cut, *byte)?;
        if let Ending::Bad { .. } = cut.ending {
            return Ok(());
        }
    }
    Ok(())
}

/// How many bytes stand before the first feed, but no more than `most`.
fn before_feed(bytes: &[u8], most: usize) -> usize
    ensures within { result ≤ length bytes.now }
    ensures most { result ≤ most }
    ensures plain { HasNoFeed result bytes.now }
    ensures stops { result < length bytes.now → result < most → slice_index bytes.now result ≡ 10 }
{
    match memchr(b'\n', bytes) {
        Some(at) => at.min(most),
        None => bytes.len().min(most),
    }
}

/// Cuts these bytes into lines too, until one is bad: a line's bytes go over at once, with its feed.
pub fn cut_lines(stage: &Lines, cut: &mut Cut, bytes: &[u8]) -> Result<(), NoMemory>
    requires room { cut.old.bytes + length bytes.now < 2 ^ 128 }
    requires fine { cut.old.ending ≡ Fine }
    ensures seen { OnOk result (seen cut.new
        ≡ with_chunks cut.old.chunks.items (each_byte (line_byte stage.now.0) (kept_of cut.old) bytes.now)) }
    ensures bytes { OnOk result (cut.new.bytes ≤ cut.old.bytes + length bytes.now) }
    ensures count { OnOk result (cut.new.count ≡ cut.old.count) }
{
    let mut left = bytes;
    while !left.is_empty() {
        let room = stage.0.saturating_sub(cut.rest.len());
        let at = before_feed(left, room);
        if at == left.len() {
            cut.keep(left)?;
            return Ok(());
        }
        if left[at] != b'\n' {
            cut.keep_too_long(&left[..at])?;
            return Ok(());
        }
        let (line, after) = left.split_at(at + 1);
        cut.close_behind(line)?;
        left = after;
    }
    Ok(())
}

/// Cuts these bytes into blocks too: those before the last byte of a block go over at once.
pub fn cut_blocks(stage: &Blocks, cut: &mut Cut, bytes: &[u8]) -> Result<(), NoMemory>
    requires room { cut.old.bytes + length bytes.now < 2 ^ 128 }
    requires fine { cut.old.ending ≡ Fine }
    ensures seen { OnOk result (seen cut.new
        ≡ with_chunks cut.old.chunks.items (each_byte (block_byte stage.now.0) (kept_of cut.old) bytes.now)) }
    ensures bytes { OnOk result (cut.new.bytes ≤ cut.old.bytes + length bytes.now) }
    ensures count { OnOk result (cut.new.count ≡ cut.old.count) }
{
    let mut left = bytes;
    while !left.is_empty() {
        let room = stage.0.saturating_sub(1).saturating_sub(cut.rest.len());
        let (some, rest) = left.split_at(room.min(left.len()));
        cut.keep(some)?;
        let Some((byte, after)) = rest.split_first() else {
            return Ok(());
        };
        stage.step(cut, *byte)?;
        left = after;
    }
    Ok(())
}
