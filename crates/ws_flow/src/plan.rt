use ws_value::Blob;

/// What is done to the bytes or chunks that pass. Numbers are as the pipeline file gives them, and may be out of their
/// range.
#[derive(Drop)]
pub enum Stage {
    /// The joined input, cut after each line feed. A line of more than `max` bytes, its feed not counted, is bad.
    Lines { max: i64 },
    /// The joined input in blocks of `n` bytes; the last may be shorter.
    Fixed { n: i64 },
    /// Each chunk as lower-case hexadecimal text.
    Hex,
    /// The bytes of the joined input's hexadecimal digits, in both cases; line feeds and carriage returns are passed
    /// over.
    Unhex,
    /// Each byte xor the key's byte at its place in the stage's input, the key repeated.
    Mask { key: Blob },
    /// Each chunk with its number from 1 in decimal and one blank before it.
    Number,
    /// Each chunk with its length before it, in four bytes, big-endian.
    Frame,
    /// A chunk for each frame of that form. A length of more than `max` is bad.
    Unframe { max: i64 },
}

/// A stage, and the worker on which it is performed: 0 is the caller's own thread.
#[derive(Drop)]
pub struct Placed {
    pub stage: Stage,
    pub worker: i64,
}

/// A pipeline: its stages in order, its number of workers, after how many bytes of output it is aborted, and how many
/// bytes of input it takes.
#[derive(Drop)]
pub struct Plan {
    pub workers: i64,
    pub abort_after: Option<i64>,
    pub max_input: i64,
    pub stages: Vec<Placed>,
}

/// How a stage ended, or that it hasn't yet.
#[derive(Clone, Copy, PartialEq, Eq)]
pub enum Ending {
    Fine,
    /// The stage's input is malformed: the cause by its number, and the place in the stage's input, from 0.
    ///
    /// 1: a line of `lines` is too long. 2: a byte of `unhex` is neither a digit nor passed over. 3: the digits of
    /// `unhex` are odd in number. 4: a length of `unframe` is too large. 5: the input of `unframe` ends inside a
    /// frame.
    Bad { code: u8, place: u128 },
}
