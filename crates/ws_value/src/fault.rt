/// Why a stream errored or a promise was rejected.
#[derive(Clone, Copy)]
pub enum Fault {
    /// ECMAScript's TypeError, of any message.
    TypeError,
    /// ECMAScript's RangeError, of any message.
    RangeError,
    /// A DataCloneError: a value that can't be sent in a message.
    DataClone,
    /// A reason of the host's own.
    User(u32),
    /// The input couldn't be read.
    Read,
    /// The output couldn't be written.
    Write,
    /// A stage found its input malformed: which stage, from 1, the cause, and the place in the stage's input, from 0.
    Stage { index: u32, code: u8, place: u128 },
    /// The input is longer than the limit.
    TooMuch,
    /// The pipeline was aborted.
    Abort,
    /// Memory couldn't be had.
    NoMemory,
}
