//! Numbers that name the objects of one realm. Each kind is numbered from 0 in order of making, and no number is used
//! again.

/// The number of a stream.
#[derive(Clone, Copy)]
pub struct StreamId(pub u32);

/// The number of a tee.
#[derive(Clone, Copy)]
pub struct TeeId(pub u32);

/// The number of a reader or a writer.
#[derive(Clone, Copy)]
pub struct LockId(pub u128);

/// The number of a promise.
#[derive(Clone, Copy)]
pub struct PromiseId(pub u128);

/// The number of a call of a host's algorithm.
#[derive(Clone, Copy)]
pub struct HostId(pub u128);

/// The number of a message port.
#[derive(Clone, Copy)]
pub struct PortId(pub u128);

/// The number of a pipe from a readable to a writable stream.
#[derive(Clone, Copy)]
pub struct PipeId(pub u128);

/// The number of an abort signal.
#[derive(Clone, Copy)]
pub struct SignalId(pub u128);

/// The number of a BYOB request of a byte stream.
#[derive(Clone, Copy)]
pub struct RequestId(pub u128);
