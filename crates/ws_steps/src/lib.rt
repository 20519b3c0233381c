//! The step table: the abstract operations of the Streams Standard as definitions, in `specs/`, a file a section, and
//! the words in which they are told.
#![tactic(auto)]

mod byte;
mod calls;
mod effects;
mod locks;
mod pipes;
mod port;
mod promises;
mod queue;
mod readable;
mod tee;
mod transform;
mod writable;

pub use byte::{ByteOperation, ReaderKind, RoomKind};
pub use calls::{Answer, Call, Event, Flags, HostCall, Reply, StartBy, StateIs, Thrown, Word};
pub use effects::{Effect, Gift, Owner, Use};
pub use locks::Lock;
pub use pipes::{Action, Ends, Phase, PipeOperation, Prevent, SignalOperation};
pub use port::{PortOperation, Side};
pub use promises::{Job, Micro, Reaction, Step};
pub use queue::Queued;
pub use readable::{ReadRequest, ReadableOperation, ReadableState, SizeBy};
pub use tee::{Half, TeeOperation, TeePhase};
pub use transform::{Halves, Kind, Taker, TransformId, TransformOperation};
pub use writable::{PendingAbort, WritableOperation, WritableState, WriteRecord, Writer};
