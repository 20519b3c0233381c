//! The kinds of record, a file a kind: its records by number, and what may be looked at there.
mod byte;
mod port;
mod readable;
mod signal;
mod source;
mod tee;
mod writable;
