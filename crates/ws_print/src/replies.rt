//! Replies.
ghost use Rattle.std.specs.Prelude.{◌≡◌, ◌++◌, OnOk};
ghost use Rattle.ws_print.specs.Replies.{promise_name, size_text, request_text, word_text, letter_where, letters_of, flags_text, state_text, thrown_name, reply_text};

use crate::append::{append, append_number, append_numbered};
use ws_steps::{Flags, Reply, StateIs, Thrown, Word};
use ws_value::{NoMemory, RequestId};

/// Appends the name of a promise.
pub fn print_promise(out: &mut Vec<u8>, rank: Option<u64>) -> Result<(), NoMemory>
    ensures appended { OnOk result (out.new.items ≡ out.old.items ++ promise_name rank) }
{
    match rank {
        Some(rank) => append_numbered(out, b"p", rank),
        None => append(out, b"p?"),
    }
}

/// Appends a desired size.
fn print_size(out: &mut Vec<u8>, size: Option<i128>) -> Result<(), NoMemory>
    ensures appended { OnOk result (out.new.items ≡ out.old.items ++ size_text size) }
{
    match size {
        Some(size) => append_number(out, size),
        None => append(out, b"null"),
    }
}

/// Appends a request of a byte stream's controller, and how many bytes its view has room for.
fn print_request(out: &mut Vec<u8>, request: Option<(RequestId, u64)>) -> Result<(), NoMemory>
    ensures appended { OnOk result (out.new.items ≡ out.old.items ++ request_text request) }
{
    match request {
        Some((request, room)) => {
            append_numbered(out, b"q", request.0)?;
            append_numbered(out, b" ", room)
        }
        None => append(out, b"none"),
    }
}

/// Appends the state of a stream.
fn print_word(out: &mut Vec<u8>, word: Word) -> Result<(), NoMemory>
    ensures appended { OnOk result (out.new.items ≡ out.old.items ++ word_text word) }
{
    match word {
        Word::Readable => append(out, b"readable"),
        Word::Closed => append(out, b"closed"),
        Word::Errored => append(out, b"errored"),
        Word::Writable => append(out, b"writable"),
        Word::Erroring => append(out, b"erroring"),
    }
}

/// Appends a flag's letter, where the flag is true.
#[tactic(auto, unfolding(crate::specs::Replies::letter_where))]
fn print_letter(out: &mut Vec<u8>, flag: bool, letter: &[u8]) -> Result<(), NoMemory>
    ensures appended { OnOk result (out.new.items ≡ out.old.items ++ letter_where flag letter.now) }
{
    if flag { append(out, letter) } else { Ok(()) }
}

/// Appends the letters of the flags that are true.
#[tactic(auto, unfolding(crate::specs::Replies::letters_of))]
fn print_letters(out: &mut Vec<u8>, flags: &Flags) -> Result<(), NoMemory>
    ensures appended { OnOk result (out.new.items ≡ out.old.items ++ letters_of flags.now) }
{
    print_letter(out, flags.s, b"s")?;
    print_letter(out, flags.p, b"p")?;
    print_letter(out, flags.g, b"g")?;
    print_letter(out, flags.c, b"c")?;
    print_letter(out, flags.d, b"d")?;
    print_letter(out, flags.b, b"b")?;
    print_letter(out, flags.w, b"w")?;
    print_letter(out, flags.f, b"f")?;
    print_letter(out, flags.q, b"q")?;
    print_letter(out, flags.a, b"a")?;
    print_letter(out, flags.l, b"l")
}

/// Appends flags.
fn print_flags(out: &mut Vec<u8>, flags: &Flags) -> Result<(), NoMemory>
    ensures appended { OnOk result (out.new.items ≡ out.old.items ++ flags_text flags.now) }
{
    let start = out.len();
    print_letters(out, flags)?;
    if out.len() == start {
        append(out, b"-")?;
    }
    Ok(())
}

/// Appends what a stream shows of itself.
fn print_state(out: &mut Vec<u8>, shown: &StateIs) -> Result<(), NoMemory>
    ensures appended { OnOk result (out.new.items ≡ out.old.items ++ state_text shown.now) }
{
    print_word(out, shown.state)?;
    append(out, b" ")?;
    print_flags(out, &shown.flags)?;
    append_numbered(out, b" total ", shown.total)?;
    append_numbered(out, b" queue ", shown.queue)?;
    append_numbered(out, b" requests ", shown.requests)
}

/// Appends the name of what a call throws.
fn print_thrown(out: &mut Vec<u8>, thrown: Thrown) -> Result<(), NoMemory>
    ensures appended { OnOk result (out.new.items ≡ out.old.items ++ thrown_name thrown) }
{
    match thrown {
        Thrown::TypeError => append(out, b"TypeError"),
        Thrown::RangeError => append(out, b"RangeError"),
        Thrown::DataClone => append(out, b"DataClone"),
        Thrown::Unsupported => append(out, b"Unsupported"),
    }
}

/// Appends a reply. The rank is that of the promise that it names, if it names one.
pub fn print_reply_text(out: &mut Vec<u8>, reply: &Reply, rank: Option<u64>) -> Result<(), NoMemory>
    ensures appended { OnOk result (out.new.items ≡ out.old.items ++ reply_text rank reply.now) }
{
    match reply {
        Reply::Done => append(out, b"done"),
        Reply::Made(stream) => append_numbered(out, b"made s", stream.0),
        Reply::MadeTwo(first, second) => {
            append_numbered(out, b"made s", first.0)?;
            append_numbered(out, b" s", second.0)
        }
        Reply::Lock(lock) => append_numbered(out, b"lock l", lock.0),
        Reply::Promise(_) => {
            append(out, b"promise ")?;
            print_promise(out, rank)
        }
        Reply::Signal(signal) => append_numbered(out, b"signal a", signal.0),
        Reply::Request(request) => {
            append(out, b"request ")?;
            print_request(out, *request)
        }
        Reply::Size(size) => {
            append(out, b"size ")?;
            print_size(out, *size)
        }
        Reply::Port(port) => append_numbered(out, b"port c", port.0),
        Reply::MadePort(stream, port) => {
            append_numbered(out, b"made s", stream.0)?;
            append_numbered(out, b" port c", port.0)
        }
        Reply::State(shown) => {
            append(out, b"state ")?;
            print_state(out, shown)
        }
        Reply::Throws(thrown) => {
            append(out, b"throws ")?;
            print_thrown(out, *thrown)
        }
        Reply::TooMany => append(out, b"too many"),
    }
}
