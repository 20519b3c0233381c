ghost use Rattle.std.specs.Prelude.{◌≡◌, ◌≤◌, None, Err, IfOk, length};
ghost use Rattle.ws_io.specs.Files.{LoadCause, load_limit};
ghost use Rattle.ws_io.specs.Memory.{one_more};

use crate::std_source::{REPEATS, read_again};
use crate::{Files, LoadRefused};
use std::alloc::Global;
use std::io::{ErrorKind, Read};
use std::{fs, rt};
use ws_value::{Blob, Text};

/// The most bytes of a text.
const LIMIT: usize = 1_048_576;

/// The files of a runtime, whose texts no contract tells.
#[derive(Drop)]
pub struct StdFiles<'a, R> {
    rt: &'a R,
    calls: u64,
    count: u64,
}

impl<'a, R: rt::Files> StdFiles<'a, R> {
    /// The files of this runtime, of which none was loaded.
    pub fn over(rt: &'a R) -> StdFiles<'a, R>
        ensures { (result.calls ≡ 0) × (result.count ≡ 0) }
    {
        StdFiles {
            rt,
            calls: 0,
            count: 0,
        }
    }
}

/// What a failure of std is to a load.
fn refused(kind: ErrorKind) -> LoadRefused {
    match kind {
        ErrorKind::OutOfMemory => LoadRefused::NoMemory,
        _ => LoadRefused::Failed,
    }
}

/// All bytes of a reader, of at most 1,048,576.
fn read_all<F: Read>(alloc: Global, file: &mut F) -> Result<Vec<u8>, LoadRefused>
    ensures { IfOk result (λ bytes. length bytes.items ≤ load_limit) }
{
    let mut bytes = Vec::new(alloc);
    let mut room = [0u8; 4096];
    for _ in 0..u64::MAX {
        let count = match read_again(file, &mut room) {
            Ok(count) => count,
            Err(kind) => return Err(refused(kind)),
        };
        if count == 0 {
            return Ok(bytes);
        }
        if count > LIMIT - bytes.len() {
            return Err(LoadRefused::TooLong);
        }
        if bytes.extend_from_slice(&room[..count]).is_err() {
            return Err(LoadRefused::NoMemory);
        }
    }
    Err(LoadRefused::Failed)
}

/// Opens a file, again where that was interrupted.
fn open_again<R: rt::Files>(rt: &R, path: &str) -> Result<R::File, ErrorKind> {
    for _ in 0..=REPEATS {
        match fs::open(rt, path) {
            Ok(file) => return Ok(file),
            Err(error) if error.kind() == ErrorKind::Interrupted => {}
            Err(error) => return Err(error.kind()),
        }
    }
    Err(ErrorKind::Interrupted)
}

/// All bytes of the file of this name.
fn read_named<R: rt::Files>(rt: &R, alloc: Global, name: &Text) -> Result<Vec<u8>, LoadRefused>
    ensures { IfOk result (λ bytes. length bytes.items ≤ load_limit) }
{
    let Ok(path) = str::from_utf8(name.as_slice()) else {
        return Err(LoadRefused::Failed);
    };
    match open_again(rt, path) {
        Ok(mut file) => read_all(alloc, &mut file),
        Err(kind) => Err(refused(kind)),
    }
}

impl<'a, R: rt::Files> Files for StdFiles<'a, R> {
    ghost faults = { λ s. s.count };

    ghost loads = { λ s. s.calls };

    ghost texts = { λ s. None };

    fn load(&mut self, alloc: Global, name: &Text) -> Result<Blob, LoadRefused>
        ensures limit { IfOk result (λ blob. length blob ≤ load_limit) }
        ensures loads { self.new.calls ≡ one_more self.old.calls }
        ensures cause { LoadCause self.old.count self.new.count result }
        ensures count { result ≡ Err LoadRefused.Failed → self.new.count ≡ one_more self.old.count }
    {
        self.calls = self.calls.saturating_add(1);
        match read_named(self.rt, alloc, name) {
            Ok(bytes) => Ok(Blob::from_vec(bytes)),
            Err(LoadRefused::Failed) => {
                self.count = self.count.saturating_add(1);
                Err(LoadRefused::Failed)
            }
            Err(refused) => Err(refused),
        }
    }
}
