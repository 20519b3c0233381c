ghost use Rattle.std.specs.Prelude.{◌≡◌, true, None, OnOk, OnErr, ◌++◌, ◌∷◌, []};

use crate::{Arguments, ArgumentsRefused};
use std::alloc::Global;
use std::env::{self, Env};
use std::io::ErrorKind;
use ws_value::{NoMemory, Text};

/// The arguments of a runtime, which aren't told.
#[derive(Drop)]
pub struct StdArguments<'a, R> {
    rt: &'a R,
}

impl<'a, R: Env + AllocGlobal> StdArguments<'a, R> {
    pub fn over(rt: &'a R) -> StdArguments<'a, R> {
        StdArguments { rt }
    }
}

/// Adds a text of these bytes at the end, or changes nothing.
fn add(alloc: Global, texts: &mut Vec<Text>, bytes: &[u8]) -> Result<(), NoMemory>
    ensures ok { OnOk result (texts.new.items ≡ texts.old.items ++ bytes.now ∷ []) }
    ensures err { OnErr result (texts.new.items ≡ texts.old.items) }
{
    texts.push(Text::of(alloc, bytes)?)?;
    Ok(())
}

impl<'a, R: Env + AllocGlobal> Arguments for StdArguments<'a, R> {
    ghost told = { λ s. None };

    ghost lacking = { λ s. true };

    fn all(&self, alloc: Global) -> Result<Vec<Text>, ArgumentsRefused> {
        let arguments = match env::args(self.rt) {
            Ok(arguments) => arguments,
            Err(error) if error.kind() == ErrorKind::OutOfMemory => {
                return Err(ArgumentsRefused::NoMemory);
            }
            Err(_) => return Err(ArgumentsRefused::NotText),
        };
        let mut texts = Vec::new(alloc);
        for argument in arguments {
            match add(alloc, &mut texts, argument.as_bytes()) {
                Ok(()) => {}
                Err(NoMemory) => return Err(ArgumentsRefused::NoMemory),
            }
        }
        Ok(texts)
    }
}
