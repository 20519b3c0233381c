ghost use Rattle.std.specs.Prelude.{◌≡◌, ◌++◌, ◌∷◌, [], ◌↔◌, None, Some, Err, IsTrue, IfOk, OnOk, OnErr, MatchOption};
ghost use Rattle.ws_io.specs.Files.{Loads, LoadCause, text_at, load_fails, after_load};
ghost use Rattle.ws_io.specs.MemFiles.{pairs};
ghost use Rattle.ws_io.specs.Memory.{one_more};

use crate::numbers::contains;
use crate::{Files, LoadRefused};
use std::alloc::Global;
use std::marker::Model;
use ws_value::{Blob, NoMemory, Text};

#[derive(Drop)]
struct Entry {
    name: Text,
    text: Blob,
}

/// The first entry of the name.
fn find<'a>(entries: &'a [Entry], name: &Text) -> Option<&'a Entry>
    ensures { MatchOption result (text_at (pairs entries.now) name.now
        ≡ None) (λ e. text_at (pairs entries.now) name.now ≡ Some e.now.text) }
{
    for entry in entries {
        if entry.name.as_slice() == name.as_slice() {
            return Some(entry);
        }
    }
    None
}

/// Texts in memory, of which some loads fail.
#[derive(Drop)]
pub struct MemFiles {
    entries: Vec<Entry>,
    fails: Vec<u64>,
    calls: u64,
    count: u64,
}

impl Model for MemFiles {
    ghost use Rattle.std.specs.Prelude.{map};
    ghost use Rattle.ws_io.specs.Files.{MemTexts};

    ghost Value = { MemTexts };

    ghost view = { λ s. record { entries = map (λ e. (e.name, e.text)) s.entries.items; fails = s.fails.items; calls = s.calls; count = s.count } };
}

impl MemFiles {
    /// Files that have no text yet. The loads of the numbers `fails`, counted from 1, fail.
    pub fn make(alloc: Global, fails: &[u64]) -> Result<MemFiles, NoMemory>
        ensures { IfOk result (λ files. files ≡ record { entries = []; fails = fails.now; calls = 0; count = 0 }) }
    {
        Ok(MemFiles {
            entries: Vec::new(alloc),
            fails: fails.to_vec(alloc)?,
            calls: 0,
            count: 0,
        })
    }

    /// Adds a text under a name that there isn't yet, or changes nothing.
    pub fn add(&mut self, name: &Text, text: &[u8]) -> Result<(), NoMemory>
        requires { text_at self.old.entries name.now ≡ None }
        ensures ok { OnOk result (self.new
            ≡ record self.old { entries = self.old.entries ++ (name.now, text.now) ∷ [] }) }
        ensures err { OnErr result (self.new ≡ self.old) }
    {
        let alloc = *self.entries.allocator();
        let name = Text::of(alloc, name.as_slice())?;
        let text = Blob::of(alloc, text)?;
        self.entries.push(Entry { name, text })?;
        Ok(())
    }
}

impl Files for MemFiles {
    ghost faults = { λ s. s.count };

    ghost loads = { λ s. s.calls };

    ghost texts = { λ s. Some (text_at s.entries) };

    fn load(&mut self, alloc: Global, name: &Text) -> Result<Blob, LoadRefused>
        ensures after { self.new ≡ after_load self.old name.now }
        ensures fails { IsTrue (load_fails self.old name.now) ↔ (result ≡ Err LoadRefused.Failed) }
        ensures text { Loads (text_at self.old.entries name.now) result }
        ensures loads { self.new.calls ≡ one_more self.old.calls }
        ensures cause { LoadCause self.old.count self.new.count result }
    {
        self.calls = self.calls.saturating_add(1);
        let chosen = contains(self.fails.as_slice(), self.calls);
        match find(&self.entries, name) {
            Some(entry) if !chosen => {
                if entry.text.as_slice().len() > 1048576 {
                    return Err(LoadRefused::TooLong);
                }
                match Blob::of(alloc, entry.text.as_slice()) {
                    Ok(blob) => Ok(blob),
                    Err(_) => Err(LoadRefused::NoMemory),
                }
            }
            _ => {
                self.count = self.count.saturating_add(1);
                Err(LoadRefused::Failed)
            }
        }
    }
}
