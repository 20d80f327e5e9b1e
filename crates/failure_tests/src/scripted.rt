ghost use Rattle.std.specs.Prelude.{◌≡◌, ◌≤◌, ◌^◌, [], List, ℕ, None, length, OnOk, OnErr, IsErrOf};
ghost use Rattle.mm_base.specs.Outside.{NoneFell, Rose};

use mm_base::{ReadStop, ReplaceStop, Store};
use std::alloc::{AllocError, Global};

/// What the next call of a store finds.
#[derive(Clone, Copy)]
pub enum Answer {
    /// A file with this text, to be read.
    Text(&'static str),
    /// A file that takes what replaces it.
    Place,
    /// No file.
    Gone,
    /// No memory.
    NoMemory,
}

/// A store whose files may be others at each call: an answer stands for each call, and past them no file is there. It tells
/// nothing of its files, since they change by themselves, and keeps one count of faults for all names.
#[derive(Drop)]
pub struct ScriptedStore {
    answers: &'static [Answer],
    faults: u64,
    asked: Vec<u8>,
    put: Vec<u8>,
}

// Puts a call in a line of its own.
fn note(asked: &mut Vec<u8>, call: &str, name: &str) -> Result<(), AllocError> {
    for part in [call, " ", name, "\n"] {
        asked.extend_from_slice(part.as_bytes())?;
    }
    Ok(())
}

impl ScriptedStore {
    /// A store with these answers, in the order of the calls.
    pub fn new(alloc: Global, answers: &'static [Answer]) -> ScriptedStore {
        ScriptedStore {
            answers,
            faults: 0,
            asked: Vec::new(alloc),
            put: Vec::new(alloc),
        }
    }

    /// The calls so far, each in a line.
    pub fn asked(&self) -> &[u8] {
        self.asked.as_slice()
    }

    /// All that was put in the place of files.
    pub fn put(&self) -> &[u8] {
        self.put.as_slice()
    }

    // Notes a call, and gives what it finds.
    fn next(&mut self, call: &str, name: &str) -> Answer
        ensures { self.new.faults ≡ self.old.faults }
    {
        if note(&mut self.asked, call, name).is_err() {
            return Answer::NoMemory;
        }
        match self.answers.split_first() {
            Some((answer, later)) => {
                self.answers = later;
                *answer
            }
            None => Answer::Gone,
        }
    }

    // Counts one more fault.
    fn fault(&mut self)
        ensures rose { Rose self.old.faults self.new.faults }
        ensures grew { self.old.faults ≤ self.new.faults }
    {
        self.faults = self.faults.saturating_add(1);
    }
}

impl Store for ScriptedStore {
    ghost told = { λ _. None };

    ghost read_faults = { λ store _. store.faults };

    ghost replace_faults = { λ store _. store.faults };

    fn read(&mut self, name: &str, most: u64, into: &mut Vec<u8>) -> Result<(), ReadStop>
        requires empty { into.old.items ≡ [] }
        requires limit { most ≤ 2 ^ 28 }

        ensures within { OnOk result (length into.new.items ≤ most) }
        ensures failed { IsErrOf result ReadStop.Failed → Rose self.old.faults self.new.faults }
        ensures nothing_failed { IsErrOf result ReadStop.Failed → into.new.items ≡ [] }
        ensures nothing_memory { IsErrOf result ReadStop.Memory → into.new.items ≡ [] }
        ensures read_faults { self.old.faults ≤ self.new.faults }
    {
        match self.next("read", name) {
            Answer::Text(text) if text.len() as u64 <= most => into
                .extend_from_slice(text.as_bytes())
                .map_err(|_| ReadStop::Memory),
            Answer::NoMemory => Err(ReadStop::Memory),
            _ => {
                self.fault();
                Err(ReadStop::Failed)
            }
        }
    }

    fn replace(&mut self, name: &str, bytes: &[u8]) -> Result<(), ReplaceStop>
        ensures failed { IsErrOf result ReplaceStop.Failed → Rose self.old.faults self.new.faults }
        ensures replace_faults { self.old.faults ≤ self.new.faults }
    {
        match self.next("replace", name) {
            Answer::Place => self
                .put
                .extend_from_slice(bytes)
                .map_err(|_| ReplaceStop::Memory),
            Answer::NoMemory => Err(ReplaceStop::Memory),
            _ => {
                self.fault();
                Err(ReplaceStop::Failed)
            }
        }
    }
}
