ghost use Rattle.std.specs.Prelude.{◌≡◌, ◌≢◌, ◌↔◌, IfOk, IsNone};
ghost use Rattle.std.specs.Option.{option_copied};
ghost use Rattle.std.specs.List.{All};
ghost use Rattle.ob_text.specs.Held.{held_at, held_of, IsReadable};

use crate::bytes::{Path, Text};
use crate::items::Items;
use crate::no_memory::NoMemory;
use std::alloc::Global;
use std::str;

/// The most bytes that a document may have. A longer one is `Held::TooLarge`.
pub const TEXT_LIMIT: usize = 262_144;

/// What a tree holds at a path.
#[derive(Debug, Drop, PartialEq)]
pub enum Held {
    /// A text of at most `TEXT_LIMIT` bytes of UTF-8, where a contract says so.
    Text(Text),
    /// Nothing is there.
    Absent,
    /// What is there has more than `TEXT_LIMIT` bytes, whatever they are.
    TooLarge,
    /// What is there isn't UTF-8.
    NotText,
}

impl Held {
    /// What is held where a file has these bytes. Takes no memory.
    #[tactic(auto, using(crate::proofs::Documents::not_utf8, crate::proofs::Documents::is_utf8_true, crate::proofs::Documents::held_readable))]
    pub fn from_bytes(bytes: Vec<u8>) -> Held
        ensures held { result ≡ held_of bytes.items }
        ensures readable { IsReadable result }
    {
        if bytes.len() > TEXT_LIMIT {
            Held::TooLarge
        } else if str::from_utf8(bytes.as_slice()).is_ok() {
            Held::Text(Text::from_vec(bytes))
        } else {
            Held::NotText
        }
    }

    /// An equal value of its own.
    pub fn copy(&self, alloc: Global) -> Result<Held, NoMemory>
        ensures { IfOk result (λ held. held ≡ self.now) }
    {
        match self {
            Held::Text(text) => Ok(Held::Text(text.copy(alloc)?)),
            Held::Absent => Ok(Held::Absent),
            Held::TooLarge => Ok(Held::TooLarge),
            Held::NotText => Ok(Held::NotText),
        }
    }
}

/// What a tree held at some paths at one moment. Where a path stands twice its first entry counts.
#[derive(Debug, Drop)]
pub struct Snapshot {
    pub entries: Items<(Path, Held)>,
}

impl Snapshot {
    /// What was held at a path. Takes no memory.
    pub fn get(&self, path: &Path) -> Option<&Held>
        ensures held { option_copied result ≡ held_at self.now.entries path.now }
        ensures none { IsNone result ↔ All (λ entry. entry.0 ≢ path.now) self.now.entries }
    {
        for (at, held) in self.entries.as_slice() {
            if at == path {
                return Some(held);
            }
        }
        None
    }
}
