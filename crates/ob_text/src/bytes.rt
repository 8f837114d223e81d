ghost use Rattle.std.specs.Prelude.{◌≡◌, ◌==◌, ◌↔◌, ◌++◌, List, ℕ, IfOk, IsTrue};
ghost use Rattle.std.proofs.Common.{rules};
ghost use Rattle.std.specs.Hash as fed;
ghost use Rattle.std.specs.Cmp.Rules.{comparing, hashing};
ghost use Rattle.std.specs.Cmp.Lexicographic.{pointwise};
ghost use Rattle.std.specs.Str.{IsUtf8};

use crate::no_memory::NoMemory;
use std::alloc::Global;
use std::hash::{Hash, Hasher};
use std::marker::{Model, PhantomData};

/// Owned bytes. The parameter says what they are, so that a path isn't taken for a name.
#[derive(Debug, Drop)]
pub struct Bytes<K> {
    items: Vec<u8>,
    kind: PhantomData<K>,
}

/// The bytes are a name, of a thing in a program, a workspace or a session.
#[derive(Clone, Copy, Debug)]
pub struct NameKind;

/// The bytes are a path.
#[derive(Clone, Copy, Debug)]
pub struct PathKind;

/// The bytes are a text.
#[derive(Clone, Copy, Debug)]
pub struct TextKind;

/// A name, compared byte for byte.
pub type Name = Bytes<NameKind>;

/// A file's path below the folder of a workspace, its segments joined by `/`.
pub type Path = Bytes<PathKind>;

/// A text. It is UTF-8 where a contract says so, and only there.
pub type Text = Bytes<TextKind>;

impl<K> Model for Bytes<K> {
    ghost Value = { List ℕ };

    ghost view = { λ b. b.items.items };
}

impl<K> Bytes<K> {
    /// Owns a copy of `bytes`.
    pub fn new(alloc: Global, bytes: &[u8]) -> Result<Bytes<K>, NoMemory>
        ensures { IfOk result (λ b. b ≡ bytes.now) }
    {
        Ok(Bytes::from_vec(Vec::from_slice(alloc, bytes)?))
    }

    /// Owns these bytes as they are. Takes no memory.
    pub fn from_vec(items: Vec<u8>) -> Bytes<K>
        ensures { result ≡ items.items }
    {
        Bytes {
            items,
            kind: PhantomData,
        }
    }

    /// Gives the bytes back. Takes no memory.
    pub fn into_vec(self) -> Vec<u8>
        ensures { result.items ≡ self }
    {
        let Bytes { items, kind: _ } = self;
        items
    }

    pub fn as_slice(&self) -> &[u8]
        ensures { result.now ≡ self.now }
    {
        self.items.as_slice()
    }

    /// The characters of bytes that are UTF-8. They aren't looked at.
    pub fn as_str(&self) -> &str
        requires { IsUtf8 self.now }
        ensures { result.now ≡ self.now }
    {
        unsafe { str::from_utf8_unchecked(self.as_slice()) }
    }

    /// These bytes, and then others.
    pub fn followed_by(self, more: &[u8]) -> Result<Bytes<K>, NoMemory>
        ensures { IfOk result (λ b. b ≡ self ++ more.now) }
    {
        let mut items = self.into_vec();
        items.extend_from_slice(more)?;
        Ok(Bytes::from_vec(items))
    }

    /// An equal value of its own.
    pub fn copy(&self, alloc: Global) -> Result<Bytes<K>, NoMemory>
        ensures { IfOk result (λ b. b ≡ self.now) }
    {
        Bytes::new(alloc, self.as_slice())
    }
}

impl<K> PartialEq for Bytes<K> {
    ghost eq = { pointwise ◌==◌ };

    ghost laws = { Prim.search (comparing, rules) };

    fn eq(&self, other: &Bytes<K>) -> bool {
        self.items == other.items
    }
}

impl<K> Eq for Bytes<K> {
    ghost laws = { Prim.search (comparing, rules) };
}

impl<K> Hash for Bytes<K> {
    ghost hash_input = { λ b. fed.slice fed.u8 b };

    ghost respects_eq = { Prim.search (hashing, rules) };

    fn hash<H: Hasher>(&self, state: &mut H) {
        self.items.hash(state)
    }
}
