use crate::key::Key;
use indexmap::IndexSet;
use ob_text::NoMemory;
use std::alloc::Global;
use std::marker::Model;

/// Keys with a number each, in the order in which they came. A number stays with its key.
pub struct Keys {
    keys: IndexSet<Key>,
}

impl Drop for Keys {
    fn drop(self) {
        let Self { keys: _ } = self;
    }
}

/// Contracts see the list of the keys, in which each stands at its number.
impl Model for Keys {
    ghost use Rattle.std.specs.Prelude.{ℕ, List};

    ghost Value = { List (List ℕ) };

    ghost view = { λ k. k.keys.keys };
}

impl Keys {
    ghost use Rattle.std.specs.Prelude.{◌≡◌, ◌↔◌, ℕ, List, [], slice_get, IfOk, OnOk, OnErr, IsTrue};

    /// No key has a number. Takes no memory.
    pub fn new(alloc: Global) -> Keys
        ensures { result ≡ [] }
    {
        Keys {
            keys: IndexSet::new(alloc),
        }
    }

    /// The number of a key: the one that it has, or else the next that none has.
    pub fn intern(&mut self, key: Key) -> Result<u64, NoMemory>
        ensures number { IfOk result (λ n. slice_get self.new n ≡ Some key) }
        ensures only { IfOk result (λ n. (m : ℕ) → slice_get self.new m ≡ Some key → m ≡ n) }
        ensures earlier { OnOk result ((m : ℕ) (k : List ℕ) → slice_get self.old m ≡ Some k → slice_get self.new m ≡ Some k) }
        ensures unchanged { OnErr result (self.new ≡ self.old) }
    {
        let (index, _is_new) = self.keys.insert_full(key)?;
        Ok(index as u64)
    }

    /// Whether two numbers that were given stand for one key. Takes no memory.
    pub fn same(&self, a: u64, b: u64) -> bool
        ensures { (k l : List ℕ) → slice_get self.now a ≡ Some k → slice_get self.now b ≡ Some l → IsTrue result ↔ (k ≡ l) }
    {
        let _count = self.keys.len();
        a == b
    }

    /// A law: no two numbers stand for one key.
    pub fn numbers_differ(&self)
        ensures { (m n : ℕ) (k : List ℕ) → slice_get self.now m ≡ Some k → slice_get self.now n ≡ Some k → m ≡ n }
    {
        let _count = self.keys.len();
    }
}
