ghost use Rattle.std.specs.Prelude.{◌≡◌, ℤ, false, List, [], ◌||◌, int_lt, IfOk, OnOk};
ghost use Rattle.case_labels.specs.Ranges.{meets, meets_any, AreApart};

use crate::joined::{first_meeting, join};
use ob_text::NoMemory;
use std::alloc::Global;
use std::collections::BTreeMap;
use std::marker::Model;

/// The numbers of all ranges so far, as ranges that have none in common. One is found by its last number.
#[derive(Drop)]
pub struct Numbers {
    firsts: BTreeMap<i32, i32>,
}

impl Model for Numbers {
    ghost Value = { List (ℤ × ℤ) };

    ghost view = { λ numbers. numbers.firsts.entries };

    ghost invariant = { λ numbers. AreApart numbers.firsts.entries };
}

impl Numbers {
    /// No number. Takes no memory.
    pub fn new(alloc: Global) -> Numbers
        ensures { result ≡ [] }
    {
        Numbers {
            firsts: BTreeMap::new(alloc),
        }
    }

    /// Adds the numbers from `low` to `high`, and says whether one of them was there.
    pub fn add(&mut self, low: i32, high: i32) -> Result<bool, NoMemory>
        requires { int_lt high low ≡ false }
        ensures found { IfOk result (λ found. found ≡ meets_any low high self.old) }
        ensures adds { OnOk result ((a b : ℤ) → int_lt b a ≡ false → meets_any a b self.new ≡ meets a b (high, low) || meets_any a b self.old) }
    {
        let found = first_meeting(&self.firsts, low, high).is_some();
        let joined = join(&mut self.firsts, low, high);
        self.firsts.insert(joined.last, joined.first)?;
        Ok(found)
    }
}
