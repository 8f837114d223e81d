ghost use Rattle.std.specs.Prelude.{◌≡◌, Some, None, if◌then◌else◌, IfOk, IfSome, IfNone, OnOk, OnErr};
ghost use Rattle.check_cache.specs.Facts.{FactTree, IsFact};
ghost use Rattle.check_cache.specs.Pairs.{same_pair, is_among};
ghost use Rattle.check_cache.specs.Places.{first_at, other_at, Lacks, Chosen, SamePlaces, moved};
ghost use Rattle.check_cache.specs.Wanted.{HasText, IsOf};
ghost use Rattle.check_cache.specs.declared.pair.PairKey.{PairKey};

use crate::choosing::{fitting, of_text};
use crate::fact::Fact;
use crate::keeping::keep_of;
use crate::pair::PairKey;
use indexmap::{IndexMap, IndexSet};
use ob_text::{Held, Name, NoMemory};
use std::alloc::Global;

/// The facts that are kept: for each pair at most one in its first place, and one in its other.
pub struct Cache {
    alloc: Global,
    first: IndexMap<PairKey, Fact>,
    other: IndexMap<PairKey, Fact>,
}

impl Drop for Cache {
    fn drop(self) {
        let Self {
            alloc: _,
            first: _,
            other: _,
        } = self;
    }
}

/// A kept check that is of the text and the imports that were asked for.
#[derive(Drop)]
pub struct Hit<'a> {
    pub fact: &'a Fact,
}

impl Cache {
    /// Nothing is kept yet.
    pub fn new(alloc: Global) -> Cache
        ensures first { (pair : PairKey) → first_at result pair ≡ None }
        ensures other { (pair : PairKey) → other_at result pair ≡ None }
    {
        Cache {
            alloc,
            first: IndexMap::new(alloc),
            other: IndexMap::new(alloc),
        }
    }

    /// The check of a pair for this text and these imports, from its first place if that has it. Takes no memory, one hash
    /// for each place that is looked at, and a comparison of the text.
    pub fn look(&self, pair: &PairKey, held: &Held, imports: &[(Name, u64)]) -> Option<Hit<'_>>
        ensures some { IfSome result (λ hit. Chosen (IsOf held.now imports.now)
            (first_at self.now pair.now) (other_at self.now pair.now) hit.fact.now) }
        ensures first_none { IfNone result (Lacks (IsOf held.now imports.now)
            (first_at self.now pair.now)) }
        ensures other_none { IfNone result (Lacks (IsOf held.now imports.now)
            (other_at self.now pair.now)) }
    {
        match fitting(self.first.get(pair), held, imports) {
            Some(fact) => Some(Hit { fact }),
            None => match fitting(self.other.get(pair), held, imports) {
                Some(fact) => Some(Hit { fact }),
                None => None,
            },
        }
    }

    /// The names that a pair's document imports, where a check of this text is kept, whatever its imports showed then. Takes
    /// no memory, as `look`.
    pub fn imports(&self, pair: &PairKey, held: &Held) -> Option<&[Name]>
        ensures some { IfSome result (λ names. (fact : FactTree)
            × Chosen (HasText held.now) (first_at self.now pair.now) (other_at self.now pair.now) fact
            × IsFact fact × (names.now ≡ fact.checked.imports.items)) }
        ensures first_none { IfNone result (Lacks (HasText held.now)
            (first_at self.now pair.now)) }
        ensures other_none { IfNone result (Lacks (HasText held.now)
            (other_at self.now pair.now)) }
    {
        match self.fact_of_text(pair, held) {
            Some(fact) => Some(fact.checked().imports.as_slice()),
            None => None,
        }
    }

    fn fact_of_text(&self, pair: &PairKey, held: &Held) -> Option<&Fact>
        ensures some { IfSome result (λ fact. Chosen (HasText held.now)
            (first_at self.now pair.now) (other_at self.now pair.now) fact.now) }
        ensures first_none { IfNone result (Lacks (HasText held.now)
            (first_at self.now pair.now)) }
        ensures other_none { IfNone result (Lacks (HasText held.now)
            (other_at self.now pair.now)) }
    {
        match of_text(self.first.get(pair), held) {
            Some(fact) => Some(fact),
            None => of_text(self.other.get(pair), held),
        }
    }

    /// Puts a fact into a pair's first place. What stood there moves to the other place.
    pub fn store(&mut self, pair: &PairKey, fact: Fact) -> Result<(), NoMemory>
        ensures first { OnOk result ((q : PairKey) → first_at self.new q
            ≡ (if same_pair pair.now q then Some fact else first_at self.old q)) }
        ensures other { OnOk result ((q : PairKey) → other_at self.new q
            ≡ (if same_pair pair.now q then moved (first_at self.old q) (other_at self.old q)
            else other_at self.old q)) }
        ensures err { OnErr result (SamePlaces self.old self.new) }
    {
        let own = pair.copy(self.alloc)?;
        let again = pair.copy(self.alloc)?;
        self.other.reserve(1)?;
        match self.first.insert(own, fact)? {
            Some(earlier) => {
                self.other.insert(again, earlier).unwrap();
                Ok(())
            }
            None => Ok(()),
        }
    }

    /// Puts a fact into a pair's other place, in place of what stood there: the check of a text that was judged behind the
    /// one that stands first.
    pub fn store_late(&mut self, pair: &PairKey, fact: Fact) -> Result<(), NoMemory>
        ensures first { (q : PairKey) → first_at self.new q ≡ first_at self.old q }
        ensures other { OnOk result ((q : PairKey) → other_at self.new q
            ≡ (if same_pair pair.now q then Some fact else other_at self.old q)) }
        ensures err { OnErr result (SamePlaces self.old self.new) }
    {
        let late = pair.copy(self.alloc)?;
        self.other.insert(late, fact)?;
        Ok(())
    }

    /// Forgets all facts but those of these pairs. Takes no memory, and one hash for each fact.
    pub fn keep_pairs(&mut self, pairs: &IndexSet<PairKey>)
        ensures first { (q : PairKey) → first_at self.new q
            ≡ (if is_among pairs.now.keys q then first_at self.old q else None) }
        ensures other { (q : PairKey) → other_at self.new q
            ≡ (if is_among pairs.now.keys q then other_at self.old q else None) }
    {
        keep_of(&mut self.first, pairs);
        keep_of(&mut self.other, pairs);
    }
}
