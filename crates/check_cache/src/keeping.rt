ghost use Rattle.std.specs.Prelude.{◌≡◌, filter};
ghost use Rattle.check_cache.specs.Pairs.{is_among};

use crate::fact::Fact;
use crate::pair::PairKey;
use indexmap::{IndexMap, IndexSet};

/// Takes out what is kept of all pairs but these.
pub fn keep_of(map: &mut IndexMap<PairKey, Fact>, pairs: &IndexSet<PairKey>)
    ensures { map.new.entries ≡ filter (λ e. is_among pairs.now.keys e.0) map.old.entries }
{
    map.retain(
        |key: &PairKey, fact: &mut Fact| -> bool
            ensures { (result ≡ is_among pairs.entry.now.keys key.now) × (fact.new ≡ fact.old) }
        { is_among(pairs, key) },
    );
}

fn is_among(pairs: &IndexSet<PairKey>, key: &PairKey) -> bool
    ensures { result ≡ is_among pairs.now.keys key.now }
{
    pairs.contains(key)
}
