ghost use Rattle.std.specs.Prelude.{◌≡◌, ℤ, true, false, Some, ◌||◌, int_lt, MatchOption};
ghost use Rattle.std.specs.Ordering.{int_cmp};
ghost use Rattle.std.specs.BTreeMap.{get};
ghost use Rattle.case_labels.specs.Ranges.{meets, meets_any, AreApart};
ghost use Rattle.case_labels.specs.Joins.{Joins};

use std::collections::BTreeMap;

/// The numbers from the first to the last.
#[derive(Clone, Copy)]
pub struct Range {
    pub last: i32,
    pub first: i32,
}

/// The first range that has a number from `low` to `high`.
pub fn first_meeting(firsts: &BTreeMap<i32, i32>, low: i32, high: i32) -> Option<Range>
    requires { AreApart firsts.now.entries }
    ensures { MatchOption result (meets_any low high firsts.now.entries ≡ false) (λ r. (get int_cmp firsts.now r.last ≡ Some r.first) × (meets low high (r.last, r.first) ≡ true)) }
{
    match firsts.range(low..).next() {
        Some((last, first)) => within(*last, *first, high),
        None => None,
    }
}

fn within(last: i32, first: i32, high: i32) -> Option<Range>
    ensures { MatchOption result (int_lt high first ≡ true) (λ r. (r ≡ record { last = last; first = first }) × (int_lt high first ≡ false)) }
{
    if first <= high {
        Some(Range { last, first })
    } else {
        None
    }
}

/// Takes out all ranges that have a number from `low` to `high`, and those that these meet, and joins them to one.
pub fn join(firsts: &mut BTreeMap<i32, i32>, low: i32, high: i32) -> Range
    requires apart { AreApart firsts.old.entries }
    requires filled { int_lt high low ≡ false }
    ensures joins { Joins low high firsts.old.entries firsts.new.entries result }
    ensures alone { meets_any result.first result.last firsts.new.entries ≡ false }
{
    let mut joined = Range {
        last: high,
        first: low,
    };
    while let Some(met) = first_meeting(firsts, joined.first, joined.last) {
        firsts.remove(&met.last);
        joined = union(joined, met);
    }
    joined
}

/// All numbers of two ranges that meet.
fn union(x: Range, y: Range) -> Range
    requires x { int_lt x.last x.first ≡ false }
    requires y { int_lt y.last y.first ≡ false }
    requires meet { meets x.first x.last (y.last, y.first) ≡ true }
    ensures filled { int_lt result.last result.first ≡ false }
    ensures both { (a b : ℤ) → int_lt b a ≡ false → meets a b (result.last, result.first) ≡ (meets a b (x.last, x.first) || meets a b (y.last, y.first)) }
{
    Range {
        last: x.last.max(y.last),
        first: x.first.min(y.first),
    }
}
