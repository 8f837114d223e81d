ghost use Rattle.std.specs.Prelude.{◌≡◌, ◌<◌, IfOk, Some};
ghost use Rattle.std.specs.Int.Bits.{bit_or};
ghost use Rattle.oberon_types.specs.Folding.{below, range_bits};
ghost use Rattle.run_rules.specs.World.{At, World};
ghost use Rattle.run_rules.specs.Cells.{Spot, single};
ghost use Rattle.run_rules.specs.Words.{member_by, with_element};
ghost use Rattle.run_rules.specs.Expressions.{set_end};
ghost use Rattle.run_scalars.specs.Telling.{member_word, stored, told_number, value_of};

use crate::operator::below;
use crate::scalar::{Change, Scalar};
use run_rules::TrapKind;

/// An end of an element of a set, or the trap of what isn't from 0 to 31.
pub fn set_end(end: Scalar) -> Result<u32, TrapKind>
    ensures value { (at : At) (w : World) → set_end at (single (value_of end)) w ≡ told_number result at w }
    ensures bound { IfOk result (λ n. n < 32) }
{
    match end {
        Scalar::Integer(x) => match below(32, x) {
            Some(number) => Ok(number),
            None => Err(TrapKind::Range),
        },
        _ => Err(TrapKind::Stuck),
    }
}

/// A set with the numbers from the first to the last put in; none where the first is above the last.
pub fn with_range(set: u32, low: u32, high: u32) -> u32
    requires low { low < 32 }
    requires high { high < 32 }
    ensures { result ≡ bit_or set (range_bits low high) }
{
    set | range_bits(low, high)
}

fn range_bits(low: u32, high: u32) -> u32
    requires low { low < 32 }
    requires high { high < 32 }
    ensures { result ≡ range_bits low high }
{
    (1u64 << (high + 1)).saturating_sub(1u64 << low) as u32
}

/// What INCL or EXCL of an element puts into the variable of a set, or the trap of what isn't from 0 to 31.
pub fn with_member(change: Change, set: Scalar, element: i32) -> Result<Scalar, TrapKind>
    ensures { (at : At) (s : Spot) (w : World) → member_by (member_word change) at s (single (value_of set)) (below 32 element) w ≡ stored result at s.place w }
{
    match (set, below(32, element)) {
        (_, None) => Err(TrapKind::Range),
        (Scalar::Set(bits), Some(number)) => Ok(Scalar::Set(with_element(change, bits, number))),
        _ => Err(TrapKind::Stuck),
    }
}

fn with_element(change: Change, set: u32, number: u32) -> u32
    requires { number < 32 }
    ensures { result ≡ with_element (member_word change) set number }
{
    match change {
        Change::Add => set | range_bits(number, number),
        Change::Take => set ^ (set & range_bits(number, number)),
    }
}
