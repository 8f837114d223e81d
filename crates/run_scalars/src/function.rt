ghost use Rattle.std.specs.Prelude.{◌≡◌, ◌<◌, IfSome};
ghost use Rattle.std.specs.Option.{option_map};
ghost use Rattle.oberon_types.specs.Folding.{absolute, below, character, function_op, ordinal, shifted};
ghost use Rattle.run_rules.specs.World.{At, World};
ghost use Rattle.run_rules.specs.Cells.{single};
ghost use Rattle.run_rules.specs.Words.{applied, function_trap, shift, shifted_by};
ghost use Rattle.run_scalars.specs.Telling.{Tells, trap_place, trapped_by, value_of};

use crate::operator::{below, whole};
use crate::scalar::Scalar;
use oberon_types::FoldingFunction;
use run_rules::TrapKind;

/// The value of a predeclared function of one scalar, or its trap.
pub fn applied(function: FoldingFunction, argument: Scalar) -> Result<Scalar, TrapKind>
    ensures { (call place : At) → Tells (applied function call place (single (value_of argument))) result (trap_place function call place) }
{
    match function_op(function, argument) {
        Some(value) => Ok(value),
        None => Err(function_trap(function, argument)),
    }
}

fn function_trap(function: FoldingFunction, argument: Scalar) -> TrapKind
    ensures { (call place : At) (w : World) → trapped_by result (trap_place function call place) w ≡ function_trap function (value_of argument) call place w }
{
    match (function, argument) {
        (FoldingFunction::Abs, Scalar::Integer(_)) => TrapKind::Overflow,
        (FoldingFunction::Chr, Scalar::Integer(_)) => TrapKind::Range,
        _ => TrapKind::Stuck,
    }
}

fn function_op(function: FoldingFunction, argument: Scalar) -> Option<Scalar>
    ensures { option_map value_of result ≡ function_op function (value_of argument) }
{
    match (function, argument) {
        (FoldingFunction::Abs, Scalar::Integer(x)) => whole(x.checked_abs()),
        (FoldingFunction::Odd, Scalar::Integer(x)) => Some(Scalar::Boolean(x.rem_euclid(2) == 1)),
        (FoldingFunction::Chr, Scalar::Integer(x)) => character(x),
        (FoldingFunction::Ord, _) => ordinal(argument),
        _ => None,
    }
}

fn character(x: i32) -> Option<Scalar>
    ensures { option_map value_of result ≡ character x }
{
    match below(256, x) {
        Some(code) => Some(Scalar::Char(code as u8)),
        None => None,
    }
}

fn ordinal(scalar: Scalar) -> Option<Scalar>
    ensures { option_map value_of result ≡ ordinal (value_of scalar) }
{
    match scalar {
        Scalar::Char(code) => Some(Scalar::Integer(code as i32)),
        Scalar::Boolean(truth) => Some(Scalar::Integer(if truth { 1 } else { 0 })),
        Scalar::Set(set) => Some(Scalar::Integer(set.cast_signed())),
        Scalar::Integer(_) => None,
    }
}

/// The value of LSL, ASR or ROR, or its trap.
pub fn shifted(function: FoldingFunction, scalar: Scalar, by: Scalar) -> Result<Scalar, TrapKind>
    ensures { (at : At) → Tells (shift function at (single (value_of scalar)) (single (value_of by))) result at }
{
    match (scalar, by) {
        (Scalar::Integer(x), Scalar::Integer(n)) => shifted_by(function, x, n),
        _ => Err(TrapKind::Stuck),
    }
}

fn shifted_by(function: FoldingFunction, x: i32, n: i32) -> Result<Scalar, TrapKind>
    ensures { (at : At) → Tells (shifted_by function at x n (below 32 n)) result at }
{
    match below(32, n) {
        Some(count) => match moved(function, x, count) {
            Some(value) => Ok(value),
            None => Err(TrapKind::Stuck),
        },
        None => Err(TrapKind::Range),
    }
}

fn moved(function: FoldingFunction, x: i32, count: u32) -> Option<Scalar>
    requires { count < 32 }
    ensures { option_map value_of result ≡ shifted function x count }
{
    match function {
        FoldingFunction::Lsl => Some(Scalar::Integer(x << count)),
        FoldingFunction::Asr => Some(Scalar::Integer(x >> count)),
        FoldingFunction::Ror => Some(Scalar::Integer(x.rotate_right(count))),
        _ => None,
    }
}
