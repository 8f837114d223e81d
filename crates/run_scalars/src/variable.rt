ghost use Rattle.std.specs.Prelude.{◌≡◌, ℕ, ℤ, Some};
ghost use Rattle.std.specs.Option.{option_map};
ghost use Rattle.oberon_types.specs.declared.value.Value.TheVariants as values;
ghost use Rattle.oberon_types.specs.Types.{byte_ty};
ghost use Rattle.run_rules.specs.World.{At, World};
ghost use Rattle.run_rules.specs.Cells.{fitted, is_byte, is_such, single, spot_at};
ghost use Rattle.run_rules.specs.Words.{step_by, stepped, store_whole};
ghost use Rattle.run_scalars.specs.Telling.{counting_word, stored, told_cell, ty_of, value_of};

use crate::operator::whole;
use crate::scalar::{Change, Scalar, ScalarType};
use run_rules::TrapKind;

/// What a value becomes in a variable of the type, or the trap of what is no BYTE.
pub fn fitted(of_type: ScalarType, value: Scalar) -> Result<Scalar, TrapKind>
    ensures { (at : At) (w : World) → fitted (ty_of of_type) at (single (value_of value)) w ≡ told_cell result at w }
{
    match (of_type, value) {
        (ScalarType::Byte, Scalar::Integer(x)) => byte(x),
        _ => {
            if is_such(of_type, value) {
                Ok(value)
            } else {
                Err(TrapKind::Stuck)
            }
        }
    }
}

fn byte(x: i32) -> Result<Scalar, TrapKind>
    ensures cell { (at : At) (w : World) → fitted byte_ty at (single (values.Integer x)) w ≡ told_cell result at w }
    ensures kept { (at : At) (place : ℕ) (w : World) → store_whole byte_ty at place (Some (values.Integer x)) w ≡ stored result at place w }
{
    if is_byte(x) {
        Ok(Scalar::Integer(x))
    } else {
        Err(TrapKind::Range)
    }
}

fn is_byte(x: i32) -> bool
    ensures { result ≡ is_byte x }
{
    x >= 0 && x < 256
}

fn is_such(of_type: ScalarType, value: Scalar) -> bool
    ensures { result ≡ is_such (ty_of of_type) (value_of value) }
{
    match (of_type, value) {
        (ScalarType::Integer, Scalar::Integer(_)) => true,
        (ScalarType::Char, Scalar::Char(_)) => true,
        (ScalarType::Boolean, Scalar::Boolean(_)) => true,
        (ScalarType::Set, Scalar::Set(_)) => true,
        _ => false,
    }
}

/// What INC or DEC by a number puts into a variable of the type, or its trap: a number outside 32 bits comes before one
/// that is no BYTE.
pub fn counted(
    change: Change,
    of_type: ScalarType,
    old: Scalar,
    by: Scalar,
) -> Result<Scalar, TrapKind>
    ensures { (at : At) (place : ℕ) (w : World) → step_by (counting_word change) at (spot_at place (ty_of of_type)) (single (value_of old)) (single (value_of by)) w ≡ stored result at place w }
{
    match (old, by) {
        (Scalar::Integer(x), Scalar::Integer(n)) => match stepped(change, x, n) {
            Some(sum) => whole_fitted(of_type, sum),
            None => Err(TrapKind::Overflow),
        },
        _ => Err(TrapKind::Stuck),
    }
}

fn stepped(change: Change, x: i32, n: i32) -> Option<i32>
    ensures { option_map (λ (sum : ℤ). values.Integer sum) result ≡ stepped (counting_word change) x n }
{
    match change {
        Change::Add => x.checked_add(n),
        Change::Take => x.checked_sub(n),
    }
}

fn whole_fitted(of_type: ScalarType, x: i32) -> Result<Scalar, TrapKind>
    ensures { (at : At) (place : ℕ) (w : World) → store_whole (ty_of of_type) at place (Some (values.Integer x)) w ≡ stored result at place w }
{
    match of_type {
        ScalarType::Byte => byte(x),
        _ => Ok(Scalar::Integer(x)),
    }
}
