ghost use Rattle.std.specs.Prelude.{◌≡◌, ◌<◌, IfSome};
ghost use Rattle.std.specs.Option.{option_map};
ghost use Rattle.oberon_types.specs.Folding.{below, equality_op, in_op, is_in, relation_op, set_op, whole_op, value_op, values_op};
ghost use Rattle.oberon_types.specs.declared.value.Value.TheVariants as values;
ghost use Rattle.run_rules.specs.World.{At, World};
ghost use Rattle.run_rules.specs.Cells.{single};
ghost use Rattle.run_rules.specs.Operators.{no_negative, no_value, signed, singles, trap_or_stuck, whole_trap};
ghost use Rattle.run_scalars.specs.Telling.{Tells, trapped_by, value_of};

use crate::scalar::Scalar;
use oberon_types::Op;
use run_rules::TrapKind;
use std::cmp::Ordering;

/// The value of an operator between two scalars, or its trap.
pub fn operated(op: Op, left: Scalar, right: Scalar) -> Result<Scalar, TrapKind>
    ensures { (at : At) → Tells (singles op at (single (value_of left)) (single (value_of right))) result at }
{
    match values_op(op, left, right) {
        Some(value) => Ok(value),
        None => Err(no_value(op, left, right)),
    }
}

fn no_value(op: Op, left: Scalar, right: Scalar) -> TrapKind
    ensures { (at : At) (w : World) → trapped_by result at w ≡ no_value op (value_of left) (value_of right) at w }
{
    match (left, right) {
        (Scalar::Integer(_), Scalar::Integer(_)) => whole_trap(op),
        _ => TrapKind::Stuck,
    }
}

fn whole_trap(op: Op) -> TrapKind
    ensures { (at : At) (w : World) → trapped_by result at w ≡ trap_or_stuck (whole_trap op) at w }
{
    match op {
        Op::Add | Op::Subtract | Op::Multiply => TrapKind::Overflow,
        Op::Div | Op::Mod => TrapKind::Division,
        _ => TrapKind::Stuck,
    }
}

/// The value of an operator before a scalar, or its trap.
pub fn signed(op: Op, part: Scalar) -> Result<Scalar, TrapKind>
    ensures { (at : At) → Tells (signed op at (single (value_of part))) result at }
{
    match value_op(op, part) {
        Some(value) => Ok(value),
        None => Err(no_negative(op, part)),
    }
}

fn no_negative(op: Op, part: Scalar) -> TrapKind
    ensures { (at : At) (w : World) → trapped_by result at w ≡ no_negative op (value_of part) at w }
{
    match (op, part) {
        (Op::Subtract, Scalar::Integer(_)) => TrapKind::Overflow,
        _ => TrapKind::Stuck,
    }
}

fn value_op(op: Op, part: Scalar) -> Option<Scalar>
    ensures { option_map value_of result ≡ value_op op (value_of part) }
{
    match (op, part) {
        (Op::Add, Scalar::Integer(x)) => Some(Scalar::Integer(x)),
        (Op::Subtract, Scalar::Integer(x)) => whole(x.checked_neg()),
        (Op::Subtract, Scalar::Set(set)) => Some(Scalar::Set(set ^ 4_294_967_295)),
        (Op::Not, Scalar::Boolean(truth)) => Some(Scalar::Boolean(!truth)),
        _ => None,
    }
}

fn values_op(op: Op, left: Scalar, right: Scalar) -> Option<Scalar>
    ensures { option_map value_of result ≡ values_op op (value_of left) (value_of right) }
{
    match (left, right) {
        (Scalar::Integer(x), Scalar::Integer(y)) => whole_op(op, x, y),
        (Scalar::Integer(x), Scalar::Set(set)) => in_op(op, x, set),
        (Scalar::Set(x), Scalar::Set(y)) => set_op(op, x, y),
        (Scalar::Boolean(x), Scalar::Boolean(y)) => equality_op(op, x == y),
        (Scalar::Char(x), Scalar::Char(y)) => relation_op(op, x.cmp(&y)),
        _ => None,
    }
}

fn whole_op(op: Op, x: i32, y: i32) -> Option<Scalar>
    ensures { option_map value_of result ≡ whole_op op x y }
{
    match op {
        Op::Add => whole(x.checked_add(y)),
        Op::Subtract => whole(x.checked_sub(y)),
        Op::Multiply => whole(x.checked_mul(y)),
        Op::Div => {
            if y > 0 {
                whole(x.checked_div_euclid(y))
            } else {
                None
            }
        }
        Op::Mod => {
            if y > 0 {
                whole(x.checked_rem_euclid(y))
            } else {
                None
            }
        }
        _ => relation_op(op, x.cmp(&y)),
    }
}

pub(crate) fn whole(x: Option<i32>) -> Option<Scalar>
    ensures { option_map value_of result ≡ option_map (λ n. values.Integer n) x }
{
    match x {
        Some(n) => Some(Scalar::Integer(n)),
        None => None,
    }
}

fn set_op(op: Op, x: u32, y: u32) -> Option<Scalar>
    ensures { option_map value_of result ≡ set_op op x y }
{
    match op {
        Op::Add => Some(Scalar::Set(x | y)),
        Op::Subtract => Some(Scalar::Set(x ^ (x & y))),
        Op::Multiply => Some(Scalar::Set(x & y)),
        Op::Divide => Some(Scalar::Set(x ^ y)),
        _ => equality_op(op, x == y),
    }
}

fn relation_op(op: Op, order: Ordering) -> Option<Scalar>
    ensures { option_map value_of result ≡ relation_op op order }
{
    match op {
        Op::Equal => Some(Scalar::Boolean(order.is_eq())),
        Op::Unequal => Some(Scalar::Boolean(order.is_ne())),
        Op::Less => Some(Scalar::Boolean(order.is_lt())),
        Op::LessEqual => Some(Scalar::Boolean(order.is_le())),
        Op::Greater => Some(Scalar::Boolean(order.is_gt())),
        Op::GreaterEqual => Some(Scalar::Boolean(order.is_ge())),
        _ => None,
    }
}

fn equality_op(op: Op, same: bool) -> Option<Scalar>
    ensures { option_map value_of result ≡ equality_op op same }
{
    match op {
        Op::Equal => Some(Scalar::Boolean(same)),
        Op::Unequal => Some(Scalar::Boolean(!same)),
        _ => None,
    }
}

fn in_op(op: Op, x: i32, set: u32) -> Option<Scalar>
    ensures { option_map value_of result ≡ in_op op x set }
{
    match op {
        Op::In => Some(Scalar::Boolean(is_in(x, set))),
        _ => None,
    }
}

fn is_in(x: i32, set: u32) -> bool
    ensures { result ≡ is_in x set }
{
    match below(32, x) {
        Some(bit) => set >> bit & 1 == 1,
        None => false,
    }
}

/// The number from 0 up to the end, without it.
pub(crate) fn below(end: u32, x: i32) -> Option<u32>
    ensures value { result ≡ below end x }
    ensures bound { IfSome result (λ n. n < end) }
{
    if x < 0 {
        return None;
    }
    let number = x.unsigned_abs();
    if number < end { Some(number) } else { None }
}
