ghost use Rattle.std.specs.Prelude.{◌≡◌, ◌==◌, ◌<◌, position, length, IfSome, Some};
ghost use Rattle.std.specs.Option.{option_map, option_and_then};
ghost use Rattle.oberon_types.specs.Folding.{relation_op, equality_op, whole_op, set_op, in_op, is_in, below, compared, text_op, mixed_op, mirrored_op, values_op, value_op, and_value, or_value, binary_value};
ghost use Rattle.oberon_types.specs.declared.value.Value.TheVariants as values;

use crate::constant::Op;
use crate::value::Value;
use ob_text::Text;
use std::cmp::Ordering;

/// The value of an operator before one part; None is a trap.
pub fn unary_value(op: Op, part: Option<Value>) -> Option<Value>
    ensures { result ≡ option_and_then (value_op op) part }
{
    match (op, part) {
        (Op::Add, Some(Value::Integer(x))) => Some(Value::Integer(x)),
        (Op::Subtract, Some(Value::Integer(x))) => whole(x.checked_neg()),
        (Op::Subtract, Some(Value::Set(set))) => Some(Value::Set(set ^ 4_294_967_295)),
        (Op::Not, Some(Value::Boolean(truth))) => Some(Value::Boolean(!truth)),
        _ => None,
    }
}

/// The value of an operator between two parts; None is a trap. `&` and OR don't look at the second part where
/// the first decides.
pub fn binary_value(op: Op, left: Option<Value>, right: Option<Value>) -> Option<Value>
    ensures { result ≡ binary_value op left right }
{
    match op {
        Op::And => and_value(left, right),
        Op::Or => or_value(left, right),
        _ => match (left, right) {
            (Some(left), Some(right)) => values_op(op, &left, &right),
            _ => None,
        },
    }
}

fn and_value(left: Option<Value>, right: Option<Value>) -> Option<Value>
    ensures { result ≡ and_value left right }
{
    match (left, right) {
        (Some(Value::Boolean(false)), _) => Some(Value::Boolean(false)),
        (Some(Value::Boolean(true)), Some(Value::Boolean(right))) => Some(Value::Boolean(right)),
        _ => None,
    }
}

fn or_value(left: Option<Value>, right: Option<Value>) -> Option<Value>
    ensures { result ≡ or_value left right }
{
    match (left, right) {
        (Some(Value::Boolean(true)), _) => Some(Value::Boolean(true)),
        (Some(Value::Boolean(false)), Some(Value::Boolean(right))) => Some(Value::Boolean(right)),
        _ => None,
    }
}

fn values_op(op: Op, left: &Value, right: &Value) -> Option<Value>
    ensures { result ≡ values_op op left.now right.now }
{
    match (left, right) {
        (Value::Integer(x), Value::Integer(y)) => whole_op(op, *x, *y),
        (Value::Integer(x), Value::Set(set)) => in_op(op, *x, *set),
        (Value::Set(x), Value::Set(y)) => set_op(op, *x, *y),
        (Value::Boolean(x), Value::Boolean(y)) => equality_op(op, *x == *y),
        (Value::Char(x), Value::Char(y)) => relation_op(op, x.cmp(y)),
        (Value::Str(text), Value::Char(y)) => mixed_op(op, text, *y),
        (Value::Char(x), Value::Str(text)) => mirrored_op(op, *x, text),
        (Value::Str(text), Value::Str(other)) => text_op(op, text, other),
        _ => None,
    }
}

fn whole_op(op: Op, x: i32, y: i32) -> Option<Value>
    ensures { result ≡ whole_op op x y }
{
    match op {
        Op::Add => whole(x.checked_add(y)),
        Op::Subtract => whole(x.checked_sub(y)),
        Op::Multiply => whole(x.checked_mul(y)),
        Op::Div => {
            if y > 0 {
                whole(x.checked_div_euclid(y))
            } else {
                None
            }
        }
        Op::Mod => {
            if y > 0 {
                whole(x.checked_rem_euclid(y))
            } else {
                None
            }
        }
        _ => relation_op(op, x.cmp(&y)),
    }
}

pub(crate) fn whole(x: Option<i32>) -> Option<Value>
    ensures { result ≡ option_map (λ n. values.Integer n) x }
{
    match x {
        Some(n) => Some(Value::Integer(n)),
        None => None,
    }
}

fn set_op(op: Op, x: u32, y: u32) -> Option<Value>
    ensures { result ≡ set_op op x y }
{
    match op {
        Op::Add => Some(Value::Set(x | y)),
        Op::Subtract => Some(Value::Set(x ^ (x & y))),
        Op::Multiply => Some(Value::Set(x & y)),
        Op::Divide => Some(Value::Set(x ^ y)),
        _ => equality_op(op, x == y),
    }
}

fn relation_op(op: Op, order: Ordering) -> Option<Value>
    ensures { result ≡ relation_op op order }
{
    match op {
        Op::Equal => Some(Value::Boolean(order.is_eq())),
        Op::Unequal => Some(Value::Boolean(order.is_ne())),
        Op::Less => Some(Value::Boolean(order.is_lt())),
        Op::LessEqual => Some(Value::Boolean(order.is_le())),
        Op::Greater => Some(Value::Boolean(order.is_gt())),
        Op::GreaterEqual => Some(Value::Boolean(order.is_ge())),
        _ => None,
    }
}

fn equality_op(op: Op, same: bool) -> Option<Value>
    ensures { result ≡ equality_op op same }
{
    match op {
        Op::Equal => Some(Value::Boolean(same)),
        Op::Unequal => Some(Value::Boolean(!same)),
        _ => None,
    }
}

fn in_op(op: Op, x: i32, set: u32) -> Option<Value>
    ensures { result ≡ in_op op x set }
{
    match op {
        Op::In => Some(Value::Boolean(is_in(x, set))),
        _ => None,
    }
}

fn is_in(x: i32, set: u32) -> bool
    ensures { result ≡ is_in x set }
{
    match below(32, x) {
        Some(bit) => set >> bit & 1 == 1,
        None => false,
    }
}

/// The number from 0 up to the end, without it.
pub(crate) fn below(end: u32, x: i32) -> Option<u32>
    ensures { result ≡ below end x }
{
    if x < 0 {
        return None;
    }
    let number = x.unsigned_abs();
    if number < end { Some(number) } else { None }
}

fn text_op(op: Op, text: &Text, other: &Text) -> Option<Value>
    ensures { result ≡ text_op op text.now other.now }
{
    relation_op(op, compared(text).cmp(compared(other)))
}

fn compared(text: &Text) -> &[u8]
    ensures { result.now ≡ compared text.now }
{
    let bytes = text.as_slice();
    match first_zero(bytes) {
        Some(end) => &bytes[..end],
        None => bytes,
    }
}

fn first_zero(bytes: &[u8]) -> Option<usize>
    ensures value { result ≡ position (λ b. b == 0) bytes.now }
    ensures bound { IfSome result (λ n. n < length bytes.now) }
{
    bytes.iter().position(|byte| *byte == 0)
}

fn mixed_op(op: Op, text: &Text, y: u8) -> Option<Value>
    ensures { result ≡ mixed_op op text.now y }
{
    match text.as_slice() {
        [x] => relation_op(op, x.cmp(&y)),
        _ => None,
    }
}

fn mirrored_op(op: Op, x: u8, text: &Text) -> Option<Value>
    ensures { result ≡ mirrored_op op x text.now }
{
    match text.as_slice() {
        [y] => relation_op(op, x.cmp(y)),
        _ => None,
    }
}
