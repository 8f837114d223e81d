ghost use Rattle.std.specs.Prelude.{◌≡◌, ◌<◌, IfSome, Some};
ghost use Rattle.oberon_types.specs.Folding.{folding_function, end_value, range_bits, with_range, shifted, shift_op, character, absolute, ordinal, function_op, call_one, call_two};

use crate::constant::FoldingFunction;
use crate::operator::{below, whole};
use crate::value::Value;
use ob_text::Name;

/// The predeclared function of this name, where constants may be built of it.
#[tactic(auto, unfolding(crate::specs::Folding::folding_function))]
pub fn folding_function(name: &Name) -> Option<FoldingFunction>
    ensures { result ≡ folding_function name.now }
{
    match name.as_slice() {
        b"ABS" => Some(FoldingFunction::Abs),
        b"ODD" => Some(FoldingFunction::Odd),
        b"LSL" => Some(FoldingFunction::Lsl),
        b"ASR" => Some(FoldingFunction::Asr),
        b"ROR" => Some(FoldingFunction::Ror),
        b"ORD" => Some(FoldingFunction::Ord),
        b"CHR" => Some(FoldingFunction::Chr),
        _ => None,
    }
}

/// An end of a set's element, or what a shift moves by: a number from 0 to 31.
pub fn end_value(value: Option<Value>) -> Option<u32>
    ensures value { result ≡ end_value value }
    ensures bound { IfSome result (λ n. n < 32) }
{
    match value {
        Some(Value::Integer(x)) => below(32, x),
        _ => None,
    }
}

/// The set with the numbers from the first to the last put in; None where one of the three is a trap.
pub fn with_range(set: Option<u32>, low: Option<u32>, high: Option<u32>) -> Option<u32>
    requires low { IfSome low (λ n. n < 32) }
    requires high { IfSome high (λ n. n < 32) }
    ensures { result ≡ with_range set low high }
{
    match (set, low, high) {
        (Some(set), Some(low), Some(high)) => Some(set | range_bits(low, high)),
        _ => None,
    }
}

fn range_bits(low: u32, high: u32) -> u32
    requires low { low < 32 }
    requires high { high < 32 }
    ensures { result ≡ range_bits low high }
{
    (1u64 << (high + 1)).saturating_sub(1u64 << low) as u32
}

/// The value of a call with one argument; None is a trap.
pub fn call_one(function: Option<FoldingFunction>, value: Option<Value>) -> Option<Value>
    ensures { result ≡ call_one function value }
{
    match (function, value) {
        (Some(function), Some(value)) => function_op(function, &value),
        _ => None,
    }
}

/// The value of a call with two arguments; None is a trap.
pub fn call_two(
    function: Option<FoldingFunction>,
    value: Option<Value>,
    by: Option<Value>,
) -> Option<Value>
    ensures { result ≡ call_two function value by }
{
    match (function, value, end_value(by)) {
        (Some(function), Some(Value::Integer(x)), Some(count)) => shifted(function, x, count),
        _ => None,
    }
}

fn shifted(function: FoldingFunction, x: i32, count: u32) -> Option<Value>
    requires { count < 32 }
    ensures { result ≡ shifted function x count }
{
    match function {
        FoldingFunction::Lsl => Some(Value::Integer(x << count)),
        FoldingFunction::Asr => Some(Value::Integer(x >> count)),
        FoldingFunction::Ror => Some(Value::Integer(x.rotate_right(count))),
        _ => None,
    }
}

fn function_op(function: FoldingFunction, value: &Value) -> Option<Value>
    ensures { result ≡ function_op function value.now }
{
    match (function, value) {
        (FoldingFunction::Abs, Value::Integer(x)) => whole(x.checked_abs()),
        (FoldingFunction::Odd, Value::Integer(x)) => Some(Value::Boolean(x.rem_euclid(2) == 1)),
        (FoldingFunction::Chr, Value::Integer(x)) => character(*x),
        (FoldingFunction::Ord, _) => ordinal(value),
        _ => None,
    }
}

fn character(x: i32) -> Option<Value>
    ensures { result ≡ character x }
{
    match below(256, x) {
        Some(code) => Some(Value::Char(code as u8)),
        None => None,
    }
}

fn ordinal(value: &Value) -> Option<Value>
    ensures { result ≡ ordinal value.now }
{
    match value {
        Value::Char(code) => Some(Value::Integer(*code as i32)),
        Value::Str(text) => match text.as_slice() {
            [code] => Some(Value::Integer(*code as i32)),
            _ => None,
        },
        Value::Boolean(truth) => Some(Value::Integer(if *truth { 1 } else { 0 })),
        Value::Set(set) => Some(Value::Integer(set.cast_signed())),
        Value::Integer(_) => None,
    }
}
