ghost use Rattle.std.specs.Prelude.{◌≡◌, IfOk, Some};
ghost use Rattle.oberon_types.specs.Folding.{is_built, are_built, parts_built, value_of, with_ranges, folding_function, call_value, fold};
ghost use Rattle.oberon_types.specs.Constants.{const_tree, ranges_list, parts_list, Folds};

use crate::call::{call_one, call_two, end_value, folding_function, with_range};
use crate::constant::{ConstExpr, FoldFault, FoldingFunction};
use crate::operator::{binary_value, unary_value};
use crate::value::Value;
use ob_text::NoMemory;
use std::alloc::Global;

/// The value of an expression whose operand types fit (The Programming Language Oberon-07, section 5): a
/// `NotConstant` where it isn't built of constants alone, else a `Range` where its evaluation would trap. An
/// expression is gone into part by part, so its depth is the caller's to bound.
pub fn fold_const(alloc: Global, e: &ConstExpr) -> Result<Value, FoldFault>
    ensures { Folds (fold (const_tree e.now)) result }
{
    if !is_built(e) {
        return Err(FoldFault::NotConstant);
    }
    match value_of(alloc, e) {
        Ok(Some(value)) => Ok(value),
        Ok(None) => Err(FoldFault::Range),
        Err(NoMemory) => Err(FoldFault::NoMemory),
    }
}

#[cycle(built)]
#[tactic(auto, using(crate::proofs::ConstantMemory::set_made, crate::proofs::ConstantMemory::call_made))]
fn is_built(e: &ConstExpr) -> bool
    ensures { result ≡ is_built (const_tree e.now) }
{
    match e {
        ConstExpr::Known(_) => true,
        ConstExpr::Other => false,
        ConstExpr::Unary { op: _, part } => is_built(part),
        ConstExpr::Binary { op: _, left, right } => is_built(left) && is_built(right),
        ConstExpr::SetOf(ranges) => are_built(ranges.as_slice()),
        ConstExpr::Call { function, parts } => {
            folding_function(function).is_some() && parts_built(parts.as_slice())
        }
    }
}

#[cycle(built)]
fn are_built(ranges: &[(ConstExpr, ConstExpr)]) -> bool
    ensures { result ≡ are_built (ranges_list ranges.now) }
{
    for (first, last) in ranges {
        if !(is_built(first) && is_built(last)) {
            return false;
        }
    }
    true
}

#[cycle(built)]
fn parts_built(parts: &[ConstExpr]) -> bool
    ensures { result ≡ parts_built (parts_list parts.now) }
{
    for part in parts {
        if !is_built(part) {
            return false;
        }
    }
    true
}

/// The value; None is a trap.
#[cycle(value)]
#[tactic(auto, using(crate::proofs::ConstantMemory::set_made, crate::proofs::ConstantMemory::call_made))]
fn value_of(alloc: Global, e: &ConstExpr) -> Result<Option<Value>, NoMemory>
    ensures { IfOk result (λ v. v ≡ value_of (const_tree e.now)) }
{
    match e {
        ConstExpr::Known(value) => Ok(Some(value.copy(alloc)?)),
        ConstExpr::Other => Ok(None),
        ConstExpr::Unary { op, part } => Ok(unary_value(*op, value_of(alloc, part)?)),
        ConstExpr::Binary { op, left, right } => {
            let left = value_of(alloc, left)?;
            Ok(binary_value(*op, left, value_of(alloc, right)?))
        }
        ConstExpr::SetOf(ranges) => match with_ranges(alloc, ranges.as_slice())? {
            Some(set) => Ok(Some(Value::Set(set))),
            None => Ok(None),
        },
        ConstExpr::Call { function, parts } => call_value(
            alloc,
            folding_function(function),
            parts.as_slice(),
        ),
    }
}

#[cycle(value)]
fn with_ranges(alloc: Global, ranges: &[(ConstExpr, ConstExpr)]) -> Result<Option<u32>, NoMemory>
    ensures { IfOk result (λ m. m ≡ with_ranges (Some 0) (ranges_list ranges.now)) }
{
    let mut set = Some(0);
    for (first, last) in ranges {
        let low = end_value(value_of(alloc, first)?);
        let high = end_value(value_of(alloc, last)?);
        set = with_range(set, low, high);
    }
    Ok(set)
}

#[cycle(value)]
fn call_value(
    alloc: Global,
    function: Option<FoldingFunction>,
    parts: &[ConstExpr],
) -> Result<Option<Value>, NoMemory>
    ensures { IfOk result (λ v. v ≡ call_value function (parts_list parts.now)) }
{
    match parts {
        [] => Ok(None),
        [part] => Ok(call_one(function, value_of(alloc, part)?)),
        [part, by] => {
            let value = value_of(alloc, part)?;
            Ok(call_two(function, value, value_of(alloc, by)?))
        }
        [_, _, _, ..] => Ok(None),
    }
}
