//! Rows of imports, and the plan that is made of them.
ghost use Rattle.std.specs.Prelude.{◌≡◌, ◌<◌, length, All, IfOk};
ghost use Rattle.std.specs.Bool.{OnTrue};
ghost use Rattle.build_plan.specs.Rows.{AreWithin};
ghost use Rattle.build_plan.specs.Places.{fresh};
ghost use Rattle.build_plan.specs.Lists.{lists, lists_of};

use build_plan::Plan;
use std::alloc::Global;
use std::test::Fail;

/// The rows, owned.
pub fn owned(alloc: Global, rows: &[&[u32]]) -> Result<Vec<Vec<u32>>, Fail> {
    let mut imports = Vec::new(alloc);
    for row in rows {
        imports.push(row.to_vec(alloc)?)?;
    }
    Ok(imports)
}

/// A row for each place, of one import or none.
pub fn single(alloc: Global, imports: &[Option<u32>]) -> Result<Vec<Vec<u32>>, Fail> {
    let mut rows = Vec::new(alloc);
    for import in imports {
        let mut row = Vec::new(alloc);
        if let Some(place) = import {
            row.push(*place)?;
        }
        rows.push(row)?;
    }
    Ok(rows)
}

/// The plan of the rows.
pub fn plan(alloc: Global, rows: Vec<Vec<u32>>) -> Result<Plan, Fail>
    ensures { IfOk result (λ plan. plan ≡ fresh (lists rows)) }
{
    if are_within(rows.as_slice()) && rows.len() < 5_000 {
        Ok(Plan::new(alloc, rows)?)
    } else {
        Err(Fail::new("no places"))
    }
}

fn are_within(rows: &[Vec<u32>]) -> bool
    ensures { OnTrue result (AreWithin (lists_of rows.now)) }
{
    for row in rows {
        if !is_within(row.as_slice(), rows.len()) {
            return false;
        }
    }
    true
}

fn is_within(row: &[u32], places: usize) -> bool
    ensures { OnTrue result (All (λ place. place < places) row.now) }
{
    for place in row {
        if *place as usize >= places {
            return false;
        }
    }
    true
}
