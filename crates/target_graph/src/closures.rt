ghost use Rattle.std.specs.Prelude.{◌≡◌, ℕ, suc, ◌<◌, ◌||◌, true, false, length, All, IfOk, OnOk};
ghost use Rattle.target_graph.specs.Closures.{AreClosures, AreRows, AreDeep, IsWhole, IsMade, IsOneLeft, IsJoined, row_at, lists, lists_of};
ghost use Rattle.target_graph.specs.Faults.{IsFirstCycle, Looks};
ghost use Rattle.target_graph.specs.Walk.{has_met, AreClosed};
ghost use Rattle.target_graph.specs.declared.fault.FaultKind.TheVariants as kinds;

use crate::blank::{empty_lists, no_marks};
use crate::fault::WorkspaceRefusal;
use crate::target::Target;
use crate::walk::check_cycles;
use ob_text::NoMemory;
use std::alloc::Global;

/// The closure of each target: marks at the targets to which it leads, itself among them. Looks for
/// the first target that depends on itself.
pub(crate) fn closures(
    alloc: Global,
    targets: &[Target],
) -> Result<Vec<Vec<bool>>, WorkspaceRefusal>
    requires { AreClosed targets.now }
    ensures { Looks result kinds.DependencyCycle (IsFirstCycle targets.now) (λ rows. AreClosures
        targets.now (lists rows)) }
{
    let mut rows = empty_lists(alloc, targets.len())?;
    for _ in 0..=targets.len() {
        if sweep(alloc, targets, &mut rows)? {
            return Ok(rows);
        }
    }
    // A target is left when there were more sweeps than targets, so one depends on itself.
    match check_cycles(alloc, targets) {
        Err(refusal) => Err(refusal),
        Ok(()) => unreachable!(),
    }
}

// Makes the closure of each target whose dependencies have theirs, and tells whether no target is
// left. A row that is empty isn't made yet.
fn sweep(alloc: Global, targets: &[Target], rows: &mut Vec<Vec<bool>>) -> Result<bool, NoMemory>
    requires closed { AreClosed targets.now }
    requires rows { AreRows targets.now (lists rows.old) }
    ensures rows { OnOk result (AreRows targets.now (lists rows.new)) }
    ensures deep { OnOk result ((n : ℕ) → AreDeep targets.now n (lists rows.old) → AreDeep
        targets.now (suc n) (lists rows.new)) }
    ensures whole { IfOk result (IsWhole targets.now (lists rows.new)) }
{
    let mut whole = true;
    for index in 0..targets.len() {
        if rows[index].is_empty() {
            let dependencies = targets[index].dependencies.as_slice();
            if are_made(rows.as_slice(), dependencies) {
                rows[index] = joined(alloc, rows.as_slice(), index, dependencies)?;
            } else {
                whole = false;
            }
        }
    }
    Ok(whole)
}

fn are_made(rows: &[Vec<bool>], indices: &[u32]) -> bool
    requires { All (λ index. index < length rows.now) indices.now }
    ensures made { result ≡ true → All (IsMade (lists_of rows.now)) indices.now }
    ensures left { result ≡ false → IsOneLeft (lists_of rows.now) indices.now }
{
    for index in indices {
        if rows[*index as usize].is_empty() {
            return false;
        }
    }
    true
}

// The marks of some rows, and one at an index.
fn joined(
    alloc: Global,
    rows: &[Vec<bool>],
    index: usize,
    indices: &[u32],
) -> Result<Vec<bool>, NoMemory>
    requires index { index < length rows.now }
    requires indices { All (λ other. (other < length rows.now) × (length (row_at (lists_of rows.now)
        other) ≡ length rows.now)) indices.now }
    ensures { IfOk result (λ row. IsJoined (lists_of rows.now) index indices.now row.items) }
{
    let mut row = no_marks(alloc, rows.len())?;
    row[index] = true;
    for other in indices {
        add_marks(&mut row, rows[*other as usize].as_slice());
    }
    Ok(row)
}

fn add_marks(row: &mut Vec<bool>, other: &[bool])
    requires { length other.now ≡ length row.old.items }
    ensures size { length row.new.items ≡ length row.old.items }
    ensures marks { (b : ℕ) → has_met row.new.items b ≡ (has_met row.old.items b || has_met
        other.now b) }
{
    for index in 0..row.len() {
        row[index] = row[index] | other[index];
    }
}
