ghost use Rattle.std.specs.Prelude.{◌≡◌, ◌<◌, ◌≤◌, ◌^◌, ℕ, [], false, length, All, Contains, IfOk, IfSome, IfNone};
ghost use Rattle.target_graph.specs.Closures.{AreClosures, lists, lists_of};
ghost use Rattle.target_graph.specs.Faults.{IsFirstStemTwice, IsRepeat, Looks};
ghost use Rattle.target_graph.specs.Stems.{IsNumbered, IsNumbering, IsSeen, IsTwice, IsFirstTwice, AreGroups, HasNumbers};
ghost use Rattle.target_graph.specs.Workspace.{pairs_of, stems_of};
ghost use Rattle.target_graph.specs.declared.fault.FaultKind.TheVariants as kinds;
ghost use Rattle.target_graph.specs.Limits.{pairs_limit};

use crate::blank::{empty_lists, no_marks};
use crate::fault::{FaultKind, WorkspaceRefusal};
use crate::listing::refusal;
use crate::names::stem;
use crate::target::{Pair, Target};
use indexmap::IndexSet;
use ob_text::{Name, NoMemory};
use std::alloc::Global;

/// The number of the stem of each pair, counted as the stems are first met. `stems` has them by
/// number.
pub(crate) fn number(
    alloc: Global,
    stems: &mut IndexSet<Name>,
    pairs: &[Pair],
) -> Result<Vec<u32>, NoMemory>
    requires empty { stems.old.keys ≡ [] }
    requires few { length pairs.now ≤ pairs_limit }
    ensures { IfOk result (λ numbers. IsNumbering (stems_of pairs.now) stems.new.keys
        numbers.items) }
{
    let mut numbers = Vec::new(alloc);
    for pair in pairs {
        let name = Name::new(alloc, stem(pair.path.as_slice()))?;
        numbers.push(number_of(stems, name)?)?;
    }
    Ok(numbers)
}

fn number_of(stems: &mut IndexSet<Name>, name: Name) -> Result<u32, NoMemory>
    requires { length stems.old.keys ≤ pairs_limit }
    ensures { IfOk result (IsNumbered stems.old.keys stems.new.keys name) }
{
    let (number, _) = stems.insert_full(name)?;
    Ok(number as u32)
}

/// The pairs of each stem, by the numbers of the stems: the indices of these pairs, in order.
pub(crate) fn groups(
    alloc: Global,
    numbers: &[u32],
    width: usize,
) -> Result<Vec<Vec<u32>>, NoMemory>
    requires few { length numbers.now < 2 ^ 32 }
    requires within { All (λ number. number < width) numbers.now }
    ensures { IfOk result (λ groups. AreGroups numbers.now width (lists groups)) }
{
    let mut groups = empty_lists(alloc, width)?;
    for index in 0..numbers.len() {
        groups[numbers[index] as usize].push(index as u32)?;
    }
    Ok(groups)
}

/// Looks for the first target that sees a stem twice.
pub(crate) fn check_stems(
    alloc: Global,
    targets: &[Target],
    closures: &[Vec<bool>],
    pairs: &[Pair],
    numbers: &[u32],
    groups: &[Vec<u32>],
) -> Result<(), WorkspaceRefusal>
    requires closures { AreClosures targets.now (lists_of closures.now) }
    requires pairs { pairs.now ≡ pairs_of targets.now }
    requires numbers { HasNumbers (stems_of pairs.now) numbers.now (length groups.now) }
    requires groups { AreGroups numbers.now (length groups.now) (lists_of groups.now) }
    ensures { Looks result kinds.StemTwice (IsFirstStemTwice targets.now) (λ _. (t q : ℕ) → ¬
        (IsRepeat targets.now t q)) }
{
    if !has_shared(groups) {
        return Ok(());
    }
    for index in 0..closures.len() {
        let marks = closures[index].as_slice();
        match check_row(alloc, marks, pairs, numbers, groups.len()) {
            Ok(()) => {}
            Err(refusal) => return Err(refusal),
        }
    }
    Ok(())
}

// Whether two pairs have one stem.
fn has_shared(groups: &[Vec<u32>]) -> bool
    ensures { result ≡ false → All (λ group. length group.items ≤ 1) groups.now }
{
    for group in groups {
        if group.len() > 1 {
            return true;
        }
    }
    false
}

// Looks for the first of the pairs of marked targets that has an earlier one's stem.
fn check_row(
    alloc: Global,
    marks: &[bool],
    pairs: &[Pair],
    numbers: &[u32],
    width: usize,
) -> Result<(), WorkspaceRefusal>
    requires numbers { length numbers.now ≡ length pairs.now }
    requires width { All (λ number. number < width) numbers.now }
    requires marks { All (λ pair. pair.target < length marks.now) pairs.now }
    ensures { Looks result kinds.StemTwice (IsFirstTwice marks.now pairs.now numbers.now)
        (λ _. (q : ℕ) → ¬ (IsTwice marks.now pairs.now numbers.now q)) }
{
    let mut seen = no_marks(alloc, width)?;
    for index in 0..pairs.len() {
        if marks[pairs[index].target as usize] {
            let number = numbers[index] as usize;
            if seen[number] {
                let name = stem(pairs[index].path.as_slice());
                return Err(refusal(alloc, FaultKind::StemTwice, name));
            }
            seen[number] = true;
        }
    }
    Ok(())
}

/// The first pair of a group whose target is marked.
pub(crate) fn first_seen(marks: &[bool], pairs: &[Pair], group: &[u32]) -> Option<u32>
    requires group { All (λ index. index < length pairs.now) group.now }
    requires marks { All (λ pair. pair.target < length marks.now) pairs.now }
    ensures some { IfSome result (λ q. Contains group.now q × IsSeen marks.now pairs.now q) }
    ensures none { IfNone result (All (λ q. ¬ (IsSeen marks.now pairs.now q)) group.now) }
{
    for index in group {
        if marks[pairs[*index as usize].target as usize] {
            return Some(*index);
        }
    }
    None
}
