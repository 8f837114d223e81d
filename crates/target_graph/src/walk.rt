ghost use Rattle.std.specs.Prelude.{◌≡◌, ℕ, ◌<◌, ◌^◌, false, [], length, replicate, IfOk, OnOk, All};
ghost use Rattle.target_graph.specs.Walk.{meet, meet_all, AreClosed, AreMarks, AreMarked};
ghost use Rattle.target_graph.specs.Faults.{IsFirstCycle, Looks};
ghost use Rattle.target_graph.specs.Workspace.{Circles};
ghost use Rattle.target_graph.specs.declared.fault.FaultKind.TheVariants as kinds;

use crate::fault::{FaultKind, WorkspaceRefusal};
use crate::listing::refusal;
use crate::target::Target;
use ob_text::NoMemory;
use std::alloc::Global;

/// The targets that were met so far: a mark for each, and their order.
#[derive(Drop)]
struct Walk {
    marks: Vec<bool>,
    order: Vec<u32>,
}

impl Walk {
    ghost use Rattle.target_graph.specs.Met.{met};

    fn new(alloc: Global, targets: usize) -> Result<Walk, NoMemory>
        ensures { IfOk result (λ walk. met walk ≡ record {
          marks = replicate targets false;
          order
              = [];
        }) }
    {
        Ok(Walk {
            marks: vec![in alloc; false; targets]?,
            order: Vec::new(alloc),
        })
    }

    fn meet_all(&mut self, targets: &[u32]) -> Result<(), NoMemory>
        requires { All (λ target. target < length self.old.marks.items) targets.now }
        ensures { OnOk result (met self.new ≡ meet_all (met self.old) targets.now) }
    {
        for target in targets {
            self.meet(*target)?;
        }
        Ok(())
    }

    fn meet(&mut self, target: u32) -> Result<(), NoMemory>
        requires { target < length self.old.marks.items }
        ensures { OnOk result (met self.new ≡ meet (met self.old) target) }
    {
        let index = target as usize;
        if !self.marks[index] {
            self.order.push(target)?;
            self.marks[index] = true;
        }
        Ok(())
    }
}

/// Marks the targets to which the asked ones lead, each to itself too. Looks at each of them, and
/// at each of their
/// dependencies, once.
pub(crate) fn reached(
    alloc: Global,
    targets: &[Target],
    asked: &[u32],
) -> Result<Vec<bool>, NoMemory>
    requires closed { AreClosed targets.now }
    requires asked { All (λ target. target < length targets.now) asked.now }
    ensures { IfOk result (λ marks. AreMarks targets.now asked.now marks.items) }
{
    let mut walk = Walk::new(alloc, targets.len())?;
    walk.meet_all(asked)?;
    let mut at = 0;
    'walk: while at < walk.order.len() {
        let index = walk.order[at] as usize;
        walk.meet_all(targets[index].dependencies.as_slice())?;
        at += 1;
    }
    Ok(walk.marks)
}

/// The marked indices, in order.
pub(crate) fn marked(alloc: Global, marks: &[bool]) -> Result<Vec<u32>, NoMemory>
    requires { length marks.now < 2 ^ 32 }
    ensures { IfOk result (λ indices. AreMarked marks.now indices.items) }
{
    let mut indices = Vec::new(alloc);
    for index in 0..marks.len() {
        if marks[index] {
            indices.push(index as u32)?;
        }
    }
    Ok(indices)
}

/// Looks for the first target that depends on itself.
pub(crate) fn check_cycles(alloc: Global, targets: &[Target]) -> Result<(), WorkspaceRefusal>
    requires { AreClosed targets.now }
    ensures { Looks result kinds.DependencyCycle (IsFirstCycle targets.now) (λ _. (index : ℕ) → ¬
        (Circles targets.now index)) }
{
    for index in 0..targets.len() {
        let marks = reached(alloc, targets, targets[index].dependencies.as_slice())?;
        if marks[index] {
            let name = targets[index].name.as_slice();
            return Err(refusal(alloc, FaultKind::DependencyCycle, name));
        }
    }
    Ok(())
}
