ghost use Rattle.std.specs.Prelude.{◌≡◌, IfOk};
ghost use Rattle.oberon_tree.specs.Memory.{exprs_tree};
ghost use Rattle.oberon_types.specs.declared.origin.Step.TheVariants as steps;
ghost use Rattle.oberon_rules.specs.Declarations.{origin_at};
ghost use Rattle.oberon_rules.specs.TypeRules.{deeper, element_origin};
ghost use Rattle.oberon_declare.specs.Origins.{at_path};
ghost use Rattle.oberon_infer.specs.Memory.{plain_scopes};

use ob_text::{Items, Name, NoMemory};
use oberon_infer::Scopes;
use oberon_tree::{Exprs, Ident};
use oberon_types::{Origin, Step};
use std::alloc::Global;

/// The origin of a type that is declared under a name.
pub fn origin_at(alloc: Global, me: &Name, scopes: &Scopes, at: &Ident) -> Result<Origin, NoMemory>
    ensures { IfOk result (λ o. o ≡ origin_at me.now (plain_scopes scopes.now) at.now) }
{
    let procedure = match scopes.procedure {
        Some(name) => Some(name.copy(alloc)?),
        None => None,
    };
    Ok(Origin {
        module: me.copy(alloc)?,
        procedure,
        name: at.name.copy(alloc)?,
        path: Items::from_vec(Vec::new(alloc)),
    })
}

/// The origin of what stands in an array of these lengths.
pub fn element_origin(alloc: Global, origin: &Origin, lengths: &Exprs) -> Result<Origin, NoMemory>
    ensures { IfOk result (λ o. o ≡ element_origin origin.now (exprs_tree lengths.now)) }
{
    let mut path = copy_path(alloc, origin.path.as_slice())?;
    path.push(Step::Element)?;
    for _next in lengths.rest.iter() {
        path.push(Step::Element)?;
    }
    with_path(alloc, origin, path)
}

/// The origin of a field of a record.
pub fn field_origin(alloc: Global, origin: &Origin, name: &Name) -> Result<Origin, NoMemory>
    ensures { IfOk result (λ o. o ≡ deeper origin.now (steps.Field name.now)) }
{
    let mut path = copy_path(alloc, origin.path.as_slice())?;
    path.push(Step::Field(name.copy(alloc)?))?;
    with_path(alloc, origin, path)
}

/// An equal origin.
pub fn copy_origin(alloc: Global, origin: &Origin) -> Result<Origin, NoMemory>
    ensures { IfOk result (λ o. o ≡ origin.now) }
{
    let path = copy_path(alloc, origin.path.as_slice())?;
    with_path(alloc, origin, path)
}

fn with_path(alloc: Global, origin: &Origin, path: Vec<Step>) -> Result<Origin, NoMemory>
    ensures { IfOk result (λ o. o ≡ at_path origin.now path.items) }
{
    let procedure = match &origin.procedure {
        Some(name) => Some(name.copy(alloc)?),
        None => None,
    };
    Ok(Origin {
        module: origin.module.copy(alloc)?,
        procedure,
        name: origin.name.copy(alloc)?,
        path: Items::from_vec(path),
    })
}

fn copy_path(alloc: Global, steps: &[Step]) -> Result<Vec<Step>, NoMemory>
    ensures { IfOk result (λ path. path.items ≡ steps.now) }
{
    let mut path = Vec::new(alloc);
    for step in steps {
        path.push(copy_step(alloc, step)?)?;
    }
    Ok(path)
}

fn copy_step(alloc: Global, step: &Step) -> Result<Step, NoMemory>
    ensures { IfOk result (λ copy. copy ≡ step.now) }
{
    match step {
        Step::Element => Ok(Step::Element),
        Step::Field(name) => Ok(Step::Field(name.copy(alloc)?)),
    }
}
