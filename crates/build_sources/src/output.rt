ghost use Rattle.std.specs.Prelude.{◌≡◌, ◌==◌, false, [], ◌∷◌, None, map, IfOk, OnOk};
ghost use Rattle.std.specs.Cmp.Lexicographic.{pointwise};
ghost use Rattle.indexmap.specs.IndexMap.{insert_entry};
ghost use Rattle.oberon_rules.specs.Views.{out_view};
ghost use Rattle.oberon_types.specs.Entities.{procedure_entity};
ghost use Rattle.oberon_types.specs.Memory.{plain_entity, plain_param, plain_ty, plain_view};

use indexmap::IndexMap;
use ob_text::{Name, NoMemory};
use oberon_types::{Entity, Exports, Param, Signature, Ty, View};
use std::alloc::Global;
use std::sync::Arc;

/// What the module Out shows, which has no text: Char(c: CHAR), Int(x, n: INTEGER), Ln and String(s: ARRAY OF CHAR).
pub fn out_view(alloc: Global) -> Result<View, NoMemory>
    ensures { IfOk result (λ view. plain_view view ≡ out_view) }
{
    let element = Arc::new(alloc, Ty::Char)?;
    let mut entities = IndexMap::new(alloc);
    put(alloc, &mut entities, "Char", with_one(alloc, Ty::Char)?)?;
    put(
        alloc,
        &mut entities,
        "Int",
        with_two(alloc, Ty::Integer, Ty::Integer)?,
    )?;
    put(alloc, &mut entities, "Ln", procedure(Vec::new(alloc)))?;
    put(
        alloc,
        &mut entities,
        "String",
        with_one(alloc, Ty::Open { element })?,
    )?;
    Ok(View::Exports(Arc::new(alloc, Exports { entities })?))
}

/// Puts an entity behind the others, under its name.
fn put(
    alloc: Global,
    entities: &mut IndexMap<Name, Entity>,
    name: &str,
    entity: Entity,
) -> Result<(), NoMemory>
    ensures { OnOk result (entities.new.entries ≡ insert_entry (pointwise ◌==◌) entities.old.entries name.now entity) }
{
    let old = entities.insert(Name::new(alloc, name.as_bytes())?, entity)?;
    let_go(old);
    Ok(())
}

fn let_go(_old: Option<Entity>) {}

/// A proper procedure with a value parameter.
fn with_one(alloc: Global, ty: Ty) -> Result<Entity, NoMemory>
    ensures { IfOk result (λ entity. plain_entity entity ≡ procedure_entity (record { params = record { by_var = false; ty = plain_ty ty } ∷ []; result_type = None })) }
{
    let mut params = Vec::new(alloc);
    params.push(Param { by_var: false, ty })?;
    Ok(procedure(params))
}

/// A proper procedure with two value parameters.
fn with_two(alloc: Global, first: Ty, second: Ty) -> Result<Entity, NoMemory>
    ensures { IfOk result (λ entity. plain_entity entity ≡ procedure_entity (record { params = record { by_var = false; ty = plain_ty first } ∷ record { by_var = false; ty = plain_ty second } ∷ []; result_type = None })) }
{
    let mut params = Vec::new(alloc);
    params.push(Param {
        by_var: false,
        ty: first,
    })?;
    params.push(Param {
        by_var: false,
        ty: second,
    })?;
    Ok(procedure(params))
}

/// A proper procedure.
fn procedure(params: Vec<Param>) -> Entity
    ensures { plain_entity result ≡ procedure_entity (record { params = map plain_param params.items; result_type = None }) }
{
    Entity::Proc(Signature {
        params,
        result_type: None,
    })
}
