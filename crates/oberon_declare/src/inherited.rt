ghost use Rattle.std.specs.Prelude.{◌≡◌, ◌&&◌, [], is_some, IfOk, OnOk};
ghost use Rattle.std.specs.List.{list_any};
ghost use Rattle.oberon_types.specs.Memory.{plain_record, base_option};
ghost use Rattle.oberon_types.specs.Types.{same_name, base_of};
ghost use Rattle.oberon_types.specs.Sizes.{sees, field_of, field_of_base};
ghost use Rattle.oberon_types.specs.Names.{seen_in};
ghost use Rattle.oberon_declare.specs.Inherited.{Inherits, Finds};

use indexmap::IndexSet;
use ob_text::{Name, NoMemory};
use oberon_tree::{FieldLists, IdentDefs};
use oberon_types::{FieldName, Origin, RecordTy, sees};
use std::alloc::Global;
use std::sync::Arc;

/// For so many names a base is gone through once for each.
const FEW: usize = 4;

/// What a record inherits: of the names that it asks for, those of visible fields of its base.
pub struct Inherited {
    pub asked: IndexSet<Name>,
    pub found: IndexSet<Name>,
}

impl Drop for Inherited {
    fn drop(self) {
        let Self { asked: _, found: _ } = self;
    }
}

/// What a record of these fields inherits. It asks for their names where they aren't few, so that the fields of the base
/// are gone through once for all of them, and not once for each.
pub fn inherited_names(
    alloc: Global,
    me: &Name,
    base: &Option<Arc<RecordTy>>,
    lists: &Option<FieldLists>,
) -> Result<Inherited, NoMemory>
    ensures { IfOk result (Inherits me.now (base_option base.now)) }
{
    match (base, lists) {
        (Some(base), Some(lists)) => inherited_by(alloc, me, base, names_of(alloc, lists)?),
        _ => Ok(nothing_asked(alloc)),
    }
}

fn inherited_by(
    alloc: Global,
    me: &Name,
    base: &RecordTy,
    asked: IndexSet<Name>,
) -> Result<Inherited, NoMemory>
    ensures { IfOk result (Inherits me.now (base_of (plain_record base.now))) }
{
    if asked.len() <= FEW {
        return Ok(nothing_asked(alloc));
    }
    let mut found = IndexSet::new(alloc);
    find_in_record(alloc, me, base, &asked, &mut found)?;
    Ok(Inherited { asked, found })
}

fn nothing_asked(alloc: Global) -> Inherited
    ensures { result.asked.keys ≡ [] }
{
    Inherited {
        asked: IndexSet::new(alloc),
        found: IndexSet::new(alloc),
    }
}

/// The names of the fields, which are to be asked for. Whichever they are, what is inherited is right.
fn names_of(alloc: Global, lists: &FieldLists) -> Result<IndexSet<Name>, NoMemory> {
    let mut names = IndexSet::new(alloc);
    add_names(alloc, &lists.first.names, &mut names)?;
    for next in lists.rest.iter() {
        add_names(alloc, &next.fields.names, &mut names)?;
    }
    Ok(names)
}

fn add_names(
    alloc: Global,
    idents: &IdentDefs,
    names: &mut IndexSet<Name>,
) -> Result<(), NoMemory> {
    names.insert(idents.first.name.name.copy(alloc)?)?;
    for next in idents.rest.iter() {
        names.insert(next.ident.name.name.copy(alloc)?)?;
    }
    Ok(())
}

// ---- one walk over the fields

/// Finds the visible fields of a record and of its bases.
#[cycle(find)]
fn find_in_record(
    alloc: Global,
    me: &Name,
    given: &RecordTy,
    asked: &IndexSet<Name>,
    found: &mut IndexSet<Name>,
) -> Result<(), NoMemory>
    ensures { OnOk result (Finds asked.now.keys found.old.keys found.new.keys (λ x. is_some (field_of me.now x (plain_record given.now)))) }
{
    find_in_fields(
        alloc,
        me,
        &given.origin,
        given.names.as_slice(),
        asked,
        found,
    )?;
    find_in_base(alloc, me, &given.base, asked, found)
}

#[cycle(find)]
fn find_in_base(
    alloc: Global,
    me: &Name,
    base: &Option<Arc<RecordTy>>,
    asked: &IndexSet<Name>,
    found: &mut IndexSet<Name>,
) -> Result<(), NoMemory>
    ensures { OnOk result (Finds asked.now.keys found.old.keys found.new.keys (λ x. is_some (field_of_base me.now x (base_option base.now)))) }
{
    match base {
        Some(base) => find_in_record(alloc, me, base, asked, found),
        None => Ok(()),
    }
}

fn find_in_fields(
    alloc: Global,
    me: &Name,
    origin: &Origin,
    fields: &[FieldName],
    asked: &IndexSet<Name>,
    found: &mut IndexSet<Name>,
) -> Result<(), NoMemory>
    ensures { OnOk result (Finds asked.now.keys found.old.keys found.new.keys (λ x. is_some (seen_in me.now origin.now x fields.now))) }
{
    for field in fields {
        find_in_field(alloc, me, origin, field, asked, found)?;
    }
    Ok(())
}

fn find_in_field(
    alloc: Global,
    me: &Name,
    origin: &Origin,
    field: &FieldName,
    asked: &IndexSet<Name>,
    found: &mut IndexSet<Name>,
) -> Result<(), NoMemory>
    ensures { OnOk result (Finds asked.now.keys found.old.keys found.new.keys (λ x. same_name field.now.name x && sees me.now origin.now field.now.exported)) }
{
    if is_wanted(me, origin, field, asked) {
        found.insert(field.name.copy(alloc)?)?;
    }
    Ok(())
}

/// Whether the field is asked for and visible.
fn is_wanted(me: &Name, origin: &Origin, field: &FieldName, asked: &IndexSet<Name>) -> bool
    ensures { result ≡ (list_any (same_name field.now.name) asked.now.keys && sees me.now origin.now field.now.exported) }
{
    asked.contains(&field.name) && sees(me, origin, field.exported)
}
