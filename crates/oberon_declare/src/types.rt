ghost use Rattle.std.specs.Prelude.{◌≡◌, IfOk, OnOk};
ghost use Rattle.std.specs.Option.{option_copied};
ghost use Rattle.oberon_tree.specs.Memory.{type_tree, record_tree, fields_tree, field_lists_option, field_lists_tree};
ghost use Rattle.oberon_tree.specs.Trees.{record_type};
ghost use Rattle.oberon_types.specs.Memory.{plain_ty, base_option, fields_list};
ghost use Rattle.oberon_rules.specs.Declarations.{origin_at};
ghost use Rattle.oberon_rules.specs.TypeRules.{type_is, type_says, fields_are, fields_say, list_is, list_says};
ghost use Rattle.oberon_infer.specs.Memory.{plain_scopes};
ghost use Rattle.oberon_infer.specs.Adds.{Adds};
ghost use Rattle.oberon_declare.specs.Records.{IsIndexed, array_type_tree, list_type, list_type_says};

use crate::arrays::array;
use crate::inherited::inherited_names;
use crate::origins::{copy_origin, element_origin, field_origin, origin_at};
use crate::owner::Owner;
use crate::records::{Made, add_fields, find_base, first_new, into_fields, no_fields, record_of};
use ob_text::{Name, NoMemory};
use oberon_infer::{Said, Scopes, type_named};
use oberon_tree::{ArrayType, FieldLists, Fields, Ident, IdentDef, RecordType, Type};
use oberon_types::{Field, Origin, RecordTy, Ty};
use std::alloc::Global;
use std::sync::Arc;

/// The type that is declared under a name, and what is said of it.
pub fn declared_type<'a>(
    alloc: Global,
    me: &Name,
    scopes: &Scopes<'a>,
    at: &Ident,
    tree: &'a Type,
    said: &mut Vec<Said<'a>>,
) -> Result<Ty, NoMemory>
    ensures is { IfOk result (λ t. plain_ty t ≡ type_is me.now (plain_scopes scopes.now) (origin_at me.now (plain_scopes scopes.now) at.now) (type_tree tree.now)) }
    ensures says { OnOk result (Adds said.old.items said.new.items (type_says me.now (plain_scopes scopes.now) (origin_at me.now (plain_scopes scopes.now) at.now) (type_tree tree.now))) }
{
    match tree {
        // A name needs no origin.
        Type::Named(name) => type_named(scopes, name, said),
        _ => {
            let origin = origin_at(alloc, me, scopes, at)?;
            type_of(alloc, me, scopes, &origin, tree, said)
        }
    }
}

/// The type that a tree stands for, and what is said of it (The Programming Language Oberon-07, section 6). `origin`
/// is where a record that stands there is declared.
#[cycle(type_of)]
pub fn type_of<'a>(
    alloc: Global,
    me: &Name,
    scopes: &Scopes<'a>,
    origin: &Origin,
    tree: &'a Type,
    said: &mut Vec<Said<'a>>,
) -> Result<Ty, NoMemory>
    ensures is { IfOk result (λ t. plain_ty t ≡ type_is me.now (plain_scopes scopes.now) origin.now (type_tree tree.now)) }
    ensures says { OnOk result (Adds said.old.items said.new.items (type_says me.now (plain_scopes scopes.now) origin.now (type_tree tree.now))) }
{
    match tree {
        Type::Named(name) => type_named(scopes, name, said),
        Type::Array(array) => of_array(alloc, me, scopes, origin, array, said),
        Type::Record(record) => of_record(alloc, me, scopes, origin, record, said),
    }
}

#[cycle(type_of)]
fn of_array<'a>(
    alloc: Global,
    me: &Name,
    scopes: &Scopes<'a>,
    origin: &Origin,
    tree: &'a ArrayType,
    said: &mut Vec<Said<'a>>,
) -> Result<Ty, NoMemory>
    ensures is { IfOk result (λ t. plain_ty t ≡ type_is me.now (plain_scopes scopes.now) origin.now (array_type_tree tree.now)) }
    ensures says { OnOk result (Adds said.old.items said.new.items (type_says me.now (plain_scopes scopes.now) origin.now (array_type_tree tree.now))) }
{
    let inner = element_origin(alloc, origin, &tree.lengths)?;
    let element = type_of(alloc, me, scopes, &inner, &tree.element, said)?;
    array(alloc, me, scopes, &tree.lengths, element, tree.word, said)
}

#[cycle(type_of)]
fn of_record<'a>(
    alloc: Global,
    me: &Name,
    scopes: &Scopes<'a>,
    origin: &Origin,
    tree: &'a RecordType,
    said: &mut Vec<Said<'a>>,
) -> Result<Ty, NoMemory>
    ensures is { IfOk result (λ t. plain_ty t ≡ type_is me.now (plain_scopes scopes.now) origin.now (record_type (record_tree tree.now))) }
    ensures says { OnOk result (Adds said.old.items said.new.items (type_says me.now (plain_scopes scopes.now) origin.now (record_type (record_tree tree.now)))) }
{
    let found = find_base(scopes, &tree.base, said)?;
    let base = copy_base(&found.base)?;
    let inherited = inherited_names(alloc, me, &base, &tree.fields)?;
    let owner = Owner {
        me,
        origin,
        base,
        inherited,
    };
    let fields = of_lists(alloc, scopes, &owner, &tree.fields, said)?;
    let origin = copy_origin(alloc, origin)?;
    record_of(alloc, me, origin, found, fields, tree.word, said)
}

#[cycle(type_of)]
fn of_lists<'a>(
    alloc: Global,
    scopes: &Scopes<'a>,
    owner: &Owner,
    lists: &'a Option<FieldLists>,
    said: &mut Vec<Said<'a>>,
) -> Result<Vec<Field>, NoMemory>
    ensures is { IfOk result (λ fs. fields_list fs.items ≡ fields_are owner.now.me.now (plain_scopes scopes.now) owner.now.origin.now (base_option owner.now.base) (field_lists_option lists.now)) }
    ensures says { OnOk result (Adds said.old.items said.new.items (fields_say owner.now.me.now (plain_scopes scopes.now) owner.now.origin.now (base_option owner.now.base) (field_lists_option lists.now))) }
{
    match lists {
        Some(lists) => of_some_lists(alloc, scopes, owner, lists, said),
        None => Ok(Vec::new(alloc)),
    }
}

#[cycle(type_of)]
fn of_some_lists<'a>(
    alloc: Global,
    scopes: &Scopes<'a>,
    owner: &Owner,
    lists: &'a FieldLists,
    said: &mut Vec<Said<'a>>,
) -> Result<Vec<Field>, NoMemory>
    ensures is { IfOk result (λ fs. fields_list fs.items ≡ fields_are owner.now.me.now (plain_scopes scopes.now) owner.now.origin.now (base_option owner.now.base) (field_lists_tree lists.now)) }
    ensures says { OnOk result (Adds said.old.items said.new.items (fields_say owner.now.me.now (plain_scopes scopes.now) owner.now.origin.now (base_option owner.now.base) (field_lists_tree lists.now))) }
{
    let mut made = no_fields(alloc);
    of_list(alloc, scopes, owner, &mut made, &lists.first, said)?;
    for next in lists.rest.iter() {
        of_list(alloc, scopes, owner, &mut made, &next.fields, said)?;
    }
    Ok(into_fields(made))
}

#[cycle(type_of)]
fn of_list<'a>(
    alloc: Global,
    scopes: &Scopes<'a>,
    owner: &Owner,
    made: &mut Made,
    list: &'a Fields,
    said: &mut Vec<Said<'a>>,
) -> Result<(), NoMemory>
    requires { IsIndexed owner.now made.old }
    ensures is { OnOk result (fields_list made.new.fields.items ≡ list_is owner.now.me.now (plain_scopes scopes.now) owner.now.origin.now (base_option owner.now.base) (fields_list made.old.fields.items) (fields_tree list.now)) }
    ensures says { OnOk result (Adds said.old.items said.new.items (list_says owner.now.me.now (plain_scopes scopes.now) owner.now.origin.now (base_option owner.now.base) (fields_list made.old.fields.items) (fields_tree list.now))) }
    ensures indexed { OnOk result (IsIndexed owner.now made.new) }
{
    let first = first_new(owner, made, &list.names);
    let ty = list_type(alloc, scopes, owner, first, &list.of_type, said)?;
    add_fields(alloc, owner, made, &list.names, &ty, said)
}

/// The type of a list of fields. Where no name of it declares something it isn't examined.
#[cycle(type_of)]
fn list_type<'a>(
    alloc: Global,
    scopes: &Scopes<'a>,
    owner: &Owner,
    first: Option<&IdentDef>,
    tree: &'a Type,
    said: &mut Vec<Said<'a>>,
) -> Result<Ty, NoMemory>
    ensures is { IfOk result (λ t. plain_ty t ≡ list_type owner.now.me.now (plain_scopes scopes.now) owner.now.origin.now (option_copied first.entry) (type_tree tree.now)) }
    ensures says { OnOk result (Adds said.old.items said.new.items (list_type_says owner.now.me.now (plain_scopes scopes.now) owner.now.origin.now (option_copied first.entry) (type_tree tree.now))) }
{
    match (first, tree) {
        (None, _) => Ok(Ty::Unknown),
        // A name needs no origin.
        (Some(_), Type::Named(name)) => type_named(scopes, name, said),
        (Some(first), _) => {
            let inner = field_origin(alloc, owner.origin, &first.name.name)?;
            type_of(alloc, owner.me, scopes, &inner, tree, said)
        }
    }
}

fn copy_base(base: &Option<Arc<RecordTy>>) -> Result<Option<Arc<RecordTy>>, NoMemory>
    ensures { IfOk result (λ copy. base_option copy ≡ base_option base.now) }
{
    match base {
        Some(base) => Ok(Some(base.clone()?)),
        None => Ok(None),
    }
}
