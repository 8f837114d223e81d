ghost use Rattle.std.specs.Prelude.{◌≡◌, ◌∷◌, ◌&&◌, ◌||◌, [], List, ℕ, false, is_some, IfOk, OnOk};
ghost use Rattle.std.specs.Option.{option_copied};
ghost use Rattle.oberon_tree.specs.declared.leaf.IdentDef.{IdentDef as NameDefined};
ghost use Rattle.oberon_tree.specs.Memory.{ident_defs_tree};
ghost use Rattle.oberon_types.specs.Memory.{plain_ty, base_option, fields_list};
ghost use Rattle.indexmap.specs.IndexSet.{contains};
ghost use Rattle.oberon_types.specs.Types.{same_name};
ghost use Rattle.oberon_types.specs.Sizes.{sees};
ghost use Rattle.oberon_rules.specs.TypeRules.{BaseMeant, base_is, base_says, base_meant, is_bad_base, first_new, is_taken, add_field, ident_defs, record_is, record_row};
ghost use Rattle.oberon_infer.specs.Memory.{plain_scopes};
ghost use Rattle.oberon_infer.specs.Adds.{Adds};
ghost use Rattle.oberon_declare.specs.Records.{IsBase, IsIndexed, AddsFields};

use crate::arrays::known_or_large;
use crate::owner::{Owner, is_in_base};
use indexmap::IndexSet;
use ob_text::{Code, Name, NoMemory, Span};
use oberon_infer::{Said, Scopes, add_named, last_name, type_named};
use oberon_tree::{Base, IdentDef, IdentDefs};
use oberon_types::{Field, Origin, RecordTy, Ty, record_type, sees};
use std::alloc::Global;
use std::sync::Arc;

/// What a record extends.
#[derive(Drop)]
pub struct FoundBase {
    pub base: Option<Arc<RecordTy>>,
    /// Whether a record can be made: there is no base, or it is a record.
    pub usable: bool,
}

/// The fields that are declared so far, and the names of those that are visible.
#[derive(Drop)]
pub struct Made {
    pub fields: Vec<Field>,
    pub names: IndexSet<Name>,
}

/// A record without a field.
pub fn no_fields(alloc: Global) -> Made
    ensures fields { result.fields.items ≡ [] }
    ensures names { result.names.keys ≡ [] }
{
    Made {
        fields: Vec::new(alloc),
        names: IndexSet::new(alloc),
    }
}

/// The fields of a record. Takes no memory.
pub fn into_fields(made: Made) -> Vec<Field>
    ensures { result.items ≡ made.fields.items }
{
    let Made { fields, names: _ } = made;
    fields
}

/// The base of a record, and what is said of it (The Programming Language Oberon-07, section 6.3).
pub fn find_base<'a>(
    scopes: &Scopes<'a>,
    base: &'a Option<Base>,
    said: &mut Vec<Said<'a>>,
) -> Result<FoundBase, NoMemory>
    ensures is { IfOk result (λ f. IsBase f (base_is (plain_scopes scopes.now) base.now)) }
    ensures says { OnOk result (Adds said.old.items said.new.items (base_says (plain_scopes scopes.now) base.now)) }
{
    match base {
        Some(base) => {
            let ty = type_named(scopes, &base.name, said)?;
            add_named(said, is_bad_base(&ty), last_name(&base.name), Code::BadBase)?;
            Ok(as_base(ty))
        }
        None => Ok(FoundBase {
            base: None,
            usable: true,
        }),
    }
}

/// Whether a type that is known is no record.
fn is_bad_base(ty: &Ty) -> bool
    ensures { result ≡ is_bad_base (base_meant (plain_ty ty.now)) }
{
    match ty {
        Ty::Record(_) => false,
        Ty::Unknown => false,
        _ => true,
    }
}

fn as_base(ty: Ty) -> FoundBase
    ensures { IsBase result (base_meant (plain_ty ty)) }
{
    match ty {
        Ty::Record(base) => FoundBase {
            base: Some(base),
            usable: true,
        },
        _ => FoundBase {
            base: None,
            usable: false,
        },
    }
}

/// Whether the record has a field of this name already, of its own or of its base.
fn is_taken(owner: &Owner, made: &Made, name: &Name) -> bool
    requires { IsIndexed owner.now made.now }
    ensures { result
        ≡ is_taken owner.now.me.now owner.now.origin.now (base_option owner.now.base) (fields_list made.now.fields.items) name.now }
{
    made.names.contains(name) || is_in_base(owner, name)
}

/// The first name of a list that declares something.
pub fn first_new<'a>(owner: &Owner, made: &Made, names: &'a IdentDefs) -> Option<&'a IdentDef>
    requires { IsIndexed owner.now made.now }
    ensures { option_copied result
        ≡ first_new (is_taken owner.now.me.now owner.now.origin.now (base_option owner.now.base) (fields_list made.now.fields.items)) (ident_defs (ident_defs_tree names.now)) }
{
    if !is_taken(owner, made, &names.first.name.name) {
        return Some(&names.first);
    }
    for next in names.rest.iter() {
        if !is_taken(owner, made, &next.ident.name.name) {
            return Some(&next.ident);
        }
    }
    None
}

/// Declares the fields of a list that are new, and says which are there already.
pub fn add_fields<'a>(
    alloc: Global,
    owner: &Owner,
    made: &mut Made,
    names: &'a IdentDefs,
    ty: &Ty,
    said: &mut Vec<Said<'a>>,
) -> Result<(), NoMemory>
    requires { IsIndexed owner.now made.old }
    ensures { OnOk result (AddsFields owner.now made.old made.new said.old.items said.new.items (ident_defs (ident_defs_tree names.now)) [] (plain_ty ty.now)) }
{
    add_field(alloc, owner, made, &names.first, ty, said)?;
    for next in names.rest.iter() {
        add_field(alloc, owner, made, &next.ident, ty, said)?;
    }
    Ok(())
}

fn add_field<'a>(
    alloc: Global,
    owner: &Owner,
    made: &mut Made,
    at: &'a IdentDef,
    ty: &Ty,
    said: &mut Vec<Said<'a>>,
) -> Result<(), NoMemory>
    requires { IsIndexed owner.now made.old }
    ensures { OnOk result ((left : List NameDefined) → AddsFields owner.now made.old made.new said.old.items said.new.items (at.now ∷ left) left (plain_ty ty.now)) }
{
    if is_taken(owner, made, &at.name.name) {
        add_named(said, true, &at.name, Code::NameTwice)
    } else {
        push_field(alloc, owner, made, at, ty)
    }
}

/// Declares a new field.
fn push_field(
    alloc: Global,
    owner: &Owner,
    made: &mut Made,
    at: &IdentDef,
    ty: &Ty,
) -> Result<(), NoMemory>
    requires indexed { IsIndexed owner.now made.old }
    requires fresh { contains same_name made.old.names at.now.name.name ≡ false }
    ensures fields { OnOk result (fields_list made.new.fields.items ≡ add_field (fields_list made.old.fields.items) at.now.name.name (is_some at.now.export) (plain_ty ty.now)) }
    ensures indexed { OnOk result (IsIndexed owner.now made.new) }
{
    let exported = at.export.is_some();
    push_name(alloc, owner, &mut made.names, &at.name.name, exported)?;
    let field = Field {
        name: at.name.name.copy(alloc)?,
        exported,
        ty: ty.copy()?,
    };
    made.fields.push(field)?;
    Ok(())
}

/// Adds the name of a new field, where it is visible.
fn push_name(
    alloc: Global,
    owner: &Owner,
    names: &mut IndexSet<Name>,
    name: &Name,
    exported: bool,
) -> Result<(), NoMemory>
    requires { contains same_name names.old name.now ≡ false }
    ensures { OnOk result ((x : List ℕ) → contains same_name names.new x
        ≡ (contains same_name names.old x || (same_name name.now x && sees owner.now.me.now owner.now.origin.now exported))) }
{
    if sees(owner.me, owner.origin, exported) {
        names.insert(name.copy(alloc)?)?;
    }
    Ok(())
}

/// The record of these parts, and what is said of it. One that is too large is unknown.
pub fn record_of<'a>(
    alloc: Global,
    me: &Name,
    origin: Origin,
    base: FoundBase,
    fields: Vec<Field>,
    word: Span,
    said: &mut Vec<Said<'a>>,
) -> Result<Ty, NoMemory>
    ensures is { IfOk result (λ t. (m : BaseMeant) → IsBase base m → plain_ty t ≡ record_is me.now origin m (fields_list fields.items)) }
    ensures says { OnOk result ((m : BaseMeant) → IsBase base m → Adds said.old.items said.new.items (record_row me.now origin m (fields_list fields.items) word)) }
{
    let FoundBase { base, usable } = base;
    if usable {
        let ty = record_type(alloc, me, origin, base, fields)?;
        known_or_large(ty, word, said)
    } else {
        Ok(Ty::Unknown)
    }
}
