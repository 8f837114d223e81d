ghost use Rattle.std.specs.Prelude.{◌≡◌, ℕ, List, Some, option_copied, IfOk, OnOk};
ghost use Rattle.indexmap.specs.IndexMap.{get};
ghost use Rattle.oberon_types.specs.Names.{known_of, seen_in, start_in, noted, or_end, AreFirst, StartsAt};
ghost use Rattle.oberon_types.specs.Types.{same_name};

use crate::origin::Origin;
use crate::sizes::sees;
use indexmap::IndexMap;
use ob_text::{Name, NoMemory};
use std::alloc::Global;
use std::marker::Model;

/// Among so many fields a name is looked for from the first on.
const FEW: usize = 8;

/// The name of a field, whether it is exported, and where its type stands among the types of its record. None stands for
/// a type that isn't known.
pub struct FieldName {
    pub name: Name,
    pub exported: bool,
    pub ty: Option<usize>,
}

impl Drop for FieldName {
    fn drop(self) {
        let Self {
            name: _,
            exported: _,
            ty: _,
        } = self;
    }
}

/// A field whose type is known: whether it is exported, and where its type stands.
#[derive(Clone, Copy, Debug)]
pub struct KnownField {
    pub exported: bool,
    pub ty: usize,
}

/// The names of a record's fields in the order of their declaration. Where they aren't few, one is found by its hash.
pub struct FieldNames {
    fields: Vec<FieldName>,
    /// The index of the first field of each name.
    first: Option<IndexMap<Name, usize>>,
    known: Vec<KnownField>,
}

impl Drop for FieldNames {
    fn drop(self) {
        let Self {
            fields: _,
            first: _,
            known: _,
        } = self;
    }
}

/// Contracts see the fields.
impl Model for FieldNames {
    ghost use Rattle.std.specs.Prelude.{◌≡◌, List};
    ghost use Rattle.oberon_types.specs.declared.names.FieldName.{FieldName};
    ghost use Rattle.oberon_types.specs.Names.{known_of, AreFirst};

    ghost Value = { List FieldName };

    ghost view = { λ names. names.fields.items };

    ghost invariant = { λ names. (names.known.items ≡ known_of names.fields.items) × AreFirst names.first names.fields.items };
}

impl FieldNames {
    /// The names of these fields.
    pub fn from_vec(alloc: Global, fields: Vec<FieldName>) -> Result<FieldNames, NoMemory>
        ensures { IfOk result (λ names. names ≡ fields.items) }
    {
        let first = first_fields(alloc, fields.as_slice())?;
        let known = known_fields(alloc, fields.as_slice())?;
        Ok(FieldNames {
            fields,
            first,
            known,
        })
    }

    /// The fields.
    pub fn as_slice(&self) -> &[FieldName]
        ensures { result.now ≡ self.now }
    {
        self.fields.as_slice()
    }

    /// The fields whose type is known.
    pub fn known(&self) -> &[KnownField]
        ensures { result.now ≡ known_of self.now }
    {
        self.known.as_slice()
    }

    /// The first field of this name that a module sees in a record of this origin. Takes no memory.
    pub fn seen(&self, me: &Name, origin: &Origin, name: &Name) -> Option<&FieldName>
        ensures { option_copied result ≡ seen_in me.now origin.now name.now self.now }
    {
        let start = start_of(&self.first, name, self.fields.len());
        seen_among(me, origin, name, self.fields.as_slice().split_at(start).1)
    }
}

/// Where to look for a name among so many fields.
fn start_of(first: &Option<IndexMap<Name, usize>>, name: &Name, end: usize) -> usize
    ensures { result ≡ start_in first.now name.now end }
{
    match first {
        Some(first) => match first.get(name) {
            Some(at) => *at,
            None => end,
        },
        None => 0,
    }
}

fn seen_among<'a>(
    me: &Name,
    origin: &Origin,
    name: &Name,
    fields: &'a [FieldName],
) -> Option<&'a FieldName>
    ensures { option_copied result ≡ seen_in me.now origin.now name.now fields.now }
{
    for field in fields {
        if field.name == *name && sees(me, origin, field.exported) {
            return Some(field);
        }
    }
    None
}

fn known_fields(alloc: Global, fields: &[FieldName]) -> Result<Vec<KnownField>, NoMemory>
    ensures { IfOk result (λ known. known.items ≡ known_of fields.now) }
{
    let mut known = Vec::new(alloc);
    for field in fields {
        if let Some(ty) = field.ty {
            known.push(KnownField {
                exported: field.exported,
                ty,
            })?;
        }
    }
    Ok(known)
}

fn first_fields(
    alloc: Global,
    fields: &[FieldName],
) -> Result<Option<IndexMap<Name, usize>>, NoMemory>
    ensures { IfOk result (λ first. AreFirst first fields.now) }
{
    if fields.len() <= FEW {
        return Ok(None);
    }
    let mut first = IndexMap::new(alloc);
    let mut at = 0;
    for field in fields {
        note(alloc, &mut first, &field.name, at)?;
        at += 1;
    }
    Ok(Some(first))
}

/// Notes the index of a name, unless the name has one.
fn note(
    alloc: Global,
    first: &mut IndexMap<Name, usize>,
    name: &Name,
    at: usize,
) -> Result<(), NoMemory>
    ensures { OnOk result ((x : List ℕ) → get same_name first.new x ≡ noted (get same_name first.old x) (same_name name.now x) at) }
{
    if !first.contains_key(name) {
        first.insert(name.copy(alloc)?, at)?;
    }
    Ok(())
}
