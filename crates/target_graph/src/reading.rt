ghost use Rattle.std.specs.Prelude.{◌≡◌, [], None, Some, IfOk, option_map};
ghost use Rattle.ob_text.specs.declared.held.Held.{Held};
ghost use Rattle.serde_json.specs.View.{view};
ghost use Rattle.target_graph.specs.Faults.{file_text, json_of, file_value, file_entries, names_of, too_many, Looks, Passed, IsNameIndex};
ghost use Rattle.target_graph.specs.File.{bad_file, entries_of};
ghost use Rattle.target_graph.specs.Listing.{GivesListing};
ghost use Rattle.target_graph.specs.Names.{IsPlainName};
ghost use Rattle.target_graph.specs.declared.fault.FaultKind.TheVariants as kinds;

use crate::entry::{Entry, File};
use crate::fault::{FaultKind, WorkspaceFault, WorkspaceRefusal};
use crate::listing::{count, index_names, refusal, resolve};
use crate::target::Target;
use indexmap::IndexSet;
use json_shape::BadValue;
use ob_text::{Held, Name, NoMemory};
use serde_json::Value;
use std::alloc::Global;

/// The targets that a file lists, and the index of their names.
#[derive(Drop)]
pub(crate) struct Listing {
    pub(crate) names: IndexSet<Name>,
    pub(crate) targets: Vec<Target>,
}

/// Reads a file up to the indices of the dependencies.
pub(crate) fn read_file(alloc: Global, file: &Held) -> Result<Listing, WorkspaceRefusal>
    ensures { GivesListing file.now result }
{
    match text_of(alloc, file) {
        Ok(text) => read_text(alloc, text),
        Err(refusal) => Err(refusal),
    }
}

fn text_of<'a>(alloc: Global, file: &'a Held) -> Result<&'a [u8], WorkspaceRefusal>
    ensures { Looks result kinds.NoFile (λ name. (file_text file.now ≡ None) × (name ≡ [])) (λ text.
        file_text file.now ≡ Some text.now) }
{
    match file {
        Held::Text(text) => Ok(text.as_slice()),
        _ => Err(refusal(alloc, FaultKind::NoFile, b"")),
    }
}

fn read_text(alloc: Global, text: &[u8]) -> Result<Listing, WorkspaceRefusal>
    ensures { (held : Held) → file_text held ≡ Some text.now → Passed held 1 → GivesListing held result }
{
    match json_of(alloc, text) {
        Ok(value) => read_value(alloc, &value),
        Err(refusal) => Err(refusal),
    }
}

fn json_of(alloc: Global, text: &[u8]) -> Result<Value, WorkspaceRefusal>
    ensures { Looks result kinds.BadJson (λ name. (json_of text.now ≡ None) × (name ≡ [])) (λ
        value. json_of text.now ≡ Some (view value)) }
{
    match value_of(alloc, text) {
        Ok(Some(value)) => Ok(value),
        Ok(None) => Err(refusal(alloc, FaultKind::BadJson, b"")),
        Err(NoMemory) => Err(WorkspaceRefusal::NoMemory),
    }
}

// The JSON value of a text, where it is one.
fn value_of(alloc: Global, text: &[u8]) -> Result<Option<Value>, NoMemory>
    ensures { IfOk result (λ value. option_map view value ≡ json_of text.now) }
{
    let Ok(text) = std::str::from_utf8(text) else {
        return Ok(None);
    };
    match Value::from_str(alloc, text) {
        Ok(value) => Ok(Some(value)),
        Err(error) => if error.is_memory() {
            Err(NoMemory)
        } else {
            Ok(None)
        },
    }
}

fn read_value(alloc: Global, value: &Value) -> Result<Listing, WorkspaceRefusal>
    ensures { (held : Held) → file_value held ≡ Some (view value.now) → Passed held 2 → GivesListing
        held result }
{
    match entries_of(alloc, value) {
        Ok(entries) => read_entries(alloc, entries),
        Err(refusal) => Err(refusal),
    }
}

/// What the file says of its targets, where no field of it is bad.
#[tactic(auto, using(crate::proofs::PlainLaws::plain_field))]
fn entries_of(alloc: Global, value: &Value) -> Result<Vec<Entry>, WorkspaceRefusal>
    ensures { Looks result kinds.BadField (λ name. (bad_file (view value.now) ≡ Some name)
        × IsPlainName name)
        (λ entries. (bad_file (view value.now) ≡ None) × (entries.items ≡ entries_of (view
        value.now))) }
{
    match json_shape::read_named::<File>(alloc, value, "$") {
        Ok(file) => Ok(file.targets.into_vec()),
        Err(BadValue::At(path)) => Err(WorkspaceRefusal::Fault(WorkspaceFault {
            kind: FaultKind::BadField,
            name: Name::from_vec(path.into_vec()),
        })),
        Err(BadValue::NoMemory) => Err(WorkspaceRefusal::NoMemory),
    }
}

fn read_entries(alloc: Global, entries: Vec<Entry>) -> Result<Listing, WorkspaceRefusal>
    ensures { (held : Held) → file_entries held ≡ entries.items → Passed held 3 → GivesListing held result }
{
    match count(alloc, &entries) {
        Ok(()) => read_counted(alloc, entries),
        Err(refusal) => Err(refusal),
    }
}

fn read_counted(alloc: Global, entries: Vec<Entry>) -> Result<Listing, WorkspaceRefusal>
    requires few { too_many entries.items ≡ None }
    ensures { (held : Held) → file_entries held ≡ entries.items → Passed held 4 → GivesListing held result }
{
    match index_names(alloc, &entries) {
        Ok(names) => read_named(alloc, names, entries),
        Err(refusal) => Err(refusal),
    }
}

fn read_named(
    alloc: Global,
    names: IndexSet<Name>,
    entries: Vec<Entry>,
) -> Result<Listing, WorkspaceRefusal>
    requires few { too_many entries.items ≡ None }
    requires index { IsNameIndex names.keys (names_of entries.items) }
    ensures { (held : Held) → file_entries held ≡ entries.items → Passed held 5 → GivesListing held result }
{
    match resolve(alloc, &names, entries) {
        Ok(targets) => Ok(Listing { names, targets }),
        Err(refusal) => Err(refusal),
    }
}
