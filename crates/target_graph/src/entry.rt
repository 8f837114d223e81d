ghost use Rattle.std.specs.Prelude.{⊤, ◌≡◌, [], IfOk, None, if◌then◌else◌, unwrap_or};
ghost use Rattle.std.specs.Option.{option_copied};
ghost use Rattle.serde_json.specs.Find.{as_str};
ghost use Rattle.serde_json.specs.View.{view};
ghost use Rattle.json_shape.specs.Shapes.{at, text_where, whole};
ghost use Rattle.target_graph.specs.File as spec;
ghost use Rattle.target_graph.specs.File.{entry_of, entries_of, file, is_kind, is_main_of, kind_in, needs_main, target};
ghost use Rattle.target_graph.specs.Names as names;

use crate::names::{is_name, is_path, stem};
use crate::target::TargetKind;
use json_shape::{
    BadValue, Checked, Read, Rule, bad_here, if_given, passing, read_between, required,
};
use ob_text::{Bytes, Items, Name, NoMemory, Path};
use serde_json::Value;
use std::alloc::Global;

/// What a workspace file says of one target, its dependencies by their names.
#[derive(Drop)]
pub(crate) struct Entry {
    pub(crate) name: Name,
    pub(crate) kind: TargetKind,
    pub(crate) modules: Items<Path>,
    pub(crate) dependencies: Items<Name>,
    pub(crate) main: Option<Name>,
}

/// What a workspace file says.
#[derive(Drop)]
pub(crate) struct File {
    pub(crate) targets: Items<Entry>,
}

/// The version of a workspace file, which is 1.
#[derive(Clone, Copy)]
struct Version;

/// A text may be the name of a target.
struct IsName;

/// A text may be the path of a module.
struct IsPath;

impl Rule for IsName {
    ghost test = { names.is_name };

    fn is_followed(text: &str) -> bool {
        is_name(text.as_bytes())
    }
}

impl Rule for IsPath {
    ghost test = { names.is_path };

    fn is_followed(text: &str) -> bool {
        is_path(text.as_bytes())
    }
}

impl Read for TargetKind {
    ghost shape = { text_where is_kind };

    ghost value_in = { kind_in };

    ghost HasTexts = { λ _. ⊤ };

    fn read(alloc: Global, value: &Value) -> Result<TargetKind, BadValue> {
        match value.as_str() {
            Some(text) => match kind_named(text) {
                Some(kind) => Ok(kind),
                None => Err(bad_here(alloc)),
            },
            None => Err(bad_here(alloc)),
        }
    }
}

#[tactic(auto, unfolding(crate::specs::File::kind_named))]
fn kind_named(text: &str) -> Option<TargetKind>
    ensures { result ≡ spec.kind_named text.now }
{
    match text {
        "library" => Some(TargetKind::Library),
        "application" => Some(TargetKind::Application),
        "test" => Some(TargetKind::Test),
        _ => None,
    }
}

impl Read for Version {
    ghost shape = { whole 1 1 };

    ghost value_in = { λ _. record {} };

    ghost HasTexts = { λ _. ⊤ };

    fn read(alloc: Global, value: &Value) -> Result<Version, BadValue> {
        match read_between(alloc, value, 1, 1) {
            Ok(_one) => Ok(Version),
            Err(bad) => Err(bad),
        }
    }
}

impl Read for Entry {
    ghost shape = { target };

    ghost value_in = { entry_of };

    ghost HasTexts = { λ _. ⊤ };

    fn read(alloc: Global, value: &Value) -> Result<Entry, BadValue> {
        if !value.is_object() {
            return Err(bad_here(alloc));
        }
        let name = required::<Bytes<Checked<IsName>>>(alloc, value, "name")?;
        let kind = required::<TargetKind>(alloc, value, "kind")?;
        let modules = required::<Items<Bytes<Checked<IsPath>>>>(alloc, value, "modules")?;
        let dependencies = if_given::<Items<Bytes<Checked<IsName>>>>(alloc, value, "dependencies")?;
        let modules = each_owned(alloc, modules)?;
        let main = text_at(value, "main");
        passing(alloc, has_its_main(kind, modules.as_slice(), main), "main")?;
        Ok(Entry {
            name: Name::from_vec(name.into_vec()),
            kind,
            modules,
            dependencies: given(alloc, dependencies)?,
            main: main_of(alloc, kind, main)?,
        })
    }
}

impl Read for File {
    ghost shape = { file };

    ghost value_in = { λ d. record { targets = entries_of d } };

    ghost HasTexts = { λ _. ⊤ };

    fn read(alloc: Global, value: &Value) -> Result<File, BadValue> {
        if !value.is_object() {
            return Err(bad_here(alloc));
        }
        let _version: Version = required(alloc, value, "version")?;
        let targets = required(alloc, value, "targets")?;
        Ok(File { targets })
    }
}

/// The member, where it is a text.
fn text_at<'a>(value: &'a Value, key: &str) -> Option<&'a str>
    ensures { option_copied result ≡ as_str (at key.now (view value.now)) }
{
    match value.get(key) {
        Some(member) => member.as_str(),
        None => None,
    }
}

/// Whether a target of this kind has the main module that it needs.
fn has_its_main(kind: TargetKind, modules: &[Path], main: Option<&str>) -> bool
    ensures { result ≡ spec.has_its_main kind modules.now (option_copied main.entry) }
{
    match (kind, main) {
        (TargetKind::Application, Some(main)) => is_main_of(modules, main.as_bytes()),
        (TargetKind::Application, None) => false,
        _ => true,
    }
}

/// Whether one of the paths has this stem.
fn is_main_of(modules: &[Path], main: &[u8]) -> bool
    ensures { result ≡ is_main_of modules.now main.now }
{
    modules.iter().any(|path| main == stem(path.as_slice()))
}

fn main_of(alloc: Global, kind: TargetKind, main: Option<&str>) -> Result<Option<Name>, NoMemory>
    ensures { IfOk result (λ name. name
        ≡ (if needs_main kind then option_copied main.entry else None)) }
{
    match (kind, main) {
        (TargetKind::Application, Some(main)) => Ok(Some(Name::new(alloc, main.as_bytes())?)),
        _ => Ok(None),
    }
}

/// The items, or none where there is no list.
fn given<K, L>(alloc: Global, items: Option<Items<Bytes<K>>>) -> Result<Items<Bytes<L>>, NoMemory>
    ensures { IfOk result (λ list. list ≡ unwrap_or items []) }
{
    match items {
        Some(items) => each_owned(alloc, items),
        None => Ok(Items::from_vec(Vec::new(alloc))),
    }
}

/// The same texts, of another kind.
fn each_owned<K, L>(alloc: Global, items: Items<Bytes<K>>) -> Result<Items<Bytes<L>>, NoMemory>
    ensures { IfOk result (λ list. list ≡ items) }
{
    let mut list = Vec::new(alloc);
    for item in items.into_vec() {
        list.push(Bytes::from_vec(item.into_vec()))?;
    }
    Ok(Items::from_vec(list))
}
