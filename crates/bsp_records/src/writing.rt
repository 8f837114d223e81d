ghost use Rattle.std.specs.Prelude.{◌≡◌, false, codes, map, option_map, IfOk, IfSome, OnOk, Some};
ghost use Rattle.std.specs.List.{All};
ghost use Rattle.std.specs.Str.{IsUtf8};
ghost use Rattle.serde_json.specs.Data.{Data, boolean, string};
ghost use Rattle.serde_json.specs.View.{view, items_of, members_view};
ghost use Rattle.serde_json.specs.Written.{has_float, items_have_float, members_have_float};
ghost use Rattle.bsp_records.specs.Writing.{array_with, with_member};

use ob_text::{Items, NoMemory, Text};
use serde_json::{Map, Value};
use std::alloc::Global;

/// A record is written as a value of JSON.
pub(crate) trait Write {
    ghost data_of: { Self → Data };

    ghost HasTexts: { Self → Type 0 };

    fn write(&self, alloc: Global) -> Result<Value, NoMemory>
        requires { HasTexts self.now }
        ensures data { IfOk result (λ value. view value ≡ data_of self.now) }
        ensures exact { IfOk result (λ value. has_float (view value) ≡ false) };
}

/// Writes a member.
#[tactic(auto, using(crate::proofs::ExactLaws::exact_put))]
pub(crate) fn put<T: Write>(
    alloc: Global,
    object: &mut Map<String, Value>,
    name: &str,
    field: &T,
) -> Result<(), NoMemory>
    requires texts { T.HasTexts field.now }
    requires exact { members_have_float (members_view object.old.entries) ≡ false }
    ensures data { OnOk result (members_view object.new.entries
        ≡ with_member name.now (Some (T.data_of field.now)) (members_view object.old.entries)) }
    ensures exact { OnOk result (members_have_float (members_view object.new.entries) ≡ false) }
{
    let value = field.write(alloc)?;
    Ok(serde_json::put(object, alloc, name, value)?)
}

/// Writes a member that may be absent.
pub(crate) fn put_some<T: Write>(
    alloc: Global,
    object: &mut Map<String, Value>,
    name: &str,
    field: &Option<T>,
) -> Result<(), NoMemory>
    requires texts { IfSome field.now T.HasTexts }
    requires exact { members_have_float (members_view object.old.entries) ≡ false }
    ensures data { OnOk result (members_view object.new.entries
        ≡ with_member name.now (option_map T.data_of field.now) (members_view object.old.entries)) }
    ensures exact { OnOk result (members_have_float (members_view object.new.entries) ≡ false) }
{
    match field {
        Some(field) => put(alloc, object, name, field),
        None => Ok(()),
    }
}

/// Writes the kind of a body, where there is one.
#[tactic(auto, using(crate::proofs::ExactLaws::exact_put))]
pub(crate) fn put_kind(
    alloc: Global,
    object: &mut Map<String, Value>,
    kind: Option<&str>,
) -> Result<(), NoMemory>
    ensures { OnOk result (members_view object.new.entries
        ≡ with_member (codes "dataKind") (option_map (λ kind. string kind.now) kind.entry)
        (members_view object.old.entries)) }
{
    match kind {
        Some(kind) => {
            let value = Value::try_from_str(alloc, kind)?;
            Ok(serde_json::put(object, alloc, "dataKind", value)?)
        }
        None => Ok(()),
    }
}

impl Write for Text {
    ghost data_of = { string };

    ghost HasTexts = { IsUtf8 };

    fn write(&self, alloc: Global) -> Result<Value, NoMemory> {
        Ok(Value::try_from_str(alloc, self.as_str())?)
    }
}

impl Write for bool {
    ghost use Rattle.std.specs.Prelude.{⊤};

    ghost data_of = { boolean };

    ghost HasTexts = { λ _. ⊤ };

    fn write(&self, _alloc: Global) -> Result<Value, NoMemory> {
        Ok(Value::Bool(*self))
    }
}

impl<T: Write> Write for Items<T> {
    ghost data_of = { λ items. array_with (map T.data_of items) };

    ghost HasTexts = { All T.HasTexts };

    fn write(&self, alloc: Global) -> Result<Value, NoMemory> {
        Ok(Value::Array(write_items(alloc, self.as_slice())?))
    }
}

fn write_items<T: Write>(alloc: Global, items: &[T]) -> Result<Vec<Value>, NoMemory>
    requires { All T.HasTexts items.now }
    ensures data { IfOk result (λ values. map view values.items ≡ map T.data_of items.now) }
    ensures exact { IfOk result (λ values. items_have_float (items_of (map view values.items))
        ≡ false) }
{
    let mut values = Vec::new(alloc);
    for item in items {
        values.push(item.write(alloc)?)?;
    }
    Ok(values)
}
