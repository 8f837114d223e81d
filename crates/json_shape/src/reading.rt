ghost use Rattle.std.specs.Prelude.{◌≡◌, ◌+◌, ◌≤◌, [], length, map, max, option_map, suc, IfOk, IfSome, IsTrue};
ghost use Rattle.std.specs.List.{All};
ghost use Rattle.ob_text.specs.Ascii.{IsGraphic};
ghost use Rattle.serde_json.specs.Data.{Data, null};
ghost use Rattle.serde_json.specs.Find.{get};
ghost use Rattle.serde_json.specs.View.{view};
ghost use Rattle.json_shape.specs.Paths.{is_graphic, longest};
ghost use Rattle.json_shape.specs.Reading.{Reads, IfBad, if_there};
ghost use Rattle.json_shape.specs.Shapes.{Shape, list_of, at, bad, bad_if_given, bad_if_there, bad_item, bad_named, bad_unless, under, member_step, values_in};

use crate::bad_value::BadValue;
use crate::paths::{item_path, member_path, named};
use ob_text::{Items, Text};
use serde_json::Value;
use std::alloc::Global;

/// A value of JSON is read as this, or refused at its first bad place. Paths begin with the dot of
/// a member's name.
pub trait Read: Drop {
    /// What the value has to look like.
    ghost shape: { Shape };

    /// What a value of that shape stands for.
    ghost value_in: { Data → Self };

    ghost HasTexts: { Self → Type 0 };

    fn read(alloc: Global, value: &Value) -> Result<Self, BadValue>
        ensures read { Reads (bad shape (view value.now)) (value_in (view value.now)) result }
        ensures texts { IfOk result HasTexts }
        ensures graphic { IfBad result IsGraphic }
        ensures short { IfBad result (λ path. length path ≤ longest shape) };
}

/// Reads a whole value. A path that is told has no dot before it, and a whole value that is bad itself has the
/// name `whole`.
pub fn read_named<T: Read>(alloc: Global, value: &Value, whole: &str) -> Result<T, BadValue>
    requires { IsTrue (is_graphic whole.now) }
    ensures read { Reads (bad_named whole.now T.shape (view value.now))
        (T.value_in (view value.now)) result }
    ensures texts { IfOk result T.HasTexts }
    ensures graphic { IfBad result IsGraphic }
    ensures short { IfBad result (λ path. length path ≤ max (length whole.now) (longest T.shape)) }
{
    match T::read(alloc, value) {
        Err(BadValue::At(path)) => Err(BadValue::At(named(alloc, whole, &path)?)),
        read => read,
    }
}

/// The refusal of a whole value.
pub fn bad_here(alloc: Global) -> BadValue
    ensures { result ≡ BadValue.At [] }
{
    BadValue::At(Text::from_vec(Vec::new(alloc)))
}

/// The member of an object, or `absent`.
fn member<'a>(object: &'a Value, name: &str, absent: &'a Value) -> &'a Value
    requires { view absent.now ≡ null }
    ensures { view result.now ≡ at name.now (view object.now) }
{
    match object.get(name) {
        Some(value) => value,
        None => absent,
    }
}

fn read_member<T: Read>(alloc: Global, value: &Value, name: &str) -> Result<T, BadValue>
    requires { IsTrue (is_graphic name.now) }
    ensures read { Reads (under (member_step name.now) (bad T.shape (view value.now)))
        (T.value_in (view value.now)) result }
    ensures texts { IfOk result T.HasTexts }
    ensures graphic { IfBad result IsGraphic }
    ensures short { IfBad result (λ path. length path ≤ suc (length name.now) + longest T.shape) }
{
    match T::read(alloc, value) {
        Err(BadValue::At(path)) => Err(BadValue::At(member_path(alloc, name, &path)?)),
        read => read,
    }
}

/// Reads a member that must be there.
pub fn required<T: Read>(alloc: Global, object: &Value, name: &str) -> Result<T, BadValue>
    requires { IsTrue (is_graphic name.now) }
    ensures read { Reads
        (under (member_step name.now) (bad T.shape (at name.now (view object.now))))
        (T.value_in (at name.now (view object.now))) result }
    ensures texts { IfOk result T.HasTexts }
    ensures graphic { IfBad result IsGraphic }
    ensures short { IfBad result (λ path. length path ≤ suc (length name.now) + longest T.shape) }
{
    let absent = Value::Null;
    read_member(alloc, member(object, name, &absent), name)
}

/// Reads a member that may be absent, or null.
pub fn optional<T: Read>(alloc: Global, object: &Value, name: &str) -> Result<Option<T>, BadValue>
    requires { IsTrue (is_graphic name.now) }
    ensures read { Reads (under (member_step name.now)
        (bad_if_there (bad T.shape) (at name.now (view object.now))))
        (if_there T.value_in (at name.now (view object.now))) result }
    ensures texts { IfOk result (λ found. IfSome found T.HasTexts) }
    ensures graphic { IfBad result IsGraphic }
    ensures short { IfBad result (λ path. length path ≤ suc (length name.now) + longest T.shape) }
{
    let absent = Value::Null;
    let value = member(object, name, &absent);
    if value.is_null() {
        return Ok(None);
    }
    match read_member(alloc, value, name) {
        Ok(read) => Ok(Some(read)),
        Err(bad) => Err(bad),
    }
}

/// Reads a member that may be absent, and isn't null.
pub fn if_given<T: Read>(alloc: Global, object: &Value, name: &str) -> Result<Option<T>, BadValue>
    requires { IsTrue (is_graphic name.now) }
    ensures read { Reads (under (member_step name.now)
        (bad_if_given (bad T.shape) (get name.now (view object.now))))
        (option_map T.value_in (get name.now (view object.now))) result }
    ensures texts { IfOk result (λ found. IfSome found T.HasTexts) }
    ensures graphic { IfBad result IsGraphic }
    ensures short { IfBad result (λ path. length path ≤ suc (length name.now) + longest T.shape) }
{
    match object.get(name) {
        Some(value) => match read_member(alloc, value, name) {
            Ok(read) => Ok(Some(read)),
            Err(bad) => Err(bad),
        },
        None => Ok(None),
    }
}

/// Looks whether a member is right, which a test of the whole object told.
pub fn passing(alloc: Global, passed: bool, name: &str) -> Result<(), BadValue>
    requires { IsTrue (is_graphic name.now) }
    ensures read { Reads (under (member_step name.now) (bad_unless passed)) tt result }
    ensures graphic { IfBad result IsGraphic }
    ensures short { IfBad result (λ path. length path ≤ suc (length name.now)) }
{
    if passed {
        return Ok(());
    }
    let here = Text::from_vec(Vec::new(alloc));
    Err(BadValue::At(member_path(alloc, name, &here)?))
}

impl<T: Read> Read for Items<T> {
    ghost shape = { list_of T.shape };

    ghost value_in = { λ d. map T.value_in (values_in d) };

    ghost HasTexts = { All T.HasTexts };

    fn read(alloc: Global, value: &Value) -> Result<Items<T>, BadValue> {
        match value.as_array() {
            Some(values) => read_items(alloc, values.as_slice()),
            None => Err(bad_here(alloc)),
        }
    }
}

fn read_items<T: Read>(alloc: Global, values: &[Value]) -> Result<Items<T>, BadValue>
    ensures read { Reads (bad_item (bad T.shape) 0 (map view values.now))
        (map T.value_in (map view values.now)) result }
    ensures texts { IfOk result (All T.HasTexts) }
    ensures graphic { IfBad result IsGraphic }
    ensures short { IfBad result (λ path. length path ≤ 22 + longest T.shape) }
{
    let mut items = Vec::new(alloc);
    for (index, value) in values.iter().enumerate() {
        match T::read(alloc, value) {
            Ok(item) => items.push(item)?,
            Err(BadValue::At(path)) => return Err(BadValue::At(item_path(alloc, index, &path)?)),
            Err(BadValue::NoMemory) => return Err(BadValue::NoMemory),
        }
    }
    Ok(Items::from_vec(items))
}
