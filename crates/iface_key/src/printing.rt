ghost use Rattle.std.specs.Prelude.{◌∷◌, ◌<◌, map, length, slice_get, IfOk, OnOk};
ghost use Rattle.std.specs.Option.{option_map};
ghost use Rattle.oberon_types.specs.Memory.{plain_ty, plain_record, base_option, fields_in, types_in, type_at, plain_param, plain_signature, plain_entity, plain_export, plain_view};
ghost use Rattle.iface_key.specs.Keys.{number_then, bool_then, integer_then, text_then, list_then, option_then, value_then, step_then, origin_then, type_then, record_then, base_then, fields_then, param_then, signature_then, entity_then, export_then, view_then, KeyOf};
ghost use Rattle.iface_key.specs.Printed.{Prints, found_then};

use crate::key::Key;
use indexmap::IndexMap;
use ob_text::{Name, NoMemory};
use oberon_types::{Entity, FieldName, Origin, Param, RecordTy, Signature, Step, Ty, Value, View};
use std::alloc::Global;
use std::sync::Arc;

/// The key of a view. It takes time for each byte of the key, which is written once.
pub fn key_of(alloc: Global, view: &View) -> Result<Key, NoMemory>
    ensures { IfOk result (λ key. KeyOf (plain_view view.now) key) }
{
    let mut key = Vec::new(alloc);
    put_view(&mut key, view)?;
    Ok(Key::from_vec(key))
}

// ---- numbers and texts

fn put_byte(key: &mut Vec<u8>, byte: u8) -> Result<(), NoMemory>
    ensures { OnOk result (Prints (λ rest. byte ∷ rest) key.old.items key.new.items) }
{
    key.push(byte)?;
    Ok(())
}

fn put_bool(key: &mut Vec<u8>, truth: bool) -> Result<(), NoMemory>
    ensures { OnOk result (Prints (bool_then truth) key.old.items key.new.items) }
{
    put_byte(key, if truth { 1 } else { 0 })
}

#[tactic(auto, unfolding(crate::specs::Keys::number_then))]
fn put_number(key: &mut Vec<u8>, number: u32) -> Result<(), NoMemory>
    ensures { OnOk result (Prints (number_then number) key.old.items key.new.items) }
{
    let digits = [
        (number % 256) as u8,
        (number / 256 % 256) as u8,
        (number / 256 / 256 % 256) as u8,
        (number / 256 / 256 / 256) as u8,
    ];
    key.extend_from_slice(&digits)?;
    Ok(())
}

fn put_integer(key: &mut Vec<u8>, integer: i32) -> Result<(), NoMemory>
    ensures { OnOk result (Prints (integer_then integer) key.old.items key.new.items) }
{
    if integer >= 0 {
        put_number(key, 2 * (integer as u32))
    } else {
        put_number(key, 2 * (-(integer + 1)) as u32 + 1)
    }
}

fn put_text(key: &mut Vec<u8>, text: &[u8]) -> Result<(), NoMemory>
    ensures { OnOk result (Prints (text_then text.now) key.old.items key.new.items) }
{
    for byte in text {
        if *byte < 2 {
            put_byte(key, 1)?;
        }
        put_byte(key, *byte)?;
    }
    put_byte(key, 0)
}

// ---- constants and types

fn put_value(key: &mut Vec<u8>, value: &Value) -> Result<(), NoMemory>
    ensures { OnOk result (Prints (value_then value.now) key.old.items key.new.items) }
{
    match value {
        Value::Integer(integer) => {
            put_byte(key, 0)?;
            put_integer(key, *integer)
        }
        Value::Char(code) => {
            put_byte(key, 1)?;
            put_byte(key, *code)
        }
        Value::Boolean(truth) => {
            put_byte(key, 2)?;
            put_bool(key, *truth)
        }
        Value::Set(bits) => {
            put_byte(key, 3)?;
            put_number(key, *bits)
        }
        Value::Str(text) => {
            put_byte(key, 4)?;
            put_text(key, text.as_slice())
        }
    }
}

fn put_origin(key: &mut Vec<u8>, origin: &Origin) -> Result<(), NoMemory>
    ensures { OnOk result (Prints (origin_then origin.now) key.old.items key.new.items) }
{
    put_text(key, origin.module.as_slice())?;
    put_procedure(key, &origin.procedure)?;
    put_text(key, origin.name.as_slice())?;
    put_path(key, origin.path.as_slice())
}

fn put_procedure(key: &mut Vec<u8>, procedure: &Option<Name>) -> Result<(), NoMemory>
    ensures { OnOk result (Prints (option_then text_then procedure.now) key.old.items key.new.items) }
{
    match procedure {
        Some(name) => {
            put_byte(key, 1)?;
            put_text(key, name.as_slice())
        }
        None => put_byte(key, 0),
    }
}

fn put_path(key: &mut Vec<u8>, path: &[Step]) -> Result<(), NoMemory>
    ensures { OnOk result (Prints (list_then step_then path.now) key.old.items key.new.items) }
{
    for step in path {
        put_byte(key, 1)?;
        put_step(key, step)?;
    }
    put_byte(key, 0)
}

fn put_step(key: &mut Vec<u8>, step: &Step) -> Result<(), NoMemory>
    ensures { OnOk result (Prints (step_then step.now) key.old.items key.new.items) }
{
    match step {
        Step::Element => put_byte(key, 0),
        Step::Field(name) => {
            put_byte(key, 1)?;
            put_text(key, name.as_slice())
        }
    }
}

#[cycle(put)]
fn put_type(key: &mut Vec<u8>, ty: &Ty) -> Result<(), NoMemory>
    ensures { OnOk result (Prints (type_then (plain_ty ty.now)) key.old.items key.new.items) }
{
    match ty {
        Ty::Unknown => put_byte(key, 0),
        Ty::Integer => put_byte(key, 1),
        Ty::Byte => put_byte(key, 2),
        Ty::Char => put_byte(key, 3),
        Ty::Boolean => put_byte(key, 4),
        Ty::Set => put_byte(key, 5),
        Ty::Str(count) => {
            put_byte(key, 6)?;
            put_number(key, *count)
        }
        Ty::Array { length, element } => {
            put_byte(key, 7)?;
            put_number(key, *length)?;
            put_type(key, element)
        }
        Ty::Open { element } => {
            put_byte(key, 8)?;
            put_type(key, element)
        }
        Ty::Record(record) => {
            put_byte(key, 9)?;
            put_record(key, record)
        }
    }
}

#[cycle(put)]
fn put_record(key: &mut Vec<u8>, given: &RecordTy) -> Result<(), NoMemory>
    ensures { OnOk result (Prints (record_then (plain_record given.now)) key.old.items key.new.items) }
{
    put_origin(key, &given.origin)?;
    put_base(key, &given.base)?;
    put_fields(key, given)?;
    put_number(key, given.size)
}

#[cycle(put)]
fn put_base(key: &mut Vec<u8>, base: &Option<Arc<RecordTy>>) -> Result<(), NoMemory>
    ensures { OnOk result (Prints (base_then (base_option base.now)) key.old.items key.new.items) }
{
    match base {
        Some(base) => {
            put_byte(key, 1)?;
            put_record(key, base)
        }
        None => put_byte(key, 0),
    }
}

#[cycle(put)]
fn put_fields(key: &mut Vec<u8>, given: &RecordTy) -> Result<(), NoMemory>
    ensures { OnOk result (Prints (fields_then (fields_in given.now)) key.old.items key.new.items) }
{
    for field in given.names.as_slice() {
        put_byte(key, 1)?;
        put_text(key, field.name.as_slice())?;
        put_bool(key, field.exported)?;
        put_field_type(key, given, field)?;
    }
    put_byte(key, 0)
}

/// The type of a field of this record.
#[cycle(put)]
fn put_field_type(key: &mut Vec<u8>, given: &RecordTy, field: &FieldName) -> Result<(), NoMemory>
    ensures { OnOk result (Prints (type_then (type_at (types_in given.now) field.now.ty)) key.old.items key.new.items) }
{
    match given.type_of(field) {
        Some(ty) => put_type(key, ty),
        None => put_byte(key, 0),
    }
}

// ---- what is exported

fn put_param(key: &mut Vec<u8>, param: &Param) -> Result<(), NoMemory>
    ensures { OnOk result (Prints (param_then (plain_param param.now)) key.old.items key.new.items) }
{
    put_bool(key, param.by_var)?;
    put_type(key, &param.ty)
}

fn put_params(key: &mut Vec<u8>, params: &[Param]) -> Result<(), NoMemory>
    ensures { OnOk result (Prints (list_then param_then (map plain_param params.now)) key.old.items key.new.items) }
{
    for param in params {
        put_byte(key, 1)?;
        put_param(key, param)?;
    }
    put_byte(key, 0)
}

fn put_result(key: &mut Vec<u8>, ty: &Option<Ty>) -> Result<(), NoMemory>
    ensures { OnOk result (Prints (option_then type_then (option_map plain_ty ty.now)) key.old.items key.new.items) }
{
    match ty {
        Some(ty) => {
            put_byte(key, 1)?;
            put_type(key, ty)
        }
        None => put_byte(key, 0),
    }
}

fn put_signature(key: &mut Vec<u8>, signature: &Signature) -> Result<(), NoMemory>
    ensures { OnOk result (Prints (signature_then (plain_signature signature.now)) key.old.items key.new.items) }
{
    put_params(key, signature.params.as_slice())?;
    put_result(key, &signature.result_type)
}

fn put_entity(key: &mut Vec<u8>, entity: &Entity) -> Result<(), NoMemory>
    ensures { OnOk result (Prints (entity_then (plain_entity entity.now)) key.old.items key.new.items) }
{
    match entity {
        Entity::Constant(value) => {
            put_byte(key, 0)?;
            put_value(key, value)
        }
        Entity::TypeName(ty) => {
            put_byte(key, 1)?;
            put_type(key, ty)
        }
        Entity::Variable(ty) => {
            put_byte(key, 2)?;
            put_type(key, ty)
        }
        Entity::Proc(signature) => {
            put_byte(key, 3)?;
            put_signature(key, signature)
        }
    }
}

/// What is exported at an index, if anything, behind the mark that there is more.
fn put_found(
    key: &mut Vec<u8>,
    entities: &IndexMap<Name, Entity>,
    index: usize,
) -> Result<(), NoMemory>
    ensures { OnOk result (Prints (found_then (slice_get entities.now.entries index)) key.old.items key.new.items) }
{
    match entities.get_index(index) {
        Some((name, entity)) => {
            put_byte(key, 1)?;
            put_text(key, name.as_slice())?;
            put_entity(key, entity)
        }
        None => Ok(()),
    }
}

fn put_exports(key: &mut Vec<u8>, entities: &IndexMap<Name, Entity>) -> Result<(), NoMemory>
    ensures { OnOk result (Prints (list_then export_then (map plain_export entities.now.entries)) key.old.items key.new.items) }
{
    for index in 0..entities.len() {
        put_found(key, entities, index)?;
    }
    put_byte(key, 0)
}

fn put_view(key: &mut Vec<u8>, view: &View) -> Result<(), NoMemory>
    ensures { OnOk result (Prints (view_then (plain_view view.now)) key.old.items key.new.items) }
{
    match view {
        View::Missing => put_byte(key, 0),
        View::Broken => put_byte(key, 1),
        View::Cyclic => put_byte(key, 2),
        View::Exports(exports) => {
            put_byte(key, 3)?;
            put_exports(key, &exports.entities)
        }
    }
}
