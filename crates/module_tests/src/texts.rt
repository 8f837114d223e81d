//! What the tests share: modules that are checked, lists of diagnostics and views as one line.
use indexmap::IndexMap;
use ob_text::{Diagnostic, Held, Name, Text};
use oberon_module::{Checked, check_module};
use oberon_types::{Entity, Origin, RecordTy, Ty, Value, View};
use std::alloc::{AllocError, Global};
use std::test::Fail;

/// What a check of a text of the module A finds, with a view of each of the modules.
pub fn checked(alloc: Global, text: &str, views: &IndexMap<Name, View>) -> Result<Checked, Fail> {
    checked_as(alloc, "A", text, views)
}

/// The same of a module of another name.
pub fn checked_as(
    alloc: Global,
    name: &str,
    text: &str,
    views: &IndexMap<Name, View>,
) -> Result<Checked, Fail> {
    if text.len() > 262_144 {
        return Err(Fail::from("too long"));
    }
    let stem = Name::new(alloc, name.as_bytes())?;
    let held = Held::Text(Text::new(alloc, text.as_bytes())?);
    Ok(check_module(alloc, &stem, &held, views)?)
}

/// Each diagnostic as its range and its code.
pub fn listed(alloc: Global, list: &[Diagnostic]) -> Result<String, AllocError> {
    let mut out = String::new(alloc);
    for diagnostic in list {
        put_diagnostic(&mut out, diagnostic)?;
        out.push_str(";")?;
    }
    Ok(out)
}

/// The same with the name of each that has one.
pub fn named(alloc: Global, list: &[Diagnostic]) -> Result<String, AllocError> {
    let mut out = String::new(alloc);
    for diagnostic in list {
        put_diagnostic(&mut out, diagnostic)?;
        if let Some(name) = &diagnostic.name {
            out.push_str(" ")?;
            put_name(&mut out, name)?;
        }
        out.push_str(";")?;
    }
    Ok(out)
}

/// A diagnostic behind those before it.
fn put_diagnostic(out: &mut String, diagnostic: &Diagnostic) -> Result<(), AllocError> {
    if out.len() > 0 {
        out.push_str(" ")?;
    }
    let start = diagnostic.range.start;
    let end = diagnostic.range.end;
    let code = diagnostic.code.name();
    write!(
        out,
        "{}:{}-{}:{} {code}",
        start.line, start.character, end.line, end.character
    )
}

/// Each export as its name and what it stands for.
pub fn shown(alloc: Global, view: &View) -> Result<String, AllocError> {
    let mut out = String::new(alloc);
    match view {
        View::Missing => out.push_str("missing")?,
        View::Broken => out.push_str("broken")?,
        View::Cyclic => out.push_str("cyclic")?,
        View::Exports(exports) => {
            for (name, entity) in exports.entities.iter() {
                put_name(&mut out, name)?;
                put_entity(&mut out, entity)?;
            }
        }
    }
    Ok(out)
}

fn put_name(out: &mut String, name: &Name) -> Result<(), AllocError> {
    match std::str::from_utf8(name.as_slice()) {
        Ok(text) => out.push_str(text),
        Err(_) => out.push_str("?"),
    }
}

fn put_entity(out: &mut String, entity: &Entity) -> Result<(), AllocError> {
    match entity {
        Entity::Constant(value) => put_value(out, value),
        Entity::TypeName(ty) => put_type(out, " type", ty),
        Entity::Variable(ty) => put_type(out, " variable", ty),
        Entity::Proc(signature) => {
            let count = signature.params.len();
            write!(out, " procedure {count};")
        }
    }
}

fn put_value(out: &mut String, value: &Value) -> Result<(), AllocError> {
    match value {
        Value::Integer(x) => write!(out, " = {x};"),
        Value::Char(code) => write!(out, " = {code}X;"),
        Value::Boolean(truth) => write!(out, " = {truth};"),
        Value::Set(set) => write!(out, " = set {set};"),
        Value::Str(text) => {
            let count = text.as_slice().len();
            write!(out, " = {count} bytes;")
        }
    }
}

fn put_type(out: &mut String, kind: &str, ty: &Ty) -> Result<(), AllocError> {
    out.push_str(kind)?;
    put_kind(out, ty)?;
    if let Ty::Record(given) = ty {
        put_parts(out, given)?;
    }
    out.push_str(";")
}

/// A type without its parts: a record as its origin.
fn put_kind(out: &mut String, ty: &Ty) -> Result<(), AllocError> {
    match ty {
        Ty::Unknown => out.push_str(" unknown"),
        Ty::Integer => out.push_str(" INTEGER"),
        Ty::Byte => out.push_str(" BYTE"),
        Ty::Char => out.push_str(" CHAR"),
        Ty::Boolean => out.push_str(" BOOLEAN"),
        Ty::Set => out.push_str(" SET"),
        Ty::Str(count) => write!(out, " string of {count}"),
        Ty::Array { length, .. } => write!(out, " array of {length}"),
        Ty::Open { .. } => out.push_str(" open array"),
        Ty::Record(given) => {
            out.push_str(" record ")?;
            put_origin(out, &given.origin)
        }
    }
}

/// The module of an origin and its name.
fn put_origin(out: &mut String, origin: &Origin) -> Result<(), AllocError> {
    put_name(out, &origin.module)?;
    out.push_str(".")?;
    put_name(out, &origin.name)
}

/// The size of a record, its base and its fields.
fn put_parts(out: &mut String, given: &RecordTy) -> Result<(), AllocError> {
    let size = given.size;
    write!(out, " of size {size}")?;
    if let Some(base) = &given.base {
        out.push_str(" over ")?;
        put_origin(out, &base.origin)?;
    }
    for field in given.names.as_slice() {
        out.push_str(", ")?;
        put_name(out, &field.name)?;
        put_kind(out, given.type_of(field).unwrap_or(&Ty::Unknown))?;
    }
    Ok(())
}
