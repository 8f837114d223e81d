ghost use Rattle.iface_key.specs.Keys.{text_then, list_then, option_then, value_then, step_then, origin_then};
ghost use Rattle.iface_key.specs.Read.{Reads, Any, same};
ghost use Rattle.iface_key.specs.ReadTypes.{steps_of};

use crate::fault::Fault;
use crate::reading::{read_bool, read_byte, read_integer, read_number, read_text};
use ob_text::{Items, Name, Text};
use oberon_types::{Origin, Step, Value};
use std::alloc::Global;

#[inline(never)]
pub(crate) fn read_name(alloc: Global, text: &[u8]) -> Result<(Name, &[u8]), Fault>
    ensures { Reads same text_then Any text.now result }
{
    let (letters, behind) = read_text(alloc, text)?;
    Ok((Name::from_vec(letters), behind))
}

pub(crate) fn read_value(alloc: Global, text: &[u8]) -> Result<(Value, &[u8]), Fault>
    ensures { Reads same value_then Any text.now result }
{
    let (tag, behind_tag) = read_byte(text)?;
    if tag == 0 {
        let (integer, behind) = read_integer(behind_tag)?;
        return Ok((Value::Integer(integer), behind));
    }
    if tag == 1 {
        let (code, behind) = read_byte(behind_tag)?;
        return Ok((Value::Char(code), behind));
    }
    if tag == 2 {
        let (truth, behind) = read_bool(behind_tag)?;
        return Ok((Value::Boolean(truth), behind));
    }
    if tag == 3 {
        let (bits, behind) = read_number(behind_tag)?;
        return Ok((Value::Set(bits), behind));
    }
    if tag == 4 {
        let (letters, behind) = read_text(alloc, behind_tag)?;
        return Ok((Value::Str(Text::from_vec(letters)), behind));
    }
    Err(Fault::NoKey)
}

fn read_step(alloc: Global, text: &[u8]) -> Result<(Step, &[u8]), Fault>
    ensures { Reads same step_then Any text.now result }
{
    let (named, behind_mark) = read_bool(text)?;
    if named {
        let (name, behind) = read_name(alloc, behind_mark)?;
        return Ok((Step::Field(name), behind));
    }
    Ok((Step::Element, behind_mark))
}

fn next_step(alloc: Global, text: &[u8]) -> Result<(Option<Step>, &[u8]), Fault>
    ensures { Reads same (option_then step_then) Any text.now result }
{
    let (more, behind_mark) = read_bool(text)?;
    if more {
        let (step, behind) = read_step(alloc, behind_mark)?;
        return Ok((Some(step), behind));
    }
    Ok((None, behind_mark))
}

fn read_path(alloc: Global, text: &[u8]) -> Result<(Vec<Step>, &[u8]), Fault>
    ensures { Reads steps_of (list_then step_then) Any text.now result }
{
    let mut path = Vec::new(alloc);
    let mut left = text;
    'steps: loop {
        let (next, behind) = next_step(alloc, left)?;
        match next {
            Some(step) => path.push(step)?,
            None => return Ok((path, behind)),
        }
        left = behind;
    }
}

fn read_procedure(alloc: Global, text: &[u8]) -> Result<(Option<Name>, &[u8]), Fault>
    ensures { Reads same (option_then text_then) Any text.now result }
{
    let (local, behind_mark) = read_bool(text)?;
    if local {
        let (name, behind) = read_name(alloc, behind_mark)?;
        return Ok((Some(name), behind));
    }
    Ok((None, behind_mark))
}

#[inline(never)]
pub(crate) fn read_origin(alloc: Global, text: &[u8]) -> Result<(Origin, &[u8]), Fault>
    ensures { Reads same origin_then Any text.now result }
{
    let (home, behind_home) = read_name(alloc, text)?;
    let (procedure, behind_procedure) = read_procedure(alloc, behind_home)?;
    let (name, behind_name) = read_name(alloc, behind_procedure)?;
    let (path, behind) = read_path(alloc, behind_name)?;
    let path = Items::from_vec(path);
    let origin = Origin {
        module: home,
        procedure,
        name,
        path,
    };
    Ok((origin, behind))
}
