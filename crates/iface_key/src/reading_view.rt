ghost use Rattle.std.specs.Prelude.{◌≡◌, ◌≢◌, [], is_some, IfOk, MatchOption};
ghost use Rattle.std.specs.Option.{option_map};
ghost use Rattle.oberon_types.specs.Entities.{ViewTree};
ghost use Rattle.oberon_types.specs.Memory.{plain_ty, plain_param, plain_signature, plain_entity, plain_export, plain_view};
ghost use Rattle.iface_key.specs.Keys.{list_then, option_then, type_then, param_then, signature_then, entity_then, export_then, view_then, KeyOf};
ghost use Rattle.iface_key.specs.Views.{IsParam, AreParams, IsResult, IsSignature, IsEntity, AreExports, IsView};
ghost use Rattle.iface_key.specs.Read.{Reads};
ghost use Rattle.iface_key.specs.ReadViews.{IsNextParam, IsNextExport, params_of, exports_in};

use crate::fault::Fault;
use crate::key::Key;
use crate::reading::{read_bool, read_byte};
use crate::reading_parts::{read_name, read_value};
use crate::reading_types::read_type;
use indexmap::IndexMap;
use ob_text::{Name, NoMemory};
use oberon_types::{Entity, Exports, Param, Signature, Ty, View};
use std::alloc::Global;
use std::sync::Arc;

/// How deep a type may be nested.
const NESTING_LIMIT: u32 = 4096;

/// The view that a key stands for, or None where it is no view's key: where bytes are missing or are left over,
/// where a name is exported twice, or where a type is nested deeper than 4,096. The bytes are read once, from the
/// front, and no deeper than that.
pub fn view_of(alloc: Global, key: &Key) -> Result<Option<View>, NoMemory>
    ensures { IfOk result (λ found. MatchOption found ((v : ViewTree) → IsView v → ¬ KeyOf v key.now) (λ view. KeyOf (plain_view view) key.now)) }
{
    match read_view(alloc, key.as_slice()) {
        Ok(read) => Ok(unless_more(read.0, read.1)),
        Err(Fault::NoKey) => Ok(None),
        Err(Fault::NoMemory) => Err(NoMemory),
    }
}

/// The view, where nothing is behind it.
fn unless_more(view: View, behind: &[u8]) -> Option<View>
    ensures { MatchOption result (behind.now ≢ []) (λ v. (v ≡ view) × (behind.now ≡ [])) }
{
    if behind.is_empty() { Some(view) } else { None }
}

// ---- procedures

fn read_param(alloc: Global, text: &[u8]) -> Result<(Param, &[u8]), Fault>
    ensures { Reads plain_param param_then IsParam text.now result }
{
    let (by_var, behind_mark) = read_bool(text)?;
    let (ty, behind) = read_type(alloc, behind_mark, NESTING_LIMIT)?;
    Ok((Param { by_var, ty }, behind))
}

fn next_param(alloc: Global, text: &[u8]) -> Result<(Option<Param>, &[u8]), Fault>
    ensures { Reads (option_map plain_param) (option_then param_then) IsNextParam text.now result }
{
    let (more, behind_mark) = read_bool(text)?;
    if more {
        let (param, behind) = read_param(alloc, behind_mark)?;
        return Ok((Some(param), behind));
    }
    Ok((None, behind_mark))
}

fn read_params(alloc: Global, text: &[u8]) -> Result<(Vec<Param>, &[u8]), Fault>
    ensures { Reads params_of (list_then param_then) AreParams text.now result }
{
    let mut params = Vec::new(alloc);
    let mut left = text;
    'params: loop {
        let (next, behind) = next_param(alloc, left)?;
        match next {
            Some(param) => params.push(param)?,
            None => return Ok((params, behind)),
        }
        left = behind;
    }
}

fn read_result(alloc: Global, text: &[u8]) -> Result<(Option<Ty>, &[u8]), Fault>
    ensures { Reads (option_map plain_ty) (option_then type_then) IsResult text.now result }
{
    let (is_function, behind_mark) = read_bool(text)?;
    if is_function {
        let (ty, behind) = read_type(alloc, behind_mark, NESTING_LIMIT)?;
        return Ok((Some(ty), behind));
    }
    Ok((None, behind_mark))
}

fn read_signature(alloc: Global, text: &[u8]) -> Result<(Signature, &[u8]), Fault>
    ensures { Reads plain_signature signature_then IsSignature text.now result }
{
    let (params, behind_params) = read_params(alloc, text)?;
    let (result_type, behind) = read_result(alloc, behind_params)?;
    let signature = Signature {
        params,
        result_type,
    };
    Ok((signature, behind))
}

// ---- what is exported

fn read_entity(alloc: Global, text: &[u8]) -> Result<(Entity, &[u8]), Fault>
    ensures { Reads plain_entity entity_then IsEntity text.now result }
{
    let (tag, behind_tag) = read_byte(text)?;
    if tag == 0 {
        let (value, behind) = read_value(alloc, behind_tag)?;
        return Ok((Entity::Constant(value), behind));
    }
    if tag == 1 {
        let (named, behind) = read_type(alloc, behind_tag, NESTING_LIMIT)?;
        return Ok((Entity::TypeName(named), behind));
    }
    if tag == 2 {
        let (ty, behind) = read_type(alloc, behind_tag, NESTING_LIMIT)?;
        return Ok((Entity::Variable(ty), behind));
    }
    if tag == 3 {
        let (signature, behind) = read_signature(alloc, behind_tag)?;
        return Ok((Entity::Proc(signature), behind));
    }
    Err(Fault::NoKey)
}

fn next_export(alloc: Global, text: &[u8]) -> Result<(Option<(Name, Entity)>, &[u8]), Fault>
    ensures { Reads (option_map plain_export) (option_then export_then) IsNextExport text.now result }
{
    let (more, behind_mark) = read_bool(text)?;
    if more {
        let (name, behind_name) = read_name(alloc, behind_mark)?;
        let (entity, behind) = read_entity(alloc, behind_name)?;
        return Ok((Some((name, entity)), behind));
    }
    Ok((None, behind_mark))
}

fn read_exports(alloc: Global, text: &[u8]) -> Result<(Exports, &[u8]), Fault>
    ensures { Reads exports_in (list_then export_then) AreExports text.now result }
{
    let mut entities = IndexMap::new(alloc);
    let mut left = text;
    'exports: loop {
        let (next, behind) = next_export(alloc, left)?;
        match next {
            Some(export) => {
                let old = entities.insert(export.0, export.1)?;
                let is_twice = was_there(old);
                if is_twice {
                    return Err(Fault::NoKey);
                }
            }
            None => return Ok((Exports { entities }, behind)),
        }
        left = behind;
    }
}

/// Whether a name stood for something before.
fn was_there(old: Option<Entity>) -> bool
    ensures { result ≡ is_some old }
{
    old.is_some()
}

fn read_view(alloc: Global, text: &[u8]) -> Result<(View, &[u8]), Fault>
    ensures { Reads plain_view view_then IsView text.now result }
{
    let (tag, behind_tag) = read_byte(text)?;
    if tag == 0 {
        return Ok((View::Missing, behind_tag));
    }
    if tag == 1 {
        return Ok((View::Broken, behind_tag));
    }
    if tag == 2 {
        return Ok((View::Cyclic, behind_tag));
    }
    if tag == 3 {
        let (exports, behind) = read_exports(alloc, behind_tag)?;
        let shared = Arc::new(alloc, exports)?;
        return Ok((View::Exports(shared), behind));
    }
    Err(Fault::NoKey)
}
