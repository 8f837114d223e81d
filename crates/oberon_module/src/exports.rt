ghost use Rattle.std.specs.Prelude.{◌≡◌, ◌+◌, ◌-◌, map, length, slice_get, IfOk, OnOk};
ghost use Rattle.std.specs.List.{IsDistinct};
ghost use Rattle.std.specs.Option.{option_map};
ghost use Rattle.oberon_types.specs.Memory.{plain_entity, plain_export, plain_param, plain_signature, plain_ty};
ghost use Rattle.oberon_types.specs.Types.{same_name};
ghost use Rattle.oberon_rules.specs.Views.{written, map_entity, map_export, map_param, map_signature, entity_of, put_entity, exported_in, is_interface_too_large, weight_of_value, weight_of_params, weight_of_result};
ghost use Rattle.oberon_infer.specs.Memory.{plain_meaning, plain_scope};
ghost use Rattle.oberon_module.specs.Exported.{weight_of_meaning, weight_of_binding, weight_at};
ghost use Rattle.oberon_module.specs.Sorted.{sorted_exports, written_exports, names_of, put_binding, put_at, IsNewIn, IsNewAt};

use crate::written::{weight_left, written};
use indexmap::IndexMap;
use ob_text::{Name, NoMemory, Text};
use oberon_infer::{Binding, Meaning, Scope};
use oberon_types::{Entity, Exports, Param, Signature, Ty, Value};
use std::alloc::Global;
use std::collections::BTreeMap;

/// The weight that an interface may have.
const WEIGHT_LIMIT: u32 = 65_536;

/// Whether what a module exports weighs too much. Takes no memory.
pub fn is_too_large(scope: &Scope) -> bool
    ensures { result ≡ is_interface_too_large (exported_in (plain_scope scope.now)) }
{
    let bindings = scope.bindings();
    let mut left = WEIGHT_LIMIT + 1;
    for index in 0..bindings.len() {
        left = left_at(bindings, index, left);
    }
    left == 0
}

/// What the weight of the binding at an index leaves over.
fn left_at(bindings: &IndexMap<Name, Binding>, index: usize, left: u32) -> u32
    ensures { result ≡ left - weight_at (slice_get bindings.now.entries index) }
{
    match bindings.get_index(index) {
        Some((_name, binding)) => binding_left(binding, left),
        None => left,
    }
}

fn binding_left(binding: &Binding, left: u32) -> u32
    ensures { result ≡ left - weight_of_binding binding.now }
{
    if binding.exported {
        meaning_left(&binding.meaning, left)
    } else {
        left
    }
}

fn meaning_left(meaning: &Meaning, left: u32) -> u32
    ensures { result ≡ left - weight_of_meaning (plain_meaning meaning.now) }
{
    match meaning {
        Meaning::Constant(value) => value_left(value, left.saturating_sub(1)),
        Meaning::Type(ty) => weight_left(ty, left.saturating_sub(1)),
        Meaning::Variable { ty, .. } => weight_left(ty, left.saturating_sub(1)),
        Meaning::Procedure(signature) => signature_left(signature, left.saturating_sub(1)),
        Meaning::Unknown => left,
        Meaning::Word(_) => left,
        Meaning::Import(_) => left,
    }
}

fn value_left(value: &Value, left: u32) -> u32
    ensures { result ≡ left - weight_of_value value.now }
{
    match value {
        Value::Str(text) => length_left(text, left),
        Value::Integer(_) => left,
        Value::Char(_) => left,
        Value::Boolean(_) => left,
        Value::Set(_) => left,
    }
}

fn length_left(text: &Text, left: u32) -> u32
    ensures { result ≡ left - length text.now }
{
    let count = text.as_slice().len();
    if count >= left as usize {
        0
    } else {
        left - count as u32
    }
}

fn signature_left(signature: &Signature, left: u32) -> u32
    ensures { result ≡ left - (weight_of_params (map plain_param signature.now.params.items) + weight_of_result (option_map plain_ty signature.now.result_type)) }
{
    let behind = params_left(signature.params.as_slice(), left);
    match &signature.result_type {
        Some(ty) => weight_left(ty, behind),
        None => behind,
    }
}

fn params_left(params: &[Param], left: u32) -> u32
    ensures { result ≡ left - weight_of_params (map plain_param params.now) }
{
    let mut left = left;
    for param in params {
        left = weight_left(&param.ty, left);
    }
    left
}

// ---- entities

/// What an exported name stands for in a view, if anything.
fn written_entity(alloc: Global, meaning: &Meaning) -> Result<Option<Entity>, NoMemory>
    ensures { IfOk result (λ e. option_map plain_entity e ≡ option_map (map_entity written) (entity_of (plain_meaning meaning.now))) }
{
    match meaning {
        Meaning::Constant(value) => Ok(Some(Entity::Constant(value.copy(alloc)?))),
        Meaning::Type(ty) => Ok(Some(Entity::TypeName(written(alloc, ty)?))),
        Meaning::Variable { ty, .. } => Ok(Some(Entity::Variable(written(alloc, ty)?))),
        Meaning::Procedure(signature) => {
            let signature = written_signature(alloc, signature)?;
            Ok(Some(Entity::Proc(signature)))
        }
        Meaning::Unknown => Ok(None),
        Meaning::Word(_) => Ok(None),
        Meaning::Import(_) => Ok(None),
    }
}

fn written_signature(alloc: Global, signature: &Signature) -> Result<Signature, NoMemory>
    ensures { IfOk result (λ s. plain_signature s ≡ map_signature written (plain_signature signature.now)) }
{
    let params = written_params(alloc, signature.params.as_slice())?;
    let result_type = written_result(alloc, &signature.result_type)?;
    Ok(Signature {
        params,
        result_type,
    })
}

fn written_result(alloc: Global, ty: &Option<Ty>) -> Result<Option<Ty>, NoMemory>
    ensures { IfOk result (λ t. option_map plain_ty t ≡ option_map written (option_map plain_ty ty.now)) }
{
    match ty {
        Some(ty) => Ok(Some(written(alloc, ty)?)),
        None => Ok(None),
    }
}

fn written_params(alloc: Global, params: &[Param]) -> Result<Vec<Param>, NoMemory>
    ensures { IfOk result (λ ps. map plain_param ps.items ≡ map (map_param written) (map plain_param params.now)) }
{
    let mut copies = Vec::new(alloc);
    for param in params {
        let ty = written(alloc, &param.ty)?;
        copies.push(Param {
            by_var: param.by_var,
            ty,
        })?;
    }
    Ok(copies)
}

// ---- what a module shows

/// What a module exports, in the order of the names, with its types written out.
pub fn exports(alloc: Global, scope: &Scope) -> Result<Exports, NoMemory>
    ensures { IfOk result (λ e. map plain_export e.entities.entries ≡ map (map_export written) (exported_in (plain_scope scope.now))) }
{
    let mut sorted = sorted_exports(alloc, scope.bindings())?;
    let mut entities = IndexMap::new(alloc);
    'names: while let Some((name, entity)) = sorted.pop_first() {
        let name = Name::new(alloc, name)?;
        let old = entities.insert(name, entity)?;
        let_go(old);
    }
    Ok(Exports { entities })
}

/// What is exported by names, which differ. The last name goes first, so that each goes among those behind it.
fn sorted_exports<'s>(
    alloc: Global,
    bindings: &'s IndexMap<Name, Binding>,
) -> Result<BTreeMap<&'s [u8], Entity>, NoMemory>
    ensures sorted { IfOk result (λ sorted. sorted_exports sorted.entries ≡ written_exports bindings.now.entries) }
    ensures apart { OnOk result (IsDistinct same_name (names_of (written_exports bindings.now.entries))) }
{
    let mut sorted = BTreeMap::new(alloc);
    let mut index = bindings.len();
    while index > 0 {
        index -= 1;
        show_at(alloc, bindings, index, &mut sorted)?;
    }
    Ok(sorted)
}

/// Puts what the name at an index shows among what is exported.
fn show_at<'s>(
    alloc: Global,
    bindings: &'s IndexMap<Name, Binding>,
    index: usize,
    sorted: &mut BTreeMap<&'s [u8], Entity>,
) -> Result<(), NoMemory>
    requires { IsNewAt (slice_get bindings.now.entries index) (sorted_exports sorted.old.entries) }
    ensures { OnOk result (sorted_exports sorted.new.entries ≡ put_at (slice_get bindings.now.entries index) (sorted_exports sorted.old.entries)) }
{
    match bindings.get_index(index) {
        Some((name, binding)) => show(alloc, name, binding, sorted),
        None => Ok(()),
    }
}

fn show<'s>(
    alloc: Global,
    name: &'s Name,
    binding: &Binding,
    sorted: &mut BTreeMap<&'s [u8], Entity>,
) -> Result<(), NoMemory>
    requires { IsNewIn name.now (sorted_exports sorted.old.entries) }
    ensures { OnOk result (sorted_exports sorted.new.entries ≡ put_binding name.now binding.now (sorted_exports sorted.old.entries)) }
{
    if !binding.exported {
        return Ok(());
    }
    let entity = written_entity(alloc, &binding.meaning)?;
    put(name.as_slice(), entity, sorted)
}

/// Puts what a name stands for to its place.
fn put<'s>(
    name: &'s [u8],
    entity: Option<Entity>,
    sorted: &mut BTreeMap<&'s [u8], Entity>,
) -> Result<(), NoMemory>
    requires { IsNewIn name.now (sorted_exports sorted.old.entries) }
    ensures { OnOk result (sorted_exports sorted.new.entries ≡ put_entity name.now (option_map plain_entity entity) (sorted_exports sorted.old.entries)) }
{
    if let Some(entity) = entity {
        let old = sorted.insert(name, entity)?;
        let_go(old);
    }
    Ok(())
}

/// Drops what a name stood for.
fn let_go(_old: Option<Entity>) {}
