ghost use Rattle.std.specs.Prelude.{◌≡◌, map, IfOk};
ghost use Rattle.oberon_types.specs.Memory.{plain_param, plain_signature, plain_entity, plain_view};

use crate::ty::Ty;
use crate::value::Value;
use indexmap::IndexMap;
use ob_text::{Name, NoMemory};
use std::alloc::Global;
use std::sync::Arc;

/// One parameter of a procedure (The Programming Language Oberon-07, section 10.1). Its name belongs to the
/// procedure's body and not here.
pub struct Param {
    pub by_var: bool,
    pub ty: Ty,
}

impl Drop for Param {
    fn drop(self) {
        let Self { by_var: _, ty: _ } = self;
    }
}

/// The parameters and the result of a procedure. One without a result is a proper procedure.
pub struct Signature {
    pub params: Vec<Param>,
    pub result_type: Option<Ty>,
}

impl Drop for Signature {
    fn drop(self) {
        let Self {
            params: _,
            result_type: _,
        } = self;
    }
}

/// What an exported name stands for.
pub enum Entity {
    Constant(Value),
    TypeName(Ty),
    Variable(Ty),
    Proc(Signature),
}

impl Drop for Entity {
    fn drop(self) {
        match self {
            Self::Constant(_) => {}
            Self::TypeName(_) => {}
            Self::Variable(_) => {}
            Self::Proc(_) => {}
        }
    }
}

/// What a module exports, in the order of the names, each found by its hash. Its records have their exported fields
/// alone.
pub struct Exports {
    pub entities: IndexMap<Name, Entity>,
}

impl Drop for Exports {
    fn drop(self) {
        let Self { entities: _ } = self;
    }
}

/// What a module shows to those that import it. Copies share what is exported.
pub enum View {
    /// There is no module of that name.
    Missing,
    /// It has errors.
    Broken,
    /// Its imports lead back to it.
    Cyclic,
    Exports(Arc<Exports>),
}

impl Drop for View {
    fn drop(self) {
        match self {
            Self::Missing => {}
            Self::Broken => {}
            Self::Cyclic => {}
            Self::Exports(_) => {}
        }
    }
}

impl Param {
    /// An equal parameter, whose type shares its parts.
    pub fn copy(&self) -> Result<Param, NoMemory>
        ensures { IfOk result (λ param. plain_param param ≡ plain_param self.now) }
    {
        let ty = self.ty.copy()?;
        Ok(Param {
            by_var: self.by_var,
            ty,
        })
    }
}

impl Signature {
    /// An equal signature, whose types share their parts.
    pub fn copy(&self, alloc: Global) -> Result<Signature, NoMemory>
        ensures { IfOk result (λ signature. plain_signature signature ≡ plain_signature self.now) }
    {
        let params = copy_params(alloc, self.params.as_slice())?;
        let result_type = match &self.result_type {
            Some(ty) => Some(ty.copy()?),
            None => None,
        };
        Ok(Signature {
            params,
            result_type,
        })
    }
}

fn copy_params(alloc: Global, params: &[Param]) -> Result<Vec<Param>, NoMemory>
    ensures { IfOk result (λ copies. map plain_param copies.items ≡ map plain_param params.now) }
{
    let mut copies = Vec::new(alloc);
    for param in params {
        copies.push(param.copy()?)?;
    }
    Ok(copies)
}

impl Entity {
    /// An equal entity, whose types share their parts.
    pub fn copy(&self, alloc: Global) -> Result<Entity, NoMemory>
        ensures { IfOk result (λ entity. plain_entity entity ≡ plain_entity self.now) }
    {
        Ok(match self {
            Entity::Constant(value) => Entity::Constant(value.copy(alloc)?),
            Entity::TypeName(ty) => Entity::TypeName(ty.copy()?),
            Entity::Variable(ty) => Entity::Variable(ty.copy()?),
            Entity::Proc(signature) => Entity::Proc(signature.copy(alloc)?),
        })
    }
}

impl View {
    /// An equal view, in one step.
    pub fn copy(&self) -> Result<View, NoMemory>
        ensures { IfOk result (λ view. plain_view view ≡ plain_view self.now) }
    {
        Ok(match self {
            View::Missing => View::Missing,
            View::Broken => View::Broken,
            View::Cyclic => View::Cyclic,
            View::Exports(exports) => View::Exports(exports.clone()?),
        })
    }
}
