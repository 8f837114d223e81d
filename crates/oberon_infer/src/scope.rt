ghost use Rattle.std.specs.Prelude.{◌≡◌, ◌++◌, ◌∷◌, [], false, is_some, OnOk};
ghost use Rattle.oberon_rules.specs.Scopes.{look_up, is_declared, declare};
ghost use Rattle.oberon_infer.specs.Memory.{plain_meaning, plain_meaning_option, plain_binding, plain_scope, plain_scopes};

use crate::standard::Word;
use indexmap::IndexMap;
use ob_text::{Name, NoMemory};
use oberon_types::{Signature, Ty, Value, View};
use std::alloc::Global;

/// What a declared name means.
pub enum Meaning<'a> {
    Unknown,
    Constant(Value),
    Type(Ty),
    Variable {
        ty: Ty,
        read_only: bool,
        by_var: bool,
    },
    Procedure(Signature),
    Word(Word),
    Import(&'a View),
}

impl<'a> Drop for Meaning<'a> {
    fn drop(self) {
        match self {
            Self::Unknown => {}
            Self::Constant(_) => {}
            Self::Type(_) => {}
            Self::Variable {
                ty: _,
                read_only: _,
                by_var: _,
            } => {}
            Self::Procedure(_) => {}
            Self::Word(_) => {}
            Self::Import(_) => {}
        }
    }
}

/// What is known of a name that is declared.
#[derive(Drop)]
pub struct Binding<'a> {
    pub exported: bool,
    pub meaning: Meaning<'a>,
}

/// The names of one scope, in the order of their declarations. A name is found by its hash.
pub struct Scope<'a> {
    bindings: IndexMap<Name, Binding<'a>>,
}

impl<'a> Drop for Scope<'a> {
    fn drop(self) {
        let Self { bindings: _ } = self;
    }
}

/// The declarations that end before a place (The Programming Language Oberon-07, section 4).
pub struct Scopes<'a> {
    pub procedure: Option<&'a Name>,
    pub locals: Option<Scope<'a>>,
    pub globals: Scope<'a>,
}

impl<'a> Drop for Scopes<'a> {
    fn drop(self) {
        let Self {
            procedure: _,
            locals: _,
            globals: _,
        } = self;
    }
}

impl<'a> Scope<'a> {
    /// The scope without a name. Takes no memory.
    pub fn new(alloc: Global) -> Scope<'a>
        ensures { plain_scope result ≡ [] }
    {
        Scope {
            bindings: IndexMap::new(alloc),
        }
    }

    /// The names, in the order of their declarations. Takes no memory.
    pub fn bindings(&self) -> &IndexMap<Name, Binding<'a>>
        ensures { result.now ≡ self.now.bindings }
    {
        &self.bindings
    }

    /// What a name means here. Takes no memory.
    pub fn look_up(&self, name: &Name) -> Option<&Meaning<'a>>
        ensures { plain_meaning_option result ≡ look_up name.now (plain_scope self.now) }
    {
        match self.bindings.get(name) {
            Some(binding) => Some(&binding.meaning),
            None => None,
        }
    }

    /// Whether a name is declared here. Takes no memory.
    pub fn declares(&self, name: &Name) -> bool
        ensures { result ≡ is_some (look_up name.now (plain_scope self.now)) }
    {
        self.look_up(name).is_some()
    }

    /// Declares a name behind all others.
    pub fn declare(
        &mut self,
        alloc: Global,
        name: &Name,
        binding: Binding<'a>,
    ) -> Result<(), NoMemory>
        requires { is_some (look_up name.now (plain_scope self.old)) ≡ false }
        ensures { OnOk result (plain_scope self.new ≡ plain_scope self.old ++ plain_binding name.now binding.entry ∷ []) }
    {
        let name = name.copy(alloc)?;
        let old = self.bindings.insert(name, binding)?;
        let_go(old);
        Ok(())
    }
}

/// Drops what a name was bound to.
fn let_go(_old: Option<Binding>) {}

impl<'a> Scopes<'a> {
    /// Whether a name is declared in the scope that declarations go to.
    pub fn is_declared(&self, name: &Name) -> bool
        ensures { result ≡ is_declared (plain_scopes self.now) name.now }
    {
        match &self.locals {
            Some(scope) => scope.declares(name),
            None => self.globals.declares(name),
        }
    }

    /// Declares a name that the scope lacks.
    pub fn declare(
        &mut self,
        alloc: Global,
        name: &Name,
        binding: Binding<'a>,
    ) -> Result<(), NoMemory>
        requires { is_declared (plain_scopes self.old) name.now ≡ false }
        ensures { OnOk result (plain_scopes self.new ≡ declare (plain_scopes self.old) name.now binding.entry.exported (plain_meaning binding.entry.meaning)) }
    {
        match &mut self.locals {
            Some(scope) => scope.declare(alloc, name, binding)?,
            None => self.globals.declare(alloc, name, binding)?,
        }
        Ok(())
    }
}
