ghost use Rattle.std.specs.Prelude.{◌≡◌, ◌↔◌, IsTrue};
ghost use Rattle.check_cache.specs.Facts.{IsFact, fact_of};

use crate::same::{both, same_held, same_imports};
use iface_key::Key;
use ob_text::{Held, Name};
use oberon_module::Checked;
use std::marker::Model;
use std::sync::Arc;

/// A check that was made, with what it followed from. It is one by the rules, by what its type keeps.
pub struct Fact {
    held: Arc<Held>,
    stem: Name,
    /// Each import with the number of the key of what it showed.
    imports: Vec<(Name, u64)>,
    /// These keys, in the same order.
    keys: Vec<Key>,
    checked: Checked,
}

impl Drop for Fact {
    fn drop(self) {
        let Self {
            held: _,
            stem: _,
            imports: _,
            keys: _,
            checked: _,
        } = self;
    }
}

impl Model for Fact {
    ghost use Rattle.check_cache.specs.Facts.{FactTree, IsFact, fact_of};
    ghost use Rattle.oberon_module.specs.contracts.check.Checked as checks;
    ghost use Rattle.std.specs.Coded.{codes};

    ghost Value = { FactTree };

    ghost coded = { Prim.hlevel (codes, checks.the_row.coded) };

    ghost view = { λ f. fact_of f.held.value f.stem f.imports.items f.keys.items f.checked };

    ghost invariant = { λ f. IsFact (fact_of f.held.value f.stem f.imports.items f.keys.items f.checked) };
}

impl Fact {
    ghost use Rattle.check_cache.specs.Wanted.{HasText, IsOf};

    /// Keeps a check, and the text by sharing it. Takes no memory.
    pub fn new(
        held: Arc<Held>,
        stem: Name,
        imports: Vec<(Name, u64)>,
        keys: Vec<Key>,
        checked: Checked,
    ) -> Fact
        requires { IsFact (fact_of held.value stem imports.items keys.items checked) }
        ensures { result ≡ fact_of held.value stem imports.items keys.items checked }
    {
        Fact {
            held,
            stem,
            imports,
            keys,
            checked,
        }
    }

    /// What was held at the document's path.
    pub fn held(&self) -> &Held
        ensures { result.now ≡ self.now.held }
    {
        &self.held
    }

    /// The stem of the document's path.
    pub fn stem(&self) -> &Name
        ensures { result.now ≡ self.now.stem }
    {
        &self.stem
    }

    /// The names of the imports, in the order of the text, each with the number of the key of what it showed.
    pub fn imports(&self) -> &[(Name, u64)]
        ensures { result.now ≡ self.now.imports }
    {
        self.imports.as_slice()
    }

    /// These keys, in the same order.
    pub fn keys(&self) -> &[Key]
        ensures { result.now ≡ self.now.keys }
    {
        self.keys.as_slice()
    }

    /// What the check found.
    pub fn checked(&self) -> &Checked
        ensures checked { result.now ≡ self.now.checked }
        ensures sound { IsFact self.now }
    {
        &self.checked
    }

    /// Whether it is of this text and these imports.
    pub(crate) fn is_of(&self, held: &Held, imports: &[(Name, u64)]) -> bool
        ensures { IsTrue result ↔ IsOf held.now imports.now self.now }
    {
        let text = same_held(self.held(), held);
        let numbers = same_imports(self.imports(), imports);
        both(text, numbers)
    }

    /// Whether it is of this text.
    pub(crate) fn has_text(&self, held: &Held) -> bool
        ensures { IsTrue result ↔ HasText held.now self.now }
    {
        same_held(self.held(), held)
    }
}
