ghost use Rattle.std.specs.Prelude.{◌≡◌, ℕ, List, Contains};
ghost use Rattle.ob_text.specs.declared.diagnostic.Diagnostic.{Diagnostic};
ghost use Rattle.ob_text.specs.declared.held.Held.{Held};
ghost use Rattle.oberon_rules.specs.Local.{Local};
ghost use Rattle.oberon_types.specs.Entities.{ViewTree};

use oberon_rules::one_list;

/// A document has one list of diagnostics, one list of imports and one view, by the views of its imports: views that are
/// the same at the names that it imports find the same.
pub fn one_document()
    ensures { (held : Held) (me : List ℕ) (views others : List ℕ → ViewTree) (xs ys : List Diagnostic) (is js : List (List ℕ)) (v w : ViewTree) → ((x : List ℕ) → Contains is x → views x ≡ others x) → Local held me views xs is v → Local held me others ys js w → (xs ≡ ys) × (is ≡ js) × (v ≡ w) }
{
    one_list();
}
