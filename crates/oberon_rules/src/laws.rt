ghost use Rattle.std.specs.Prelude.{◌≡◌, List};
ghost use Rattle.ob_text.specs.declared.diagnostic.Diagnostic.{Diagnostic};
ghost use Rattle.oberon_rules.specs.Order.{IsListed};

/// What is said of a module has one list in the order of diagnostics.
pub fn one_list()
    ensures { (given xs ys : List Diagnostic) → IsListed given xs → IsListed given ys → xs ≡ ys }
{}
