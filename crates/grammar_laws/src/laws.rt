ghost use Rattle.std.specs.Prelude.{◌≡◌, ℕ, List};
ghost use Rattle.ob_text.specs.declared.diagnostic.Diagnostic.{Diagnostic};
ghost use Rattle.oberon_scan.specs.Lexis.{Lex};
ghost use Rattle.oberon_scan.specs.declared.token.Token.{Token};
ghost use Rattle.oberon_tree.specs.Print.{tokens_of};
ghost use Rattle.oberon_tree.specs.Trees.{ModuleTree};

/// A list of tokens is printed by one tree.
pub fn one_tree()
    ensures { (a b : ModuleTree) → tokens_of a ≡ tokens_of b → a ≡ b }
{}

/// A text has one tree.
pub fn one_tree_of_text()
    ensures { (text : List ℕ) (ts us : List Token) (ds es : List Diagnostic) (a b : ModuleTree) → Lex text ts ds → Lex text us es → tokens_of a ≡ ts → tokens_of b ≡ us → a ≡ b }
{}
