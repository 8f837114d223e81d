ghost use Rattle.std.specs.Prelude.{◌≡◌, ℕ, ◌≤◌, Some, IfOk, IfErr, MatchResult};
ghost use Rattle.oberon_tree.specs.Print.{tokens_of};
ghost use Rattle.oberon_tree.specs.Levels.{depth_of_module};
ghost use Rattle.oberon_tree.specs.Memory.{module_tree, tree_of};
ghost use Rattle.oberon_productions.specs.Machine.{module_parts, stops};
ghost use Rattle.document_rules.specs.Sentence.{IsFirstBad, most_levels};

use crate::top::any_module;
use oberon_productions::Stop;
use oberon_scan::Token;
use oberon_tree::{Module, Tree};
use std::alloc::Global;

/// How many levels a token of a module may stand inside.
const LEVELS: usize = 64;

/// Why tokens have no tree. An index is the number of the tokens before the first bad one.
#[derive(Clone, Copy, Debug, PartialEq, Eq)]
pub enum ParseRefusal {
    FirstBad(usize),
    NoMemory,
}

/// The tree of these tokens, or their first bad one (The Programming Language Oberon-07, sections 4 to 11).
pub fn parse(alloc: Global, tokens: &[Token]) -> Result<Tree, ParseRefusal>
    // The tree prints the tokens, all of them.
    ensures tree { IfOk result (λ t. tokens_of (tree_of t) ≡ tokens.now) }
    // None of them stands inside more levels.
    ensures levels { IfOk result (λ t. depth_of_module (tree_of t) ≤ most_levels) }
    // An index is answered only where some sentence begins with the tokens before it, and none with it.
    ensures first_bad { IfErr result
        (λ e. (k : ℕ) → e ≡ ParseRefusal.FirstBad k → IsFirstBad most_levels tokens.now k) }
{
    match whole(alloc, tokens) {
        Ok(found) => match Tree::new(alloc, found) {
            Ok(tree) => Ok(tree),
            Err(_) => Err(ParseRefusal::NoMemory),
        },
        Err(Stop::Left(left)) => Err(ParseRefusal::FirstBad(tokens.len() - left)),
        Err(Stop::NoMemory) => Err(ParseRefusal::NoMemory),
    }
}

/// The module that these tokens are, all of them.
fn whole(alloc: Global, tokens: &[Token]) -> Result<Module, Stop>
    ensures { MatchResult result
        (λ m. (tokens_of (module_tree m) ≡ tokens.now) × (depth_of_module (module_tree m) ≤ most_levels))
        (λ e. (n : ℕ) → e ≡ Stop.Left n → stops (module_parts most_levels) tokens.now ≡ Some n) }
{
    let (found, rest) = any_module(alloc, tokens, LEVELS)?;
    if rest.is_empty() {
        Ok(found)
    } else {
        Err(Stop::Left(rest.len()))
    }
}
