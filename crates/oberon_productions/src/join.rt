//! Parts that are read one behind another. A part that was read is handed on with what is read next, so that
//! no reader has to let it go by itself where the tokens stop being a module.
ghost use Rattle.std.specs.Prelude.{◌≡◌, ◌∷◌, [], Ok, Err, MatchResult};
ghost use Rattle.oberon_tree.specs.Tokens.{symbol_token};
ghost use Rattle.oberon_productions.specs.Expected as want;
ghost use Rattle.oberon_productions.specs.Reading.{StopsAt};

use crate::read::need_symbol;
use crate::stop::Stop;
use ob_text::Span;
use oberon_scan::{Symbol, Token};
use std::alloc::Global;

/// What was read behind a part, if it was, with that part as the last of the three.
pub fn keeping<'t, A: Drop, B>(
    kept: A,
    read: Result<(B, &'t [Token]), Stop>,
) -> Result<(B, &'t [Token], A), Stop>
    ensures { MatchResult result (λ x. (read.entry ≡ Ok (x.0, x.1)) × (x.2 ≡ kept)) (λ e. read.entry ≡ Err e) }
{
    let (found, rest) = read?;
    Ok((found, rest, kept))
}

/// The list, without room for more: a build keeps its trees for long, and most of their lists are short.
pub fn fitting<T>(list: Vec<T>) -> Vec<T>
    ensures { result.items ≡ list.items }
{
    let mut list = list;
    list.shrink_to_fit();
    list
}

/// The symbol that has to stand behind a part, with the part in a box.
pub fn closed<T: Drop>(
    alloc: Global,
    part: T,
    given: &[Token],
    wanted: Symbol,
) -> Result<(Span, &[Token], Box<T>), Stop>
    ensures { MatchResult result (λ x. (given.now ≡ symbol_token wanted x.0 ∷ x.1.now) × (x.2.value ≡ part))
        (λ e. StopsAt (want.symbol wanted ∷ []) given.now e) }
{
    let (closing, rest) = need_symbol(given, wanted)?;
    let boxed = Box::new(alloc, part)?;
    Ok((closing, rest, boxed))
}
