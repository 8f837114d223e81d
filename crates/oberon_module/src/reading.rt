ghost use Rattle.std.specs.Prelude.{◌≡◌, IfOk};
ghost use Rattle.ob_text.specs.Held.{IsReadable};
ghost use Rattle.oberon_module.specs.Reading.{HasTokens, IsReading, IsRead, text_of};

use ob_text::{Diagnostic, Held, NoMemory};
use oberon_check::{diagnose, list_of_bad_token};
use oberon_parse::{ParseRefusal, parse};
use oberon_scan::{Scanned, Token, scan};
use oberon_tree::Tree;
use std::alloc::Global;

/// A document, as far as it was read.
#[derive(Drop)]
pub enum Reading {
    /// It has no tree, and so these diagnostics.
    Listed(Vec<Diagnostic>),
    /// The tokens of a text without lexical faults.
    Scanned(Vec<Token>),
    Parsed(Tree),
}

/// Reads what is held at a document's path as far as its tokens.
pub fn read_tokens(alloc: Global, held: &Held) -> Result<Reading, NoMemory>
    requires { IsReadable held.now }
    ensures { IfOk result (IsReading held.now) }
{
    match held {
        Held::Text(text) => {
            let Scanned { tokens, faults } = scan(alloc, text.as_slice())?;
            if faults.is_empty() {
                Ok(Reading::Scanned(tokens))
            } else {
                Ok(Reading::Listed(faults))
            }
        }
        Held::Absent | Held::TooLarge | Held::NotText => Ok(Reading::Listed(diagnose(
            alloc, held,
        )?)),
    }
}

/// Reads on, as far as the tree.
pub fn read_tree(alloc: Global, held: &Held, reading: Reading) -> Result<Reading, NoMemory>
    requires { IsReading held.now reading }
    ensures { IfOk result (IsRead held.now) }
{
    match reading {
        Reading::Scanned(tokens) => parse_tokens(alloc, held, tokens.as_slice()),
        Reading::Listed(list) => Ok(Reading::Listed(list)),
        Reading::Parsed(tree) => Ok(Reading::Parsed(tree)),
    }
}

fn parse_tokens(alloc: Global, held: &Held, tokens: &[Token]) -> Result<Reading, NoMemory>
    requires { HasTokens held.now tokens.now }
    ensures { IfOk result (IsRead held.now) }
{
    match parse(alloc, tokens) {
        Ok(tree) => Ok(Reading::Parsed(tree)),
        Err(ParseRefusal::FirstBad(index)) => {
            let list = list_of_bad_token(alloc, text_of(held), tokens, index)?;
            Ok(Reading::Listed(list))
        }
        Err(ParseRefusal::NoMemory) => Err(NoMemory),
    }
}

/// The text that is held; what is no text has none.
pub fn text_of(held: &Held) -> &[u8]
    ensures { result.now ≡ text_of held.now }
{
    match held {
        Held::Text(text) => text.as_slice(),
        Held::Absent | Held::TooLarge | Held::NotText => b"",
    }
}

/// An equal list.
pub(crate) fn copied(alloc: Global, list: &[Diagnostic]) -> Result<Vec<Diagnostic>, NoMemory>
    ensures { IfOk result (λ copy. copy.items ≡ list.now) }
{
    let mut copy = Vec::new(alloc);
    for one in list {
        copy.push(copied_one(alloc, one)?)?;
    }
    Ok(copy)
}

fn copied_one(alloc: Global, one: &Diagnostic) -> Result<Diagnostic, NoMemory>
    ensures { IfOk result (λ copy. copy ≡ one.now) }
{
    let name = match &one.name {
        Some(name) => Some(name.copy(alloc)?),
        None => None,
    };
    Ok(Diagnostic {
        span: one.span,
        range: one.range,
        code: one.code,
        name,
    })
}
