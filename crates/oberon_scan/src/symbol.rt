ghost use Rattle.std.specs.Prelude.{◌≡◌, ◌<◌, length};
ghost use Rattle.oberon_scan.specs.Finding.{pair_symbol, single_symbol, symbol_at};
ghost use Rattle.oberon_scan.specs.Spelling.{symbol_text};

use crate::token::Symbol;

/// The longest symbol at the front of a text.
pub(crate) fn symbol_at(text: &[u8]) -> Option<Symbol>
    requires { 0 < length text.now }
    ensures { result ≡ symbol_at text.now }
{
    let second = text.get(1).copied().unwrap_or(0);
    pair_symbol(text[0], second).or(single_symbol(text[0]))
}

/// How many bytes the symbol has.
#[tactic(auto, unfolding(crate::specs::Spelling::symbol_text))]
pub(crate) fn symbol_len(symbol: Symbol) -> usize
    ensures { result ≡ length (symbol_text symbol) }
{
    match symbol {
        Symbol::Becomes | Symbol::LessEqual | Symbol::GreaterEqual | Symbol::DotDot => 2,
        _ => 1,
    }
}

/// The symbol of these two bytes.
#[tactic(auto, unfolding(crate::specs::Finding::pair_symbol))]
fn pair_symbol(first: u8, second: u8) -> Option<Symbol>
    ensures { result ≡ pair_symbol first second }
{
    match (first, second) {
        (b':', b'=') => Some(Symbol::Becomes),
        (b'<', b'=') => Some(Symbol::LessEqual),
        (b'>', b'=') => Some(Symbol::GreaterEqual),
        (b'.', b'.') => Some(Symbol::DotDot),
        _ => None,
    }
}

/// The symbol of this byte alone.
#[tactic(auto, unfolding(crate::specs::Finding::single_symbol))]
fn single_symbol(byte: u8) -> Option<Symbol>
    ensures { result ≡ single_symbol byte }
{
    match byte {
        b'+' => Some(Symbol::Plus),
        b'-' => Some(Symbol::Minus),
        b'*' => Some(Symbol::Star),
        b'/' => Some(Symbol::Slash),
        b'~' => Some(Symbol::Tilde),
        b'&' => Some(Symbol::Ampersand),
        b'.' => Some(Symbol::Period),
        b',' => Some(Symbol::Comma),
        b';' => Some(Symbol::Semicolon),
        b'|' => Some(Symbol::Bar),
        b'(' => Some(Symbol::OpenParen),
        b')' => Some(Symbol::CloseParen),
        b'[' => Some(Symbol::OpenBracket),
        b']' => Some(Symbol::CloseBracket),
        b'{' => Some(Symbol::OpenBrace),
        b'}' => Some(Symbol::CloseBrace),
        b'^' => Some(Symbol::Caret),
        b'=' => Some(Symbol::Equal),
        b'#' => Some(Symbol::Hash),
        b'<' => Some(Symbol::Less),
        b'>' => Some(Symbol::Greater),
        b':' => Some(Symbol::Colon),
        _ => None,
    }
}
