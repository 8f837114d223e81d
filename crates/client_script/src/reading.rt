ghost use Rattle.std.specs.Prelude.{◌≡◌, ◌≢◌, ◌<◌, ◌≤◌, ◌^◌, ◌↔◌, ℕ, List, [], ◌∷◌, decimal, map, length, IfOk, IsTrue, MatchOption};
ghost use Rattle.client_script.specs.Lines.{AreNames, IsId, IsLineIn, IsLineOf, IsUri, IsWord};
ghost use Rattle.client_script.specs.Pieces.{now_of};
ghost use Rattle.client_script.specs.declared.verb.Verb.TheVariants.{Show};

use crate::line::Line;
use crate::pieces::words_in;
use crate::verb::Verb;
use itoa::Buffer;
use ob_text::{Items, NoMemory, Text};
use std::alloc::Global;

/// The bytes that the address of a root may have.
const URI_LIMIT: usize = 4_096;

/// The names that a line may have.
const NAMES_LIMIT: usize = 256;

/// The largest id that can be cancelled, 2^63 - 1.
const ID_LIMIT: u64 = 9_223_372_036_854_775_807;

/// The line that a text spells.
pub(crate) fn read_line(alloc: Global, text: &str) -> Result<Option<Line>, NoMemory>
    ensures { IfOk result (IsLineIn text.now) }
{
    let words = words_in(alloc, text)?;
    match words.as_slice() {
        [first, rest @ ..] => match Verb::spelled(first) {
            Some(verb) => line_of(alloc, verb, rest),
            None => Ok(None),
        },
        [] => Ok(None),
    }
}

/// The line of a verb with these words behind it.
fn line_of(alloc: Global, verb: Verb, words: &[&str]) -> Result<Option<Line>, NoMemory>
    ensures { IfOk result (IsLineOf verb (map now_of words.now)) }
{
    match verb {
        Verb::Initialize => Ok(uri(alloc, words)?.map(Line::Initialize)),
        Verb::Targets => Ok(bare(words, Line::Targets)),
        Verb::Sources => Ok(names(alloc, words)?.map(Line::Sources)),
        Verb::Inverse => Ok(one(alloc, words)?.map(Line::Inverse)),
        Verb::Compile => Ok(names(alloc, words)?.map(Line::Compile)),
        Verb::Test => Ok(names(alloc, words)?.map(Line::Test)),
        Verb::Run => Ok(one(alloc, words)?.map(Line::Run)),
        Verb::Clean => Ok(names(alloc, words)?.map(Line::Clean)),
        Verb::Reload => Ok(bare(words, Line::Reload)),
        Verb::Cancel => Ok(id(words).map(Line::Cancel)),
        Verb::Wait => Ok(bare(words, Line::Wait)),
        Verb::Show => Ok(shown(words)),
        Verb::Shutdown => Ok(bare(words, Line::Shutdown)),
        Verb::Exit => Ok(bare(words, Line::Exit)),
    }
}

/// This line, where no word stands behind its verb.
fn bare(words: &[&str], line: Line) -> Option<Line>
    ensures { MatchOption result (map now_of words.now ≢ []) (λ same. (same ≡ line) × (map now_of words.now ≡ [])) }
{
    if words.is_empty() { Some(line) } else { None }
}

/// The one word.
fn one(alloc: Global, words: &[&str]) -> Result<Option<Text>, NoMemory>
    ensures { IfOk result (λ one. MatchOption one
        ((word : List ℕ) → IsWord word → word ∷ [] ≢ map now_of words.now)
        (λ word. IsWord word × (word ∷ [] ≡ map now_of words.now))) }
{
    match words {
        [word] if !word.is_empty() => Ok(Some(Text::new(alloc, word.as_bytes())?)),
        _ => Ok(None),
    }
}

/// The one word, where it isn't too long.
fn uri(alloc: Global, words: &[&str]) -> Result<Option<Text>, NoMemory>
    ensures { IfOk result (λ uri. MatchOption uri
        ((word : List ℕ) → IsUri word → word ∷ [] ≢ map now_of words.now)
        (λ word. IsUri word × (word ∷ [] ≡ map now_of words.now))) }
{
    match one(alloc, words)? {
        Some(word) if word.as_slice().len() <= URI_LIMIT => Ok(Some(word)),
        _ => Ok(None),
    }
}

/// The names.
fn names(alloc: Global, words: &[&str]) -> Result<Option<Items<Text>>, NoMemory>
    ensures { IfOk result (λ some. MatchOption some
        ((names : List (List ℕ)) → AreNames names → names ≢ map now_of words.now)
        (λ names. AreNames names × (names ≡ map now_of words.now))) }
{
    if words.is_empty() || words.len() > NAMES_LIMIT {
        return Ok(None);
    }
    let mut names = Vec::new(alloc);
    for word in words {
        if word.is_empty() {
            return Ok(None);
        }
        names.push(Text::new(alloc, word.as_bytes())?)?;
    }
    Ok(Some(Items::from_vec(names)))
}

/// The id of a request.
fn id(words: &[&str]) -> Option<u64>
    ensures { MatchOption result
        ((id : ℕ) → IsId id → decimal id ∷ [] ≢ map now_of words.now)
        (λ id. IsId id × (decimal id ∷ [] ≡ map now_of words.now)) }
{
    match words {
        [word] => id_in(word),
        _ => None,
    }
}

/// The id that a word writes.
fn id_in(word: &str) -> Option<u64>
    ensures { MatchOption result ((id : ℕ) → IsId id → decimal id ≢ word.now) (λ id. IsId id × (decimal id ≡ word.now)) }
{
    match word.parse::<u64>() {
        Ok(id) if id <= ID_LIMIT && is_decimal(word, id) => Some(id),
        _ => None,
    }
}

fn is_decimal(word: &str, id: u64) -> bool
    ensures { IsTrue result ↔ (decimal id ≡ word.now) }
{
    let mut buffer = Buffer::new();
    buffer.format(id) == word
}

/// What is to be shown.
fn shown(words: &[&str]) -> Option<Line>
    ensures { IsLineOf Show (map now_of words.now) result }
{
    match words {
        [word] if *word == "all" => Some(Line::ShowAll),
        [word] if *word == "errors" => Some(Line::ShowErrors),
        _ => None,
    }
}
