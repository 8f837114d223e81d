ghost use Rattle.std.specs.Prelude.{◌≡◌, ◌↔◌, IsTrue, is_some, if◌then◌else◌, Some, None};
ghost use Rattle.std.specs.Str.{bytes_eq};
ghost use Rattle.oberon_scan.specs.Finding.{find_word};
ghost use Rattle.oberon_scan.specs.Spelling.{spelling};
ghost use Rattle.oberon_scan.specs.declared.token.Word.{Word};

use crate::token::Word;

/// Whether the bytes are a reserved word. Takes no memory.
pub fn is_reserved(run: &[u8]) -> bool
    ensures found { result ≡ is_some (find_word run.now) }
    ensures word { IsTrue result ↔ ((w : Word) × (run.now ≡ spelling w)) }
{
    word_of(run).is_some()
}

/// The reserved word that is spelled so.
#[tactic(auto, unfolding(crate::specs::Finding::find_word))]
pub(crate) fn word_of(run: &[u8]) -> Option<Word>
    ensures { result ≡ find_word run.now }
{
    match run {
        [b'A', ..] => only(run, b"ARRAY", Word::Array),
        [b'B', ..] => only(run, b"BEGIN", Word::Begin).or(only(run, b"BY", Word::By)),
        [b'C', ..] => only(run, b"CASE", Word::Case).or(only(run, b"CONST", Word::Const)),
        [b'D', ..] => only(run, b"DIV", Word::Div).or(only(run, b"DO", Word::Do)),
        [b'E', ..] => only(run, b"ELSE", Word::Else)
            .or(only(run, b"ELSIF", Word::Elsif))
            .or(only(run, b"END", Word::End)),
        [b'F', ..] => only(run, b"FALSE", Word::False).or(only(run, b"FOR", Word::For)),
        [b'I', ..] => only(run, b"IF", Word::If)
            .or(only(run, b"IMPORT", Word::Import))
            .or(only(run, b"IN", Word::In))
            .or(only(run, b"IS", Word::Is)),
        [b'M', ..] => only(run, b"MOD", Word::Mod).or(only(run, b"MODULE", Word::Module)),
        [b'N', ..] => only(run, b"NIL", Word::Nil),
        [b'O', ..] => only(run, b"OF", Word::Of).or(only(run, b"OR", Word::Or)),
        [b'P', ..] => only(run, b"POINTER", Word::Pointer).or(only(
            run,
            b"PROCEDURE",
            Word::Procedure,
        )),
        [b'R', ..] => only(run, b"RECORD", Word::Record)
            .or(only(run, b"REPEAT", Word::Repeat))
            .or(only(run, b"RETURN", Word::Return)),
        [b'T', ..] => only(run, b"THEN", Word::Then)
            .or(only(run, b"TO", Word::To))
            .or(only(run, b"TRUE", Word::True))
            .or(only(run, b"TYPE", Word::Type)),
        [b'U', ..] => only(run, b"UNTIL", Word::Until),
        [b'V', ..] => only(run, b"VAR", Word::Var),
        [b'W', ..] => only(run, b"WHILE", Word::While),
        _ => None,
    }
}

/// The word, where the run is its spelling.
fn only(run: &[u8], spelling: &[u8], word: Word) -> Option<Word>
    ensures { result ≡ (if bytes_eq run.now spelling.now then Some word else None) }
{
    if run == spelling { Some(word) } else { None }
}
