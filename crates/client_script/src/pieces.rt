ghost use Rattle.std.specs.Prelude.{◌≡◌, ◌+◌, ◌<◌, ◌≤◌, map, length, IfOk};
ghost use Rattle.client_script.specs.Pieces.{pieces, now_of};

use ob_text::NoMemory;
use std::alloc::Global;

/// The pieces of a text between the blanks in it.
pub(crate) fn words_in(alloc: Global, text: &str) -> Result<Vec<&str>, NoMemory>
    ensures { IfOk result (λ words. map now_of words.items ≡ pieces 32 text.now) }
{
    let mut words = Vec::new(alloc);
    let mut rest = text;
    'words: while let Some((word, more)) = rest.split_once(' ') {
        words.push(word)?;
        rest = more;
    }
    words.push(rest)?;
    Ok(words)
}
