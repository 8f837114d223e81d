ghost use Rattle.std.specs.Prelude.{◌≡◌, ℕ, Bool};
ghost use Rattle.std.specs.Char.{is_ascii_whitespace, is_ascii_alphanumeric};
ghost use Rattle.oberon_scan.specs.Runs.{IsRun, is_number_byte, is_string_byte};
ghost use Rattle.ob_text.specs.Position.{is_continuation};

/// A class of bytes. Runs of them are cut off the front of a text.
pub(crate) trait Class {
    ghost test: { ℕ → Bool };

    fn has(byte: u8) -> bool
        ensures { result ≡ test byte };
}

/// White space.
pub(crate) struct Blanks;

/// Letters and digits.
pub(crate) struct NameBytes;

/// Digits, and the letters from A to F.
pub(crate) struct NumberBytes;

/// All but `"` and the bytes that end lines.
pub(crate) struct StringBytes;

/// The bytes that go on with a character of UTF-8.
pub(crate) struct Continuations;

impl Class for Blanks {
    ghost test = { is_ascii_whitespace };

    fn has(byte: u8) -> bool {
        byte.is_ascii_whitespace()
    }
}

impl Class for NameBytes {
    ghost test = { is_ascii_alphanumeric };

    fn has(byte: u8) -> bool {
        byte.is_ascii_alphanumeric()
    }
}

impl Class for NumberBytes {
    ghost test = { is_number_byte };

    fn has(byte: u8) -> bool {
        matches!(byte, b'0'..=b'9' | b'A'..=b'F')
    }
}

impl Class for StringBytes {
    ghost test = { is_string_byte };

    fn has(byte: u8) -> bool {
        !matches!(byte, b'"' | b'\n' | b'\r')
    }
}

impl Class for Continuations {
    ghost test = { is_continuation };

    fn has(byte: u8) -> bool {
        matches!(byte, 128..=191)
    }
}

/// Cuts the text behind the longest front whose bytes are all of the class.
pub(crate) fn run_of<C: Class>(text: &[u8]) -> (&[u8], &[u8])
    ensures { IsRun C.test text.now result.0.now result.1.now }
{
    let mut len = 0;
    while len < text.len() && C::has(text[len]) {
        len += 1;
    }
    text.split_at(len)
}
