ghost use Rattle.std.specs.Prelude.{⊤, ◌≡◌, [], ℕ, Bool, List, length, nat_le, IfOk};
ghost use Rattle.std.specs.Str.{IsUtf8};
ghost use Rattle.serde_json.specs.View.{view};
ghost use Rattle.json_shape.specs.Reading.{Reads, IfBad};
ghost use Rattle.json_shape.specs.Shapes.{bad, count, flag, flag_in, label, label_in, text, text_in, text_where, whole, whole_in, IsPassed, IsTextWithin};

use crate::bad_value::BadValue;
use crate::reading::{Read, bad_here};
use ob_text::{Bytes, NoMemory, Text};
use serde_json::Value;
use std::alloc::Global;
use std::marker::PhantomData;

/// A string, or the digits of a whole number.
pub struct LabelKind;

/// A string whose value isn't used.
#[derive(Clone, Copy)]
pub struct AnyText;

/// A rule that a string has to follow.
pub trait Rule {
    ghost test: { List ℕ → Bool };

    fn is_followed(text: &str) -> bool
        ensures { result ≡ test text.now };
}

/// The kind of the bytes of a string that follows a rule.
pub struct Checked<R> {
    rule: PhantomData<R>,
}

/// The string has at most so many bytes.
pub struct Within<const LIMIT: usize>;

impl<const LIMIT: usize> Rule for Within<LIMIT> {
    ghost test = { λ text. nat_le (length text) LIMIT };

    fn is_followed(text: &str) -> bool {
        text.len() <= LIMIT
    }
}

/// The text of such a string.
#[tactic(auto, using(crate::proofs::TextLaws::is_within))]
pub fn text_within<const LIMIT: usize>(string: Bytes<Checked<Within<LIMIT>>>) -> Text
    requires { IsPassed (λ text. nat_le (length text) LIMIT) string }
    ensures same { result ≡ string.entry }
    ensures within { IsTextWithin LIMIT result }
{
    Text::from_vec(string.into_vec())
}

/// Owns a copy of a text.
fn owned<K>(alloc: Global, text: &str) -> Result<Bytes<K>, NoMemory>
    ensures same { IfOk result (λ bytes. bytes ≡ text.now) }
    ensures text { IfOk result IsUtf8 }
{
    Bytes::new(alloc, text.as_bytes())
}

/// Reads a whole number between two bounds.
pub fn read_between(alloc: Global, value: &Value, low: u32, high: u32) -> Result<u32, BadValue>
    ensures read { Reads (bad (whole low high) (view value.now)) (whole_in (view value.now)) result }
    ensures path { IfBad result (λ path. path ≡ []) }
{
    match value.as_u64() {
        Some(number) => if u64::from(low) <= number && number <= u64::from(high) {
            Ok(number as u32)
        } else {
            Err(bad_here(alloc))
        },
        None => Err(bad_here(alloc)),
    }
}

impl Read for Text {
    ghost shape = { text };

    ghost value_in = { text_in };

    ghost HasTexts = { IsUtf8 };

    fn read(alloc: Global, value: &Value) -> Result<Text, BadValue> {
        match value.as_str() {
            Some(text) => Ok(Text::new(alloc, text.as_bytes())?),
            None => Err(bad_here(alloc)),
        }
    }
}

impl<R: Rule> Read for Bytes<Checked<R>> {
    ghost shape = { text_where R.test };

    ghost value_in = { text_in };

    ghost HasTexts = { IsPassed R.test };

    fn read(alloc: Global, value: &Value) -> Result<Bytes<Checked<R>>, BadValue> {
        match value.as_str() {
            Some(text) => if R::is_followed(text) {
                Ok(owned(alloc, text)?)
            } else {
                Err(bad_here(alloc))
            },
            None => Err(bad_here(alloc)),
        }
    }
}

impl Read for Bytes<LabelKind> {
    ghost shape = { label };

    ghost value_in = { label_in };

    ghost HasTexts = { IsUtf8 };

    fn read(alloc: Global, value: &Value) -> Result<Bytes<LabelKind>, BadValue> {
        if let Some(text) = value.as_str() {
            return Ok(owned(alloc, text)?);
        }
        if let Some(number) = value.as_u64() {
            let digits = format!(in alloc; "{number}")?;
            return Ok(owned(alloc, digits.as_str())?);
        }
        if let Some(number) = value.as_i64() {
            let digits = format!(in alloc; "{number}")?;
            return Ok(owned(alloc, digits.as_str())?);
        }
        Err(bad_here(alloc))
    }
}

impl Read for AnyText {
    ghost shape = { text };

    ghost value_in = { λ _. record {} };

    ghost HasTexts = { λ _. ⊤ };

    fn read(alloc: Global, value: &Value) -> Result<AnyText, BadValue> {
        if value.is_string() {
            Ok(AnyText)
        } else {
            Err(bad_here(alloc))
        }
    }
}

impl Read for bool {
    ghost shape = { flag };

    ghost value_in = { flag_in };

    ghost HasTexts = { λ _. ⊤ };

    fn read(alloc: Global, value: &Value) -> Result<bool, BadValue> {
        match value.as_bool() {
            Some(flag) => Ok(flag),
            None => Err(bad_here(alloc)),
        }
    }
}

impl Read for u32 {
    ghost shape = { count };

    ghost value_in = { whole_in };

    ghost HasTexts = { λ _. ⊤ };

    fn read(alloc: Global, value: &Value) -> Result<u32, BadValue> {
        read_between(alloc, value, 0, u32::MAX)
    }
}
