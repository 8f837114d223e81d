ghost use Rattle.std.specs.Prelude.{ℕ, List, ◌≡◌, ◌∷◌, [], MatchResult};
ghost use Rattle.iface_key.specs.declared.fault.Fault.TheVariants as faults;
ghost use Rattle.iface_key.specs.Keys.{number_then, bool_then, integer_then, text_then};
ghost use Rattle.iface_key.specs.Read.{Reads, Any, same, items_of, letter_then};

use crate::fault::Fault;
use std::alloc::Global;

/// The first byte, and what is behind it.
pub(crate) fn read_byte(text: &[u8]) -> Result<(u8, &[u8]), Fault>
    ensures { MatchResult result (λ r. text.now ≡ r.0 ∷ r.1.now) (λ fault. fault ≡ faults.NoKey → text.now ≡ []) }
{
    match text.split_first() {
        Some((byte, behind)) => Ok((*byte, behind)),
        None => Err(Fault::NoKey),
    }
}

pub(crate) fn read_bool(text: &[u8]) -> Result<(bool, &[u8]), Fault>
    ensures { Reads same bool_then Any text.now result }
{
    let (byte, behind) = read_byte(text)?;
    if byte > 1 {
        return Err(Fault::NoKey);
    }
    Ok((byte == 1, behind))
}

/// The number with these digits to the base 256, the least first.
fn number_of(a: u8, b: u8, c: u8, d: u8) -> u32
    ensures { (rest : List ℕ) → a ∷ b ∷ c ∷ d ∷ rest ≡ number_then result rest }
{
    let high = u32::from(c) + 256 * u32::from(d);
    let higher = u32::from(b) + 256 * high;
    u32::from(a) + 256 * higher
}

#[inline(never)]
pub(crate) fn read_number(text: &[u8]) -> Result<(u32, &[u8]), Fault>
    ensures { Reads same number_then Any text.now result }
{
    let (a, behind_a) = read_byte(text)?;
    let (b, behind_b) = read_byte(behind_a)?;
    let (c, behind_c) = read_byte(behind_b)?;
    let (d, behind) = read_byte(behind_c)?;
    Ok((number_of(a, b, c, d), behind))
}

/// The integer that a number stands for.
fn integer_of(number: u32) -> i32
    ensures { (rest : List ℕ) → number_then number rest ≡ integer_then result rest }
{
    let half = (number / 2) as i32;
    if number % 2 == 0 { half } else { -half - 1 }
}

pub(crate) fn read_integer(text: &[u8]) -> Result<(i32, &[u8]), Fault>
    ensures { Reads same integer_then Any text.now result }
{
    let (number, behind) = read_number(text)?;
    Ok((integer_of(number), behind))
}

/// The next byte of a text, or that the text ends.
fn next_letter(text: &[u8]) -> Result<(Option<u8>, &[u8]), Fault>
    ensures { Reads same letter_then Any text.now result }
{
    let (byte, behind) = read_byte(text)?;
    if byte == 0 {
        return Ok((None, behind));
    }
    if byte > 1 {
        return Ok((Some(byte), behind));
    }
    let (small, behind_small) = read_byte(behind)?;
    if small > 1 {
        return Err(Fault::NoKey);
    }
    Ok((Some(small), behind_small))
}

pub(crate) fn read_text(alloc: Global, text: &[u8]) -> Result<(Vec<u8>, &[u8]), Fault>
    ensures { Reads items_of text_then Any text.now result }
{
    let mut letters = Vec::new(alloc);
    let mut left = text;
    'letters: loop {
        let (letter, behind) = next_letter(left)?;
        match letter {
            Some(byte) => letters.push(byte)?,
            None => return Ok((letters, behind)),
        }
        left = behind;
    }
}
