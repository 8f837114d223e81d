ghost use Rattle.std.specs.Prelude.{◌≡◌, ◌≤◌, ◌<◌, ◌++◌, List, ℕ, IfOk, codes, min};
ghost use Rattle.std.specs.Char.{is_ascii_digit};
ghost use Rattle.std.specs.List.{list_all};
ghost use Rattle.oberon_scan.specs.Runs.{HasFirst, LacksFirst, is_suffix};
ghost use Rattle.oberon_scan.specs.Numbers.{digit_of, digits_value};
ghost use Rattle.oberon_scan.specs.Lexis.{IsNumber};
ghost use Rattle.oberon_scan.specs.Piece.{CutsOff};

use crate::piece::Piece;
use crate::runs::{NumberBytes, run_of};
use crate::token::TokenKind;
use ob_text::{Code, NoMemory, Text};
use std::alloc::Global;

/// More than any number may be.
const TOO_LARGE: u64 = 4_294_967_296;

/// The number at the front of the text, and what follows it.
pub(crate) fn number(alloc: Global, text: &[u8]) -> Result<(Piece, &[u8]), NoMemory>
    requires { HasFirst is_ascii_digit text.now }
    ensures { IfOk result (λ x. CutsOff text.now x.0 x.1.now) }
{
    let (run, after) = run_of::<NumberBytes>(text);
    match after {
        [b'H', rest @ ..] => Ok((hexadecimal(run), rest)),
        [b'X', rest @ ..] => Ok((character(alloc, run)?, rest)),
        _ => Ok((decimal(run), after)),
    }
}

/// A number without a suffix.
fn decimal(run: &[u8]) -> Piece
    ensures { (text rest : List ℕ) → IsNumber text run.now rest → LacksFirst is_suffix rest → CutsOff text result rest }
{
    if !is_decimal(run) {
        return Piece::Fault(Code::BadNumber, run.len());
    }
    let value = value_of(10, run);
    if value <= 2_147_483_647 {
        Piece::Token(TokenKind::Integer(value as i32))
    } else {
        Piece::Fault(Code::NumberTooLarge, run.len())
    }
}

/// Whether all are digits.
fn is_decimal(run: &[u8]) -> bool
    ensures { result ≡ list_all is_ascii_digit run.now }
{
    run.iter().all(|byte| byte.is_ascii_digit())
}

/// A number in front of `H`.
fn hexadecimal(run: &[u8]) -> Piece
    ensures { (text rest : List ℕ) → IsNumber text run.now (codes "H" ++ rest) → CutsOff text result rest }
{
    let value = value_of(16, run);
    if value <= 4_294_967_295 {
        Piece::Token(TokenKind::Integer((value as u32).cast_signed()))
    } else {
        Piece::Fault(Code::NumberTooLarge, run.len() + 1)
    }
}

/// A number in front of `X`: the string of this one byte.
fn character(alloc: Global, run: &[u8]) -> Result<Piece, NoMemory>
    ensures { IfOk result (λ piece. (text rest : List ℕ) → IsNumber text run.now (codes "X" ++ rest)
        → CutsOff text piece rest) }
{
    let value = value_of(16, run);
    if value <= 255 {
        Ok(Piece::Token(TokenKind::Str(Text::new(alloc, &[value as u8])?)))
    } else {
        Ok(Piece::Fault(Code::NumberTooLarge, run.len() + 1))
    }
}

/// The number that the digits write, as far as it is below `TOO_LARGE`, which stands for all that are not.
fn value_of(base: u64, digits: &[u8]) -> u64
    requires some { 1 ≤ base }
    requires few { base ≤ 16 }
    ensures { result ≡ min (digits_value base digits.now) TOO_LARGE }
{
    let mut value = 0;
    for byte in digits {
        value = (value * base + u64::from(digit_of(*byte))).min(TOO_LARGE);
    }
    value
}

fn digit_of(byte: u8) -> u8
    ensures { result ≡ digit_of byte }
{
    if byte.is_ascii_digit() {
        byte - b'0'
    } else {
        byte.saturating_sub(b'A' - 10)
    }
}
