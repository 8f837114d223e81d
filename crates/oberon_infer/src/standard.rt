ghost use Rattle.std.specs.Prelude.{◌≡◌};
ghost use Rattle.std.specs.Option.{option_map};
ghost use Rattle.oberon_rules.specs.Scopes.{look_up, predeclared};
ghost use Rattle.oberon_infer.specs.Memory.{plain_standard};
ghost use Rattle.oberon_infer.specs.Predeclared.{type_names, function_names, procedure_names};

use ob_text::Name;

const INTEGER: &[u8] = b"INTEGER";

const BYTE: &[u8] = b"BYTE";

const CHAR: &[u8] = b"CHAR";

const BOOLEAN: &[u8] = b"BOOLEAN";

const SET: &[u8] = b"SET";

const ABS: &[u8] = b"ABS";

const ODD: &[u8] = b"ODD";

const LEN: &[u8] = b"LEN";

const LSL: &[u8] = b"LSL";

const ASR: &[u8] = b"ASR";

const ROR: &[u8] = b"ROR";

const ORD: &[u8] = b"ORD";

const CHR: &[u8] = b"CHR";

const INC: &[u8] = b"INC";

const DEC: &[u8] = b"DEC";

const INCL: &[u8] = b"INCL";

const EXCL: &[u8] = b"EXCL";

const ASSERT: &[u8] = b"ASSERT";

/// A predeclared procedure (The Programming Language Oberon-07, section 10.2).
#[derive(Clone, Copy, Debug, PartialEq, Eq)]
pub enum Word {
    Abs,
    Odd,
    Len,
    Lsl,
    Asr,
    Ror,
    Ord,
    Chr,
    Inc,
    Dec,
    Incl,
    Excl,
    Assert,
}

/// What a predeclared name means (sections 6.1 and 10.2).
#[derive(Clone, Copy, Debug, PartialEq, Eq)]
pub enum Standard {
    Integer,
    Byte,
    Char,
    Boolean,
    Set,
    Word(Word),
}

/// The meaning of a predeclared name. Takes no memory.
#[tactic(auto, using(crate::proofs::PredeclaredLaws::in_three))]
pub fn predeclared(name: &Name) -> Option<Standard>
    ensures { option_map plain_standard result ≡ look_up name.now predeclared }
{
    let name = name.as_slice();
    match type_name(name) {
        Some(standard) => Some(standard),
        None => match function_name(name) {
            Some(standard) => Some(standard),
            None => procedure_name(name),
        },
    }
}

#[tactic(auto, unfolding(oberon_rules::specs::Scopes::predeclared))]
fn type_name(name: &[u8]) -> Option<Standard>
    ensures { option_map plain_standard result ≡ look_up name.now type_names }
{
    if name == INTEGER {
        Some(Standard::Integer)
    } else if name == BYTE {
        Some(Standard::Byte)
    } else if name == CHAR {
        Some(Standard::Char)
    } else if name == BOOLEAN {
        Some(Standard::Boolean)
    } else if name == SET {
        Some(Standard::Set)
    } else {
        None
    }
}

#[tactic(auto, unfolding(oberon_rules::specs::Scopes::predeclared))]
fn function_name(name: &[u8]) -> Option<Standard>
    ensures { option_map plain_standard result ≡ look_up name.now function_names }
{
    if name == ABS {
        Some(Standard::Word(Word::Abs))
    } else if name == ODD {
        Some(Standard::Word(Word::Odd))
    } else if name == LEN {
        Some(Standard::Word(Word::Len))
    } else if name == LSL {
        Some(Standard::Word(Word::Lsl))
    } else if name == ASR {
        Some(Standard::Word(Word::Asr))
    } else if name == ROR {
        Some(Standard::Word(Word::Ror))
    } else if name == ORD {
        Some(Standard::Word(Word::Ord))
    } else if name == CHR {
        Some(Standard::Word(Word::Chr))
    } else {
        None
    }
}

#[tactic(auto, unfolding(oberon_rules::specs::Scopes::predeclared))]
fn procedure_name(name: &[u8]) -> Option<Standard>
    ensures { option_map plain_standard result ≡ look_up name.now procedure_names }
{
    if name == INC {
        Some(Standard::Word(Word::Inc))
    } else if name == DEC {
        Some(Standard::Word(Word::Dec))
    } else if name == INCL {
        Some(Standard::Word(Word::Incl))
    } else if name == EXCL {
        Some(Standard::Word(Word::Excl))
    } else if name == ASSERT {
        Some(Standard::Word(Word::Assert))
    } else {
        None
    }
}
