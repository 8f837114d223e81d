ghost use Rattle.std.specs.Prelude.{◌≡◌};
ghost use Rattle.oberon_rules.specs.Operators.{add_fits, mul_fits, sign_fits, not_fits, are_compared, are_equated, relation_fits};
ghost use Rattle.oberon_infer.specs.Memory.{plain_class, plain_outcomes};
ghost use Rattle.oberon_infer.specs.Parts.{is_membership, boolean_if};

use oberon_tree::{AddOperator, MulOperator, Relator, Sign};

/// The operands that operators tell apart (The Programming Language Oberon-07, section 8.2). A string of one byte is a
/// CHAR beside a CHAR, and else a text.
#[derive(Clone, Copy, Debug, PartialEq, Eq)]
pub enum Class {
    Unknown,
    Whole,
    Boolean,
    Set,
    Char,
    One,
    Text,
    Other,
}

/// What results of an operator whose operands fit; nothing where one is unknown.
#[derive(Clone, Copy, Debug, PartialEq, Eq)]
pub enum Outcome {
    Nothing,
    Whole,
    Boolean,
    Set,
}

/// What results between addends; None where they don't fit.
pub fn add_fits(operator: AddOperator, a: Class, b: Class) -> Option<Outcome>
    ensures { plain_outcomes result ≡ add_fits operator (plain_class a) (plain_class b) }
{
    match (a, b) {
        (Class::Unknown, _) => Some(Outcome::Nothing),
        (_, Class::Unknown) => Some(Outcome::Nothing),
        (Class::Boolean, Class::Boolean) => match operator {
            AddOperator::Or => Some(Outcome::Boolean),
            AddOperator::Add => None,
            AddOperator::Subtract => None,
        },
        (Class::Whole, Class::Whole) => match operator {
            AddOperator::Or => None,
            AddOperator::Add => Some(Outcome::Whole),
            AddOperator::Subtract => Some(Outcome::Whole),
        },
        (Class::Set, Class::Set) => match operator {
            AddOperator::Or => None,
            AddOperator::Add => Some(Outcome::Set),
            AddOperator::Subtract => Some(Outcome::Set),
        },
        _ => None,
    }
}

/// What results between multipliers; None where they don't fit.
pub fn mul_fits(operator: MulOperator, a: Class, b: Class) -> Option<Outcome>
    ensures { plain_outcomes result ≡ mul_fits operator (plain_class a) (plain_class b) }
{
    match (a, b) {
        (Class::Unknown, _) => Some(Outcome::Nothing),
        (_, Class::Unknown) => Some(Outcome::Nothing),
        (Class::Boolean, Class::Boolean) => match operator {
            MulOperator::And => Some(Outcome::Boolean),
            MulOperator::Multiply => None,
            MulOperator::Divide => None,
            MulOperator::Div => None,
            MulOperator::Mod => None,
        },
        (Class::Whole, Class::Whole) => match operator {
            MulOperator::And => None,
            MulOperator::Multiply => Some(Outcome::Whole),
            MulOperator::Divide => None,
            MulOperator::Div => Some(Outcome::Whole),
            MulOperator::Mod => Some(Outcome::Whole),
        },
        (Class::Set, Class::Set) => match operator {
            MulOperator::And => None,
            MulOperator::Multiply => Some(Outcome::Set),
            MulOperator::Divide => Some(Outcome::Set),
            MulOperator::Div => None,
            MulOperator::Mod => None,
        },
        _ => None,
    }
}

/// What results behind a sign; None where the operand doesn't fit.
pub fn sign_fits(sign: Sign, a: Class) -> Option<Outcome>
    ensures { plain_outcomes result ≡ sign_fits sign (plain_class a) }
{
    match (sign, a) {
        (_, Class::Unknown) => Some(Outcome::Nothing),
        (_, Class::Whole) => Some(Outcome::Whole),
        (Sign::Minus, Class::Set) => Some(Outcome::Set),
        _ => None,
    }
}

/// What results behind `~`; None where the operand doesn't fit.
pub fn not_fits(a: Class) -> Option<Outcome>
    ensures { plain_outcomes result ≡ not_fits (plain_class a) }
{
    match a {
        Class::Unknown => Some(Outcome::Nothing),
        Class::Boolean => Some(Outcome::Boolean),
        _ => None,
    }
}

fn are_compared(a: Class, b: Class) -> bool
    ensures { result ≡ are_compared (plain_class a) (plain_class b) }
{
    match (a, b) {
        (Class::Whole, Class::Whole) => true,
        (Class::Char, Class::Char) => true,
        (Class::Char, Class::One) => true,
        (Class::One, Class::Char) => true,
        (Class::One, Class::One) => true,
        (Class::One, Class::Text) => true,
        (Class::Text, Class::One) => true,
        (Class::Text, Class::Text) => true,
        _ => false,
    }
}

fn are_equated(a: Class, b: Class) -> bool
    ensures { result ≡ are_equated (plain_class a) (plain_class b) }
{
    match (a, b) {
        (Class::Boolean, Class::Boolean) => true,
        (Class::Set, Class::Set) => true,
        _ => are_compared(a, b),
    }
}

/// What results of a relation but IS, whose operands have a rule of their own; None where they don't fit.
pub fn relation_fits(relator: Relator, a: Class, b: Class) -> Option<Outcome>
    ensures { plain_outcomes result ≡ relation_fits relator (plain_class a) (plain_class b) }
{
    match (a, b) {
        (Class::Unknown, _) => Some(Outcome::Nothing),
        (_, Class::Unknown) => Some(Outcome::Nothing),
        _ => match relator {
            Relator::Equal => boolean_if(are_equated(a, b)),
            Relator::Unequal => boolean_if(are_equated(a, b)),
            Relator::Less => boolean_if(are_compared(a, b)),
            Relator::LessEqual => boolean_if(are_compared(a, b)),
            Relator::Greater => boolean_if(are_compared(a, b)),
            Relator::GreaterEqual => boolean_if(are_compared(a, b)),
            Relator::In => boolean_if(is_membership(a, b)),
            Relator::Is => None,
        },
    }
}

fn is_membership(a: Class, b: Class) -> bool
    ensures { result ≡ is_membership (plain_class a) (plain_class b) }
{
    match (a, b) {
        (Class::Whole, Class::Set) => true,
        _ => false,
    }
}

fn boolean_if(fits: bool) -> Option<Outcome>
    ensures { result ≡ boolean_if fits }
{
    if fits { Some(Outcome::Boolean) } else { None }
}
