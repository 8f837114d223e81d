ghost use Rattle.std.specs.Prelude.{◌≡◌, ◌&&◌, ◌∷◌, []};
ghost use Rattle.oberon_types.specs.Types.{integer_ty};
ghost use Rattle.oberon_rules.specs.Expressions.{word_called, length_of, value_if, is_whole, ty_of};
ghost use Rattle.oberon_infer.specs.Memory.{plain_ex, plain_word};
ghost use Rattle.oberon_infer.specs.Given.{plain_given, given_with, word_given};

use crate::ex::{Ex, value_if};
use crate::standard::Word;
use crate::type_ref::TypeRef;

/// What the arguments of a call are, as far as a predeclared procedure looks at them.
#[derive(Clone, Copy)]
pub enum Given<'b> {
    Nothing,
    One(Ex<'b>),
    Two(Ex<'b>, Ex<'b>),
    Many,
}

impl<'b> Given<'b> {
    /// These, and one more.
    pub fn with(self, x: Ex<'b>) -> Given<'b>
        ensures { plain_given result ≡ given_with (plain_given self.entry) (plain_ex x.entry) }
    {
        match self {
            Given::Nothing => Given::One(x),
            Given::One(first) => Given::Two(first, x),
            Given::Two(_, _) => Given::Many,
            Given::Many => Given::Many,
        }
    }
}

/// What a call of a predeclared procedure is (section 10.2).
pub fn word_called<'b>(word: Word, given: Given<'b>) -> Ex<'b>
    ensures { plain_ex result ≡ word_given (plain_word word) (plain_given given.entry) }
{
    match given {
        Given::One(x) => called_with_one(word, x),
        Given::Two(x, y) => called_with_two(word, x, y),
        Given::Nothing => called_otherwise(word),
        Given::Many => called_otherwise(word),
    }
}

fn called_with_one<'b>(word: Word, x: Ex<'b>) -> Ex<'b>
    ensures { plain_ex result ≡ word_called (plain_word word) (plain_ex x.entry ∷ []) }
{
    match word {
        Word::Abs => value_if(x.ty().is_whole(), TypeRef::Integer),
        Word::Odd => value_if(x.ty().is_whole(), TypeRef::Boolean),
        Word::Chr => value_if(x.ty().is_whole(), TypeRef::Char),
        Word::Ord => value_if(x.ty().is_ordinal(), TypeRef::Integer),
        Word::Len => length_of(x),
        Word::Lsl => Ex::Nothing,
        Word::Asr => Ex::Nothing,
        Word::Ror => Ex::Nothing,
        Word::Inc => Ex::Call,
        Word::Dec => Ex::Call,
        Word::Incl => Ex::Call,
        Word::Excl => Ex::Call,
        Word::Assert => Ex::Call,
    }
}

fn called_with_two<'b>(word: Word, x: Ex<'b>, y: Ex<'b>) -> Ex<'b>
    ensures { plain_ex result ≡ word_called (plain_word word) (plain_ex x.entry ∷ plain_ex y.entry ∷ []) }
{
    match word {
        Word::Lsl => shifted(x, y),
        Word::Asr => shifted(x, y),
        Word::Ror => shifted(x, y),
        Word::Inc => Ex::Call,
        Word::Dec => Ex::Call,
        Word::Incl => Ex::Call,
        Word::Excl => Ex::Call,
        Word::Assert => Ex::Call,
        Word::Abs => Ex::Nothing,
        Word::Odd => Ex::Nothing,
        Word::Chr => Ex::Nothing,
        Word::Ord => Ex::Nothing,
        Word::Len => Ex::Nothing,
    }
}

fn shifted<'b>(x: Ex<'b>, y: Ex<'b>) -> Ex<'b>
    ensures { plain_ex result ≡ value_if (is_whole (ty_of (plain_ex x.entry)) && is_whole (ty_of (plain_ex y.entry))) integer_ty }
{
    value_if(x.ty().is_whole() && y.ty().is_whole(), TypeRef::Integer)
}

fn called_otherwise<'b>(word: Word) -> Ex<'b>
    ensures { plain_ex result ≡ word_called (plain_word word) [] }
{
    match word {
        Word::Inc => Ex::Call,
        Word::Dec => Ex::Call,
        Word::Incl => Ex::Call,
        Word::Excl => Ex::Call,
        Word::Assert => Ex::Call,
        Word::Abs => Ex::Nothing,
        Word::Odd => Ex::Nothing,
        Word::Len => Ex::Nothing,
        Word::Lsl => Ex::Nothing,
        Word::Asr => Ex::Nothing,
        Word::Ror => Ex::Nothing,
        Word::Ord => Ex::Nothing,
        Word::Chr => Ex::Nothing,
    }
}

fn length_of<'b>(x: Ex<'b>) -> Ex<'b>
    ensures { plain_ex result ≡ length_of (plain_ex x.entry) }
{
    match x {
        Ex::Variable { ty, .. } => value_if(
            ty.element().is_some() || ty.is_unknown(),
            TypeRef::Integer,
        ),
        _ => Ex::Nothing,
    }
}
