ghost use Rattle.std.specs.Prelude.{◌≡◌, if◌then◌else◌, OnOk};
ghost use Rattle.ob_text.specs.declared.code.Code.TheVariants as codes_of;
ghost use Rattle.oberon_tree.specs.Memory.{designator_tree, selector_tree};
ghost use Rattle.oberon_tree.specs.Trees.{call_statement, more_selectors, no_selectors};
ghost use Rattle.oberon_types.specs.Memory.{plain_signature};
ghost use Rattle.oberon_rules.specs.Expressions.{a_procedure};
ghost use Rattle.oberon_rules.specs.Statements.{statement_says, statement_rows, call_is_last, is_call, is_proper};
ghost use Rattle.oberon_infer.specs.Memory.{plain_scopes, plain_ex, plain_word};
ghost use Rattle.oberon_infer.specs.Adds.{Adds};

use ob_text::{Code, Name, NoMemory, Span};
use oberon_infer::{Ex, Said, Scopes, Word, add_broken, add_row, designator};
use oberon_tree::{Designator, Selector};
use oberon_types::Signature;

/// What is said of a call as a statement (The Programming Language Oberon-07, section 9.2).
pub fn call<'a>(
    me: &Name,
    scopes: &Scopes<'a>,
    given: &'a Designator,
    said: &mut Vec<Said<'a>>,
) -> Result<(), NoMemory>
    ensures { OnOk result (Adds said.old.items said.new.items (statement_says me.now (plain_scopes scopes.now) (call_statement (designator_tree given.now)))) }
{
    let x = designator(me, scopes, given, said)?;
    add_statement_rows(x, call_is_last(given), given.first_span(), said)
}

/// Whether a designator ends with a call.
fn call_is_last(given: &Designator) -> bool
    ensures { result ≡ call_is_last (designator_tree given.now) }
{
    match given.selectors.last() {
        Some(selector) => is_call(selector),
        None => false,
    }
}

fn is_call(selector: &Selector) -> bool
    ensures { result ≡ is_call (more_selectors (selector_tree selector.now) no_selectors) }
{
    match selector {
        Selector::Call { .. } => true,
        Selector::Field(_) => false,
        Selector::Index { .. } => false,
    }
}

/// Says what is broken where a designator is a statement; `called` where it ends with a call.
fn add_statement_rows(
    x: Ex,
    called: bool,
    place: Span,
    said: &mut Vec<Said>,
) -> Result<(), NoMemory>
    ensures { OnOk result (Adds said.old.items said.new.items (statement_rows (plain_ex x.entry) called place)) }
{
    match x {
        Ex::Nothing => Ok(()),
        Ex::Call => Ok(()),
        Ex::Procedure(signature) => add_bare_rows(signature, called, place, said),
        Ex::Word(word) => add_broken(said, place, word_code(word)),
        Ex::Variable { .. } => add_broken(said, place, Code::BadCall),
        Ex::Value(_) => add_broken(said, place, value_code(called)),
        Ex::Type(_) => add_broken(said, place, Code::NotVariable),
        Ex::Module(_) => add_broken(said, place, Code::NotVariable),
    }
}

/// The same of a procedure without parentheses, where empty ones may be left out.
fn add_bare_rows(
    signature: &Signature,
    called: bool,
    place: Span,
    said: &mut Vec<Said>,
) -> Result<(), NoMemory>
    ensures { OnOk result (Adds said.old.items said.new.items (statement_rows (a_procedure (plain_signature signature.now)) called place)) }
{
    match &signature.result_type {
        Some(_) => add_broken(said, place, Code::BadCall),
        None => add_row(
            said,
            !signature.params.is_empty(),
            place,
            Code::ArgumentCount,
        ),
    }
}

fn word_code(word: Word) -> Code
    ensures { result ≡ (if is_proper (plain_word word) then codes_of.ArgumentCount else codes_of.BadCall) }
{
    if is_proper(word) {
        Code::ArgumentCount
    } else {
        Code::BadCall
    }
}

fn value_code(called: bool) -> Code
    ensures { result ≡ (if called then codes_of.BadCall else codes_of.NotVariable) }
{
    if called {
        Code::BadCall
    } else {
        Code::NotVariable
    }
}

/// Whether a predeclared procedure has no result.
fn is_proper(word: Word) -> bool
    ensures { result ≡ is_proper (plain_word word) }
{
    match word {
        Word::Inc => true,
        Word::Dec => true,
        Word::Incl => true,
        Word::Excl => true,
        Word::Assert => true,
        _ => false,
    }
}
