ghost use Rattle.std.specs.Prelude.{◌≡◌, IfOk, OnOk};
ghost use Rattle.oberon_rules.specs.Statements.{label_is, upper_is, string_label, meaning_label, value_label_says, upper_label_says};
ghost use Rattle.oberon_infer.specs.Memory.{plain_scopes, plain_named};
ghost use Rattle.oberon_infer.specs.Adds.{Adds};
ghost use Rattle.oberon_statements.specs.Labels.{plain_meant, value_label};

use ob_text::{NoMemory, Text};
use oberon_infer::{Meaning, Named, Said, Scopes, resolve};
use oberon_tree::{LabelUpper, LabelValue};
use oberon_types::{Entity, Value};

/// What an end of a label is.
#[derive(Clone, Copy)]
pub enum Meant {
    Unclear,
    /// No constant that a CASE may have.
    Nothing,
    Whole(i32),
    Char(u8),
}

/// What an end of a label is, and what is said of it (The Programming Language Oberon-07, section 9.5).
pub fn label_value<'a>(
    scopes: &Scopes<'a>,
    value: &'a LabelValue,
    said: &mut Vec<Said<'a>>,
) -> Result<Meant, NoMemory>
    ensures is { IfOk result (λ m. plain_meant m ≡ label_is (plain_scopes scopes.now) value.now) }
    ensures says { OnOk result (Adds said.old.items said.new.items (value_label_says (plain_scopes scopes.now) value.now)) }
{
    match value {
        LabelValue::Integer(number) => Ok(Meant::Whole(number.value)),
        LabelValue::Str(string) => Ok(of_string(&string.value)),
        LabelValue::Named(qualident) => {
            let named = resolve(scopes, qualident, said)?;
            Ok(of_named(&named))
        }
    }
}

/// The same of the upper end, which without `..` is the lower one.
pub fn upper_value<'a>(
    scopes: &Scopes<'a>,
    low: Meant,
    upper: &'a Option<LabelUpper>,
    said: &mut Vec<Said<'a>>,
) -> Result<Meant, NoMemory>
    ensures is { IfOk result (λ m. plain_meant m ≡ upper_is (plain_scopes scopes.now) (plain_meant low) upper.now) }
    ensures says { OnOk result (Adds said.old.items said.new.items (upper_label_says (plain_scopes scopes.now) upper.now)) }
{
    match upper {
        Some(upper) => label_value(scopes, &upper.last, said),
        None => Ok(low),
    }
}

fn of_string(text: &Text) -> Meant
    ensures { plain_meant result ≡ string_label text.now }
{
    match text.as_slice() {
        [code] => Meant::Char(*code),
        _ => Meant::Nothing,
    }
}

fn of_named(named: &Named) -> Meant
    ensures { plain_meant result ≡ meaning_label (plain_named named.now) }
{
    match named {
        Named::Unknown => Meant::Unclear,
        Named::Own(Meaning::Unknown) => Meant::Unclear,
        Named::Own(Meaning::Constant(value)) => of_value(value),
        Named::Outside(Entity::Constant(value)) => of_value(value),
        Named::Own(Meaning::Type(_)) => Meant::Nothing,
        Named::Own(Meaning::Variable { .. }) => Meant::Nothing,
        Named::Own(Meaning::Procedure(_)) => Meant::Nothing,
        Named::Own(Meaning::Word(_)) => Meant::Nothing,
        Named::Own(Meaning::Import(_)) => Meant::Nothing,
        Named::Standard(_) => Meant::Nothing,
        Named::Outside(Entity::TypeName(_)) => Meant::Nothing,
        Named::Outside(Entity::Variable(_)) => Meant::Nothing,
        Named::Outside(Entity::Proc(_)) => Meant::Nothing,
    }
}

fn of_value(value: &Value) -> Meant
    ensures { plain_meant result ≡ value_label value.now }
{
    match value {
        Value::Integer(x) => Meant::Whole(*x),
        Value::Char(code) => Meant::Char(*code),
        Value::Str(text) => of_string(text),
        Value::Boolean(_) => Meant::Nothing,
        Value::Set(_) => Meant::Nothing,
    }
}
