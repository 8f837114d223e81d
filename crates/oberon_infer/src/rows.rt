ghost use Rattle.std.specs.Prelude.{OnOk};
ghost use Rattle.oberon_rules.specs.ExpressionRules.{value_row, whole_row};
ghost use Rattle.oberon_infer.specs.Memory.{plain_ex};
ghost use Rattle.oberon_infer.specs.Adds.{Adds};

use crate::ex::Ex;
use crate::said::{Said, add_broken, add_row};
use crate::type_ref::{TypeRef, is_assignable};
use ob_text::{Code, NoMemory, Span};

/// Says what is broken where a value is wanted at a place (The Programming Language Oberon-07, section 8).
pub fn add_value_row(x: Ex, span: Span, said: &mut Vec<Said>) -> Result<(), NoMemory>
    ensures { OnOk result (Adds said.old.items said.new.items (value_row (plain_ex x.entry) span)) }
{
    match x {
        Ex::Type(_) => add_broken(said, span, Code::NotVariable),
        Ex::Module(_) => add_broken(said, span, Code::NotVariable),
        Ex::Procedure(_) => add_broken(said, span, Code::BadCall),
        Ex::Word(_) => add_broken(said, span, Code::BadCall),
        Ex::Call => add_broken(said, span, Code::BadCall),
        Ex::Nothing => Ok(()),
        Ex::Value(_) => Ok(()),
        Ex::Variable { .. } => Ok(()),
    }
}

/// Says what is broken where an INTEGER is wanted at a place.
pub fn add_whole_row(x: Ex, span: Span, said: &mut Vec<Said>) -> Result<(), NoMemory>
    ensures { OnOk result (Adds said.old.items said.new.items (whole_row (plain_ex x.entry) span)) }
{
    add_row(
        said,
        !is_assignable(x.ty(), TypeRef::Integer),
        span,
        Code::NotInteger,
    )
}
