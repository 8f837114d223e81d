ghost use Rattle.std.specs.Prelude.{◌∷◌, OnOk, None};
ghost use Rattle.oberon_rules.specs.Scopes.{broken, row, named_row};
ghost use Rattle.oberon_infer.specs.Memory.{plain_said};
ghost use Rattle.oberon_infer.specs.Adds.{Adds};

use ob_text::{Code, Name, NoMemory, Span};
use oberon_tree::Ident;

/// What is said of a place.
#[derive(Drop)]
pub enum Said<'a> {
    /// The rule of this code is broken there, and the diagnostic has this name.
    Broken {
        span: Span,
        code: Code,
        name: Option<&'a Name>,
    },
    /// A name there resolves to the import of this local name.
    Resolved(&'a Name),
}

/// Says one thing more.
pub fn add<'a>(said: &mut Vec<Said<'a>>, one: Said<'a>) -> Result<(), NoMemory>
    ensures { OnOk result (Adds said.old.items said.new.items (λ rest. plain_said one.entry ∷ rest)) }
{
    said.push(one)?;
    Ok(())
}

/// Says that a rule is broken at a place.
pub fn add_broken(said: &mut Vec<Said>, span: Span, code: Code) -> Result<(), NoMemory>
    ensures { OnOk result (Adds said.old.items said.new.items (λ rest. broken span code None ∷ rest)) }
{
    add(
        said,
        Said::Broken {
            span,
            code,
            name: None,
        },
    )
}

/// Says that a rule is broken at a name, where it is.
pub fn add_named<'a>(
    said: &mut Vec<Said<'a>>,
    broken: bool,
    at: &'a Ident,
    code: Code,
) -> Result<(), NoMemory>
    ensures { OnOk result (Adds said.old.items said.new.items (named_row broken at.now code)) }
{
    if broken {
        add(
            said,
            Said::Broken {
                span: at.span,
                code,
                name: Some(&at.name),
            },
        )?;
    }
    Ok(())
}

/// Says that a rule is broken at a place, where it is.
pub fn add_row(said: &mut Vec<Said>, broken: bool, span: Span, code: Code) -> Result<(), NoMemory>
    ensures { OnOk result (Adds said.old.items said.new.items (row broken span code)) }
{
    if broken {
        add_broken(said, span, code)?;
    }
    Ok(())
}
