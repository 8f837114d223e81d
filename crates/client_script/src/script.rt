ghost use Rattle.std.specs.Prelude.{◌≡◌, ◌≤◌, ◌++◌, ◌∷◌, [], length, IfOk, OnOk};
ghost use Rattle.client_script.specs.Faults.{IfBad};
ghost use Rattle.client_script.specs.Scripts.{IsAdded, IsFirstBad, IsNoneOf, IsScript};

use crate::line::Line;
use crate::reading::read_line;
use ob_text::{Items, NoMemory};
use std::alloc::Global;

/// The lines of a script, without the empty ones.
#[derive(Debug, Drop)]
pub struct Script {
    pub lines: Items<Line>,
}

/// Why a text isn't read as a script.
#[derive(Clone, Copy, Debug, PartialEq, Eq)]
pub enum ScriptFault {
    /// The number of its first bad line. Lines are numbered from 1, the empty ones too.
    Line(u32),
    NoMemory,
}

impl From<NoMemory> for ScriptFault {
    ghost use Rattle.std.specs.Prelude.{◌≡◌};
    ghost use Rattle.client_script.specs.declared.script.ScriptFault.TheVariants as faults;

    ghost from_gives = { λ _ fault. fault ≡ faults.NoMemory };

    fn from(_error: NoMemory) -> ScriptFault {
        ScriptFault::NoMemory
    }
}

/// Reads a script.
pub fn read_script(alloc: Global, text: &str) -> Result<Script, ScriptFault>
    requires { length text.now ≤ 262144 }
    ensures script { IfOk result (λ script. IsScript text.now script.lines) }
    ensures bad { IfBad result (IsFirstBad text.now) }
{
    let mut lines = Vec::new(alloc);
    let mut number = 1;
    let mut rest = text;
    'lines: while let Some((line, more)) = rest.split_once('\n') {
        add_line(alloc, &mut lines, line, number)?;
        number += 1;
        rest = more;
    }
    add_line(alloc, &mut lines, rest, number)?;
    Ok(Script {
        lines: Items::from_vec(lines),
    })
}

/// Adds the line of a text, the one of this number, if it isn't empty.
fn add_line(
    alloc: Global,
    lines: &mut Vec<Line>,
    text: &str,
    number: u32,
) -> Result<(), ScriptFault>
    ensures added { OnOk result (IsAdded text.now lines.old.items lines.new.items) }
    ensures bad { IfBad result (λ n. (n ≡ number) × IsNoneOf text.now lines.old.items) }
{
    if text.is_empty() {
        return Ok(());
    }
    match read_line(alloc, text)? {
        Some(line) if line.is_initialize() == lines.is_empty() => {
            push(lines, line)?;
            Ok(())
        }
        _ => Err(ScriptFault::Line(number)),
    }
}

/// Puts a line behind the others.
fn push(lines: &mut Vec<Line>, line: Line) -> Result<(), NoMemory>
    ensures { OnOk result (lines.new.items ≡ lines.old.items ++ line ∷ []) }
{
    lines.push(line)?;
    Ok(())
}
