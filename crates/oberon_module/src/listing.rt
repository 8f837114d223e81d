ghost use Rattle.std.specs.Prelude.{◌≡◌, map, IfOk};
ghost use Rattle.std.specs.Option.{option_map, option_copied};
ghost use Rattle.oberon_rules.specs.Judged.{found};
ghost use Rattle.oberon_rules.specs.Order.{IsListed};
ghost use Rattle.oberon_infer.specs.Memory.{plain_said};
ghost use Rattle.oberon_module.specs.Rows.{plain_row, plain_rows, diagnostic_of, row_of};

use crate::numbers::{code_of, number_of};
use crate::places::Sweep;
use ob_text::{Code, Diagnostic, Name, NoMemory, Span};
use oberon_infer::Said;
use std::alloc::Global;

/// A finding, by what lists are sorted by.
#[derive(Clone, Copy, PartialEq, Eq, PartialOrd, Ord)]
pub struct Row<'s> {
    pub start: u32,
    pub end: u32,
    pub number: u32,
    pub name: Option<&'s [u8]>,
}

/// The diagnostics of what is said of a text: sorted by start, end, number and name, each once, with positions that
/// are found in one sweep of the text.
pub fn listed(alloc: Global, text: &[u8], said: &[Said]) -> Result<Vec<Diagnostic>, NoMemory>
    ensures { IfOk result (λ list. IsListed (found text.now (map plain_said said.now)) list.items) }
{
    let mut rows = rows_of(alloc, said)?;
    rows.sort_unstable();
    rows.dedup();
    shown(alloc, text, rows.as_slice())
}

/// What is broken, in the order in which it was said.
fn rows_of<'s>(alloc: Global, said: &'s [Said]) -> Result<Vec<Row<'s>>, NoMemory>
    ensures { IfOk result (λ rows. map plain_row rows.items ≡ plain_rows (map plain_said said.now)) }
{
    let mut rows = Vec::new(alloc);
    for one in said {
        match one {
            Said::Broken { span, code, name } => rows.push(row_of(*span, *code, name))?,
            Said::Resolved(_) => {}
        }
    }
    Ok(rows)
}

fn row_of<'s>(span: Span, code: Code, name: &'s Option<&Name>) -> Row<'s>
    ensures { plain_row result ≡ row_of span code (option_map (λ n. n.now) name.now) }
{
    Row {
        start: span.start,
        end: span.end,
        number: number_of(code),
        name: bytes_of(name),
    }
}

fn bytes_of<'s>(name: &'s Option<&Name>) -> Option<&'s [u8]>
    ensures { option_copied result ≡ option_map (λ n. n.now) name.now }
{
    match name {
        Some(name) => Some(name.as_slice()),
        None => None,
    }
}

/// The diagnostics of rows that are sorted.
fn shown(alloc: Global, text: &[u8], rows: &[Row]) -> Result<Vec<Diagnostic>, NoMemory>
    ensures { IfOk result (λ list. list.items ≡ map (diagnostic_of text.now) (map plain_row rows.now)) }
{
    let mut list = Vec::new(alloc);
    let mut sweep = Sweep::new(text);
    for row in rows {
        let span = Span {
            start: row.start,
            end: row.end,
        };
        list.push(Diagnostic {
            span,
            range: sweep.range_of(span),
            code: code_of(row.number),
            name: name_of(alloc, row.name)?,
        })?;
    }
    Ok(list)
}

fn name_of(alloc: Global, bytes: Option<&[u8]>) -> Result<Option<Name>, NoMemory>
    ensures { IfOk result (λ name. name ≡ option_copied bytes.entry) }
{
    match bytes {
        Some(bytes) => Ok(Some(Name::new(alloc, bytes)?)),
        None => Ok(None),
    }
}
