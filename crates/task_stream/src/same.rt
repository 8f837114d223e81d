ghost use Rattle.std.specs.Prelude.{◌≡◌, ◌↔◌, ◌&&◌, map, IsTrue};
ghost use Rattle.bsp_records.specs.Shown.{name_shown, shown};

use bsp_records::name_shown;
use ob_text::{Code, Diagnostic, Name, Range};

/// Whether two lists are shown alike.
pub fn same_shown(a: &[Diagnostic], b: &[Diagnostic]) -> bool
    ensures { IsTrue result ↔ (map shown a.now ≡ map shown b.now) }
{
    let mut xs = a;
    let mut ys = b;
    'diagnostics: loop {
        let Some((x, others)) = xs.split_first() else {
            return ys.is_empty();
        };
        let Some((y, more)) = ys.split_first() else {
            return false;
        };
        if !same_record(x, y) {
            return false;
        }
        xs = others;
        ys = more;
    }
}

/// Whether two diagnostics are shown alike: they are at the same range, say the same, and their names are the same as
/// far as a message shows them.
fn same_record(x: &Diagnostic, y: &Diagnostic) -> bool
    ensures { IsTrue result ↔ (shown x.now ≡ shown y.now) }
{
    let range = same_range(x.range, y.range);
    let code = same_code(x.code, y.code);
    let name = same_name(&x.name, &y.name);
    all(range, code, name)
}

fn all(a: bool, b: bool, c: bool) -> bool
    ensures { result ≡ ((a && b) && c) }
{
    a && b && c
}

fn same_range(a: Range, b: Range) -> bool
    ensures { IsTrue result ↔ (a ≡ b) }
{
    a == b
}

fn same_code(a: Code, b: Code) -> bool
    ensures { IsTrue result ↔ (a ≡ b) }
{
    a == b
}

fn same_name(a: &Option<Name>, b: &Option<Name>) -> bool
    ensures { IsTrue result ↔ (name_shown a.now ≡ name_shown b.now) }
{
    name_shown(a) == name_shown(b)
}
