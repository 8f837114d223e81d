ghost use Rattle.std.specs.Prelude.{◌≡◌, ◌↔◌, ◌&&◌, IsTrue};

use ob_text::{Held, Name};

/// Whether what is held is the same.
pub fn same_held(a: &Held, b: &Held) -> bool
    ensures { IsTrue result ↔ (a.now ≡ b.now) }
{
    a == b
}

/// Whether two lists of imports have the same names with the same numbers, in the same order.
pub fn same_imports(a: &[(Name, u64)], b: &[(Name, u64)]) -> bool
    ensures { IsTrue result ↔ (a.now ≡ b.now) }
{
    let mut xs = a;
    let mut ys = b;
    'imports: loop {
        let Some((x, others)) = xs.split_first() else {
            return ys.is_empty();
        };
        let Some((y, more)) = ys.split_first() else {
            return false;
        };
        if !same_import(x, y) {
            return false;
        }
        xs = others;
        ys = more;
    }
}

fn same_import(x: &(Name, u64), y: &(Name, u64)) -> bool
    ensures { IsTrue result ↔ (x.now ≡ y.now) }
{
    let name = same_name(&x.0, &y.0);
    let number = same_number(x.1, y.1);
    both(name, number)
}

fn same_name(a: &Name, b: &Name) -> bool
    ensures { IsTrue result ↔ (a.now ≡ b.now) }
{
    a == b
}

fn same_number(a: u64, b: u64) -> bool
    ensures { IsTrue result ↔ (a ≡ b) }
{
    a == b
}

pub fn both(a: bool, b: bool) -> bool
    ensures { result ≡ (a && b) }
{
    a && b
}
