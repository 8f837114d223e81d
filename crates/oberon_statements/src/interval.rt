ghost use Rattle.std.specs.Prelude.{◌≡◌, ◌&&◌, ◌||◌, not};
ghost use Rattle.oberon_rules.specs.Statements.{interval_of, is_empty_interval, is_of_kind};
ghost use Rattle.oberon_statements.specs.Labels.{plain_kind, plain_meant, plain_interval_option};

use crate::label::Meant;

/// What the labels of a CASE have to be.
#[derive(Clone, Copy)]
pub enum CaseKind {
    Any,
    Whole,
    Char,
}

/// The values that a label stands for, from the first to the last.
#[derive(Clone, Copy)]
pub enum Interval {
    Whole(i32, i32),
    Char(u8, u8),
}

/// What a label with these ends stands for; None where one of them is unknown or no label, or they are of two kinds
/// (The Programming Language Oberon-07, section 9.5).
pub fn interval_of(low: Meant, high: Meant) -> Option<Interval>
    ensures { plain_interval_option result ≡ interval_of (plain_meant low) (plain_meant high) }
{
    match low {
        Meant::Whole(low) => match high {
            Meant::Whole(high) => Some(Interval::Whole(low, high)),
            Meant::Char(_) => None,
            Meant::Unclear => None,
            Meant::Nothing => None,
        },
        Meant::Char(low) => match high {
            Meant::Char(high) => Some(Interval::Char(low, high)),
            Meant::Whole(_) => None,
            Meant::Unclear => None,
            Meant::Nothing => None,
        },
        Meant::Unclear => None,
        Meant::Nothing => None,
    }
}

/// Whether a label with these ends, which stands for these values, doesn't fit.
pub fn is_bad_label(kind: CaseKind, low: Meant, high: Meant, interval: Option<Interval>) -> bool
    ensures { result ≡ not (is_of_kind (plain_kind kind) (plain_meant low) && is_of_kind (plain_kind kind) (plain_meant high)) || is_empty_interval (plain_interval_option interval) }
{
    !(is_of_kind(kind, low) && is_of_kind(kind, high)) || is_empty(interval)
}

fn is_of_kind(kind: CaseKind, end: Meant) -> bool
    ensures { result ≡ is_of_kind (plain_kind kind) (plain_meant end) }
{
    match end {
        Meant::Unclear => true,
        Meant::Nothing => false,
        Meant::Whole(_) => match kind {
            CaseKind::Any => true,
            CaseKind::Whole => true,
            CaseKind::Char => false,
        },
        Meant::Char(_) => match kind {
            CaseKind::Any => true,
            CaseKind::Whole => false,
            CaseKind::Char => true,
        },
    }
}

fn is_empty(interval: Option<Interval>) -> bool
    ensures { result ≡ is_empty_interval (plain_interval_option interval) }
{
    match interval {
        None => false,
        Some(Interval::Whole(low, high)) => high < low,
        Some(Interval::Char(low, high)) => high < low,
    }
}
