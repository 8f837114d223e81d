ghost use Rattle.std.specs.Prelude.{◌≡◌, ◌+◌, ◌<◌, ◌||◌, length, IfOk};
ghost use Rattle.std.specs.List.{list_any};
ghost use Rattle.session_law.specs.Course.{count_errors, count_warnings};
ghost use Rattle.session_build.specs.Tallies.{has_errors, with_tally, tally_of};

use bsp_address::Address;
use ob_text::{Diagnostic, NoMemory, Severity};
use session_law::BuildDocument;

/// What came of a document: whether its check started, and how many errors and warnings its list has.
#[derive(Clone, Copy, Debug)]
pub(crate) struct Tally {
    pub begun: bool,
    pub errors: u64,
    pub warnings: u64,
}

/// What came of no document.
pub(crate) const NOTHING: Tally = Tally {
    begun: false,
    errors: 0,
    warnings: 0,
};

/// What came of a document that has this list.
pub(crate) fn counted(begun: bool, list: &[Diagnostic]) -> Tally
    ensures begun { result.begun ≡ begun }
    ensures errors { result.errors ≡ count_errors list.now }
    ensures warnings { result.warnings ≡ count_warnings list.now }
{
    let (mut errors, mut warnings) = (0, 0);
    for diagnostic in list {
        if diagnostic.code.severity() == Severity::Error {
            errors += 1;
        } else {
            warnings += 1;
        }
    }
    Tally {
        begun,
        errors,
        warnings,
    }
}

/// What came of the documents of the target with this id, taken together.
pub(crate) fn tally_of(
    documents: &[BuildDocument],
    tallies: &[Tally],
    id: &Address,
) -> Result<Tally, NoMemory>
    requires { length documents.now ≡ length tallies.now }
    ensures { IfOk result (λ sum. sum ≡ tally_of id.now documents.now tallies.now) }
{
    let mut sum = NOTHING;
    for index in 0..documents.len() {
        if documents[index].key.target == *id {
            sum = both(sum, tallies[index])?;
        }
    }
    Ok(sum)
}

/// What came of two, taken together.
fn both(a: Tally, b: Tally) -> Result<Tally, NoMemory>
    ensures { IfOk result (λ sum. sum ≡ with_tally a b) }
{
    Ok(Tally {
        begun: a.begun || b.begun,
        errors: sum(a.errors, b.errors)?,
        warnings: sum(a.warnings, b.warnings)?,
    })
}

/// A sum. Memory has no room for as many diagnostics as no number of 64 bits counts.
fn sum(a: u64, b: u64) -> Result<u64, NoMemory>
    ensures { IfOk result (λ n. n ≡ a + b) }
{
    match a.checked_add(b) {
        Some(n) => Ok(n),
        None => Err(NoMemory),
    }
}

/// Whether some document has an error.
pub(crate) fn has_errors(tallies: &[Tally]) -> bool
    ensures { result ≡ list_any has_errors tallies.now }
{
    tallies.iter().any(|tally| tally.errors > 0)
}
