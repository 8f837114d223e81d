ghost use Rattle.std.specs.Prelude.{◌≡◌, Some, IfSome, IfNone};
ghost use Rattle.std.specs.Option.{option_copied};
ghost use Rattle.check_cache.specs.Places.{Lacks};
ghost use Rattle.check_cache.specs.Wanted.{IsOf, HasText};

use crate::fact::Fact;
use ob_text::{Held, Name};

/// The fact of a place, where it is of this text and these imports.
pub fn fitting<'a>(
    place: Option<&'a Fact>,
    held: &Held,
    imports: &[(Name, u64)],
) -> Option<&'a Fact>
    ensures place { IfSome result (λ fact. option_copied place.entry ≡ Some fact.now) }
    ensures some { IfSome result (λ fact. IsOf held.now imports.now fact.now) }
    ensures none { IfNone result (Lacks (IsOf held.now imports.now) (option_copied place.entry)) }
{
    match place {
        Some(fact) => {
            if fact.is_of(held, imports) {
                Some(fact)
            } else {
                None
            }
        }
        None => None,
    }
}

/// The fact of a place, where it is of this text.
pub fn of_text<'a>(place: Option<&'a Fact>, held: &Held) -> Option<&'a Fact>
    ensures place { IfSome result (λ fact. option_copied place.entry ≡ Some fact.now) }
    ensures some { IfSome result (λ fact. HasText held.now fact.now) }
    ensures none { IfNone result (Lacks (HasText held.now) (option_copied place.entry)) }
{
    match place {
        Some(fact) => {
            if fact.has_text(held) {
                Some(fact)
            } else {
                None
            }
        }
        None => None,
    }
}
