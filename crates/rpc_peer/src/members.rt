ghost use Rattle.std.specs.Prelude.{◌≡◌, ◌==◌, ℕ, List, option_map, false};
ghost use Rattle.std.specs.Cmp.Lexicographic.{pointwise};
ghost use Rattle.serde_json.specs.Find.{get_member};
ghost use Rattle.serde_json.specs.View.{view, members_view};

use serde_json::{Map, Value};

/// Takes the member of this name out of an object, where there is one.
pub(crate) fn take_member(members: &mut Map<String, Value>, name: &str) -> Option<Value>
    ensures found { option_map view result
        ≡ get_member name.now (members_view members.old.entries) }
    ensures others { (other : List ℕ) → pointwise ◌==◌ other name.now ≡ false
        → get_member other (members_view members.new.entries)
        ≡ get_member other (members_view members.old.entries) }
{
    members.remove(name)
}
