ghost use Rattle.std.specs.Prelude.{◌≡◌, ◌<◌, ◌≤◌, ◌^◌, All, length, map};
ghost use Rattle.target_graph.specs.Workspace.{name_at};
ghost use Rattle.reload_rules.specs.Changes as spec;
ghost use Rattle.reload_rules.specs.Changes.{same_texts};

use ob_text::Name;
use target_graph::{Target, TargetKind};

/// Do two workspaces say the same of a target?
pub(crate) fn says_same(old: &[Target], a: &Target, new: &[Target], b: &Target) -> bool
    requires a { All (λ index. index < length old.now) a.now.dependencies }
    requires b { All (λ index. index < length new.now) b.now.dependencies }
    ensures { result ≡ spec.says_same old.now a.now new.now b.now }
{
    same_kind(a.kind, b.kind)
        && a.modules.as_slice() == b.modules.as_slice()
        && same_dependencies(
            old,
            a.dependencies.as_slice(),
            new,
            b.dependencies.as_slice(),
        )
        && same_main(&a.main, &b.main)
}

fn same_kind(a: TargetKind, b: TargetKind) -> bool
    ensures { result ≡ spec.same_kind a b }
{
    a == b
}

fn same_main(a: &Option<Name>, b: &Option<Name>) -> bool
    ensures { result ≡ spec.same_main a.now b.now }
{
    match (a, b) {
        (Some(a), Some(b)) => a == b,
        (None, None) => true,
        _ => false,
    }
}

/// Are the dependencies the same by their names?
fn same_dependencies(old: &[Target], a: &[u32], new: &[Target], b: &[u32]) -> bool
    requires a { All (λ index. index < length old.now) a.now }
    requires b { All (λ index. index < length new.now) b.now }
    ensures { result ≡ same_texts (map (name_at old.now) a.now) (map (name_at new.now) b.now) }
{
    if a.len() != b.len() {
        return false;
    }
    for index in 0..a.len() {
        if old[a[index] as usize].name != new[b[index] as usize].name {
            return false;
        }
    }
    true
}
