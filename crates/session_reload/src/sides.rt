ghost use Rattle.std.specs.Prelude.{◌≡◌, ◌+◌, ◌≤◌, ℕ, List, Some, length, IfOk, OnOk, if◌then◌else◌};
ghost use Rattle.std.specs.BTreeMap.{btree_map_len};
ghost use Rattle.std.specs.Option.{option_copied};
ghost use Rattle.session_reload.specs.Sides.{AreSides, IsInOrder, joined_to, same_name, side_at};

use ob_text::NoMemory;
use std::alloc::Global;
use std::collections::BTreeMap;
use target_graph::Target;

/// The targets of one name in two workspaces.
#[derive(Clone, Copy, Debug)]
pub(crate) struct Side<'a> {
    pub(crate) old: Option<&'a Target>,
    pub(crate) new: Option<&'a Target>,
}

/// The targets of two workspaces by their names, in the order of these.
pub(crate) fn sides_of<'a>(
    alloc: Global,
    old: &'a [Target],
    new: &'a [Target],
) -> Result<BTreeMap<&'a [u8], Side<'a>>, NoMemory>
    ensures sides { IfOk result (λ sides. AreSides old.now new.now sides.entries) }
    ensures few { IfOk result (λ sides. btree_map_len sides ≤ length old.now + length new.now) }
{
    let mut sides = BTreeMap::new(alloc);
    for target in old {
        put(
            &mut sides,
            target.name.as_slice(),
            Side {
                old: Some(target),
                new: None,
            },
        )?;
    }
    for target in new {
        put(
            &mut sides,
            target.name.as_slice(),
            Side {
                old: None,
                new: Some(target),
            },
        )?;
    }
    Ok(sides)
}

/// Puts a target to those of its name. Where there is one of its workspace already, that stays.
fn put<'a>(
    sides: &mut BTreeMap<&'a [u8], Side<'a>>,
    name: &'a [u8],
    side: Side<'a>,
) -> Result<(), NoMemory>
    ensures sides { OnOk result ((other : List ℕ) → side_at sides.new.entries other
        ≡ (if same_name name.now other then Some (joined_to (side_at sides.old.entries name.now) side.entry)
        else side_at sides.old.entries other)) }
    ensures ordered { OnOk result (IsInOrder sides.new.entries) }
    ensures few { OnOk result (btree_map_len sides.new ≤ btree_map_len sides.old + 1) }
{
    let joined = joined_to(sides.get(name), side);
    let replaced = sides.insert(name, joined)?;
    let_go(replaced);
    Ok(())
}

fn joined_to<'a>(first: Option<&Side<'a>>, other: Side<'a>) -> Side<'a>
    ensures { result ≡ joined_to (option_copied first.entry) other.entry }
{
    match first {
        Some(first) => Side {
            old: first.old.or(other.old),
            new: first.new.or(other.new),
        },
        None => other,
    }
}

/// Drops what a name stood for.
fn let_go(_side: Option<Side<'_>>) {}
