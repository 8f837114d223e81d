//! Rows of two workspaces, with what lies between them.
use crate::spaces::workspace;
use ob_text::NoMemory;
use reload_rules::Change::{Changed, Created, Deleted};
use reload_rules::ChangedTarget;
use session_reload::{changes, part_pairs};
use std::alloc::Global;
use std::test::Fail;
use target_graph::Workspace;

/// The targets of two files, and what lies between them: the pairs of the first that are kept (`=`) and those that are dropped
/// (`-`), then the targets that are created (`+`), changed (`~`) and deleted (`!`).
const ROWS: &[(&str, &str, &str)] = &[
    // Nothing lies between empty ones.
    ("", "", ""),
    // A target that is gone, though its path is another target's too.
    (
        r#"{"name":"old","kind":"library","modules":["Z.Mod"]},{"name":"app","kind":"test","modules":["Z.Mod"]}"#,
        r#"{"name":"app","kind":"test","modules":["Z.Mod"]}"#,
        "=app/Z.Mod -old/Z.Mod !old ",
    ),
    // A module that is gone, though its target stays. What stands behind it is kept.
    (
        r#"{"name":"lib","kind":"library","modules":["B.Mod","C.Mod"]}"#,
        r#"{"name":"lib","kind":"library","modules":["C.Mod"]}"#,
        "=lib/C.Mod -lib/B.Mod ~lib ",
    ),
    // A module that moves to another target.
    (
        r#"{"name":"a","kind":"library","modules":["M.Mod"]},{"name":"b","kind":"library","modules":[]}"#,
        r#"{"name":"a","kind":"library","modules":[]},{"name":"b","kind":"library","modules":["M.Mod"]}"#,
        "-a/M.Mod ~a ~b ",
    ),
    // Targets in another order have other indices, and nothing else.
    (
        r#"{"name":"lib","kind":"library","modules":["B.Mod"]},{"name":"app","kind":"test","modules":["A.Mod"],"dependencies":["lib"]}"#,
        r#"{"name":"app","kind":"test","modules":["A.Mod"],"dependencies":["lib"]},{"name":"lib","kind":"library","modules":["B.Mod"]}"#,
        "=lib/B.Mod =app/A.Mod ",
    ),
    // The same index is of another dependency.
    (
        r#"{"name":"x","kind":"library","modules":[]},{"name":"app","kind":"test","modules":[],"dependencies":["x"]},{"name":"y","kind":"library","modules":[]}"#,
        r#"{"name":"y","kind":"library","modules":[]},{"name":"app","kind":"test","modules":[],"dependencies":["y"]},{"name":"x","kind":"library","modules":[]}"#,
        "~app ",
    ),
    // Modules in another order, another kind, another main module.
    (
        r#"{"name":"a","kind":"library","modules":["A.Mod","B.Mod"]},{"name":"b","kind":"library","modules":[]},
{"name":"c","kind":"application","modules":["C.Mod","D.Mod"],"main":"C"}"#,
        r#"{"name":"a","kind":"library","modules":["B.Mod","A.Mod"]},{"name":"b","kind":"test","modules":[]},
{"name":"c","kind":"application","modules":["C.Mod","D.Mod"],"main":"D"}"#,
        "=a/A.Mod =a/B.Mod =c/C.Mod =c/D.Mod ~a ~b ~c ",
    ),
    // Dependencies in another order, and one more.
    (
        r#"{"name":"a","kind":"library","modules":[]},{"name":"b","kind":"library","modules":[]},
{"name":"d","kind":"test","modules":[],"dependencies":["a","b"]},{"name":"e","kind":"test","modules":[],"dependencies":["a"]}"#,
        r#"{"name":"a","kind":"library","modules":[]},{"name":"b","kind":"library","modules":[]},
{"name":"d","kind":"test","modules":[],"dependencies":["b","a"]},{"name":"e","kind":"test","modules":[],"dependencies":["a","b"]}"#,
        "~d ~e ",
    ),
    // The order of names is that of their bytes, whichever workspace they are of.
    (
        r#"{"name":"b","kind":"test","modules":[]},{"name":"ab","kind":"test","modules":[]}"#,
        r#"{"name":"a","kind":"test","modules":[]},{"name":"a0","kind":"test","modules":[]},{"name":"B","kind":"test","modules":[]},{"name":"b","kind":"library","modules":[]}"#,
        "+B +a +a0 !ab ~b ",
    ),
];

/// Puts what lies between two workspaces behind a text.
fn tell(alloc: Global, old: &Workspace, new: &Workspace, told: &mut Vec<u8>) -> Result<(), Fail> {
    let parted = part_pairs(alloc, old, new)?;
    for index in parted.kept.as_slice() {
        tell_pair(old, b"=", *index, told)?;
    }
    for index in parted.dropped.as_slice() {
        tell_pair(old, b"-", *index, told)?;
    }
    let changes = changes(alloc, old, new)?;
    for change in changes.as_slice() {
        tell_change(change, told)?;
    }
    Ok(())
}

fn tell_pair(space: &Workspace, mark: &[u8], index: u32, told: &mut Vec<u8>) -> Result<(), Fail> {
    let pair = space.pairs().get(index as usize).ok_or("pair")?;
    let target = space.targets().get(pair.target as usize).ok_or("target")?;
    told.extend_from_slice(mark)?;
    told.extend_from_slice(target.name.as_slice())?;
    told.extend_from_slice(b"/")?;
    told.extend_from_slice(pair.path.as_slice())?;
    told.extend_from_slice(b" ")?;
    Ok(())
}

fn tell_change(change: &ChangedTarget, told: &mut Vec<u8>) -> Result<(), NoMemory> {
    let mark: &[u8] = match change.change {
        Created => b"+",
        Changed => b"~",
        Deleted => b"!",
    };
    told.extend_from_slice(mark)?;
    told.extend_from_slice(change.name.as_slice())?;
    told.extend_from_slice(b" ")?;
    Ok(())
}

#[test]
fn rows_hold(rt: HostRuntime) -> Result<(), Fail> {
    let alloc = rt.alloc();
    for (old, new, wanted) in ROWS {
        let mut told = Vec::new(alloc);
        tell(
            alloc,
            &workspace(alloc, old)?,
            &workspace(alloc, new)?,
            &mut told,
        )?;
        assert!(rt; told.as_slice() == wanted.as_bytes(), "{old}");
    }
    Ok(())
}
