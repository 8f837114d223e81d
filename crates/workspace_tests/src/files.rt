//! Workspace files: what is refused and why, and how much of each may stand in one.
use crate::roots::{letters, root};
use ob_text::{Held, Name, Text};
use std::alloc::Global;
use std::test::Fail;
use target_graph::{FaultKind, Workspace, WorkspaceRefusal};

/// The workspace of a file, or the kind and the name of its refusal.
pub fn read(alloc: Global, file: &Held) -> Result<Result<Workspace, (FaultKind, Name)>, Fail> {
    let root = root(alloc, "file:///w")?.ok_or("root")?;
    match Workspace::read(alloc, file, root) {
        Ok(workspace) => Ok(Ok(workspace)),
        Err(WorkspaceRefusal::Fault(fault)) => Ok(Err((fault.kind, fault.name))),
        Err(WorkspaceRefusal::NoMemory) => Err(Fail::new("no memory")),
    }
}

pub fn held(alloc: Global, text: &str) -> Result<Held, Fail> {
    Ok(Held::Text(Text::new(alloc, text.as_bytes())?))
}

/// A text, and the kind and the name of its refusal.
const REFUSED: &[(&str, FaultKind, &str)] = &[
    ("{", FaultKind::BadJson, ""),
    ("[]", FaultKind::BadField, "$"),
    (r#"{"targets":[]}"#, FaultKind::BadField, "version"),
    (
        r#"{"version":1.0,"targets":[]}"#,
        FaultKind::BadField,
        "version",
    ),
    (
        r#"{"version":1,"targets":null}"#,
        FaultKind::BadField,
        "targets",
    ),
    (
        r#"{"version":1,"targets":[3]}"#,
        FaultKind::BadField,
        "targets[0]",
    ),
    (
        r#"{"version":1,"targets":[{"name":"a b","kind":"x","modules":[]}]}"#,
        FaultKind::BadField,
        "targets[0].name",
    ),
    (
        r#"{"version":1,"targets":[{"name":"a","kind":"library","modules":["A.Mod","../B.Mod"]}]}"#,
        FaultKind::BadField,
        "targets[0].modules[1]",
    ),
    (
        r#"{"version":1,"targets":[{"name":"a","kind":"library","modules":["d/WHILE.Mod"]}]}"#,
        FaultKind::BadField,
        "targets[0].modules[0]",
    ),
    (
        r#"{"version":1,"targets":[{"name":"a","kind":"library","modules":[],"dependencies":null}]}"#,
        FaultKind::BadField,
        "targets[0].dependencies",
    ),
    (
        r#"{"version":1,"targets":[{"name":"a","kind":"application","modules":["A.Mod"],"main":"B"}]}"#,
        FaultKind::BadField,
        "targets[0].main",
    ),
    (
        r#"{"version":1,"targets":[{"name":"a","kind":"test","modules":[],"dependencies":["b"]}]}"#,
        FaultKind::UnknownDependency,
        "b",
    ),
    (
        r#"{"version":1,"targets":[{"name":"a","kind":"test","modules":[],"dependencies":["b"]},
{"name":"c","kind":"test","modules":[]},{"name":"a","kind":"test","modules":[]}]}"#,
        FaultKind::NameTwice,
        "a",
    ),
    (
        r#"{"version":1,"targets":[{"name":"c","kind":"test","modules":["A"],"dependencies":["b"]},
{"name":"b","kind":"test","modules":["A"],"dependencies":["a"]},
{"name":"a","kind":"library","modules":[],"dependencies":["b"]}]}"#,
        FaultKind::DependencyCycle,
        "b",
    ),
    (
        r#"{"version":1,"targets":[{"name":"a","kind":"test","modules":["A","A.Mod"]}]}"#,
        FaultKind::StemTwice,
        "A",
    ),
    (
        r#"{"version":1,"targets":[{"name":"b","kind":"test","modules":["B","A"],"dependencies":["a"]},
{"name":"a","kind":"library","modules":["x/C","y/A.Mod","B.x"]}]}"#,
        FaultKind::StemTwice,
        "A",
    ),
];

/// Whether a file is refused by a fault of this kind that is about this name.
fn refused(alloc: Global, file: &Held, kind: FaultKind, name: &str) -> Result<bool, Fail> {
    match read(alloc, file)? {
        Ok(_) => Ok(false),
        Err((found, about)) => Ok(found == kind && about.as_slice() == name.as_bytes()),
    }
}

#[test]
fn refuses_texts(rt: HostRuntime) -> Result<(), Fail> {
    for (text, kind, name) in REFUSED {
        let file = held(rt.alloc(), text)?;
        assert!(rt; refused(rt.alloc(), &file, *kind, name)?, "at {text}");
    }
    Ok(())
}

#[test]
fn refuses_what_is_no_text(rt: HostRuntime) -> Result<(), Fail> {
    assert!(rt; refused(rt.alloc(), &Held::Absent, FaultKind::NoFile, "")?);
    assert!(rt; refused(rt.alloc(), &Held::TooLarge, FaultKind::NoFile, "")?);
    assert!(rt; refused(rt.alloc(), &Held::NotText, FaultKind::NoFile, "")?);
    Ok(())
}

/// A file of so many targets. The first has so many modules, and lists the second as often as a
/// dependency.
fn file_of(
    alloc: Global,
    targets: usize,
    modules: usize,
    dependencies: usize,
) -> Result<Held, Fail> {
    let mut text = String::from_str(
        alloc,
        r#"{"version":1,"targets":[{"name":"t0","kind":"test","modules":["#,
    )?;
    for n in 0..modules {
        let comma = if n == 0 { "" } else { "," };
        text.push_str(format!(in alloc; "{comma}\"M{n}\"")?.as_str())?;
    }
    text.push_str(r#"],"dependencies":["#)?;
    for n in 0..dependencies {
        text.push_str(if n == 0 { r#""t1""# } else { r#","t1""# })?;
    }
    text.push_str("]}")?;
    for n in 1..targets {
        text.push_str(format!(in alloc;
            r#",{{"name":"t{n}","kind":"library","modules":[]}}"#
        )?.as_str())?;
    }
    text.push_str("]}")?;
    held(alloc, text.as_str())
}

#[test]
fn counts_to_the_limits(rt: HostRuntime) -> Result<(), Fail> {
    for (targets, modules, dependencies, name) in [
        (257, 1_025, 1_025, "targets"),
        (256, 1_025, 1_025, "modules"),
        (256, 1_024, 1_025, "dependencies"),
    ] {
        let file = file_of(rt.alloc(), targets, modules, dependencies)?;
        assert!(rt;
            refused(rt.alloc(), &file, FaultKind::TooMany, name)?,
            "at {name}"
        );
    }
    Ok(())
}

#[test]
fn reads_the_most(rt: HostRuntime) -> Result<(), Fail> {
    let file = file_of(rt.alloc(), 256, 1_024, 1_024)?;
    match read(rt.alloc(), &file)? {
        Ok(workspace) => assert!(rt; workspace.pairs().len() == 1_024),
        Err(_) => return Err(Fail::new("refused")),
    }
    Ok(())
}

/// A file of one target, whose name, whose module's path and whose dependency have so many letters.
fn file_with(alloc: Global, name: usize, path: usize, dependency: usize) -> Result<Held, Fail> {
    let name = letters(alloc, name)?;
    let path = letters(alloc, path)?;
    let dependency = letters(alloc, dependency)?;
    let text = format!(in alloc;
        r#"{{"version":1,"targets":[{{"name":"{name}","kind":"test","modules":["{path}"],"dependencies":["{dependency}"]}}]}}"#
    )?;
    held(alloc, text.as_str())
}

#[test]
fn measures_to_the_limits(rt: HostRuntime) -> Result<(), Fail> {
    for (name, path, dependency, bad) in [
        (256, 256, 256, "targets[0].name"),
        (255, 256, 256, "targets[0].modules[0]"),
        (255, 255, 256, "targets[0].dependencies[0]"),
    ] {
        let file = file_with(rt.alloc(), name, path, dependency)?;
        assert!(rt;
            refused(rt.alloc(), &file, FaultKind::BadField, bad)?,
            "at {bad}"
        );
    }
    Ok(())
}

/// The target depends on itself, and all else of it is right.
#[test]
fn reads_the_longest(rt: HostRuntime) -> Result<(), Fail> {
    let file = file_with(rt.alloc(), 255, 255, 255)?;
    let name = letters(rt.alloc(), 255)?;
    assert!(rt; refused(rt.alloc(), &file, FaultKind::DependencyCycle, name.as_str())?);
    Ok(())
}
