//! What a workspace is asked.
ghost use Rattle.std.specs.Prelude.{◌≡◌, ◌<◌, length, IfOk};
ghost use Rattle.target_graph.specs.Workspace.{pairs_of};

use crate::files::{held, read};
use ob_text::{Name, Path};
use std::alloc::Global;
use std::test::Fail;
use target_graph::{Target, TargetKind, Workspace, stem_of};

/// Two targets, of which `app` depends on `lib`.
const TWO: &str = r#"{"version":1,"targets":[
{"name":"app","kind":"application","modules":["A.Mod","d/C.Mod"],"dependencies":["lib"],"main":"A"},
{"name":"lib","kind":"library","modules":["B.Mod"],"other":0}]}"#;

fn two(alloc: Global) -> Result<Workspace, Fail>
    ensures targets { IfOk result (λ workspace. length workspace.targets ≡ 2) }
    ensures pairs { IfOk result (λ workspace. length (pairs_of workspace.targets) ≡ 3) }
{
    match read(alloc, &held(alloc, TWO)?)? {
        Ok(workspace) => sized(workspace),
        Err(_) => Err(Fail::new("refused")),
    }
}

fn sized(workspace: Workspace) -> Result<Workspace, Fail>
    ensures targets { IfOk result (λ workspace. length workspace.targets ≡ 2) }
    ensures pairs { IfOk result (λ workspace. length (pairs_of workspace.targets) ≡ 3) }
{
    let targets = workspace.targets().len();
    let pairs = workspace.pairs().len();
    if targets == 2 && pairs == 3 {
        Ok(workspace)
    } else {
        Err(Fail::new("size"))
    }
}

/// The address of a target, and its index, if it has one.
const TARGETS: &[(&str, Option<u32>)] = &[
    ("file:///w/?id=lib", Some(1)),
    ("FILE:///w/?id=app", Some(0)),
    ("file:///w/?id=zzz", None),
];

#[test]
fn finds_targets(rt: HostRuntime) -> Result<(), Fail> {
    let workspace = two(rt.alloc())?;
    for (uri, wanted) in TARGETS {
        assert!(rt; workspace.target_named(uri)? == *wanted, "{uri}");
    }
    Ok(())
}

/// The address of a document, and the targets that list it.
const DOCUMENTS: &[(&str, &[u32])] = &[
    ("file:///w/d/C.Mod", &[0]),
    ("file:///w/x/../B.Mod", &[1]),
    ("file:///w/Z.Mod", &[]),
];

#[test]
fn finds_documents(rt: HostRuntime) -> Result<(), Fail> {
    let workspace = two(rt.alloc())?;
    for (uri, wanted) in DOCUMENTS {
        assert!(rt; workspace.inverse(uri)?.as_slice() == *wanted, "{uri}");
    }
    Ok(())
}

fn is_app(target: &Target) -> bool {
    target.kind == TargetKind::Application
        && target.main.is_some()
        && target.dependencies.as_slice() == [1u32].as_slice()
}

#[test]
fn lists_targets(rt: HostRuntime) -> Result<(), Fail> {
    let workspace = two(rt.alloc())?;
    assert!(rt; is_app(&workspace.targets()[0]));
    assert!(rt; workspace.targets()[1].main.is_none());
    Ok(())
}

#[test]
fn closes_targets(rt: HostRuntime) -> Result<(), Fail> {
    let workspace = two(rt.alloc())?;
    let closure = workspace.closure(&[0])?;
    assert!(rt; closure.as_slice() == [0u32, 1].as_slice());
    Ok(())
}

/// The pair that a name means to the modules of a target.
fn seen(alloc: Global, workspace: &Workspace, target: u32, name: &str) -> Result<Option<u32>, Fail>
    requires { target < length workspace.now.targets }
{
    let name = Name::new(alloc, name.as_bytes())?;
    Ok(workspace.visible(target, &name))
}

#[test]
fn sees_pairs(rt: HostRuntime) -> Result<(), Fail> {
    let workspace = two(rt.alloc())?;
    assert!(rt; seen(rt.alloc(), &workspace, 0, "B")? == Some(2));
    assert!(rt; seen(rt.alloc(), &workspace, 1, "A")?.is_none());
    Ok(())
}

#[test]
fn writes_ids(rt: HostRuntime) -> Result<(), Fail> {
    let workspace = two(rt.alloc())?;
    let id = workspace.target_id(1)?;
    assert!(rt; id.as_text().as_slice() == b"file:///w/?id=lib".as_slice());
    Ok(())
}

#[test]
fn writes_addresses(rt: HostRuntime) -> Result<(), Fail> {
    let workspace = two(rt.alloc())?;
    let address = workspace.document_of(1)?;
    assert!(rt; address.as_text().as_slice() == b"file:///w/d/C.Mod".as_slice());
    Ok(())
}

#[test]
fn gives_stems(rt: HostRuntime) -> Result<(), Fail> {
    let alloc = rt.alloc();
    let path = Path::new(alloc, b"d/C.x.Mod")?;
    let stem = stem_of(alloc, &path)?;
    assert_eq!(rt; stem.as_slice(), b"C".as_slice());
    Ok(())
}
