//! A workspace, and what is handed out of it.
ghost use Rattle.std.specs.Prelude.{◌≡◌, [], ◌∷◌, map, IfOk, IsTrue};
ghost use Rattle.std.specs.List.{All};
ghost use Rattle.ob_text.specs.Held.{IsReadable};
ghost use Rattle.target_graph.specs.Workspace.{pairs_of, IsClosure};

use ob_text::{Held, Items, Path, Snapshot, Text};
use std::alloc::Global;
use std::test::Fail;
use target_graph::{RootFault, Workspace, root_of};

/// Two targets, of which `app` depends on `lib`.
const FILE: &str = r#"{"version":1,"targets":[
{"name":"app","kind":"application","modules":["A.Mod"],"dependencies":["lib"],"main":"A"},
{"name":"lib","kind":"library","modules":["B.Mod","C.Mod"]}]}"#;

/// The workspace of these targets.
pub fn workspace(alloc: Global) -> Result<Workspace, Fail>
    ensures pairs { IfOk result (λ it. map (λ pair. pair.target) (pairs_of it.targets) ≡ 0 ∷ 1 ∷ 1 ∷ []) }
    ensures library { IfOk result (λ it. IsClosure it.targets (1 ∷ []) (1 ∷ [])) }
{
    let file = Held::Text(Text::new(alloc, FILE.as_bytes())?);
    let root = match root_of(alloc, "file:///w") {
        Ok(root) => root,
        Err(RootFault::BadRoot) => return Err(Fail::new("bad root")),
        Err(RootFault::NoMemory) => return Err(Fail::new("no memory")),
    };
    match Workspace::read(alloc, &file, root) {
        Ok(workspace) => shaped(workspace),
        Err(_) => Err(Fail::new("refused")),
    }
}

/// A workspace whose first module is of its first target, as no other is, and whose second target depends on no other.
fn shaped(workspace: Workspace) -> Result<Workspace, Fail>
    ensures pairs { IfOk result (λ it. map (λ pair. pair.target) (pairs_of it.targets) ≡ 0 ∷ 1 ∷ 1 ∷ []) }
    ensures library { IfOk result (λ it. IsClosure it.targets (1 ∷ []) (1 ∷ [])) }
{
    if has_pairs(&workspace) && has_library(&workspace)? {
        Ok(workspace)
    } else {
        Err(Fail::new("another workspace"))
    }
}

fn has_pairs(workspace: &Workspace) -> bool
    ensures { IsTrue result → map (λ pair. pair.target) (pairs_of workspace.now.targets) ≡ 0 ∷ 1 ∷ 1 ∷ [] }
{
    let [a, b, c] = workspace.pairs() else {
        return false;
    };
    a.target == 0 && b.target == 1 && c.target == 1
}

fn has_library(workspace: &Workspace) -> Result<bool, Fail>
    ensures { IfOk result (λ has. IsTrue has → IsClosure workspace.now.targets (1 ∷ []) (1 ∷ [])) }
{
    if workspace.targets().len() < 2 {
        return Ok(false);
    }
    let closure = workspace.closure(&[1])?;
    Ok(closure.as_slice() == [1u32].as_slice())
}

/// What is handed out where A, B and C have these texts. An empty text is of no file.
pub fn snapshot(alloc: Global, texts: &[&str; 3]) -> Result<Snapshot, Fail>
    ensures { IfOk result (λ it. All (λ entry. IsReadable entry.1) it.entries) }
{
    let mut entries = Vec::new(alloc);
    entries.push(entry(alloc, "A.Mod", texts[0])?)?;
    entries.push(entry(alloc, "B.Mod", texts[1])?)?;
    entries.push(entry(alloc, "C.Mod", texts[2])?)?;
    Ok(Snapshot {
        entries: Items::from_vec(entries),
    })
}

fn entry(alloc: Global, path: &str, text: &str) -> Result<(Path, Held), Fail>
    ensures { IfOk result (λ entry. IsReadable entry.1) }
{
    let path = Path::new(alloc, path.as_bytes())?;
    Ok((path, held(alloc, text)?))
}

fn held(alloc: Global, text: &str) -> Result<Held, Fail>
    ensures { IfOk result IsReadable }
{
    if text.is_empty() {
        return Ok(Held::Absent);
    }
    if text.len() > 262_144 {
        return Err(Fail::new("too long"));
    }
    Ok(Held::Text(Text::new(alloc, text.as_bytes())?))
}
