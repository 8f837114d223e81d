//! `imports_of`: the modules that a module imports, from a copy of its tree.
use crate::texts::scanned;
use oberon_imports::imports_of;
use oberon_parse::parse;
use oberon_tree::Tree;
use std::alloc::Global;
use std::test::Fail;

/// The imports of a module, and the names of the modules that are imported.
const IMPORTS: [(&str, &str); 4] = [
    ("", ""),
    ("IMPORT B;", "B;"),
    ("IMPORT L := M, B, C := B, M;", "M;B;"),
    ("IMPORT B := C, C := B;", "C;B;"),
];

/// A copy of the tree of a module with these imports.
fn copied(alloc: Global, imports: &str) -> Result<Tree, Fail> {
    let text = format!(in alloc; "MODULE A; {imports} END A.")?;
    match parse(alloc, &scanned(alloc, text.as_str())?.tokens) {
        Ok(tree) => Ok(tree.copy()?),
        Err(_) => Err(Fail::from("no module")),
    }
}

fn imported(alloc: Global, tree: &Tree) -> Result<String, Fail> {
    let mut out = String::new(alloc);
    for name in &imports_of(alloc, tree)? {
        out.push_str(String::from_utf8_lossy(alloc, name.as_slice())?.as_str())?;
        out.push_str(";")?;
    }
    Ok(out)
}

#[test]
fn names_each_import_once(rt: HostRuntime) -> Result<(), Fail> {
    let alloc = rt.alloc();
    for &(imports, want) in &IMPORTS {
        let tree = copied(alloc, imports)?;
        assert_eq!(rt; imported(alloc, &tree)?.as_str(), want, "{imports}");
    }
    Ok(())
}
