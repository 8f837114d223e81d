//! The lists of a clean build.
ghost use Rattle.std.specs.Prelude.{◌≡◌, [], ◌∷◌, map};
ghost use Rattle.std.specs.List.{All};
ghost use Rattle.ob_text.specs.Held.{IsReadable};
ghost use Rattle.target_graph.specs.Workspace.{pairs_of, IsClosure};

use crate::worlds::{snapshot, workspace};
use clean_build::clean_build;
use ob_text::{Diagnostic, NoMemory, Snapshot};
use std::alloc::Global;
use std::sync::Arc;
use std::test::Fail;
use target_graph::Workspace;

/// The texts of A, B and C, where an empty one is of no file, and what is found in each: the code of each diagnostic, and the
/// line and the character where it begins.
const ROWS: &[([&str; 3], [&str; 3])] = &[
    ([A, B, C], ["", "", ""]),
    // What B names isn't there, so that B is broken, and A can't import it.
    (
        [A, B, "MODULE C; CONST l* = 1; END C."],
        [" importBroken 0:17", " noName 0:33", ""],
    ),
    (
        [A, B, "MODULE C; CONST k* = 1; END"],
        [" importBroken 0:17", " importBroken 0:17", " badToken 0:27"],
    ),
    (
        [A, B, ""],
        [
            " importBroken 0:17",
            " importBroken 0:17",
            " documentAbsent 0:0",
        ],
    ),
    // B and C import each other.
    (
        [A, B, "MODULE C; IMPORT B; CONST k* = 1; END C."],
        [
            " importCyclic 0:17",
            " importCyclic 0:17",
            " importCyclic 0:17",
        ],
    ),
    // The library doesn't see A.
    (
        [A, B, "MODULE C; IMPORT A; CONST k* = 1; END C."],
        [" importBroken 0:17", " importBroken 0:17", " noModule 0:17"],
    ),
    // A imports C alone, and has two of its own.
    (
        ["MODULE A; IMPORT C;\nCONST n = C.l;\nEND B.", B, C],
        [" noName 1:12 endName 2:4", "", ""],
    ),
];

const C: &str = "MODULE C; CONST k* = 1; END C.";

const A: &str = "MODULE A; IMPORT B; CONST n = B.m; END A.";

const B: &str = "MODULE B; IMPORT C; CONST m* = C.k + 1; END B.";

/// Some modules of the workspace, in some order.
#[derive(Clone, Copy)]
enum Modules {
    InOrder,
    Turned,
    OfLibrary,
}

#[test]
fn finds_the_list_of_each_module(rt: HostRuntime) -> Result<(), Fail> {
    let alloc = rt.alloc();
    for (texts, [a, b, c]) in ROWS {
        let want = format!(in alloc; "{a};{b};{c};")?;
        let found = found(alloc, texts, Modules::InOrder)?;
        assert_eq!(rt; found.as_str(), want.as_str(), "{texts:?}");
    }
    Ok(())
}

/// The lists stand in the order of the modules that were given.
#[test]
fn keeps_the_order(rt: HostRuntime) -> Result<(), Fail> {
    let alloc = rt.alloc();
    for (texts, [a, b, c]) in ROWS {
        let want = format!(in alloc; "{c};{a};{b};")?;
        let found = found(alloc, texts, Modules::Turned)?;
        assert_eq!(rt; found.as_str(), want.as_str(), "{texts:?}");
    }
    Ok(())
}

/// What isn't asked for has no list, and changes none.
#[test]
fn takes_a_part(rt: HostRuntime) -> Result<(), Fail> {
    let alloc = rt.alloc();
    for (texts, [_, b, c]) in ROWS {
        let want = format!(in alloc; "{b};{c};")?;
        let found = found(alloc, texts, Modules::OfLibrary)?;
        assert_eq!(rt; found.as_str(), want.as_str(), "{texts:?}");
    }
    Ok(())
}

/// What a clean build finds in some modules, where these are the texts of all.
fn found(alloc: Global, texts: &[&str; 3], modules: Modules) -> Result<String, Fail> {
    let lists = lists_of(alloc, workspace(alloc)?, modules, snapshot(alloc, texts)?)?;
    told(alloc, lists.as_slice())
}

fn lists_of(
    alloc: Global,
    workspace: Workspace,
    modules: Modules,
    snapshot: Snapshot,
) -> Result<Vec<Vec<Diagnostic>>, NoMemory>
    requires pairs { map (λ pair. pair.target) (pairs_of workspace.targets) ≡ 0 ∷ 1 ∷ 1 ∷ [] }
    requires library { IsClosure workspace.targets (1 ∷ []) (1 ∷ []) }
    requires texts { All (λ entry. IsReadable entry.1) snapshot.entries }
{
    let workspace = Arc::new(alloc, workspace)?;
    match modules {
        Modules::InOrder => clean_build(alloc, workspace, &[0, 1, 2], snapshot),
        Modules::Turned => clean_build(alloc, workspace, &[2, 0, 1], snapshot),
        Modules::OfLibrary => clean_build(alloc, workspace, &[1, 2], snapshot),
    }
}

/// The code of each diagnostic, with the line and the character where it begins, and a `;` behind each list.
fn told(alloc: Global, lists: &[Vec<Diagnostic>]) -> Result<String, Fail> {
    let mut told = String::new(alloc);
    for list in lists {
        for it in list {
            let at = it.range.start;
            write!(told, " {} {}:{}", it.code.name(), at.line, at.character)?;
        }
        told.push_str(";")?;
    }
    Ok(told)
}
