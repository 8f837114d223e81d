//! Modules that import one: by which names and numbers they are found, and what a known text imports.
use crate::facts::{fact_alone, fact_importing, held_of, pair};
use check_cache::{Cache, PairKey};
use ob_text::{Items, Name, Path};
use std::alloc::Global;
use std::test::Fail;
use target_graph::{Pair, Target, TargetKind};

const B: &str = "MODULE B; CONST k* = 1; END B.";

const TEXT: &str = "MODULE A; IMPORT B; CONST l* = B.k; END A.";

/// The names and numbers that are asked for where B has the number 7, and whether the check is found.
const ROWS: [(&str, u64, bool); 4] = [
    ("B", 7, true),
    ("B", 8, false),
    ("C", 7, false),
    ("", 7, false),
];

#[test]
fn finds_by_names_and_numbers(rt: HostRuntime) -> Result<(), Fail> {
    let alloc = rt.alloc();
    let here = pair(alloc, "lib", "A.Mod")?;
    let cache = importing_cache(alloc, &here)?;
    let held = held_of(alloc, TEXT)?;
    for &(name, number, want) in &ROWS {
        let imports = [(Name::new(alloc, name.as_bytes())?, number)];
        assert_eq!(rt;
            cache.look(&here, &held, &imports).is_some(),
            want,
            "{name:?} {number:?}"
        );
    }
    assert!(rt; cache.look(&here, &held, &[]).is_none());
    Ok(())
}

/// The check of A, and what it found.
#[test]
fn gives_the_check(rt: HostRuntime) -> Result<(), Fail> {
    let alloc = rt.alloc();
    let here = pair(alloc, "lib", "A.Mod")?;
    let cache = importing_cache(alloc, &here)?;
    let held = held_of(alloc, TEXT)?;
    let imports = [(Name::new(alloc, b"B")?, 7)];
    let hit = cache.look(&here, &held, &imports).ok_or("not found")?;
    assert_eq!(rt; hit.fact.checked().list.len(), 0);
    assert_eq!(rt; hit.fact.stem().as_slice(), b"A".as_slice());
    assert_eq!(rt; hit.fact.keys().len(), 1);
    Ok(())
}

#[test]
fn knows_what_a_text_imports(rt: HostRuntime) -> Result<(), Fail> {
    let alloc = rt.alloc();
    let here = pair(alloc, "lib", "A.Mod")?;
    let cache = importing_cache(alloc, &here)?;
    for (text, want) in [(TEXT, Some("B")), ("MODULE A; END A.", None)] {
        let held = held_of(alloc, text)?;
        let first = match cache.imports(&here, &held) {
            Some([only]) => std::str::from_utf8(only.as_slice()).ok(),
            _ => None,
        };
        assert_eq!(rt; first, want, "{text:?}");
    }
    Ok(())
}

fn importing_cache(alloc: Global, here: &PairKey) -> Result<Cache, Fail> {
    let imported = fact_alone(alloc, "B", B)?;
    let fact = fact_importing(alloc, TEXT, "B", &imported.checked().view, 7)?;
    let mut cache = Cache::new(alloc);
    cache.store(here, fact)?;
    Ok(cache)
}

#[test]
fn a_pair_has_a_key(rt: HostRuntime) -> Result<(), Fail> {
    let alloc = rt.alloc();
    let targets = [target(alloc, "lib")?, target(alloc, "app")?];
    let of_app = Pair {
        target: 1,
        path: Path::new(alloc, b"A.Mod")?,
    };
    let key = PairKey::of(alloc, &targets, &of_app)?;
    assert_eq!(rt; key, pair(alloc, "app", "A.Mod")?);
    Ok(())
}

fn target(alloc: Global, name: &str) -> Result<Target, Fail> {
    Ok(Target {
        name: Name::new(alloc, name.as_bytes())?,
        kind: TargetKind::Library,
        modules: Items::from_vec(Vec::new(alloc)),
        dependencies: Items::from_vec(Vec::new(alloc)),
        main: None,
    })
}
