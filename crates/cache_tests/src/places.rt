//! Which texts of a pair are found.
use crate::facts::{fact_alone, held_of, pair};
use check_cache::{Cache, PairKey};
use indexmap::IndexSet;
use std::alloc::Global;
use std::test::Fail;

/// Texts of one module.
const TEXTS: [&str; 3] = [
    "MODULE A; CONST k* = 1; END A.",
    "MODULE A; CONST k* = 2; END A.",
    "MODULE A; CONST k* = 3; END",
];

/// What is put, one after another, as the number of the text, or as its letter where it is put late; and which of the texts
/// are found then.
const ROWS: [(&str, &str); 9] = [
    ("", "000"),
    ("0", "100"),
    ("01", "110"),
    ("010", "110"),
    ("012", "011"),
    ("0b", "110"),
    ("0bc", "101"),
    ("c", "001"),
    ("c0", "101"),
];

#[test]
fn finds_two_texts_of_a_pair(rt: HostRuntime) -> Result<(), Fail> {
    let alloc = rt.alloc();
    for &(acts, want) in &ROWS {
        let here = pair(alloc, "lib", "A.Mod")?;
        let mut cache = Cache::new(alloc);
        put_all(alloc, &mut cache, &here, acts)?;
        assert_eq!(rt; found(alloc, &cache, &here)?.as_str(), want, "{acts:?}");
    }
    Ok(())
}

#[test]
fn finds_nothing_of_other_pairs(rt: HostRuntime) -> Result<(), Fail> {
    let alloc = rt.alloc();
    let here = pair(alloc, "lib", "A.Mod")?;
    let mut cache = Cache::new(alloc);
    put_all(alloc, &mut cache, &here, "0b")?;
    for (target, path) in [("app", "A.Mod"), ("lib", "B.Mod"), ("lib", "A.Mo")] {
        let there = pair(alloc, target, path)?;
        assert_eq!(rt; found(alloc, &cache, &there)?.as_str(), "000", "{path:?}");
    }
    Ok(())
}

/// Two texts of each of three pairs.
fn three_pairs(alloc: Global) -> Result<Cache, Fail> {
    let mut cache = Cache::new(alloc);
    for &(target, path) in &PAIRS {
        let here = pair(alloc, target, path)?;
        put_all(alloc, &mut cache, &here, "0b")?;
    }
    Ok(cache)
}

const PAIRS: [(&str, &str); 3] = [("lib", "A.Mod"), ("lib", "B.Mod"), ("app", "A.Mod")];

#[test]
fn keeps_pairs(rt: HostRuntime) -> Result<(), Fail> {
    let alloc = rt.alloc();
    for (target, path, want) in [
        ("lib", "A.Mod", "110000000"),
        ("lib", "B.Mod", "000110000"),
        ("app", "A.Mod", "000000110"),
        ("app", "B.Mod", "000000000"),
    ] {
        let mut cache = three_pairs(alloc)?;
        let mut kept = IndexSet::new(alloc);
        kept.insert(pair(alloc, target, path)?)?;
        cache.keep_pairs(&kept);
        assert_eq!(rt; found_of_all(alloc, &cache)?.as_str(), want);
    }
    Ok(())
}

fn put_all(alloc: Global, cache: &mut Cache, here: &PairKey, acts: &str) -> Result<(), Fail> {
    for act in acts.as_bytes() {
        put(alloc, cache, here, *act)?;
    }
    Ok(())
}

fn put(alloc: Global, cache: &mut Cache, here: &PairKey, act: u8) -> Result<(), Fail> {
    match act {
        b'0' => cache.store(here, fact_alone(alloc, "A", TEXTS[0])?)?,
        b'1' => cache.store(here, fact_alone(alloc, "A", TEXTS[1])?)?,
        b'2' => cache.store(here, fact_alone(alloc, "A", TEXTS[2])?)?,
        b'b' => cache.store_late(here, fact_alone(alloc, "A", TEXTS[1])?)?,
        _ => cache.store_late(here, fact_alone(alloc, "A", TEXTS[2])?)?,
    }
    Ok(())
}

/// For each text whether it is found.
fn found(alloc: Global, cache: &Cache, here: &PairKey) -> Result<String, Fail> {
    let mut out = String::new(alloc);
    for &text in &TEXTS {
        let held = held_of(alloc, text)?;
        let mark = if cache.look(here, &held, &[]).is_some() {
            "1"
        } else {
            "0"
        };
        out.push_str(mark)?;
    }
    Ok(out)
}

fn found_of_all(alloc: Global, cache: &Cache) -> Result<String, Fail> {
    let mut out = String::new(alloc);
    for &(target, path) in &PAIRS {
        let here = pair(alloc, target, path)?;
        out.push_str(found(alloc, cache, &here)?.as_str())?;
    }
    Ok(out)
}
