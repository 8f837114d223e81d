//! What modules show.
use crate::texts::{checked, listed, shown};
use indexmap::IndexMap;
use ob_text::Name;
use oberon_types::View;
use std::test::Fail;

/// A text of A.Mod and what it shows. Only a module that is broken has diagnostics.
const TABLE: [(&str, &str); 10] = [
    ("MODULE A; END A.", ""),
    (
        "MODULE A; CONST K* = 2; L* = K * 3; TYPE T* = RECORD x*: INTEGER; y: CHAR END; END A.",
        "K = 2;L = 6;T type record A.T of size 2, x INTEGER;",
    ),
    (
        "MODULE A; CONST b* = 1; a* = 2; c = 3; END A.",
        "a = 2;b = 1;",
    ),
    (
        "MODULE A; VAR v*, w: ARRAY 3 OF CHAR; END A.",
        "v variable array of 3;",
    ),
    (
        "MODULE A; TYPE T* = RECORD x*: INTEGER END; U* = RECORD (T) y*: CHAR; z: SET; t*: T END; END A.",
        "T type record A.T of size 1, x INTEGER;U type record A.U of size 4 over A.T, y CHAR, t record A.T;",
    ),
    (
        "MODULE A; CONST a* = -7 DIV 2; b* = (-7) DIV 2; c* = -7 MOD 2; d* = (-7) MOD 2; END A.",
        "a = -3;b = -4;c = -1;d = 1;",
    ),
    (
        "MODULE A; PROCEDURE P*(x, y: INTEGER; VAR z: CHAR); END P; END A.",
        "P procedure 3;",
    ),
    (
        "MODULE A; CONST k* = \"ab\"; l* = \"a\"; m* = {1, 3}; END A.",
        "k = 2 bytes;l = 1 bytes;m = set 10;",
    ),
    ("MODULE A; CONST k* = 1; VAR a: T; END A.", "broken"),
    ("MODULE A; CONST k* = 1", "broken"),
];

#[test]
fn shows_what_is_exported(rt: HostRuntime) -> Result<(), Fail> {
    let alloc = rt.alloc();
    let views = IndexMap::new(alloc);
    for &(text, want) in &TABLE {
        let found = checked(alloc, text, &views)?;
        assert_eq!(rt; shown(alloc, &found.view)?.as_str(), want, "{text:?}");
        assert_eq!(rt; found.list.is_empty(), want != "broken", "{text:?}");
    }
    Ok(())
}

/// A text of A.Mod that imports B, and its diagnostics. B has a constant k, and a record T with a hidden field.
const IMPORTING: [(&str, &str); 6] = [
    ("MODULE A; IMPORT B; CONST l = B.k + 1; END A.", ""),
    ("MODULE A; IMPORT X := B; CONST l = X.k + 1; END A.", ""),
    (
        "MODULE A; IMPORT X := B; CONST l = B.k + 1; END A.",
        "0:17-0:18 unusedImport; 0:35-0:36 noName;",
    ),
    (
        "MODULE A; IMPORT B; CONST l = B.m; END A.",
        "0:32-0:33 noName;",
    ),
    (
        "MODULE A; IMPORT B; TYPE U = RECORD (B.T) y: CHAR END; END A.",
        "",
    ),
    (
        "MODULE A; IMPORT B; TYPE U = RECORD (B.T) x: CHAR END; END A.",
        "0:42-0:43 nameTwice;",
    ),
];

#[test]
fn sees_what_is_shown(rt: HostRuntime) -> Result<(), Fail> {
    let alloc = rt.alloc();
    let none = IndexMap::new(alloc);
    let text = "MODULE A; CONST k* = 2; TYPE T* = RECORD x*: CHAR; y: CHAR END; END A.";
    let mut views: IndexMap<Name, View> = IndexMap::new(alloc);
    views.insert(
        Name::new(alloc, b"B".as_slice())?,
        checked(alloc, text, &none)?.view,
    )?;
    for &(text, want) in &IMPORTING {
        let found = checked(alloc, text, &views)?;
        assert_eq!(rt;
            listed(alloc, found.list.as_slice())?.as_str(),
            want,
            "{text:?}"
        );
    }
    Ok(())
}
