//! The diagnostics of modules.
use crate::texts::{checked, listed};
use indexmap::IndexMap;
use ob_text::Name;
use oberon_types::View;
use std::alloc::Global;
use std::test::Fail;

/// A text of A.Mod and its diagnostics, each its range and its code. B is missing, C broken, and D leads back.
const TABLE: [(&str, &str); 61] = [
    ("MODULE A; END A.", ""),
    // Names of the module.
    ("MODULE B; END B.", "0:7-0:8 moduleName;"),
    ("MODULE A; END B.", "0:14-0:15 endName;"),
    ("MODULE A; PROCEDURE P; END P; END A.", ""),
    ("MODULE A; PROCEDURE P; END Q; END A.", "0:27-0:28 endName;"),
    // Imports.
    ("MODULE A; IMPORT B; END A.", "0:17-0:18 noModule;"),
    ("MODULE A; IMPORT X := C; END A.", "0:22-0:23 importBroken;"),
    ("MODULE A; IMPORT D; END A.", "0:17-0:18 importCyclic;"),
    (
        "MODULE A; IMPORT B; CONST k = B.x; END A.",
        "0:17-0:18 noModule;",
    ),
    // Names that are declared twice: the first counts.
    ("MODULE A; VAR a: INTEGER; b: CHAR; END A.", ""),
    (
        "MODULE A; VAR a: INTEGER; a: CHAR; END A.",
        "0:26-0:27 nameTwice;",
    ),
    (
        "MODULE A; VAR a, a: INTEGER; END A.",
        "0:17-0:18 nameTwice;",
    ),
    (
        "MODULE A; CONST k = 1; k = 2; END A.",
        "0:23-0:24 nameTwice;",
    ),
    ("MODULE A; CONST INTEGER = 1; END A.", ""),
    (
        "MODULE A; TYPE T = RECORD a: CHAR; b, a: CHAR END; END A.",
        "0:38-0:39 nameTwice;",
    ),
    (
        "MODULE A; TYPE T = RECORD a: CHAR END; U = RECORD (T) a: CHAR END; END A.",
        "0:54-0:55 nameTwice;",
    ),
    (
        "MODULE A; PROCEDURE P(x: CHAR); VAR y: CHAR; END P; END A.",
        "",
    ),
    (
        "MODULE A; PROCEDURE P(x: CHAR); VAR x: CHAR; END P; END A.",
        "0:36-0:37 nameTwice;",
    ),
    (
        "MODULE A; VAR x: CHAR; PROCEDURE P(x: CHAR); END P; END A.",
        "",
    ),
    // Names that mean nothing at their place.
    ("MODULE A; VAR a: T; END A.", "0:17-0:18 noName;"),
    (
        "MODULE A; TYPE T = RECORD a: T END; END A.",
        "0:29-0:30 noName;",
    ),
    ("MODULE A; CONST k = k; END A.", "0:20-0:21 noName;"),
    (
        "MODULE A; PROCEDURE P; VAR x: CHAR; END P; PROCEDURE Q; CONST k = x; END Q; END A.",
        "0:66-0:67 noName;",
    ),
    // No type.
    (
        "MODULE A; CONST k = 1; VAR a: k; END A.",
        "0:30-0:31 notType;",
    ),
    ("MODULE A; VAR a: ABS; END A.", "0:17-0:20 notType;"),
    // Constants.
    ("MODULE A; CONST k = 1; l = k + 1; END A.", ""),
    (
        "MODULE A; VAR a: INTEGER; TYPE T = CHAR; END A.",
        "0:26-0:30 badToken;",
    ),
    (
        "MODULE A; PROCEDURE P; CONST k = LEN; END P; END A.",
        "0:33-0:36 badCall;",
    ),
    (
        "MODULE A; PROCEDURE P(x: INTEGER); CONST k = x + 1; END P; END A.",
        "0:45-0:50 notConstant;",
    ),
    ("MODULE A; CONST k = 2147483647; END A.", ""),
    (
        "MODULE A; CONST k = 2147483647 + 1; END A.",
        "0:20-0:34 constantRange;",
    ),
    ("MODULE A; CONST k = -2147483647 - 1; END A.", ""),
    (
        "MODULE A; CONST k = -2147483647 - 2; END A.",
        "0:20-0:35 constantRange;",
    ),
    (
        "MODULE A; CONST k = 7 DIV 0; END A.",
        "0:20-0:27 constantRange;",
    ),
    ("MODULE A; CONST k = {0..31}; END A.", ""),
    (
        "MODULE A; CONST k = {0..32}; END A.",
        "0:20-0:27 constantRange;",
    ),
    // Lengths, sizes and weights.
    ("MODULE A; VAR a: ARRAY 1 OF CHAR; END A.", ""),
    (
        "MODULE A; VAR a: ARRAY 0 OF CHAR; END A.",
        "0:23-0:24 constantRange;",
    ),
    (
        "MODULE A; VAR a: ARRAY \"x\" OF CHAR; END A.",
        "0:23-0:26 constantRange;",
    ),
    ("MODULE A; VAR a: ARRAY 1024, 1024 OF CHAR; END A.", ""),
    (
        "MODULE A; VAR a: ARRAY 1024, 1025 OF CHAR; END A.",
        "0:17-0:22 typeTooLarge;",
    ),
    (
        "MODULE A; TYPE T = RECORD a: ARRAY 1048576 OF CHAR END; END A.",
        "",
    ),
    (
        "MODULE A; TYPE T = RECORD a: ARRAY 1048576 OF CHAR; b: CHAR END; END A.",
        "0:19-0:25 typeTooLarge;",
    ),
    // Bases and results.
    (
        "MODULE A; TYPE T = RECORD END; U = RECORD (T) END; END A.",
        "",
    ),
    (
        "MODULE A; TYPE T = CHAR; U = RECORD (T) END; END A.",
        "0:37-0:38 badBase;",
    ),
    ("MODULE A; PROCEDURE P(): SET; RETURN {} END P; END A.", ""),
    (
        "MODULE A; TYPE T = RECORD END; PROCEDURE P(): T; RETURN 1 END P; END A.",
        "0:46-0:47 badResult;",
    ),
    // Expressions of constants.
    ("MODULE A; CONST k = 1 + 2 * 3; END A.", ""),
    (
        "MODULE A; CONST k = 1 + TRUE; END A.",
        "0:22-0:23 badOperand;",
    ),
    ("MODULE A; CONST k = ~1; END A.", "0:20-0:21 badOperand;"),
    (
        "MODULE A; CONST k = {TRUE}; END A.",
        "0:21-0:25 notInteger;",
    ),
    (
        "MODULE A; CONST k = INTEGER; END A.",
        "0:20-0:27 notVariable;",
    ),
    ("MODULE A; CONST k = ABS(-1); END A.", ""),
    (
        "MODULE A; CONST k = ABS(); END A.",
        "0:20-0:23 argumentCount;",
    ),
    (
        "MODULE A; CONST k = ABS(TRUE); END A.",
        "0:24-0:28 badArgument;",
    ),
    (
        "MODULE A; CONST k = 1; l = k.x; END A.",
        "0:28-0:29 badSelector;",
    ),
    // Each once, in the order of the text.
    (
        "MODULE B; VAR a: T; b: U; END C.",
        "0:7-0:8 moduleName; 0:17-0:18 noName; 0:23-0:24 noName; 0:30-0:31 endName;",
    ),
    // Names in statements.
    ("MODULE A; BEGIN x := 1 END A.", "0:16-0:17 noName;"),
    // What has no tree.
    ("MODULE A; BEGIN x = 1 END A.", "0:18-0:19 badToken;"),
    ("MODULE A; (* x", "0:10-0:12 openComment;"),
    ("", "0:0-0:0 badToken;"),
];

/// B is missing, C broken, and D leads back.
fn views(alloc: Global) -> Result<IndexMap<Name, View>, Fail> {
    let mut views = IndexMap::new(alloc);
    views.insert(Name::new(alloc, b"C".as_slice())?, View::Broken)?;
    views.insert(Name::new(alloc, b"D".as_slice())?, View::Cyclic)?;
    Ok(views)
}

#[test]
fn tells_each_diagnostic(rt: HostRuntime) -> Result<(), Fail> {
    let alloc = rt.alloc();
    let views = views(alloc)?;
    for &(text, want) in &TABLE {
        let found = checked(alloc, text, &views)?;
        assert_eq!(rt;
            listed(alloc, found.list.as_slice())?.as_str(),
            want,
            "{text:?}"
        );
    }
    Ok(())
}
