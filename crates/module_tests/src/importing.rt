//! Modules that may import others, and what is told of each.
use crate::texts::{checked, checked_as, listed};
use indexmap::IndexMap;
use ob_text::Name;
use oberon_types::View;
use std::alloc::Global;
use std::test::Fail;

/// What the cases import as B.
const B: &str =
    "MODULE B; CONST k* = 3; h = 1; TYPE T* = RECORD x*: INTEGER; y: CHAR END; S* = INTEGER; VAR v*: INTEGER; PROCEDURE F*(n: INTEGER): INTEGER; RETURN n END F; END B.";

/// Names: of the module, of imports, declared twice, unknown, and no type.
const NAMES: [(&str, &str); 52] = [
    ("MODULE A; END A.", ""),
    ("MODULE B; END B.", "0:7-0:8 moduleName;"),
    ("MODULE A; END B.", "0:14-0:15 endName;"),
    ("MODULE A; PROCEDURE P; END Q; END A.", "0:27-0:28 endName;"),
    ("MODULE A; PROCEDURE P; END P; END A.", ""),
    ("MODULE A; IMPORT B; VAR x: B.T; END A.", ""),
    ("MODULE A; IMPORT Nope; END A.", "0:17-0:21 noModule;"),
    ("MODULE A; IMPORT L := Nope; END A.", "0:22-0:26 noModule;"),
    ("MODULE A; IMPORT Bad; END A.", "0:17-0:20 importBroken;"),
    (
        "MODULE A; IMPORT L := Bad; VAR x: L.T; END A.",
        "0:22-0:25 importBroken;",
    ),
    (
        "MODULE A; IMPORT Loop; CONST c = Loop.x; END A.",
        "0:17-0:21 importCyclic;",
    ),
    (
        "MODULE A; IMPORT B, B; VAR x: B.T; END A.",
        "0:20-0:21 unusedImport; 0:20-0:21 nameTwice;",
    ),
    (
        "MODULE A; IMPORT B, B := Nope; VAR x: B.T; END A.",
        "0:20-0:21 nameTwice; 0:25-0:29 noModule;",
    ),
    (
        "MODULE A; IMPORT L := B; VAR x: L.T; y: B.T; END A.",
        "0:40-0:41 noName;",
    ),
    (
        "MODULE A; VAR x, x: INTEGER; END A.",
        "0:17-0:18 nameTwice;",
    ),
    (
        "MODULE A; CONST x = 1; VAR x: INTEGER; END A.",
        "0:27-0:28 nameTwice;",
    ),
    (
        "MODULE A; CONST x = 1; TYPE x = Nope; END A.",
        "0:28-0:29 nameTwice;",
    ),
    (
        "MODULE A; CONST x = 1; x = Nope; END A.",
        "0:23-0:24 nameTwice; 0:27-0:31 noName;",
    ),
    (
        "MODULE A; VAR x: INTEGER; PROCEDURE x(y: Nope); END x; END A.",
        "0:36-0:37 nameTwice; 0:41-0:45 noName;",
    ),
    (
        "MODULE A; PROCEDURE P(x, x: INTEGER); END P; END A.",
        "0:25-0:26 nameTwice;",
    ),
    (
        "MODULE A; PROCEDURE P(x: INTEGER); VAR x: CHAR; END P; END A.",
        "0:39-0:40 nameTwice;",
    ),
    (
        "MODULE A; VAR x: INTEGER; PROCEDURE P(x: INTEGER); VAR y: CHAR; END P; END A.",
        "",
    ),
    (
        "MODULE A; VAR P: INTEGER; A: CHAR; INTEGER: CHAR; END A.",
        "",
    ),
    ("MODULE A; PROCEDURE P; VAR P: INTEGER; END P; END A.", ""),
    (
        "MODULE A; TYPE T = RECORD x, x: INTEGER END; END A.",
        "0:29-0:30 nameTwice;",
    ),
    (
        "MODULE A; TYPE T = RECORD x: INTEGER; x: CHAR END; END A.",
        "0:38-0:39 nameTwice;",
    ),
    (
        "MODULE A; TYPE T = RECORD x: INTEGER END; U = RECORD (T) y: CHAR; x: CHAR END; END A.",
        "0:66-0:67 nameTwice;",
    ),
    (
        "MODULE A; TYPE T = RECORD x: INTEGER END; U = RECORD (T) y: RECORD x: CHAR END END; END A.",
        "",
    ),
    (
        "MODULE A; IMPORT B; TYPE U = RECORD (B.T) x: INTEGER; y: INTEGER END; END A.",
        "0:42-0:43 nameTwice;",
    ),
    (
        "MODULE A; TYPE T = RECORD x: INTEGER; x: Nope END; END A.",
        "0:38-0:39 nameTwice;",
    ),
    (
        "MODULE A; VAR x: INTEGER; x: Nope; y, x: Nope; END A.",
        "0:26-0:27 nameTwice; 0:38-0:39 nameTwice; 0:41-0:45 noName;",
    ),
    ("MODULE A; VAR x: T; END A.", "0:17-0:18 noName;"),
    (
        "MODULE A; TYPE U = T; T = INTEGER; END A.",
        "0:19-0:20 noName;",
    ),
    (
        "MODULE A; TYPE T = RECORD x: T END; END A.",
        "0:29-0:30 noName;",
    ),
    ("MODULE A; TYPE T = INTEGER; U = T; VAR x: U; END A.", ""),
    (
        "MODULE A; CONST c = d + 1; d = 2; END A.",
        "0:20-0:21 noName;",
    ),
    ("MODULE A; CONST c = c; END A.", "0:20-0:21 noName;"),
    ("MODULE A; IMPORT B; CONST c = B.k; END A.", ""),
    (
        "MODULE A; IMPORT B; CONST c = B.h; END A.",
        "0:32-0:33 noName;",
    ),
    (
        "MODULE A; IMPORT B; VAR x: B.Q; y: M.Q; END A.",
        "0:29-0:30 noName; 0:35-0:36 noName;",
    ),
    (
        "MODULE A; CONST c = 1; VAR x: c.T; END A.",
        "0:32-0:33 noName;",
    ),
    (
        "MODULE A; PROCEDURE P(x: INTEGER): x; RETURN 1 END P; END A.",
        "0:35-0:36 notType;",
    ),
    (
        "MODULE A; PROCEDURE P; VAR x: INTEGER; END P; PROCEDURE Q; CONST c = x; END Q; END A.",
        "0:69-0:70 noName;",
    ),
    (
        "MODULE A; PROCEDURE P; CONST c = Q; END P; PROCEDURE Q; CONST d = P; END Q; END A.",
        "0:33-0:34 noName; 0:66-0:67 badCall;",
    ),
    (
        "MODULE A; PROCEDURE P(INTEGER: CHAR; x: INTEGER); END P; END A.",
        "0:40-0:47 notType;",
    ),
    (
        "MODULE A; CONST c = 1; VAR x: c; END A.",
        "0:30-0:31 notType;",
    ),
    (
        "MODULE A; VAR x: INTEGER; y: x; END A.",
        "0:29-0:30 notType;",
    ),
    ("MODULE A; VAR x: ABS; END A.", "0:17-0:20 notType;"),
    (
        "MODULE A; IMPORT B; VAR x: B; y: B.v; z: B.F; w: B.k; END A.",
        "0:27-0:28 notType; 0:35-0:36 notType; 0:43-0:44 notType; 0:51-0:52 notType;",
    ),
    ("MODULE A; IMPORT B; VAR x: B.T; y: B.S; END A.", ""),
    (
        "MODULE A; TYPE T = RECORD a, b: CHAR END; U = RECORD (T) c, d, a, e, f, b: CHAR END; V = RECORD (U) g, h, i, j, k, d, a, g: CHAR END; END A.",
        "0:63-0:64 nameTwice; 0:72-0:73 nameTwice; 0:115-0:116 nameTwice; 0:118-0:119 nameTwice; 0:121-0:122 nameTwice;",
    ),
    (
        "MODULE A; IMPORT B; TYPE U = RECORD (B.T) p, q, y, r, s, x: CHAR END; END A.",
        "0:57-0:58 nameTwice;",
    ),
];

/// Constant expressions: what they are built of, their range, operands, calls and selectors.
const CONSTANTS: [(&str, &str); 38] = [
    (
        "MODULE A; CONST a = 1; b = -a * 3 + 2; c = TRUE & ~FALSE; d = {1, 3 .. 5} + {}; e = \"ab\"; f = 41X; END A.",
        "",
    ),
    (
        "MODULE A; VAR x: INTEGER; PROCEDURE P; CONST c = x + 1; END P; END A.",
        "0:49-0:54 notConstant;",
    ),
    (
        "MODULE A; VAR x: INTEGER; PROCEDURE P; CONST c = (x); END P; END A.",
        "0:49-0:52 notConstant;",
    ),
    (
        "MODULE A; VAR x: INTEGER; PROCEDURE P; VAR a: ARRAY x, 2 OF CHAR; END P; END A.",
        "0:52-0:53 notConstant;",
    ),
    (
        "MODULE A; VAR x: ARRAY 3 OF CHAR; PROCEDURE P; CONST c = LEN(x); END P; END A.",
        "0:57-0:63 notConstant;",
    ),
    (
        "MODULE A; VAR x: ARRAY 3 OF CHAR; PROCEDURE P; CONST c = x[0]; END P; END A.",
        "0:57-0:61 notConstant;",
    ),
    (
        "MODULE A; PROCEDURE F(): INTEGER; RETURN 1 END F; PROCEDURE P; CONST c = F(); END P; END A.",
        "0:73-0:76 notConstant;",
    ),
    (
        "MODULE A; PROCEDURE ABS(x: INTEGER): INTEGER; RETURN 1 END ABS; PROCEDURE P; CONST c = ABS(1); END P; END A.",
        "0:87-0:93 notConstant;",
    ),
    (
        "MODULE A; IMPORT B; CONST c = B.v; d = B.F(1); e = B.k; END A.",
        "0:30-0:33 notConstant; 0:39-0:45 notConstant;",
    ),
    (
        "MODULE A; TYPE R = RECORD END; PROCEDURE P(VAR r: R); CONST c = r IS R; END P; END A.",
        "0:64-0:70 notConstant;",
    ),
    (
        "MODULE A; CONST c = 1 DIV 0; d = 1 MOD 0; END A.",
        "0:20-0:27 constantRange; 0:33-0:40 constantRange;",
    ),
    (
        "MODULE A; CONST c = 1 MOD (-2); d = (-7) DIV (-2); e = (-7) DIV 2; END A.",
        "0:20-0:30 constantRange; 0:36-0:49 constantRange;",
    ),
    (
        "MODULE A; CONST a = 2147483647; b = -a - 1; c = a + 1; d = b - 1; e = -b; f = a * 2; END A.",
        "0:48-0:53 constantRange; 0:59-0:64 constantRange; 0:70-0:72 constantRange; 0:78-0:83 constantRange;",
    ),
    (
        "MODULE A; CONST c = {32}; d = {-1 .. 3}; e = {31}; f = {3 .. 1}; END A.",
        "0:20-0:24 constantRange; 0:30-0:39 constantRange;",
    ),
    (
        "MODULE A; CONST c = CHR(256); d = CHR(255); e = CHR(-1); END A.",
        "0:20-0:28 constantRange; 0:48-0:55 constantRange;",
    ),
    (
        "MODULE A; CONST c = LSL(1, 32); d = LSL(1, 31); e = ASR(1, -1); f = ROR(1, 0); END A.",
        "0:20-0:30 constantRange; 0:52-0:62 constantRange;",
    ),
    (
        "MODULE A; CONST c = ABS(-2147483647 - 1); d = ABS(-2147483647); END A.",
        "0:20-0:40 constantRange;",
    ),
    (
        "MODULE A; CONST c = FALSE & (1 DIV 0 = 1); d = TRUE OR (1 DIV 0 = 1); e = TRUE & (1 DIV 0 = 1); END A.",
        "0:74-0:94 constantRange;",
    ),
    (
        "MODULE A; VAR a: ARRAY 0 OF CHAR; b: ARRAY -1 OF CHAR; c: ARRAY 1 OF CHAR; END A.",
        "0:23-0:24 constantRange; 0:43-0:45 constantRange;",
    ),
    (
        "MODULE A; VAR a: ARRAY TRUE OF CHAR; b: ARRAY 2, \"a\" OF CHAR; END A.",
        "0:23-0:27 constantRange; 0:49-0:52 constantRange;",
    ),
    (
        "MODULE A; VAR a: ARRAY 1048577 OF CHAR; b: ARRAY 1048576 OF CHAR; END A.",
        "0:23-0:30 constantRange;",
    ),
    (
        "MODULE A; CONST n = 1 DIV 0; VAR a: ARRAY n OF CHAR; b: ARRAY Nope OF CHAR; END A.",
        "0:20-0:27 constantRange; 0:62-0:66 noName;",
    ),
    (
        "MODULE A; CONST c = 1 + TRUE; d = c + 1; END A.",
        "0:22-0:23 badOperand;",
    ),
    (
        "MODULE A; CONST c = 1 & TRUE; d = 1 / 2; e = ~1; f = -TRUE; g = TRUE < FALSE; END A.",
        "0:22-0:23 badOperand; 0:36-0:37 badOperand; 0:45-0:46 badOperand; 0:53-0:54 badOperand; 0:69-0:70 badOperand;",
    ),
    (
        "MODULE A; CONST c = \"a\" < \"b\"; d = \"ab\" = \"cd\"; e = {} # {1}; f = 1 IN 2; END A.",
        "0:68-0:70 badOperand;",
    ),
    (
        "MODULE A; CONST c = (1 + TRUE) * (2 OR 3); END A.",
        "0:23-0:24 badOperand; 0:36-0:38 badOperand;",
    ),
    (
        "MODULE A; CONST c = {TRUE}; d = {1 .. FALSE}; e = ~(1 = 2); END A.",
        "0:21-0:25 notInteger; 0:38-0:43 notInteger;",
    ),
    (
        "MODULE A; CONST c = INTEGER; d = 1 + CHAR; END A.",
        "0:20-0:27 notVariable; 0:37-0:41 notVariable;",
    ),
    (
        "MODULE A; PROCEDURE Q; END Q; PROCEDURE P; CONST c = Q; d = Q(); e = ABS; f = INC; END P; END A.",
        "0:53-0:54 badCall; 0:60-0:61 badCall; 0:69-0:72 badCall; 0:78-0:81 badCall;",
    ),
    (
        "MODULE A; VAR i: INTEGER; PROCEDURE P; CONST c = INC(i); END P; END A.",
        "0:49-0:52 badCall;",
    ),
    (
        "MODULE A; CONST c = LEN(1); d = LEN(INTEGER); END A.",
        "0:24-0:25 notVariable; 0:36-0:43 notVariable;",
    ),
    (
        "MODULE A; CONST c = ABS(1, 2); d = LSL(1); e = ORD(); END A.",
        "0:20-0:23 argumentCount; 0:35-0:38 argumentCount; 0:47-0:50 argumentCount;",
    ),
    (
        "MODULE A; CONST c = ABS(TRUE); d = ODD({}); e = ORD(1); f = CHR(\"a\"); g = LSL(1, TRUE); END A.",
        "0:24-0:28 badArgument; 0:39-0:40 badArgument; 0:52-0:53 badArgument; 0:64-0:67 badArgument; 0:81-0:85 badArgument;",
    ),
    (
        "MODULE A; CONST c = ORD(\"a\"); d = ORD(TRUE); e = ORD({31}); f = ORD(\"ab\"); END A.",
        "0:68-0:72 badArgument;",
    ),
    (
        "MODULE A; VAR i: INTEGER; PROCEDURE P; CONST c = i.x; d = i[0]; e = i(1); END P; END A.",
        "0:50-0:51 badSelector; 0:59-0:60 badSelector; 0:69-0:70 badSelector;",
    ),
    (
        "MODULE A; TYPE R = RECORD x: INTEGER END; VAR r: R; PROCEDURE P; CONST c = r.y; d = r.x; e = r[0]; END P; END A.",
        "0:77-0:78 noName; 0:84-0:87 notConstant; 0:94-0:95 badSelector;",
    ),
    (
        "MODULE A; IMPORT B; VAR r: B.T; PROCEDURE P; CONST c = r.y; d = r.x; END P; END A.",
        "0:57-0:58 noName; 0:64-0:67 notConstant;",
    ),
    (
        "MODULE A; VAR a: ARRAY 3 OF CHAR; PROCEDURE P; CONST c = a[0, 1]; d = a[0] = \"x\"; END P; END A.",
        "0:58-0:59 badSelector; 0:70-0:80 notConstant;",
    ),
];

/// Limits of weights: an interface of 65,536 and one of 65,537, and types of 4,096 and 4,097. T10 has a weight of 4,095.
const WEIGHTS: [(&str, &str); 4] = [
    (
        "MODULE A; TYPE T0 = RECORD a*, b*: INTEGER END; T1 = RECORD a*, b*: T0 END; T2 = RECORD a*, b*: T1 END; T3 = RECORD a*, b*: T2 END; T4 = RECORD a*, b*: T3 END; T5 = RECORD a*, b*: T4 END; T6 = RECORD a*, b*: T5 END; T7 = RECORD a*, b*: T6 END; T8 = RECORD a*, b*: T7 END; T9 = RECORD a*, b*: T8 END; T10 = RECORD a*, b*: T9 END; VAR a*, b*, c*, d*, e*, f*, g*, h*, i*, j*, k*, l*, m*, n*, o*, p*: T10; END A.",
        "",
    ),
    (
        "MODULE A; CONST z* = 1; TYPE T0 = RECORD a*, b*: INTEGER END; T1 = RECORD a*, b*: T0 END; T2 = RECORD a*, b*: T1 END; T3 = RECORD a*, b*: T2 END; T4 = RECORD a*, b*: T3 END; T5 = RECORD a*, b*: T4 END; T6 = RECORD a*, b*: T5 END; T7 = RECORD a*, b*: T6 END; T8 = RECORD a*, b*: T7 END; T9 = RECORD a*, b*: T8 END; T10 = RECORD a*, b*: T9 END; VAR a*, b*, c*, d*, e*, f*, g*, h*, i*, j*, k*, l*, m*, n*, o*, p*: T10; END A.",
        "0:7-0:8 interfaceTooLarge;",
    ),
    (
        "MODULE A; TYPE T0 = RECORD a*, b*: INTEGER END; T1 = RECORD a*, b*: T0 END; T2 = RECORD a*, b*: T1 END; T3 = RECORD a*, b*: T2 END; T4 = RECORD a*, b*: T3 END; T5 = RECORD a*, b*: T4 END; T6 = RECORD a*, b*: T5 END; T7 = RECORD a*, b*: T6 END; T8 = RECORD a*, b*: T7 END; T9 = RECORD a*, b*: T8 END; T10 = RECORD a*, b*: T9 END; T11 = RECORD a*: T10 END; T12 = RECORD a*: T11 END; END A.",
        "0:361-0:367 typeTooLarge;",
    ),
    // What is unknown weighs nothing.
    (
        "MODULE A; TYPE T0 = RECORD a*, b*: INTEGER END; T1 = RECORD a*, b*: T0 END; T2 = RECORD a*, b*: T1 END; T3 = RECORD a*, b*: T2 END; T4 = RECORD a*, b*: T3 END; T5 = RECORD a*, b*: T4 END; T6 = RECORD a*, b*: T5 END; T7 = RECORD a*, b*: T6 END; T8 = RECORD a*, b*: T7 END; T9 = RECORD a*, b*: T8 END; T10 = RECORD a*, b*: T9 END; T11 = RECORD a*: T10; b*: Nope END; END A.",
        "0:355-0:359 noName;",
    ),
];

/// Types: their limits, bases and results, and parts that are unknown.
const TYPES: [(&str, &str); 13] = [
    (
        "MODULE A; VAR a: ARRAY 1025, 1024 OF CHAR; b: ARRAY 1024, 1024 OF CHAR; END A.",
        "0:17-0:22 typeTooLarge;",
    ),
    (
        "MODULE A; TYPE T = ARRAY 1048576 OF CHAR; U = RECORD t: T; c: CHAR END; V = RECORD t: T END; VAR u: U; END A.",
        "0:46-0:52 typeTooLarge;",
    ),
    (
        "MODULE A; TYPE T = RECORD t: ARRAY 1048576 OF CHAR END; U = RECORD (T) c: CHAR END; V = RECORD (T) END; END A.",
        "0:60-0:66 typeTooLarge;",
    ),
    (
        "MODULE A; TYPE T = RECORD (INTEGER) END; END A.",
        "0:27-0:34 badBase;",
    ),
    (
        "MODULE A; TYPE T = RECORD END; U = RECORD (T) END; V = RECORD (U) END; END A.",
        "",
    ),
    (
        "MODULE A; CONST c = 1; TYPE T = RECORD (c) END; U = RECORD (Nope) END; V = RECORD (V) END; END A.",
        "0:40-0:41 notType; 0:60-0:64 noName; 0:83-0:84 noName;",
    ),
    (
        "MODULE A; IMPORT B; TYPE T = RECORD (B.T) END; U = RECORD (B.S) END; END A.",
        "0:61-0:62 badBase;",
    ),
    (
        "MODULE A; TYPE R = RECORD END; PROCEDURE P(): R; RETURN 1 END P; END A.",
        "0:46-0:47 badResult;",
    ),
    (
        "MODULE A; TYPE S = ARRAY 2 OF CHAR; PROCEDURE P(): S; RETURN 1 END P; PROCEDURE Q(): SET; RETURN {} END Q; END A.",
        "0:51-0:52 badResult;",
    ),
    (
        "MODULE A; IMPORT B; PROCEDURE P(): B.T; RETURN 1 END P; END A.",
        "0:37-0:38 badResult;",
    ),
    (
        "MODULE A; PROCEDURE P(): Nope; RETURN 1 END P; END A.",
        "0:25-0:29 noName;",
    ),
    (
        "MODULE A; PROCEDURE P(VAR x: ARRAY OF ARRAY OF Nope; y: ARRAY OF CHAR); END P; END A.",
        "0:47-0:51 noName;",
    ),
    (
        "MODULE A; TYPE T = ARRAY 2 OF Nope; U = RECORD x: Nope; y: T END; END A.",
        "0:30-0:34 noName; 0:50-0:54 noName;",
    ),
];

/// B is the module above, Bad broken, Loop cyclic, and no other module is there.
fn views(alloc: Global) -> Result<IndexMap<Name, View>, Fail> {
    let b = checked_as(alloc, "B", B, &IndexMap::new(alloc))?;
    let mut views = IndexMap::new(alloc);
    views.insert(Name::new(alloc, b"B".as_slice())?, b.view)?;
    views.insert(Name::new(alloc, b"Bad".as_slice())?, View::Broken)?;
    views.insert(Name::new(alloc, b"Loop".as_slice())?, View::Cyclic)?;
    Ok(views)
}

/// Whether each text of a table has its list; the first that differs is shown.
pub fn tells(rt: HostRuntime, table: &[(&str, &str)]) -> Result<(), Fail> {
    let alloc = rt.alloc();
    let views = views(alloc)?;
    for (text, want) in table {
        let found = checked(alloc, text, &views)?;
        let told = listed(alloc, found.list.as_slice())?;
        if told.as_str() != *want {
            println!(rt; "{text}: {told}")?;
            return Err(Fail::from("another list"));
        }
    }
    Ok(())
}

#[test]
fn tells_of_names(rt: HostRuntime) -> Result<(), Fail> {
    tells(rt, NAMES.as_slice())
}

#[test]
fn tells_of_constants(rt: HostRuntime) -> Result<(), Fail> {
    tells(rt, CONSTANTS.as_slice())
}

#[test]
fn tells_of_types(rt: HostRuntime) -> Result<(), Fail> {
    tells(rt, TYPES.as_slice())
}

#[test]
fn tells_of_weights(rt: HostRuntime) -> Result<(), Fail> {
    tells(rt, WEIGHTS.as_slice())
}
