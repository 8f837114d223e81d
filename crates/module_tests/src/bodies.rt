//! Statements, RETURN and the use of imports: for each diagnostic modules that have it, and ones that just don't.
use crate::importing::tells;
use std::test::Fail;

/// Which imports are used, RETURN and selectors.
const USE: [(&str, &str); 27] = [
    // Imports that nothing uses (section 11).
    ("MODULE A; IMPORT B; END A.", "0:17-0:18 unusedImport;"),
    ("MODULE A; IMPORT B; BEGIN ASSERT(B.k = 3) END A.", ""),
    ("MODULE A; IMPORT X := B; END A.", "0:17-0:18 unusedImport;"),
    ("MODULE A; IMPORT X := B; BEGIN ASSERT(X.k = 3) END A.", ""),
    (
        "MODULE A; IMPORT B, X := B; BEGIN ASSERT(B.k = 3) END A.",
        "0:20-0:21 unusedImport;",
    ),
    ("MODULE A; IMPORT Nope; END A.", "0:17-0:21 noModule;"),
    ("MODULE A; IMPORT Bad; END A.", "0:17-0:20 importBroken;"),
    ("MODULE A; IMPORT Loop; END A.", "0:17-0:21 importCyclic;"),
    (
        "MODULE A; IMPORT B; PROCEDURE P; VAR B: INTEGER; BEGIN B := 1 END P; END A.",
        "0:17-0:18 unusedImport;",
    ),
    (
        "MODULE A; IMPORT B; VAR i: INTEGER; BEGIN CASE i OF B.k: END END A.",
        "",
    ),
    // RETURN (section 10).
    (
        "MODULE A; PROCEDURE P(): INTEGER; RETURN 1 END P; END A.",
        "",
    ),
    (
        "MODULE A; PROCEDURE P(): INTEGER; END P; END A.",
        "0:38-0:39 badReturn;",
    ),
    ("MODULE A; PROCEDURE P; END P; END A.", ""),
    (
        "MODULE A; PROCEDURE P; RETURN 1 END P; END A.",
        "0:23-0:29 badReturn;",
    ),
    (
        "MODULE A; PROCEDURE P(): INTEGER; RETURN TRUE END P; END A.",
        "0:34-0:40 badReturn;",
    ),
    (
        "MODULE A; PROCEDURE P(): CHAR; RETURN \"x\" END P; END A.",
        "",
    ),
    (
        "MODULE A; PROCEDURE P(): CHAR; RETURN \"xy\" END P; END A.",
        "0:31-0:37 badReturn;",
    ),
    (
        "MODULE A; PROCEDURE P(): INTEGER; RETURN Nope END P; END A.",
        "0:41-0:45 noName;",
    ),
    // Selectors (section 8.1).
    (
        "MODULE A; VAR i: INTEGER; b: BYTE; c: CHAR; t: BOOLEAN; s: SET; a: ARRAY 4 OF CHAR; BEGIN a[0] := c END A.",
        "",
    ),
    (
        "MODULE A; VAR i: INTEGER; b: BYTE; c: CHAR; t: BOOLEAN; s: SET; a: ARRAY 4 OF CHAR; BEGIN i.x := 1 END A.",
        "0:91-0:92 badSelector;",
    ),
    (
        "MODULE A; VAR i: INTEGER; b: BYTE; c: CHAR; t: BOOLEAN; s: SET; a: ARRAY 4 OF CHAR; BEGIN i[0] := 1 END A.",
        "0:91-0:92 badSelector;",
    ),
    (
        "MODULE A; VAR i: INTEGER; b: BYTE; c: CHAR; t: BOOLEAN; s: SET; a: ARRAY 4 OF CHAR; BEGIN a[0, 1] := c END A.",
        "0:91-0:92 badSelector;",
    ),
    (
        "MODULE A; TYPE T = RECORD f: INTEGER END; U = RECORD (T) g: CHAR END; PROCEDURE P(VAR r: T); BEGIN r(U).g := \"x\" END P; END A.",
        "",
    ),
    (
        "MODULE A; TYPE T = RECORD f: INTEGER END; U = RECORD (T) g: CHAR END; PROCEDURE P(r: T); BEGIN r(U).g := \"x\" END P; END A.",
        "0:96-0:97 badSelector;",
    ),
    (
        "MODULE A; TYPE T = RECORD f: INTEGER END; U = RECORD (T) g: CHAR END; PROCEDURE P(VAR r: U); BEGIN r(T).f := 1 END P; END A.",
        "0:100-0:101 badSelector;",
    ),
    (
        "MODULE A; TYPE T = RECORD f: INTEGER END; U = RECORD (T) g: CHAR END; VAR r: T; BEGIN r.f := 1 END A.",
        "",
    ),
    (
        "MODULE A; TYPE T = RECORD f: INTEGER END; U = RECORD (T) g: CHAR END; VAR r: T; BEGIN r.g := \"x\" END A.",
        "0:88-0:89 noName;",
    ),
];

/// Variables, operands and assignments.
const VALUES: [(&str, &str); 30] = [
    // Variables (sections 8.1, 9.1 and 10.2).
    (
        "MODULE A; VAR i: INTEGER; b: BYTE; c: CHAR; t: BOOLEAN; s: SET; a: ARRAY 4 OF CHAR; BEGIN i := 1 END A.",
        "",
    ),
    (
        "MODULE A; CONST k = 1; BEGIN k := 2 END A.",
        "0:29-0:30 notVariable;",
    ),
    (
        "MODULE A; VAR i: INTEGER; b: BYTE; c: CHAR; t: BOOLEAN; s: SET; a: ARRAY 4 OF CHAR; BEGIN INC(i) END A.",
        "",
    ),
    (
        "MODULE A; VAR i: INTEGER; b: BYTE; c: CHAR; t: BOOLEAN; s: SET; a: ARRAY 4 OF CHAR; BEGIN INC(1) END A.",
        "0:94-0:95 notVariable;",
    ),
    (
        "MODULE A; PROCEDURE Q(VAR x: INTEGER); END Q; PROCEDURE P; VAR i: INTEGER; BEGIN Q(i) END P; END A.",
        "",
    ),
    (
        "MODULE A; PROCEDURE Q(VAR x: INTEGER); END Q; PROCEDURE P; VAR i: INTEGER; BEGIN Q((i)) END P; END A.",
        "0:83-0:84 notVariable;",
    ),
    (
        "MODULE A; VAR i: INTEGER; b: BYTE; c: CHAR; t: BOOLEAN; s: SET; a: ARRAY 4 OF CHAR; BEGIN i := INTEGER END A.",
        "0:95-0:102 notVariable;",
    ),
    (
        "MODULE A; IMPORT B; VAR i: INTEGER; BEGIN i := B.v END A.",
        "",
    ),
    (
        "MODULE A; IMPORT B; BEGIN B.v := 1 END A.",
        "0:26-0:27 readOnly;",
    ),
    (
        "MODULE A; PROCEDURE P(VAR x: ARRAY OF CHAR); BEGIN x[0] := \"a\" END P; END A.",
        "",
    ),
    (
        "MODULE A; PROCEDURE P(x: ARRAY OF CHAR); BEGIN x[0] := \"a\" END P; END A.",
        "0:47-0:48 readOnly;",
    ),
    (
        "MODULE A; PROCEDURE P(x: INTEGER); BEGIN x := 1 END P; END A.",
        "",
    ),
    (
        "MODULE A; IMPORT B; BEGIN INC(B.v) END A.",
        "0:30-0:31 readOnly;",
    ),
    // Operands (section 8.2).
    (
        "MODULE A; VAR i: INTEGER; b: BYTE; c: CHAR; t: BOOLEAN; s: SET; a: ARRAY 4 OF CHAR; BEGIN i := i + 1 END A.",
        "",
    ),
    (
        "MODULE A; VAR i: INTEGER; b: BYTE; c: CHAR; t: BOOLEAN; s: SET; a: ARRAY 4 OF CHAR; BEGIN i := i + TRUE END A.",
        "0:97-0:98 badOperand;",
    ),
    (
        "MODULE A; VAR i: INTEGER; b: BYTE; c: CHAR; t: BOOLEAN; s: SET; a: ARRAY 4 OF CHAR; BEGIN t := t & ~(i = 1) END A.",
        "",
    ),
    (
        "MODULE A; VAR i: INTEGER; b: BYTE; c: CHAR; t: BOOLEAN; s: SET; a: ARRAY 4 OF CHAR; BEGIN t := t & i END A.",
        "0:97-0:98 badOperand;",
    ),
    (
        "MODULE A; VAR i: INTEGER; b: BYTE; c: CHAR; t: BOOLEAN; s: SET; a: ARRAY 4 OF CHAR; BEGIN t := i IN s END A.",
        "",
    ),
    (
        "MODULE A; VAR i: INTEGER; b: BYTE; c: CHAR; t: BOOLEAN; s: SET; a: ARRAY 4 OF CHAR; BEGIN t := s IN s END A.",
        "0:97-0:99 badOperand;",
    ),
    (
        "MODULE A; TYPE T = RECORD f: INTEGER END; U = RECORD (T) g: CHAR END; PROCEDURE P(VAR r: T): BOOLEAN; RETURN r IS U END P; END A.",
        "",
    ),
    (
        "MODULE A; TYPE T = RECORD f: INTEGER END; U = RECORD (T) g: CHAR END; PROCEDURE P(r: T): BOOLEAN; RETURN r IS U END P; END A.",
        "0:107-0:109 badOperand;",
    ),
    (
        "MODULE A; VAR i: INTEGER; b: BYTE; c: CHAR; t: BOOLEAN; s: SET; a: ARRAY 4 OF CHAR; BEGIN CASE c OF \"a\": END END A.",
        "",
    ),
    (
        "MODULE A; VAR i: INTEGER; b: BYTE; c: CHAR; t: BOOLEAN; s: SET; a: ARRAY 4 OF CHAR; BEGIN CASE t OF 1: END END A.",
        "0:95-0:96 badOperand;",
    ),
    // Assignments (section 9.1).
    (
        "MODULE A; VAR i: INTEGER; b: BYTE; c: CHAR; t: BOOLEAN; s: SET; a: ARRAY 4 OF CHAR; BEGIN i := b; b := i END A.",
        "",
    ),
    (
        "MODULE A; VAR i: INTEGER; b: BYTE; c: CHAR; t: BOOLEAN; s: SET; a: ARRAY 4 OF CHAR; BEGIN i := TRUE END A.",
        "0:95-0:99 notAssignable;",
    ),
    (
        "MODULE A; VAR i: INTEGER; b: BYTE; c: CHAR; t: BOOLEAN; s: SET; a: ARRAY 4 OF CHAR; BEGIN a := \"abc\" END A.",
        "",
    ),
    (
        "MODULE A; VAR i: INTEGER; b: BYTE; c: CHAR; t: BOOLEAN; s: SET; a: ARRAY 4 OF CHAR; BEGIN a := \"abcde\" END A.",
        "0:95-0:102 notAssignable;",
    ),
    (
        "MODULE A; TYPE T = RECORD f: INTEGER END; U = RECORD (T) g: CHAR END; VAR r: T; u: U; BEGIN r := u END A.",
        "",
    ),
    (
        "MODULE A; TYPE T = RECORD f: INTEGER END; U = RECORD (T) g: CHAR END; VAR r: T; u: U; BEGIN u := r END A.",
        "0:97-0:98 notAssignable;",
    ),
    (
        "MODULE A; VAR i: INTEGER; b: BYTE; c: CHAR; t: BOOLEAN; s: SET; a: ARRAY 4 OF CHAR; BEGIN Nope := Nope END A.",
        "0:90-0:94 noName; 0:98-0:102 noName;",
    ),
];

/// Conditions and FOR.
const CONTROL: [(&str, &str); 20] = [
    // Conditions (sections 9.4, 9.6 and 9.7).
    (
        "MODULE A; VAR i: INTEGER; b: BYTE; c: CHAR; t: BOOLEAN; s: SET; a: ARRAY 4 OF CHAR; BEGIN IF t THEN ELSIF i = 1 THEN END END A.",
        "",
    ),
    (
        "MODULE A; VAR i: INTEGER; b: BYTE; c: CHAR; t: BOOLEAN; s: SET; a: ARRAY 4 OF CHAR; BEGIN IF i THEN END END A.",
        "0:93-0:94 notBoolean;",
    ),
    (
        "MODULE A; VAR i: INTEGER; b: BYTE; c: CHAR; t: BOOLEAN; s: SET; a: ARRAY 4 OF CHAR; BEGIN IF t THEN ELSIF i THEN END END A.",
        "0:106-0:107 notBoolean;",
    ),
    (
        "MODULE A; VAR i: INTEGER; b: BYTE; c: CHAR; t: BOOLEAN; s: SET; a: ARRAY 4 OF CHAR; BEGIN WHILE t DO ELSIF i > 0 DO END END A.",
        "",
    ),
    (
        "MODULE A; VAR i: INTEGER; b: BYTE; c: CHAR; t: BOOLEAN; s: SET; a: ARRAY 4 OF CHAR; BEGIN WHILE 1 DO END END A.",
        "0:96-0:97 notBoolean;",
    ),
    (
        "MODULE A; VAR i: INTEGER; b: BYTE; c: CHAR; t: BOOLEAN; s: SET; a: ARRAY 4 OF CHAR; BEGIN REPEAT UNTIL t END A.",
        "",
    ),
    (
        "MODULE A; VAR i: INTEGER; b: BYTE; c: CHAR; t: BOOLEAN; s: SET; a: ARRAY 4 OF CHAR; BEGIN REPEAT i := t UNTIL s END A.",
        "0:102-0:103 notAssignable; 0:110-0:111 notBoolean;",
    ),
    (
        "MODULE A; VAR i: INTEGER; b: BYTE; c: CHAR; t: BOOLEAN; s: SET; a: ARRAY 4 OF CHAR; BEGIN IF t THEN i := t ELSE i := s END END A.",
        "0:105-0:106 notAssignable; 0:117-0:118 notAssignable;",
    ),
    // FOR (section 9.8).
    (
        "MODULE A; VAR i: INTEGER; b: BYTE; c: CHAR; t: BOOLEAN; s: SET; a: ARRAY 4 OF CHAR; BEGIN FOR i := 0 TO 9 DO a[i] := c END END A.",
        "",
    ),
    (
        "MODULE A; VAR i: INTEGER; b: BYTE; c: CHAR; t: BOOLEAN; s: SET; a: ARRAY 4 OF CHAR; BEGIN FOR b := 0 TO 9 DO END END A.",
        "0:94-0:95 badControl;",
    ),
    (
        "MODULE A; VAR i: INTEGER; b: BYTE; c: CHAR; t: BOOLEAN; s: SET; a: ARRAY 4 OF CHAR; BEGIN FOR t := 0 TO 9 DO END END A.",
        "0:94-0:95 badControl;",
    ),
    (
        "MODULE A; IMPORT B; VAR i: INTEGER; BEGIN FOR i := B.k TO B.v DO END END A.",
        "",
    ),
    (
        "MODULE A; VAR i: INTEGER; b: BYTE; c: CHAR; t: BOOLEAN; s: SET; a: ARRAY 4 OF CHAR; BEGIN FOR i := TRUE TO c DO END END A.",
        "0:99-0:103 notInteger; 0:107-0:108 notInteger;",
    ),
    (
        "MODULE A; VAR i: INTEGER; b: BYTE; c: CHAR; t: BOOLEAN; s: SET; a: ARRAY 4 OF CHAR; BEGIN FOR i := 9 TO 0 BY -1 DO END END A.",
        "",
    ),
    (
        "MODULE A; VAR i: INTEGER; b: BYTE; c: CHAR; t: BOOLEAN; s: SET; a: ARRAY 4 OF CHAR; BEGIN FOR i := 9 TO 0 BY 0 DO END END A.",
        "0:109-0:110 constantRange;",
    ),
    (
        "MODULE A; VAR i: INTEGER; b: BYTE; c: CHAR; t: BOOLEAN; s: SET; a: ARRAY 4 OF CHAR; BEGIN FOR i := 9 TO 0 BY b DO END END A.",
        "0:109-0:110 notConstant;",
    ),
    (
        "MODULE A; VAR i: INTEGER; b: BYTE; c: CHAR; t: BOOLEAN; s: SET; a: ARRAY 4 OF CHAR; BEGIN FOR i := 9 TO 0 BY TRUE DO END END A.",
        "0:109-0:113 notInteger;",
    ),
    (
        "MODULE A; VAR i: INTEGER; b: BYTE; c: CHAR; t: BOOLEAN; s: SET; a: ARRAY 4 OF CHAR; BEGIN FOR Nope := 0 TO 1 DO i := t END END A.",
        "0:94-0:98 noName; 0:117-0:118 notAssignable;",
    ),
    (
        "MODULE A; VAR i: INTEGER; b: BYTE; c: CHAR; t: BOOLEAN; s: SET; a: ARRAY 4 OF CHAR; BEGIN a[t] := c END A.",
        "0:92-0:93 notInteger;",
    ),
    (
        "MODULE A; VAR i: INTEGER; b: BYTE; c: CHAR; t: BOOLEAN; s: SET; a: ARRAY 4 OF CHAR; BEGIN s := {1, t} END A.",
        "0:99-0:100 notInteger;",
    ),
];

/// Calls.
const CALLS: [(&str, &str); 22] = [
    // Calls (sections 9.2, 10.1 and 10.2).
    ("MODULE A; PROCEDURE Q; END Q; BEGIN Q; Q() END A.", ""),
    (
        "MODULE A; VAR i: INTEGER; PROCEDURE F(): INTEGER; RETURN 1 END F; BEGIN i := F() END A.",
        "",
    ),
    (
        "MODULE A; VAR i: INTEGER; PROCEDURE F(): INTEGER; RETURN 1 END F; BEGIN i := F END A.",
        "0:77-0:78 badCall;",
    ),
    (
        "MODULE A; PROCEDURE F(): INTEGER; RETURN 1 END F; BEGIN F() END A.",
        "0:56-0:57 badCall;",
    ),
    (
        "MODULE A; PROCEDURE F(): INTEGER; RETURN 1 END F; BEGIN F END A.",
        "0:56-0:57 badCall;",
    ),
    (
        "MODULE A; VAR i: INTEGER; b: BYTE; c: CHAR; t: BOOLEAN; s: SET; a: ARRAY 4 OF CHAR; BEGIN i END A.",
        "0:90-0:91 badCall;",
    ),
    (
        "MODULE A; VAR i: INTEGER; b: BYTE; c: CHAR; t: BOOLEAN; s: SET; a: ARRAY 4 OF CHAR; BEGIN ABS END A.",
        "0:90-0:93 badCall;",
    ),
    (
        "MODULE A; VAR i: INTEGER; b: BYTE; c: CHAR; t: BOOLEAN; s: SET; a: ARRAY 4 OF CHAR; BEGIN ABS(i) END A.",
        "0:90-0:93 badCall;",
    ),
    ("MODULE A; IMPORT Loop; END A.", "0:17-0:21 importCyclic;"),
    (
        "MODULE A; PROCEDURE Q(x, y: INTEGER); END Q; BEGIN Q(1, 2) END A.",
        "",
    ),
    (
        "MODULE A; PROCEDURE Q(x, y: INTEGER); END Q; BEGIN Q(1) END A.",
        "0:51-0:52 argumentCount;",
    ),
    (
        "MODULE A; PROCEDURE Q(x, y: INTEGER); END Q; BEGIN Q END A.",
        "0:51-0:52 argumentCount;",
    ),
    (
        "MODULE A; VAR i: INTEGER; b: BYTE; c: CHAR; t: BOOLEAN; s: SET; a: ARRAY 4 OF CHAR; BEGIN INC END A.",
        "0:90-0:93 argumentCount;",
    ),
    (
        "MODULE A; VAR i: INTEGER; b: BYTE; c: CHAR; t: BOOLEAN; s: SET; a: ARRAY 4 OF CHAR; BEGIN INC(i, b) END A.",
        "",
    ),
    (
        "MODULE A; VAR i: INTEGER; b: BYTE; c: CHAR; t: BOOLEAN; s: SET; a: ARRAY 4 OF CHAR; BEGIN INC(i, TRUE) END A.",
        "0:97-0:101 badArgument;",
    ),
    (
        "MODULE A; VAR i: INTEGER; b: BYTE; c: CHAR; t: BOOLEAN; s: SET; a: ARRAY 4 OF CHAR; BEGIN INCL(s, 1); EXCL(s, i) END A.",
        "",
    ),
    (
        "MODULE A; VAR i: INTEGER; b: BYTE; c: CHAR; t: BOOLEAN; s: SET; a: ARRAY 4 OF CHAR; BEGIN INCL(i, 1) END A.",
        "0:95-0:96 badArgument;",
    ),
    (
        "MODULE A; VAR i: INTEGER; b: BYTE; c: CHAR; t: BOOLEAN; s: SET; a: ARRAY 4 OF CHAR; BEGIN ASSERT(i) END A.",
        "0:97-0:98 badArgument;",
    ),
    (
        "MODULE A; PROCEDURE Q(VAR x: INTEGER); END Q; PROCEDURE P; VAR b: BYTE; BEGIN Q(b) END P; END A.",
        "0:80-0:81 badArgument;",
    ),
    (
        "MODULE A; PROCEDURE Q(x: INTEGER); END Q; PROCEDURE P; VAR b: BYTE; BEGIN Q(b) END P; END A.",
        "",
    ),
    (
        "MODULE A; IMPORT B; VAR i: INTEGER; BEGIN i := B.F(i) END A.",
        "",
    ),
    (
        "MODULE A; IMPORT B; VAR i: INTEGER; BEGIN i := B.F(\"x\") END A.",
        "0:51-0:54 badArgument;",
    ),
];

/// The labels of CASE, and all rules at once.
const LABELS: [(&str, &str); 17] = [
    // CASE (section 9.5).
    (
        "MODULE A; VAR i: INTEGER; b: BYTE; c: CHAR; t: BOOLEAN; s: SET; a: ARRAY 4 OF CHAR; BEGIN CASE i OF 1, 3 .. 5: | 7: i := 0 END END A.",
        "",
    ),
    (
        "MODULE A; VAR i: INTEGER; b: BYTE; c: CHAR; t: BOOLEAN; s: SET; a: ARRAY 4 OF CHAR; BEGIN CASE i OF \"a\": END END A.",
        "0:100-0:103 badCase;",
    ),
    (
        "MODULE A; VAR i: INTEGER; b: BYTE; c: CHAR; t: BOOLEAN; s: SET; a: ARRAY 4 OF CHAR; BEGIN CASE c OF \"a\" .. \"z\": | \"0\": END END A.",
        "",
    ),
    (
        "MODULE A; VAR i: INTEGER; b: BYTE; c: CHAR; t: BOOLEAN; s: SET; a: ARRAY 4 OF CHAR; BEGIN CASE c OF 1: END END A.",
        "0:100-0:101 badCase;",
    ),
    (
        "MODULE A; VAR i: INTEGER; b: BYTE; c: CHAR; t: BOOLEAN; s: SET; a: ARRAY 4 OF CHAR; BEGIN CASE c OF \"ab\": END END A.",
        "0:100-0:104 badCase;",
    ),
    (
        "MODULE A; VAR i: INTEGER; b: BYTE; c: CHAR; t: BOOLEAN; s: SET; a: ARRAY 4 OF CHAR; BEGIN CASE i OF 5 .. 3: | 4: END END A.",
        "0:100-0:101 badCase;",
    ),
    (
        "MODULE A; VAR i: INTEGER; b: BYTE; c: CHAR; t: BOOLEAN; s: SET; a: ARRAY 4 OF CHAR; BEGIN CASE i OF 1: | 1: END END A.",
        "0:105-0:106 labelTwice;",
    ),
    (
        "MODULE A; VAR i: INTEGER; b: BYTE; c: CHAR; t: BOOLEAN; s: SET; a: ARRAY 4 OF CHAR; BEGIN CASE i OF 1 .. 4: | 5: | 0 .. 1: END END A.",
        "0:115-0:116 labelTwice;",
    ),
    (
        "MODULE A; VAR i: INTEGER; b: BYTE; c: CHAR; t: BOOLEAN; s: SET; a: ARRAY 4 OF CHAR; BEGIN CASE i OF 1 .. 9: | 3 .. 4: | 2: END END A.",
        "0:110-0:111 labelTwice; 0:120-0:121 labelTwice;",
    ),
    (
        "MODULE A; VAR i: INTEGER; b: BYTE; c: CHAR; t: BOOLEAN; s: SET; a: ARRAY 4 OF CHAR; BEGIN CASE i OF 1 .. 2, 2 .. 5: | 4: END END A.",
        "0:108-0:109 labelTwice; 0:118-0:119 labelTwice;",
    ),
    (
        "MODULE A; VAR i: INTEGER; b: BYTE; c: CHAR; t: BOOLEAN; s: SET; a: ARRAY 4 OF CHAR; BEGIN CASE c OF \"a\" .. \"c\": | \"b\": END END A.",
        "0:114-0:117 labelTwice;",
    ),
    (
        "MODULE A; CONST k = 2; VAR i: INTEGER; BEGIN CASE i OF 2: | k: END END A.",
        "0:60-0:61 labelTwice;",
    ),
    (
        "MODULE A; VAR i: INTEGER; b: BYTE; c: CHAR; t: BOOLEAN; s: SET; a: ARRAY 4 OF CHAR; BEGIN CASE i OF Nope: | 1: i := t END END A.",
        "0:100-0:104 noName; 0:116-0:117 notAssignable;",
    ),
    (
        "MODULE A; VAR i: INTEGER; b: BYTE; c: CHAR; t: BOOLEAN; s: SET; a: ARRAY 4 OF CHAR; BEGIN CASE Nope OF 1: | \"a\": | 1: END END A.",
        "0:95-0:99 noName; 0:115-0:116 labelTwice;",
    ),
    (
        "MODULE A; VAR i: INTEGER; b: BYTE; c: CHAR; t: BOOLEAN; s: SET; a: ARRAY 4 OF CHAR; BEGIN CASE i OF i: END END A.",
        "0:100-0:101 badCase;",
    ),
    (
        "MODULE A; IMPORT B; VAR i: INTEGER; BEGIN CASE i OF 3: | B.k: END END A.",
        "0:57-0:58 labelTwice;",
    ),
    // Each rule at its place, in the order of the text.
    (
        "MODULE A; IMPORT B; VAR i: INTEGER; PROCEDURE P(): INTEGER; BEGIN i := TRUE END P; BEGIN WHILE i DO P() END END A.",
        "0:17-0:18 unusedImport; 0:71-0:75 notAssignable; 0:80-0:81 badReturn; 0:95-0:96 notBoolean; 0:100-0:101 badCall;",
    ),
];

#[test]
fn tells_of_use(rt: HostRuntime) -> Result<(), Fail> {
    tells(rt, USE.as_slice())
}

#[test]
fn tells_of_values(rt: HostRuntime) -> Result<(), Fail> {
    tells(rt, VALUES.as_slice())
}

#[test]
fn tells_of_control(rt: HostRuntime) -> Result<(), Fail> {
    tells(rt, CONTROL.as_slice())
}

#[test]
fn tells_of_calls(rt: HostRuntime) -> Result<(), Fail> {
    tells(rt, CALLS.as_slice())
}

#[test]
fn tells_of_labels(rt: HostRuntime) -> Result<(), Fail> {
    tells(rt, LABELS.as_slice())
}
