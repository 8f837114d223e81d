//! What the rules say of small modules, in the order of the diagnostics, each with its name where it has one.
use crate::texts::{checked, checked_as, named};
use indexmap::IndexMap;
use ob_text::Name;
use oberon_types::View;
use std::alloc::Global;
use std::test::Fail;

/// What the modules import: B with a constant, a variable, a record with a hidden field and a function; and Out. Beside them C is
/// broken, D leads back, and there is nothing else.
const B: &str =
    "MODULE B; CONST c* = 4; TYPE T* = RECORD x*: INTEGER; hidden: INTEGER END; VAR v*: INTEGER; PROCEDURE F*(n: INTEGER): INTEGER; RETURN n END F; END B.";

const OUT: &str =
    "MODULE Out; PROCEDURE Int*(x, n: INTEGER); END Int; PROCEDURE Char*(c: CHAR); END Char; PROCEDURE String*(s: ARRAY OF CHAR); END String; PROCEDURE Ln*; END Ln; END Out.";

/// Names, imports and views: a module that breaks a rule, and one that just does not.
const NAMES: [(&str, &str); 35] = [
    ("MODULE B; END B.", "0:7-0:8 moduleName;"),
    ("MODULE A; END B.", "0:14-0:15 endName;"),
    ("MODULE A; PROCEDURE P; END Q; END A.", "0:27-0:28 endName;"),
    ("MODULE A; IMPORT E; END A.", "0:17-0:18 noModule E;"),
    (
        "MODULE A; IMPORT E := X; CONST c = E.y; END A.",
        "0:22-0:23 noModule X;",
    ),
    (
        "MODULE A; IMPORT C; VAR v: C.T; BEGIN v := C.x + 1 END A.",
        "0:17-0:18 importBroken C;",
    ),
    (
        "MODULE A; IMPORT D; CONST c = D.c; END A.",
        "0:17-0:18 importCyclic D;",
    ),
    ("MODULE A; IMPORT B; END A.", "0:17-0:18 unusedImport B;"),
    (
        "MODULE A; IMPORT X := B; END A.",
        "0:17-0:18 unusedImport X;",
    ),
    ("MODULE A; IMPORT B; CONST c = B.c; END A.", ""),
    (
        "MODULE A; IMPORT B; CONST c = B.d; END A.",
        "0:32-0:33 noName d;",
    ),
    (
        "MODULE A; IMPORT B; VAR i: INTEGER; BEGIN i := B END A.",
        "0:47-0:48 notVariable;",
    ),
    (
        "MODULE A; IMPORT B, B; CONST c = B.c; END A.",
        "0:20-0:21 unusedImport B; 0:20-0:21 nameTwice B;",
    ),
    (
        "MODULE A; IMPORT X := Nope, X := B; CONST c = X.c; END A.",
        "0:22-0:26 noModule Nope; 0:28-0:29 unusedImport X; 0:28-0:29 nameTwice X;",
    ),
    (
        "MODULE A; IMPORT B; PROCEDURE P(B: INTEGER); BEGIN B := B + 1 END P; END A.",
        "0:17-0:18 unusedImport B;",
    ),
    (
        "MODULE A; IMPORT B; VAR i: INTEGER; BEGIN CASE i OF B.c: END END A.",
        "",
    ),
    (
        "MODULE A; IMPORT B; CONST i = 1; TYPE i = B.T; END A.",
        "0:17-0:18 unusedImport B; 0:38-0:39 nameTwice i;",
    ),
    (
        "MODULE A; CONST c = 1; c = Nope; END A.",
        "0:23-0:24 nameTwice c; 0:27-0:31 noName Nope;",
    ),
    (
        "MODULE A; VAR a, a: INTEGER; a: Nope; END A.",
        "0:17-0:18 nameTwice a; 0:29-0:30 nameTwice a;",
    ),
    (
        "MODULE A; TYPE T = RECORD x, x: INTEGER; x: Nope END; END A.",
        "0:29-0:30 nameTwice x; 0:41-0:42 nameTwice x;",
    ),
    (
        "MODULE A; TYPE T = RECORD x: INTEGER END; U = RECORD (T) y, x: CHAR END; END A.",
        "0:60-0:61 nameTwice x;",
    ),
    (
        "MODULE A; IMPORT B; TYPE U = RECORD (B.T) y, x: CHAR END; END A.",
        "0:45-0:46 nameTwice x;",
    ),
    (
        "MODULE A; IMPORT B; TYPE U = RECORD (B.T) hidden: CHAR END; END A.",
        "",
    ),
    (
        "MODULE A; PROCEDURE P(x: INTEGER; x: CHAR); END P; PROCEDURE P; END P; END A.",
        "0:34-0:35 nameTwice x; 0:61-0:62 nameTwice P;",
    ),
    ("MODULE A; VAR v: T; END A.", "0:17-0:18 noName T;"),
    (
        "MODULE A; TYPE T = RECORD r: T END; END A.",
        "0:29-0:30 noName T;",
    ),
    (
        "MODULE A; CONST c = d; d = 1; END A.",
        "0:20-0:21 noName d;",
    ),
    (
        "MODULE A; VAR x: INTEGER; y: x.T; z: M.T; END A.",
        "0:31-0:32 noName T; 0:37-0:38 noName M;",
    ),
    (
        "MODULE A; VAR r: RECORD x: INTEGER END; BEGIN r.y := 1; r.x := 1 END A.",
        "0:48-0:49 noName y;",
    ),
    (
        "MODULE A; IMPORT B; VAR r: B.T; BEGIN r.x := 1; r.y := 1 END A.",
        "0:50-0:51 noName y;",
    ),
    (
        "MODULE A; CONST c = 1; VAR v: c; w: ARRAY 2 OF v; END A.",
        "0:30-0:31 notType c; 0:47-0:48 notType v;",
    ),
    (
        "MODULE A; IMPORT B; VAR v: B.c; w: B; END A.",
        "0:29-0:30 notType c; 0:35-0:36 notType B;",
    ),
    (
        "MODULE A; TYPE INTEGER = CHAR; VAR c: INTEGER; BEGIN c := \"x\"; c := 1 END A.",
        "0:68-0:69 notAssignable;",
    ),
    (
        "MODULE A; VAR P: INTEGER; PROCEDURE Q; VAR P: CHAR; BEGIN P := \"x\" END Q; BEGIN P := 1 END A.",
        "",
    ),
    (
        "MODULE A; PROCEDURE P; BEGIN P END P; PROCEDURE Q; BEGIN R END Q; PROCEDURE R; BEGIN Q END R; END A.",
        "0:57-0:58 noName R;",
    ),
];

/// Constants, whose place is the whole expression.
const CONSTANTS: [(&str, &str); 15] = [
    (
        "MODULE A; VAR x: INTEGER; PROCEDURE P; CONST c = x + 1; END P; END A.",
        "0:49-0:54 notConstant;",
    ),
    (
        "MODULE A; CONST c = LEN(1); END A.",
        "0:24-0:25 notVariable;",
    ),
    (
        "MODULE A; PROCEDURE F(x: INTEGER): INTEGER; RETURN x END F; PROCEDURE Q; VAR a: ARRAY F(1) OF CHAR; END Q; END A.",
        "0:86-0:90 notConstant;",
    ),
    (
        "MODULE A; PROCEDURE ABS(x: INTEGER): INTEGER; RETURN x END ABS; PROCEDURE Q; CONST c = ABS(1); END Q; END A.",
        "0:87-0:93 notConstant;",
    ),
    (
        "MODULE A; CONST c = ABS(-1) + LSL(1, 3) - ORD(\"A\"); d = ODD(c); e = CHR(65) = \"A\"; END A.",
        "",
    ),
    (
        "MODULE A; CONST c* = TRUE = FALSE; d = 33 IN {1}; e = {1, 3 .. 5} + {2}; f = \"ab\" < \"ac\"; END A.",
        "",
    ),
    (
        "MODULE A; CONST c = 2147483647 + 1; d = -2147483647 - 1; e = -d; END A.",
        "0:20-0:34 constantRange; 0:61-0:63 constantRange;",
    ),
    (
        "MODULE A; CONST c = 1 DIV 0; d = 1 MOD (-1); e = (-7) DIV 2; END A.",
        "0:20-0:27 constantRange; 0:33-0:43 constantRange;",
    ),
    (
        "MODULE A; CONST c = FALSE & (1 DIV 0 = 1); d = TRUE & (1 DIV 0 = 1); e = TRUE OR (1 DIV 0 = 1); END A.",
        "0:47-0:67 constantRange;",
    ),
    (
        "MODULE A; CONST c = {32}; d = {0 .. 31}; e = {5 .. 3}; f = CHR(256); g = LSL(1, 32); END A.",
        "0:20-0:24 constantRange; 0:59-0:67 constantRange; 0:73-0:83 constantRange;",
    ),
    (
        "MODULE A; CONST c = {Nope}; d = {TRUE}; END A.",
        "0:21-0:25 noName Nope; 0:33-0:37 notInteger;",
    ),
    (
        "MODULE A; CONST c = INTEGER; d = ABS; e = ABS(TRUE); f = ABS(1, 2); END A.",
        "0:20-0:27 notVariable; 0:33-0:36 badCall; 0:46-0:50 badArgument; 0:57-0:60 argumentCount;",
    ),
    (
        "MODULE A; CONST c = 1 + TRUE; d = c + 1; END A.",
        "0:22-0:23 badOperand;",
    ),
    (
        "MODULE A; VAR a: ARRAY 0 OF CHAR; b: ARRAY -1 OF CHAR; c: ARRAY 1048577 OF CHAR; d: ARRAY 1048576 OF CHAR; END A.",
        "0:23-0:24 constantRange; 0:43-0:45 constantRange; 0:64-0:71 constantRange;",
    ),
    (
        "MODULE A; VAR a: ARRAY TRUE OF CHAR; b: ARRAY 2 * 3 OF CHAR; c: ARRAY d OF CHAR; END A.",
        "0:23-0:27 constantRange; 0:70-0:71 noName d;",
    ),
];

/// Types.
const TYPES: [(&str, &str); 5] = [
    (
        "MODULE A; VAR a: ARRAY 1025, 1024 OF CHAR; b: ARRAY 1024, 1024 OF CHAR; END A.",
        "0:17-0:22 typeTooLarge;",
    ),
    (
        "MODULE A; TYPE T = ARRAY 1048576 OF CHAR; U = RECORD t: T; c: CHAR END; V = RECORD t: T END; VAR u: U; BEGIN u := 1 END A.",
        "0:46-0:52 typeTooLarge;",
    ),
    (
        "MODULE A; TYPE T = RECORD (INTEGER) x: Nope END; U = RECORD (Nope) END; V = RECORD (T) END; W = RECORD (A) END; END A.",
        "0:27-0:34 badBase INTEGER; 0:39-0:43 noName Nope; 0:61-0:65 noName Nope; 0:104-0:105 noName A;",
    ),
    (
        "MODULE A; TYPE R = RECORD END; PROCEDURE P(): R; RETURN 1 END P; PROCEDURE Q(): INTEGER; RETURN 1 END Q; END A.",
        "0:46-0:47 badResult;",
    ),
    (
        "MODULE A; TYPE S = ARRAY 2 OF CHAR; PROCEDURE P(): S; RETURN 1 END P; PROCEDURE Q(): T; RETURN 1 END Q; END A.",
        "0:51-0:52 badResult; 0:85-0:86 noName T;",
    ),
];

/// The limits of weights: T10 has the weight 4,095, T11 would have 8,191, and an interface of 65,536 is not too large.
const WEIGHTS: [(&str, &str); 3] = [
    (
        "MODULE A; TYPE T0 = RECORD a*, b*: INTEGER END; T1 = RECORD a*, b*: T0 END; T2 = RECORD a*, b*: T1 END; T3 = RECORD a*, b*: T2 END; T4 = RECORD a*, b*: T3 END; T5 = RECORD a*, b*: T4 END; T6 = RECORD a*, b*: T5 END; T7 = RECORD a*, b*: T6 END; T8 = RECORD a*, b*: T7 END; T9 = RECORD a*, b*: T8 END; T10 = RECORD a*, b*: T9 END; T11 = RECORD a*, b*: T10 END; END A.",
        "0:335-0:341 typeTooLarge;",
    ),
    (
        "MODULE A; TYPE T0 = RECORD a*, b*: INTEGER END; T1 = RECORD a*, b*: T0 END; T2 = RECORD a*, b*: T1 END; T3 = RECORD a*, b*: T2 END; T4 = RECORD a*, b*: T3 END; T5 = RECORD a*, b*: T4 END; T6 = RECORD a*, b*: T5 END; T7 = RECORD a*, b*: T6 END; T8 = RECORD a*, b*: T7 END; T9 = RECORD a*, b*: T8 END; T10 = RECORD a*, b*: T9 END; VAR v0*, v1*, v2*, v3*, v4*, v5*, v6*, v7*, v8*, v9*, v10*, v11*, v12*, v13*, v14*, v15*: T10; END A.",
        "",
    ),
    (
        "MODULE A; TYPE T0 = RECORD a*, b*: INTEGER END; T1 = RECORD a*, b*: T0 END; T2 = RECORD a*, b*: T1 END; T3 = RECORD a*, b*: T2 END; T4 = RECORD a*, b*: T3 END; T5 = RECORD a*, b*: T4 END; T6 = RECORD a*, b*: T5 END; T7 = RECORD a*, b*: T6 END; T8 = RECORD a*, b*: T7 END; T9 = RECORD a*, b*: T8 END; T10 = RECORD a*, b*: T9 END; VAR v0*, v1*, v2*, v3*, v4*, v5*, v6*, v7*, v8*, v9*, v10*, v11*, v12*, v13*, v14*, v15*, v16*: T10; END A.",
        "0:7-0:8 interfaceTooLarge;",
    ),
];

/// Procedures and RETURN.
const PROCEDURES: [(&str, &str); 7] = [
    (
        "MODULE A; PROCEDURE P(): INTEGER; END P; PROCEDURE Q; RETURN 1 END Q; PROCEDURE F(): INTEGER; RETURN TRUE END F; END A.",
        "0:38-0:39 badReturn; 0:54-0:60 badReturn; 0:94-0:100 badReturn;",
    ),
    (
        "MODULE A; PROCEDURE P(a, b: INTEGER); BEGIN P(1, 2); P(1); P; P(1, TRUE) END P; END A.",
        "0:53-0:54 argumentCount; 0:59-0:60 argumentCount; 0:67-0:71 badArgument;",
    ),
    (
        "MODULE A; PROCEDURE F(x: INTEGER): INTEGER; RETURN x END F; PROCEDURE Q; VAR i: INTEGER; BEGIN F(1); F; i := F(1); i := F; i := Q(); i := Q END Q; END A.",
        "0:95-0:96 badCall; 0:101-0:102 badCall; 0:120-0:121 badCall; 0:128-0:129 badCall; 0:138-0:139 badCall;",
    ),
    (
        "MODULE A; VAR i: INTEGER; BEGIN INC; ABS; ABS(1); INC(i); INC(i, 2); INC(i, 2, 3); INC() END A.",
        "0:32-0:35 argumentCount; 0:37-0:40 badCall; 0:42-0:45 badCall; 0:69-0:72 argumentCount; 0:83-0:86 argumentCount;",
    ),
    (
        "MODULE A; IMPORT Out; BEGIN Out.Int(1, 2); Out.Char(\"x\"); Out.String(\"abc\"); Out.Ln; Out.Ln(); Out.Ln(1); Out.Int(\"x\", 2); Out.Char(\"xy\") END A.",
        "0:95-0:98 argumentCount; 0:114-0:117 badArgument; 0:132-0:136 badArgument;",
    ),
    (
        "MODULE A; CONST c = 1; TYPE T = CHAR; VAR v: INTEGER; BEGIN c; T; v; c := 1; T := 1; v() END A.",
        "0:60-0:61 notVariable; 0:63-0:64 notVariable; 0:66-0:67 badCall; 0:69-0:70 notVariable; 0:77-0:78 notVariable; 0:86-0:87 badSelector;",
    ),
    (
        "MODULE A; VAR x: INTEGER; PROCEDURE P; END P; BEGIN x := P; P := 1; P() := 1 END A.",
        "0:57-0:58 badCall; 0:60-0:61 notVariable; 0:68-0:69 notVariable;",
    ),
];

/// Operators.
const OPERATORS: [(&str, &str); 9] = [
    (
        "MODULE A; VAR i: INTEGER; b: BOOLEAN; s: SET; c: CHAR; y: BYTE; BEGIN i := i + y * i DIV 2 MOD y - 1; s := s * {1} / {2} + s - {3}; b := ~b & b OR (i < y); i := -i; s := -s; b := i IN s END A.",
        "",
    ),
    (
        "MODULE A; VAR i: INTEGER; b: BOOLEAN; s: SET; BEGIN i := i + b; i := i / 2; s := +s; b := ~i; b := b < b; b := s <= s; b := s = s; b := b # b; b := b IN s; b := i OR b; s := s DIV s END A.",
        "0:59-0:60 badOperand; 0:71-0:72 badOperand; 0:81-0:82 badOperand; 0:90-0:91 badOperand; 0:101-0:102 badOperand; 0:113-0:115 badOperand; 0:150-0:152 badOperand; 0:163-0:165 badOperand; 0:176-0:179 badOperand;",
    ),
    (
        "MODULE A; VAR c: CHAR; t: ARRAY 3 OF CHAR; b: BOOLEAN; BEGIN b := c = \"x\"; b := c = \"xy\"; b := t = \"xy\"; b := t = \"x\"; b := \"a\" < \"b\"; b := t = c; b := t = t END A.",
        "0:82-0:83 badOperand; 0:142-0:143 badOperand;",
    ),
    (
        "MODULE A; VAR a: ARRAY 3 OF Nope; b: ARRAY 2 OF INTEGER; BEGIN b[a] := 1; IF a THEN END; INC(a); b[0] := ABS(a) END A.",
        "0:28-0:32 noName Nope; 0:65-0:66 notInteger; 0:77-0:78 notBoolean; 0:93-0:94 badArgument; 0:109-0:110 badArgument;",
    ),
    (
        "MODULE A; VAR a: ARRAY 3 OF Nope; b: BOOLEAN; s: SET; BEGIN b := a = \"x\"; b := a < a; b := a + 1; s := {a} END A.",
        "0:28-0:32 noName Nope; 0:104-0:105 notInteger;",
    ),
    (
        "MODULE A; TYPE T = RECORD END; PROCEDURE P(VAR r: T); VAR a: ARRAY 3 OF Nope; b: BOOLEAN; BEGIN b := a IS T; b := r IS T; b := (r) IS T END P; END A.",
        "0:72-0:76 noName Nope; 0:103-0:105 badOperand; 0:131-0:133 badOperand;",
    ),
    (
        "MODULE A; TYPE T = RECORD END; U = RECORD (T) x: INTEGER END; V = RECORD END; VAR g: T; PROCEDURE P(VAR r: T; v: T); VAR b: BOOLEAN; BEGIN b := r IS U; b := r IS V; b := v IS U; b := g IS U; b := r IS Nope; b := Nope IS U; b := r IS b; r(U).x := 1; r(T) := r; r(V) := r; g(U) := g; v(U) := g; r(U)(U) := r END P; END A.",
        "0:159-0:161 badOperand; 0:172-0:174 badOperand; 0:185-0:187 badOperand; 0:201-0:205 noName Nope; 0:212-0:216 noName Nope; 0:230-0:232 badOperand; 0:250-0:251 badSelector; 0:261-0:262 badSelector; 0:272-0:273 badSelector; 0:283-0:284 badSelector; 0:297-0:298 badSelector;",
    ),
    (
        "MODULE A; VAR i: INTEGER; b: BOOLEAN; BEGIN IF i THEN ELSIF b THEN END; WHILE 1 DO END; REPEAT UNTIL \"x\"; IF Nope THEN END; IF INTEGER THEN END END A.",
        "0:47-0:48 notBoolean; 0:78-0:79 notBoolean; 0:101-0:104 notBoolean; 0:109-0:113 noName Nope; 0:127-0:134 notVariable;",
    ),
    (
        "MODULE A; VAR i: INTEGER; s: SET; BEGIN i := i + INTEGER; s := {SET}; i := (CHAR); i := -CHAR END A.",
        "0:49-0:56 notVariable; 0:64-0:67 notVariable; 0:76-0:80 notVariable; 0:89-0:93 notVariable;",
    ),
];

/// Designators and variables.
const DESIGNATORS: [(&str, &str); 10] = [
    (
        "MODULE A; VAR i: INTEGER; a: ARRAY 2, 3 OF INTEGER; BEGIN a[1, 2] := 1; a[1][2] := 1; a[1, 2, 3] := 1; i[1] := 1; i.x := 1; a[TRUE, 1] := 1; a[1] := a[2] END A.",
        "0:87-0:88 badSelector; 0:104-0:105 badSelector; 0:115-0:116 badSelector; 0:126-0:130 notInteger;",
    ),
    (
        "MODULE A; PROCEDURE F(): INTEGER; RETURN 1 END F; PROCEDURE P; VAR i: INTEGER; BEGIN i := F().x; i := F()[1]; i := F()() END P; END A.",
        "0:93-0:94 badSelector; 0:105-0:106 badSelector; 0:118-0:119 badSelector;",
    ),
    (
        "MODULE A; VAR x: Nope; i: INTEGER; PROCEDURE P(VAR v: INTEGER); END P; PROCEDURE F(): Nope; RETURN 1 END F; PROCEDURE Q; BEGIN P((x)); P(F()); INC((x)); P(x); P(1); P(i); P(x + 1) END Q; END A.",
        "0:17-0:21 noName Nope; 0:86-0:90 noName Nope; 0:129-0:130 notVariable; 0:137-0:138 notVariable; 0:147-0:148 notVariable; 0:161-0:162 notVariable;",
    ),
    (
        "MODULE A; IMPORT B; VAR i: INTEGER; BEGIN B.v := 1; B.v := TRUE; INC(B.v); i := B.v; i := B.F(1); B.F(1) END A.",
        "0:42-0:43 readOnly; 0:52-0:53 readOnly; 0:59-0:63 notAssignable; 0:69-0:70 readOnly; 0:98-0:99 badCall;",
    ),
    (
        "MODULE A; TYPE S = ARRAY 2 OF INTEGER; R = RECORD f: S END; PROCEDURE P(a: S; r: R; o: ARRAY OF INTEGER; i: INTEGER; VAR v: S); BEGIN a[0] := 1; r.f[0] := 1; o[0] := 1; i := 1; v[0] := 1; a := v; INC(a[0]) END P; END A.",
        "0:134-0:135 readOnly; 0:145-0:146 readOnly; 0:158-0:159 readOnly; 0:188-0:189 readOnly; 0:200-0:201 readOnly;",
    ),
    (
        "MODULE A; VAR i: INTEGER; y: BYTE; c: CHAR; b: BOOLEAN; s: SET; t: ARRAY 3 OF CHAR; BEGIN i := y; y := i; c := \"x\"; c := \"xy\"; t := \"ab\"; t := \"abc\"; b := 1; s := {}; i := c; t := t; c := 41X END A.",
        "0:121-0:125 notAssignable; 0:143-0:148 notAssignable; 0:155-0:156 notAssignable; 0:172-0:173 notAssignable;",
    ),
    (
        "MODULE A; TYPE T = RECORD END; U = RECORD (T) END; VAR t: T; u: U; r: RECORD END; a: ARRAY 2 OF T; b: ARRAY 2 OF T; c: ARRAY 3 OF T; BEGIN t := u; u := t; t := r; a := b; a := c END A.",
        "0:152-0:153 notAssignable; 0:160-0:161 notAssignable; 0:176-0:177 notAssignable;",
    ),
    (
        "MODULE A; TYPE T = RECORD END; U = RECORD (T) END; VAR u: U; s: ARRAY 2 OF CHAR; n: ARRAY 2 OF BYTE; i: INTEGER; PROCEDURE P(VAR t: T; o: ARRAY OF CHAR; VAR w: ARRAY OF CHAR); END P; PROCEDURE Q(VAR i: INTEGER); END Q; PROCEDURE R; VAR y: BYTE; BEGIN P(u, \"abc\", s); P(u, s, \"abc\"); P(s, n, n); Q(y); Q(i); P(i, 1, s) END R; END A.",
        "0:275-0:280 notVariable; 0:285-0:286 badArgument; 0:288-0:289 badArgument; 0:291-0:292 badArgument; 0:297-0:298 badArgument; 0:309-0:310 badArgument; 0:312-0:313 badArgument;",
    ),
    (
        "MODULE A; VAR i: INTEGER; y: BYTE; s: SET; b: BOOLEAN; a: ARRAY 2 OF CHAR; BEGIN INC(y); DEC(y, i); INC(b); INCL(s, 1); EXCL(i, b); ASSERT(b); ASSERT(i); i := LEN(a); i := LEN(i); i := LEN(\"abc\"); i := ORD(TRUE) + ORD({}) + ORD(\"x\"); i := ORD(1); i := LSL(1, i) + ASR(y, 1) + ROR(i, b); b := ODD(y); a[0] := CHR(y) END A.",
        "0:104-0:105 badArgument; 0:125-0:126 badArgument; 0:128-0:129 badArgument; 0:150-0:151 badArgument; 0:176-0:177 badArgument; 0:189-0:194 notVariable; 0:243-0:244 badArgument; 0:283-0:284 badArgument;",
    ),
    (
        "MODULE A; VAR i: INTEGER; x: Nope; BEGIN ABS(x); ABS(x) := 1; INC(ABS(x)); i := ABS(x).y; ODD(1, 2); i := LEN(x) END A.",
        "0:29-0:33 noName Nope; 0:90-0:93 argumentCount;",
    ),
];

/// FOR and CASE.
const STATEMENTS: [(&str, &str); 8] = [
    (
        "MODULE A; VAR i: INTEGER; b: BYTE; BEGIN FOR i := 0 TO 9 DO END; FOR b := 0 TO 1 DO END; FOR j := 0 TO 1 DO END; FOR i := b TO b BY 2 DO END END A.",
        "0:69-0:70 badControl; 0:93-0:94 noName j;",
    ),
    (
        "MODULE A; CONST c = 1; VAR i: INTEGER; PROCEDURE P(VAR v: INTEGER; w: INTEGER); BEGIN FOR v := 1 TO 2 DO END; FOR w := 1 TO 2 DO END END P; BEGIN FOR c := 1 TO 2 DO END; FOR i := TRUE TO \"x\" DO END END A.",
        "0:150-0:151 badControl; 0:179-0:183 notInteger; 0:187-0:190 notInteger;",
    ),
    (
        "MODULE A; CONST c = 2; VAR i: INTEGER; BEGIN FOR i := 0 TO 9 BY c DO END; FOR i := 0 TO 9 BY 0 DO END; FOR i := 0 TO 9 BY c - 2 DO END; FOR i := 0 TO 9 BY i + 1 DO END; FOR i := 0 TO 9 BY TRUE DO END; FOR i := 0 TO 9 BY 1 DIV 0 DO END; FOR i := 0 TO 9 BY Nope DO END END A.",
        "0:93-0:94 constantRange; 0:122-0:127 constantRange; 0:155-0:160 notConstant; 0:188-0:192 notInteger; 0:220-0:227 constantRange; 0:255-0:259 noName Nope;",
    ),
    (
        "MODULE A; VAR i: INTEGER; c: CHAR; y: BYTE; BEGIN CASE i OF 1: | 2 .. 4, 6: END; CASE c OF \"a\": | \"b\" .. \"d\", 65X: END; CASE y OF 1: END; CASE TRUE OF Nope: END; CASE \"x\" OF 1: END END A.",
        "0:143-0:147 badOperand; 0:151-0:155 noName Nope; 0:167-0:170 badOperand;",
    ),
    (
        "MODULE A; VAR i: INTEGER; c: CHAR; BEGIN CASE i OF \"a\": | 1: | 1: | 5 .. 4: | 4: | 2 .. 4: | 3: END; CASE c OF 1: | \"a\" .. \"f\": | \"c\": | \"ab\": | \"a\" .. 7: END END A.",
        "0:51-0:54 badCase; 0:63-0:64 labelTwice; 0:68-0:69 badCase; 0:83-0:84 labelTwice; 0:93-0:94 labelTwice; 0:111-0:112 badCase; 0:130-0:133 labelTwice; 0:137-0:141 badCase; 0:145-0:148 badCase;",
    ),
    (
        "MODULE A; CONST k = 3; s = \"s\"; VAR i: INTEGER; c: CHAR; BEGIN CASE i OF k: | i: | INTEGER: | x: | x .. 9: | k .. \"a\": | s: END; CASE c OF s: | \"t\": | 73X: END END A.",
        "0:78-0:79 badCase; 0:83-0:90 badCase; 0:94-0:95 noName x; 0:99-0:100 noName x; 0:109-0:110 badCase; 0:121-0:122 badCase; 0:151-0:154 labelTwice;",
    ),
    (
        "MODULE A; BEGIN CASE x OF 1: | \"a\": | 4 .. \"c\": | \"ab\": | 1: | 9 .. 8: | \"a\" .. \"b\": END END A.",
        "0:21-0:22 noName x; 0:50-0:54 badCase; 0:58-0:59 labelTwice; 0:63-0:64 badCase; 0:73-0:76 labelTwice;",
    ),
    (
        "MODULE A; BEGIN CASE INTEGER OF 1: END END A.",
        "0:21-0:28 notVariable;",
    ),
];

fn views(alloc: Global) -> Result<IndexMap<Name, View>, Fail> {
    let none = IndexMap::new(alloc);
    let b = checked_as(alloc, "B", B, &none)?;
    let output = checked_as(alloc, "Out", OUT, &none)?;
    let mut views = IndexMap::new(alloc);
    views.insert(Name::new(alloc, b"B".as_slice())?, b.view)?;
    views.insert(Name::new(alloc, b"Out".as_slice())?, output.view)?;
    views.insert(Name::new(alloc, b"C".as_slice())?, View::Broken)?;
    views.insert(Name::new(alloc, b"D".as_slice())?, View::Cyclic)?;
    Ok(views)
}

#[test]
fn says_what_the_rules_say(rt: HostRuntime) -> Result<(), Fail> {
    let alloc = rt.alloc();
    let views = views(alloc)?;
    let tables = [
        NAMES.as_slice(),
        CONSTANTS.as_slice(),
        TYPES.as_slice(),
        WEIGHTS.as_slice(),
        PROCEDURES.as_slice(),
        OPERATORS.as_slice(),
        DESIGNATORS.as_slice(),
        STATEMENTS.as_slice(),
    ];
    for table in &tables {
        for (text, want) in *table {
            let found = checked(alloc, text, &views)?;
            let told = named(alloc, found.list.as_slice())?;
            if told.as_str() != *want {
                println!(rt; "{text}: {told}")?;
                return Err(Fail::from("another list"));
            }
        }
    }
    Ok(())
}
