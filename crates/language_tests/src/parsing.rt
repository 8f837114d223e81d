//! `parse`: the first bad token of changed sentences of each construct, of whole texts, and of deep nests.
use crate::texts::{repeated, scanned};
use oberon_parse::{ParseRefusal, parse};
use std::alloc::{AllocError, Global};
use std::test::Fail;

/// In each line, parted by `_`: what stands before a smallest sentence of a construct, the sentence, what stands
/// behind it, and the indices of the first bad token when each token of the sentence in turn is missing, stands
/// twice, and is replaced (`-`: a module all the same). `bench/parse_cases` prints this table from the grammar of
/// `docs/LANGUAGE.md` alone.
const CASES: &str = "
_ MODULE A ; END A . _  _ 0 1 2 3 4 5 _ 1 2 3 4 5 6 _ 0 1 2 3 4 5
MODULE A ; _ IMPORT B ; _ END A . _ 3 4 5 _ 4 5 6 _ 3 4 5
MODULE A ; IMPORT B _ , C _ ; END A . _ 5 6 _ 6 7 _ 5 6
MODULE A ; IMPORT B _ := C _ ; END A . _ 5 6 _ 6 7 _ 5 6
MODULE A ; _ CONST a = 1 ; _ END A . _ 3 4 5 6 7 _ 4 5 6 7 8 _ 3 4 5 - 7
MODULE A ; CONST a _ * _ = 1 ; END A . _ - _ 6 _ 5
MODULE A ; _ TYPE T = U ; _ END A . _ 3 4 5 6 7 _ 4 5 6 7 8 _ 3 4 5 6 7
MODULE A ; _ VAR a : U ; _ END A . _ 3 4 5 6 7 _ 4 5 6 7 8 _ 3 4 5 6 7
MODULE A ; VAR a _ , b _ : U ; END A . _ 5 6 _ 6 7 _ 5 6
MODULE A ; _ PROCEDURE P ; END P ; _ END A . _ 3 4 5 6 7 8 _ 4 5 6 7 8 9 _ 3 4 5 6 7 8
MODULE A ; TYPE T = _ M . U _ ; END A . _ 6 7 8 _ 7 8 9 _ 6 7 8
MODULE A ; TYPE T = _ ARRAY 1 OF U _ ; END A . _ 6 7 8 9 _ 7 8 9 10 _ 7 - 8 9
MODULE A ; TYPE T = ARRAY 1 _ , 2 _ OF U ; END A . _ 8 9 _ 9 10 _ 8 -
MODULE A ; TYPE T = _ RECORD END _ ; END A . _ 6 7 _ 7 8 _ 7 8
MODULE A ; TYPE T = RECORD _ ( M . U ) _ END ; END A . _ 8 8 9 10 11 _ 8 9 10 11 12 _ 8 8 9 10 11
MODULE A ; TYPE T = RECORD _ a * , b : U ; c : U _ END ; END A . _ 7 - 9 10 11 12 13 14 15 16 _ 8 9 10 11 12 13 14 15 16 17 _ 7 8 9 10 11 12 13 14 15 16
MODULE A ; PROCEDURE P _ ( ) _ ; END P ; END A . _ 5 6 _ 6 7 _ 5 7
MODULE A ; PROCEDURE P _ ( a : U ) _ ; END P ; END A . _ 5 6 7 8 10 _ 6 7 8 9 10 _ 5 6 7 8 9
MODULE A ; PROCEDURE P _ ( VAR a , b : U ; c : U ) _ ; END P ; END A . _ 5 - 7 8 9 10 11 12 13 14 15 17 _ 6 7 8 9 10 11 12 13 14 15 16 17 _ 5 7 7 8 9 10 11 12 13 14 15 16
MODULE A ; PROCEDURE P ( a : _ ARRAY OF U _ ) ; END P ; END A . _ 8 9 10 _ 9 10 11 _ 9 9 10
MODULE A ; PROCEDURE P ( ) _ : M . U _ ; END P ; END A . _ 7 8 9 10 _ 8 9 10 11 _ 7 8 9 10
MODULE A ; PROCEDURE P ; _ CONST a = 1 ; _ END P ; END A . _ 6 7 8 9 10 _ 7 8 9 10 11 _ 6 7 8 - 10
MODULE A ; PROCEDURE P ; _ VAR a , b : U ; _ END P ; END A . _ 6 7 8 9 10 11 12 _ 7 8 9 10 11 12 13 _ 6 7 8 9 10 11 12
MODULE A ; PROCEDURE P ; _ BEGIN P _ END P ; END A . _ 6 - _ 7 8 _ 6 -
MODULE A ; PROCEDURE P ; _ RETURN 1 _ END P ; END A . _ 6 7 _ 7 8 _ 6 -
MODULE A ; _ BEGIN P _ END A . _ 3 - _ 4 5 _ 3 -
MODULE A ; BEGIN _ P ; Q _ END A . _ - 5 - _ 5 - 7 _ - 5 -
MODULE A ; BEGIN _ a := 1 _ END A . _ 4 5 6 _ 5 6 7 _ 5 5 -
MODULE A ; BEGIN _ IF a THEN P END _ END A . _ 5 5 6 - 9 _ 5 6 7 8 10 _ 5 5 6 - 8
MODULE A ; BEGIN IF a THEN _ ELSIF b THEN P _ END END A . _ 8 8 9 - _ 8 9 10 11 _ 8 8 9 -
MODULE A ; BEGIN IF a THEN _ ELSE P _ END END A . _ - - _ 8 9 _ 8 -
MODULE A ; BEGIN _ CASE a OF END _ END A . _ 5 5 6 8 _ 5 6 7 9 _ 5 5 6 8
MODULE A ; BEGIN CASE a OF _ 1 : P _ END END A . _ 7 8 - _ 8 9 10 _ - 8 -
MODULE A ; BEGIN CASE a OF _ 1 , \"s\" .. M . b : P _ END END A . _ 7 8 9 10 11 12 13 14 - _ 8 9 10 11 12 13 14 15 16 _ - 8 - 10 11 12 13 14 -
MODULE A ; BEGIN CASE a OF 1 : _ | 2 : _ END END A . _ 9 10 11 _ - 11 12 _ 10 - 11
MODULE A ; BEGIN _ WHILE a DO P END _ END A . _ 5 5 6 - 9 _ 5 6 7 8 10 _ 5 5 6 - 8
MODULE A ; BEGIN WHILE a DO _ ELSIF b DO P _ END END A . _ 8 8 9 - _ 8 9 10 11 _ 8 8 9 -
MODULE A ; BEGIN _ REPEAT P UNTIL a _ END A . _ 5 - 6 7 _ 9 6 7 8 _ 5 - 6 7
MODULE A ; BEGIN _ FOR i := 1 TO 2 DO P END _ END A . _ 7 5 6 7 8 9 10 - 13 _ 5 6 7 8 9 10 11 12 14 _ 5 5 6 - 8 - 10 - 12
MODULE A ; BEGIN FOR i := 1 TO 2 _ BY 3 _ DO END END A . _ 10 11 _ 11 12 _ 10 -
MODULE A ; BEGIN x := _ a < b _ END A . _ 6 7 8 _ 7 8 9 _ 6 7 8
MODULE A ; BEGIN x := _ a IN b _ END A . _ 6 7 8 _ 7 8 9 _ 6 7 8
MODULE A ; BEGIN x := _ - a _ END A . _ - 7 _ 7 8 _ 7 7
MODULE A ; BEGIN x := _ a + b _ END A . _ - 7 8 _ 7 8 9 _ 6 7 8
MODULE A ; BEGIN x := _ a OR b _ END A . _ 6 7 8 _ 7 8 9 _ 6 7 8
MODULE A ; BEGIN x := _ a * b _ END A . _ 6 7 8 _ 7 8 9 _ 6 7 8
MODULE A ; BEGIN x := _ a DIV b _ END A . _ 6 7 8 _ 7 8 9 _ 6 7 8
MODULE A ; BEGIN x := _ TRUE _ END A . _ 6 _ 7 _ -
MODULE A ; BEGIN x := _ \"s\" _ END A . _ 6 _ 7 _ -
MODULE A ; BEGIN x := _ { } _ END A . _ 6 7 _ 9 8 _ 7 8
MODULE A ; BEGIN x := _ { 1 , 2 .. 3 } _ END A . _ 7 7 8 9 10 11 12 _ 14 8 9 10 11 12 13 _ 7 - 8 - 10 - 12
MODULE A ; BEGIN x := _ ( a ) _ END A . _ 7 7 8 _ 10 8 9 _ 7 7 8
MODULE A ; BEGIN x := _ ~ a _ END A . _ - 7 _ - 8 _ 7 7
MODULE A ; BEGIN x := _ a . b _ END A . _ 6 7 8 _ 7 8 9 _ 6 7 8
MODULE A ; BEGIN x := _ a [ 1 , 2 ] _ END A . _ 6 7 8 9 10 11 _ 7 8 9 10 11 12 _ 6 7 - 9 - 11
MODULE A ; BEGIN x := _ a ( ) _ END A . _ 7 7 8 _ 7 9 9 _ 6 7 9
MODULE A ; BEGIN x := _ a ( 1 , 2 ) _ END A . _ 8 7 8 9 10 11 _ 7 10 9 10 11 12 _ 6 7 - 9 - 11
";

/// What is done to one token of a sentence.
#[derive(Clone, Copy)]
enum Change {
    Missing,
    Doubled,
    Replaced,
}

/// The number of tokens before the first bad one, or nothing for a module.
fn first_bad(alloc: Global, text: &str) -> Result<Option<usize>, Fail> {
    match parse(alloc, &scanned(alloc, text)?.tokens) {
        Ok(_) => Ok(None),
        Err(ParseRefusal::FirstBad(index)) => Ok(Some(index)),
        Err(ParseRefusal::NoMemory) => Err(Fail::from("no memory")),
    }
}

/// What stands in a token's place: names in the table have one letter.
fn replacement(token: &str) -> &'static str {
    let is_name = token.len() == 1 && token.as_bytes()[0].is_ascii_alphabetic();
    if is_name { ";" } else { "x" }
}

/// The sentence with one token changed.
fn changed(alloc: Global, sentence: &str, at: usize, change: Change) -> Result<String, AllocError> {
    let mut out = String::new(alloc);
    for (index, token) in sentence.split_whitespace().enumerate() {
        let shown = if index == at {
            match change {
                Change::Missing => "",
                Change::Doubled => token,
                Change::Replaced => replacement(token),
            }
        } else {
            token
        };
        write!(out, " {shown}")?;
        if index == at && matches!(change, Change::Doubled) {
            write!(out, " {token}")?;
        }
    }
    Ok(out)
}

/// The indices of the first bad token when each token of a sentence in turn is changed.
fn indices(
    alloc: Global,
    around: (&str, &str),
    sentence: &str,
    change: Change,
) -> Result<String, Fail> {
    let (front, back) = around;
    let mut out = String::new(alloc);
    for at in 0..sentence.split_whitespace().count() {
        if at > 0 {
            out.push_str(" ")?;
        }
        let middle = changed(alloc, sentence, at, change)?;
        let index = index_in(alloc, front, middle.as_str(), back)?;
        out.push_str(index.as_str())?;
    }
    Ok(out)
}

/// The index of the first bad token, or `-` for a module.
fn index_in(alloc: Global, front: &str, middle: &str, back: &str) -> Result<String, Fail> {
    let text = format!(in alloc; "{front} {middle} {back}")?;
    Ok(match first_bad(alloc, text.as_str())? {
        Some(index) => format!(in alloc; "{index}")?,
        None => String::from_str(alloc, "-")?,
    })
}

/// Whether the indices are these.
fn gives(
    alloc: Global,
    around: (&str, &str),
    sentence: &str,
    change: Change,
    want: &str,
) -> Result<bool, Fail> {
    let found = indices(alloc, around, sentence, change)?;
    Ok(found.as_str() == want)
}

/// Whether a line of the table holds.
fn holds(alloc: Global, line: &str) -> Result<bool, Fail> {
    let cells: Vec<&str> = line.split('_').collect(alloc)?;
    if cells.len() != 6 {
        return Ok(false);
    }
    let around = (cells[0], cells[2]);
    let sentence = cells[1];
    let index = index_in(alloc, cells[0], sentence, cells[2])?;
    Ok(
        index.as_str() == "-"
            && gives(alloc, around, sentence, Change::Missing, cells[3].trim())?
            && gives(alloc, around, sentence, Change::Doubled, cells[4].trim())?
            && gives(alloc, around, sentence, Change::Replaced, cells[5].trim())?,
    )
}

#[test]
fn finds_the_first_bad_token(rt: HostRuntime) -> Result<(), Fail> {
    let alloc = rt.alloc();
    for line in CASES.lines() {
        assert!(rt; line.is_empty() || holds(alloc, line)?, "{line}");
    }
    Ok(())
}

/// Texts whose first bad token is told by the grammar, and its index.
const TEXTS: [(&str, Option<usize>); 12] = [
    ("", Some(0)),
    ("(* no token *)", Some(0)),
    ("MODULE A; END A. .", Some(6)),
    ("MODULE A; END A. MODULE B; END B.", Some(6)),
    (
        "MODULE A; BEGIN IF a THEN ELSE ELSIF b THEN END END A.",
        Some(8),
    ),
    ("MODULE A; BEGIN x := a < b < c END A.", Some(9)),
    ("MODULE A; BEGIN x := NIL END A.", Some(6)),
    ("MODULE A; BEGIN CASE a OF -1: P END END A.", Some(7)),
    ("MODULE A; VAR a: T; CONST b = 1; END A.", Some(8)),
    ("MODULE A; PROCEDURE P; TYPE T = U; END P; END A.", Some(6)),
    (
        "MODULE A; PROCEDURE P(a: ARRAY 3 OF T); END P; END A.",
        Some(9),
    ),
    ("MODULE A; ; END A.", Some(3)),
];

#[test]
fn finds_it_in_whole_texts(rt: HostRuntime) -> Result<(), Fail> {
    let alloc = rt.alloc();
    for &(text, want) in &TEXTS {
        assert_eq!(rt; first_bad(alloc, text)?, want, "{text}");
    }
    Ok(())
}

/// A construct that opens a level.
#[derive(Clone, Copy)]
struct Nest {
    /// What stands before the first of them, what one opens and closes with, and what stands in the last one.
    front: &'static str,
    opening: &'static str,
    inner: &'static str,
    closing: &'static str,
    back: &'static str,
    /// How many of them may stand in one another, and how many tokens stand before one more.
    most: usize,
    index: usize,
}

const VALUE: Nest = Nest {
    front: "MODULE A; BEGIN x := ",
    opening: "(",
    inner: "1",
    closing: ")",
    back: " END A.",
    most: 64,
    index: 70,
};

const STATEMENT: Nest = Nest {
    front: "MODULE A; BEGIN ",
    opening: "REPEAT ",
    inner: "",
    closing: " UNTIL a",
    back: " END A.",
    most: 64,
    index: 68,
};

const TYPE: Nest = Nest {
    front: "MODULE A; TYPE T = ",
    opening: "ARRAY 1 OF ",
    inner: "U",
    closing: "",
    back: "; END A.",
    most: 64,
    index: 198,
};

const NESTS: [Nest; 13] = [
    VALUE,
    Nest {
        opening: "~",
        closing: "",
        ..VALUE
    },
    Nest {
        opening: "{",
        closing: "}",
        ..VALUE
    },
    Nest {
        front: "MODULE A; BEGIN x := a",
        opening: "[a",
        inner: "",
        closing: "]",
        index: 135,
        ..VALUE
    },
    Nest {
        front: "MODULE A; BEGIN x := a",
        opening: "(a",
        inner: "",
        closing: ")",
        index: 135,
        ..VALUE
    },
    STATEMENT,
    Nest {
        opening: "IF a THEN ",
        closing: " END",
        index: 196,
        ..STATEMENT
    },
    Nest {
        opening: "CASE a OF 1: ",
        closing: " END",
        index: 324,
        ..STATEMENT
    },
    Nest {
        opening: "WHILE a DO ",
        closing: " END",
        index: 196,
        ..STATEMENT
    },
    Nest {
        opening: "FOR i := 1 TO 2 DO ",
        closing: " END",
        index: 452,
        ..STATEMENT
    },
    TYPE,
    Nest {
        opening: "RECORD a: ",
        closing: " END",
        ..TYPE
    },
    // PROCEDURE opens the first level.
    Nest {
        front: "MODULE A; PROCEDURE P(a: ",
        opening: "ARRAY OF ",
        back: "); END P; END A.",
        most: 63,
        index: 134,
        ..TYPE
    },
];

fn nested(alloc: Global, nest: &Nest, count: usize) -> Result<String, AllocError> {
    let opened = repeated(alloc, nest.opening, count)?;
    let closed = repeated(alloc, nest.closing, count)?;
    let Nest {
        front,
        inner,
        back,
        ..
    } = nest;
    format!(in alloc; "{front}{opened}{inner}{closed}{back}")
}

fn bad_in_nest(alloc: Global, nest: &Nest, count: usize) -> Result<Option<usize>, Fail> {
    let text = nested(alloc, nest, count)?;
    first_bad(alloc, text.as_str())
}

#[test]
fn opens_sixty_four_levels(rt: HostRuntime) -> Result<(), Fail> {
    let alloc = rt.alloc();
    for &nest in &NESTS {
        assert_eq!(rt;
            bad_in_nest(alloc, &nest, nest.most)?,
            None,
            "{}",
            nest.opening
        );
        for count in [nest.most.saturating_add(1), 10_000] {
            let found = bad_in_nest(alloc, &nest, count)?;
            assert_eq!(rt; found, Some(nest.index), "{}", nest.opening);
        }
    }
    Ok(())
}
