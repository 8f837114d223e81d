//! When the key of what a module shows changes: where a module that imports it could tell, and nowhere else.
use crate::texts::checked;
use iface_key::{Key, key_of};
use indexmap::IndexMap;
use std::alloc::Global;
use std::test::Fail;

const BEFORE: &str =
    "MODULE A; CONST K* = 2; L* = 3; TYPE T* = RECORD x*: INTEGER; y: CHAR END; VAR v*: T; h: INTEGER; PROCEDURE P*(VAR a: INTEGER; b: T): INTEGER; BEGIN a := 1 RETURN 0 END P; END A.";

const SAME: [&str; 7] = [
    // a body
    "MODULE A; CONST K* = 2; L* = 3; TYPE T* = RECORD x*: INTEGER; y: CHAR END; VAR v*: T; h: INTEGER; PROCEDURE P*(VAR a: INTEGER; b: T): INTEGER; VAR i: INTEGER; BEGIN i := b.x; a := i RETURN a END P; BEGIN h := 1 END A.",
    // a comment
    "MODULE A; (* numbers *) CONST K* = 2; L* = 3; TYPE T* = RECORD x*: INTEGER; y: CHAR END; VAR v*: T; h: INTEGER; PROCEDURE P*(VAR a: INTEGER; b: T): INTEGER; BEGIN a := 1 RETURN 0 END P; END A.",
    // private declarations
    "MODULE A; CONST K* = 2; L* = 3; M = 4; TYPE T* = RECORD x*: INTEGER; y: CHAR END; VAR v*: T; h, g: BOOLEAN; PROCEDURE P*(VAR a: INTEGER; b: T): INTEGER; BEGIN a := 1 RETURN 0 END P; PROCEDURE Q; END Q; END A.",
    // the order of declarations
    "MODULE A; CONST L* = 3; K* = 2; TYPE T* = RECORD x*: INTEGER; y: CHAR END; VAR h: INTEGER; v*: T; PROCEDURE P*(VAR a: INTEGER; b: T): INTEGER; BEGIN a := 1 RETURN 0 END P; END A.",
    // how a constant is written
    "MODULE A; CONST K* = 1 + 1; L* = K + 1; TYPE T* = RECORD x*: INTEGER; y: CHAR END; VAR v*: T; h: INTEGER; PROCEDURE P*(VAR a: INTEGER; b: T): INTEGER; BEGIN a := 1 RETURN 0 END P; END A.",
    // names of parameters
    "MODULE A; CONST K* = 2; L* = 3; TYPE T* = RECORD x*: INTEGER; y: CHAR END; VAR v*: T; h: INTEGER; PROCEDURE P*(VAR c: INTEGER; d: T): INTEGER; BEGIN c := 1 RETURN 0 END P; END A.",
    // the name and the type of a hidden field of the same size
    "MODULE A; CONST K* = 2; L* = 3; TYPE T* = RECORD x*: INTEGER; z: BOOLEAN END; VAR v*: T; h: INTEGER; PROCEDURE P*(VAR a: INTEGER; b: T): INTEGER; BEGIN a := 1 RETURN 0 END P; END A.",
];

const OTHER: [&str; 8] = [
    // a constant's value
    "MODULE A; CONST K* = 4; L* = 3; TYPE T* = RECORD x*: INTEGER; y: CHAR END; VAR v*: T; h: INTEGER; PROCEDURE P*(VAR a: INTEGER; b: T): INTEGER; BEGIN a := 1 RETURN 0 END P; END A.",
    // the mark of a field
    "MODULE A; CONST K* = 2; L* = 3; TYPE T* = RECORD x*: INTEGER; y*: CHAR END; VAR v*: T; h: INTEGER; PROCEDURE P*(VAR a: INTEGER; b: T): INTEGER; BEGIN a := 1 RETURN 0 END P; END A.",
    // the kind of a parameter
    "MODULE A; CONST K* = 2; L* = 3; TYPE T* = RECORD x*: INTEGER; y: CHAR END; VAR v*: T; h: INTEGER; PROCEDURE P*(a: INTEGER; b: T): INTEGER; BEGIN a := 1 RETURN 0 END P; END A.",
    // the origin of a record
    "MODULE A; CONST K* = 2; L* = 3; TYPE S = RECORD x*: INTEGER; y: CHAR END; T* = S; VAR v*: T; h: INTEGER; PROCEDURE P*(VAR a: INTEGER; b: T): INTEGER; BEGIN a := 1 RETURN 0 END P; END A.",
    // the size of a record, by a hidden field
    "MODULE A; CONST K* = 2; L* = 3; TYPE T* = RECORD x*: INTEGER; y: ARRAY 2 OF CHAR END; VAR v*: T; h: INTEGER; PROCEDURE P*(VAR a: INTEGER; b: T): INTEGER; BEGIN a := 1 RETURN 0 END P; END A.",
    // one export more
    "MODULE A; CONST K* = 2; L* = 3; TYPE T* = RECORD x*: INTEGER; y: CHAR END; VAR v*: T; h*: INTEGER; PROCEDURE P*(VAR a: INTEGER; b: T): INTEGER; BEGIN a := 1 RETURN 0 END P; END A.",
    // the result of a procedure
    "MODULE A; CONST K* = 2; L* = 3; TYPE T* = RECORD x*: INTEGER; y: CHAR END; VAR v*: T; h: INTEGER; PROCEDURE P*(VAR a: INTEGER; b: T): BOOLEAN; BEGIN a := 1 RETURN TRUE END P; END A.",
    // what a name stands for
    "MODULE A; CONST L* = 3; TYPE T* = RECORD x*: INTEGER; y: CHAR END; VAR K*: INTEGER; v*: T; h: INTEGER; PROCEDURE P*(VAR a: INTEGER; b: T): INTEGER; BEGIN a := 1 RETURN 0 END P; END A.",
];

/// The key of what a text without faults shows.
fn key(alloc: Global, text: &str) -> Result<Key, Fail> {
    let checked = checked(alloc, text, &IndexMap::new(alloc))?;
    if !checked.list.is_empty() {
        return Err(Fail::from("a text of the table has faults"));
    }
    Ok(key_of(alloc, &checked.view)?)
}

#[test]
fn keys_follow_what_is_shown(rt: HostRuntime) -> Result<(), Fail> {
    let before = key(rt.alloc(), BEFORE)?;
    for text in &SAME {
        if key(rt.alloc(), text)? != before {
            return Err(Fail::from("a key has changed where nothing is shown otherwise"));
        }
    }
    for text in &OTHER {
        if key(rt.alloc(), text)? == before {
            return Err(Fail::from("a key is the same where something else is shown"));
        }
    }
    Ok(())
}
