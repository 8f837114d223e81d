use session_lines::{CLOSED, INITIALIZED, Parts, add_frame, add_told};
use session_runs::{
    APP, Files, ROW, Row, WORKSPACE_FILE, expect_answers, expect_row, expect_rows, expect_whole,
    session_of, tree,
};
use std::alloc::Global;
use std::test::Fail;

const APP_ON_LIB: &[u8] =
    b"{\"version\":1,\"targets\":[{\"name\":\"lib\",\"kind\":\"library\",\"modules\":[\"B.Mod\"]},{\"name\":\"app\",\"kind\":\"application\",\"modules\":[\"A.Mod\"],\"dependencies\":[\"lib\"],\"main\":\"A\"}]}";

const OPEN_COMMENT: &[u8] = b"MODULE A; (* x";

const CLEAN: &[u8] = b"MODULE A; END A.";

const COMPILE_2: &[u8] =
    b"{\"jsonrpc\":\"2.0\",\"id\":2,\"method\":\"buildTarget/compile\",\"params\":{\"targets\":[{\"uri\":\"file:///w/?id=app\"}]}}";

const COMPILE_3: &[u8] =
    b"{\"jsonrpc\":\"2.0\",\"id\":3,\"method\":\"buildTarget/compile\",\"params\":{\"targets\":[{\"uri\":\"file:///w/?id=app\"}],\"originId\":\"o\"}}";

const COMPILE_ZZZ: &[u8] =
    b"{\"jsonrpc\":\"2.0\",\"id\":2,\"method\":\"buildTarget/compile\",\"params\":{\"targets\":[{\"uri\":\"file:///w/?id=zzz\"}]}}";

const COMPILE_NONE: &[u8] =
    b"{\"jsonrpc\":\"2.0\",\"id\":3,\"method\":\"buildTarget/compile\",\"params\":{\"targets\":[]}}";

const OPEN_COMMENT_SHOWN: &[u8] =
    b"{\"jsonrpc\":\"2.0\",\"method\":\"build/publishDiagnostics\",\"params\":{\"buildTarget\":{\"uri\":\"file:///w/?id=app\"},\"diagnostics\":[{\"code\":\"openComment\",\"message\":\"comment is not closed\",\"range\":{\"end\":{\"character\":12,\"line\":0},\"start\":{\"character\":10,\"line\":0}},\"severity\":1,\"source\":\"oberon\"}],\"reset\":true,\"textDocument\":{\"uri\":\"file:///w/A.Mod\"}}}";

const ABSENT_SHOWN: &[u8] =
    b"{\"jsonrpc\":\"2.0\",\"method\":\"build/publishDiagnostics\",\"params\":{\"buildTarget\":{\"uri\":\"file:///w/?id=app\"},\"diagnostics\":[{\"code\":\"documentAbsent\",\"message\":\"document is absent\",\"range\":{\"end\":{\"character\":0,\"line\":0},\"start\":{\"character\":0,\"line\":0}},\"severity\":1,\"source\":\"oberon\"}],\"reset\":true,\"textDocument\":{\"uri\":\"file:///w/A.Mod\"}}}";

const BAD_TOKEN_SHOWN: &[u8] =
    b"{\"jsonrpc\":\"2.0\",\"method\":\"build/publishDiagnostics\",\"params\":{\"buildTarget\":{\"uri\":\"file:///w/?id=app\"},\"diagnostics\":[{\"code\":\"badToken\",\"message\":\"unexpected symbol\",\"range\":{\"end\":{\"character\":19,\"line\":0},\"start\":{\"character\":18,\"line\":0}},\"severity\":1,\"source\":\"oberon\"}],\"reset\":true,\"textDocument\":{\"uri\":\"file:///w/A.Mod\"}}}";

const LIB_SHOWN: &[u8] =
    b"{\"jsonrpc\":\"2.0\",\"method\":\"build/publishDiagnostics\",\"params\":{\"buildTarget\":{\"uri\":\"file:///w/?id=lib\"},\"diagnostics\":[{\"code\":\"documentAbsent\",\"message\":\"document is absent\",\"range\":{\"end\":{\"character\":0,\"line\":0},\"start\":{\"character\":0,\"line\":0}},\"severity\":1,\"source\":\"oberon\"}],\"reset\":true,\"textDocument\":{\"uri\":\"file:///w/B.Mod\"}}}";

const CLEARED: &[u8] =
    b"{\"jsonrpc\":\"2.0\",\"method\":\"build/publishDiagnostics\",\"params\":{\"buildTarget\":{\"uri\":\"file:///w/?id=app\"},\"diagnostics\":[],\"originId\":\"o\",\"reset\":true,\"textDocument\":{\"uri\":\"file:///w/A.Mod\"}}}";

const FAILED_2: &[u8] = b"{\"id\":2,\"jsonrpc\":\"2.0\",\"result\":{\"statusCode\":2}}";

const FAILED_3: &[u8] =
    b"{\"id\":3,\"jsonrpc\":\"2.0\",\"result\":{\"originId\":\"o\",\"statusCode\":2}}";

const PASSED_2: &[u8] = b"{\"id\":2,\"jsonrpc\":\"2.0\",\"result\":{\"statusCode\":1}}";

const PASSED_3: &[u8] =
    b"{\"id\":3,\"jsonrpc\":\"2.0\",\"result\":{\"originId\":\"o\",\"statusCode\":1}}";

const PASSED_NONE: &[u8] = b"{\"id\":3,\"jsonrpc\":\"2.0\",\"result\":{\"statusCode\":1}}";

const UNKNOWN_TARGET: &[u8] =
    b"{\"error\":{\"code\":-32602,\"message\":\"invalid params: targets[0].uri\"},\"id\":2,\"jsonrpc\":\"2.0\"}";

const UNREADABLE_2: &[u8] =
    b"{\"error\":{\"code\":-32603,\"message\":\"sources unreadable\"},\"id\":2,\"jsonrpc\":\"2.0\"}";

const FILE_OF_BOTH: (&[u8], &[u8]) = (WORKSPACE_FILE, APP_ON_LIB);

/// A session of compiles: the files, what changes before a call of the tree, which calls of it fail, the requests and
/// what is answered.
type Case = (
    Files<'static>,
    &'static [(u64, &'static [u8], &'static [u8])],
    &'static [u64],
    Parts<'static>,
    Parts<'static>,
);

const CASES: [Case; 7] = [
    // What was found is shown until it is mended.
    (
        &[APP, (b"A.Mod", OPEN_COMMENT)],
        &[(3, b"A.Mod", CLEAN)],
        &[],
        &[COMPILE_2, COMPILE_3],
        &[OPEN_COMMENT_SHOWN, FAILED_2, CLEARED, PASSED_3],
    ),
    // What is shown already isn't published again.
    (
        &[APP, (b"A.Mod", OPEN_COMMENT)],
        &[],
        &[],
        &[COMPILE_2, COMPILE_3],
        &[OPEN_COMMENT_SHOWN, FAILED_2, FAILED_3],
    ),
    (&[APP], &[], &[], &[COMPILE_2], &[ABSENT_SHOWN, FAILED_2]),
    (
        &[APP, (b"A.Mod", b"MODULE A; BEGIN x = 1 END A.")],
        &[],
        &[],
        &[COMPILE_2],
        &[BAD_TOKEN_SHOWN, FAILED_2],
    ),
    // A target is compiled with all that it depends on, in the order of the file.
    (
        &[FILE_OF_BOTH, (b"A.Mod", OPEN_COMMENT)],
        &[],
        &[],
        &[COMPILE_2],
        &[LIB_SHOWN, OPEN_COMMENT_SHOWN, FAILED_2],
    ),
    (
        &[APP, (b"A.Mod", CLEAN)],
        &[],
        &[],
        &[COMPILE_ZZZ, COMPILE_NONE, COMPILE_2],
        &[UNKNOWN_TARGET, PASSED_NONE, PASSED_2],
    ),
    // The session goes on behind a tree that failed.
    (
        &[APP, (b"A.Mod", CLEAN)],
        &[],
        &[2],
        &[COMPILE_2, COMPILE_3],
        &[UNREADABLE_2, PASSED_3],
    ),
];

#[test]
fn compiles(rt: HostRuntime) -> Result<(), Fail> {
    let alloc = rt.alloc();
    for &(files, changes, failing, requests, answers) in &CASES {
        let mut tree = tree(alloc, files, changes, failing)?;
        expect_answers(rt.alloc(), &mut tree, requests, answers)?;
    }
    Ok(())
}

const PIECE_FRONT: &[u8] =
    b"{\"jsonrpc\":\"2.0\",\"method\":\"build/publishDiagnostics\",\"params\":{\"buildTarget\":{\"uri\":\"file:///w/?id=app\"},\"diagnostics\":[";

const PIECE_BACK_FIRST: &[u8] =
    b"],\"reset\":true,\"textDocument\":{\"uri\":\"file:///w/A.Mod\"}}}";

const PIECE_BACK: &[u8] = b"],\"reset\":false,\"textDocument\":{\"uri\":\"file:///w/A.Mod\"}}}";

/// The bad character of this number.
fn item(alloc: Global, number: u32) -> Result<String, Fail> {
    let start = 10 + 2 * u64::from(number);
    Ok(format!(in alloc;
        "{{\"code\":\"badCharacter\",\"message\":\"bad character\",\"range\":{{\"end\":{{\"character\":{},\"line\":0}},\"start\":{{\"character\":{},\"line\":0}}}},\"severity\":1,\"source\":\"oberon\"}}",
        start + 1,
        start
    )?)
}

/// The publication of the bad characters of these numbers, which stand at every second place from 10 on.
fn piece(alloc: Global, from: u32, to: u32, back: &[u8]) -> Result<Vec<u8>, Fail> {
    let mut bytes = Vec::from_slice(alloc, PIECE_FRONT)?;
    for number in from..to {
        if number > from {
            bytes.push(b',')?;
        }
        let item = item(alloc, number)?;
        bytes.extend_from_slice(item.as_bytes())?;
    }
    bytes.extend_from_slice(back)?;
    Ok(bytes)
}

/// A module with 250 bad characters.
fn bad_characters(alloc: Global) -> Result<Vec<u8>, Fail> {
    let mut text = Vec::from_slice(alloc, b"MODULE A; ")?;
    for _ in 0..250 {
        text.extend_from_slice(b"$ ")?;
    }
    text.extend_from_slice(b"END A.")?;
    Ok(text)
}

const BEFORE_PIECES: &str = "
start r2
start r2.t1 app
start r2.c1 r2.t1 A.Mod
finish r2.c1 r2.t1 2
";

const BEHIND_PIECES: &str = "
report r2.t1 app 250 0
finish r2 2
result 2 2
";

/// The publications of 250 bad characters, among what is told of their build.
fn told_in_pieces(alloc: Global) -> Result<Vec<u8>, Fail> {
    let mut output = Vec::from_slice(alloc, INITIALIZED)?;
    add_told(alloc, BEFORE_PIECES, "", &mut output)?;
    for (from, to, back) in [
        (0, 100, PIECE_BACK_FIRST),
        (100, 200, PIECE_BACK),
        (200, 250, PIECE_BACK),
    ] {
        let piece = piece(alloc, from, to, back)?;
        add_frame(alloc, piece.as_slice(), &mut output)?;
    }
    add_told(alloc, BEHIND_PIECES, "", &mut output)?;
    output.extend_from_slice(CLOSED)?;
    Ok(output)
}

#[test]
fn publishes_a_long_list_in_pieces(rt: HostRuntime) -> Result<(), Fail> {
    let text = bad_characters(rt.alloc())?;
    let files: [(&[u8], &[u8]); 2] = [APP, (b"A.Mod", text.as_slice())];
    let mut tree = tree(rt.alloc(), &files, &[], &[])?;
    let session = session_of(rt.alloc(), &[COMPILE_2])?;
    let output = told_in_pieces(rt.alloc())?;
    expect_whole(rt.alloc(), &mut tree, session, 0, output.as_slice())
}

/// A build that is cancelled before its check shows no piece of the list.
#[test]
fn publishes_nothing_of_a_check_that_was_not_done(rt: HostRuntime) -> Result<(), Fail> {
    let text = bad_characters(rt.alloc())?;
    let files: [(&[u8], &[u8]); 2] = [APP, (b"A.Mod", text.as_slice())];
    expect_row(
        rt.alloc(),
        &Row {
            files: &files,
            sent: "
initialize
compile 2 app
cut
cancel 2
wait
shutdown 3
exit
",
            told: "
initialized
start r2
start r2.t1 app
start r2.c1 r2.t1 A.Mod
finish r2.c1 r2.t1 3
finish r2.t1 r2 3
finish r2 3
result 2 3
null 3
",
            ..ROW
        },
    )
}

/// Sessions whose output fails when the check is made: as its end is written, and behind that.
const UNWRITTEN: [Row<'static>; 2] = [
    Row {
        sent: "
initialize
compile 2 app
wait
",
        unwritten: &[5],
        told: "
initialized
start r2
start r2.t1 app
start r2.c1 r2.t1 A.Mod
",
        status: 4,
        ..ROW
    },
    Row {
        sent: "
initialize
compile 2 app
wait
",
        unwritten: &[6],
        told: "
initialized
start r2
start r2.t1 app
start r2.c1 r2.t1 A.Mod
finish r2.c1 r2.t1 1
",
        status: 4,
        ..ROW
    },
];

#[test]
fn output_fails_as_an_outcome_is_acted_on(rt: HostRuntime) -> Result<(), Fail> {
    expect_rows(rt.alloc(), &UNWRITTEN)
}
