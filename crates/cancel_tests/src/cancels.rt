//! Sessions in which requests are cancelled while builds run, or a build is cut off by what ends a session.
use session_runs::{Files, ROW, Row, WORKSPACE_FILE, expect_longer, expect_rows};
use std::test::Fail;

pub const THREE: (&[u8], &[u8]) = (
    WORKSPACE_FILE,
    b"{\"version\":1,\"targets\":[{\"name\":\"app\",\"kind\":\"application\",\"modules\":[\"A.Mod\",\"B.Mod\",\"C.Mod\"],\"main\":\"A\"}]}",
);

pub const THREE_CLEAN: Files<'static> = &[
    THREE,
    (b"A.Mod", b"MODULE A; END A."),
    (b"B.Mod", b"MODULE B; END B."),
    (b"C.Mod", b"MODULE C; END C."),
];

/// The modules of `THREE_CLEAN`, each with another name behind END from one call on, and as they were from a later one on.
const ODD_AND_BACK: &[(u64, &[u8], &[u8])] = &[
    (3, b"A.Mod", b"MODULE A; END Y."),
    (3, b"B.Mod", b"MODULE B; END Y."),
    (3, b"C.Mod", b"MODULE C; END Y."),
    (4, b"A.Mod", b"MODULE A; END A."),
    (4, b"B.Mod", b"MODULE B; END B."),
    (4, b"C.Mod", b"MODULE C; END C."),
];

/// A build that is cancelled behind two of its three outcomes, between two that go through.
pub const BETWEEN_OUTCOMES: Row<'static> = Row {
    files: THREE_CLEAN,
    changes: ODD_AND_BACK,
    sent: "
initialize
compile 2 app
wait
compile 3 app
wait 2
cancel 3
wait
compile 5 app
wait
shutdown 6
exit
",
    told: "
initialized
start r2
start r2.t1 app
start r2.c1 r2.t1 A.Mod
start r2.c2 r2.t1 B.Mod
start r2.c3 r2.t1 C.Mod
finish r2.c1 r2.t1 1
finish r2.c2 r2.t1 1
finish r2.c3 r2.t1 1
report r2.t1 app 0 0
finish r2 1
result 2 1
start r3
start r3.t1 app
start r3.c1 r3.t1 A.Mod
start r3.c2 r3.t1 B.Mod
start r3.c3 r3.t1 C.Mod
finish r3.c1 r3.t1 2
publish app A.Mod; 0:14-0:15 1 endName name after END differs
finish r3.c2 r3.t1 2
publish app B.Mod; 0:14-0:15 1 endName name after END differs
finish r3.c3 r3.t1 3
finish r3.t1 r3 3
finish r3 3
result 3 3
start r5
start r5.t1 app
publish app A.Mod
publish app B.Mod
report r5.t1 app 0 0 noop
finish r5 1
result 5 1
null 6
",
    ..ROW
};

/// Cancels of builds that run and of ones that wait.
const CANCELS: &[Row<'static>] = &[
    // All in one piece. Only the first cancel of an id finds its request.
    Row {
        sent: "
initialize
compile 2 app
compile 3 app
cancel 3
cancel 2
cancel 2
cancel 99
wait
",
        told: "
initialized
start r2
start r2.t1 app
start r2.c1 r2.t1 A.Mod
result 3 3
finish r2.c1 r2.t1 3
finish r2.t1 r2 3
finish r2 3
result 2 3
",
        status: 1,
        ..ROW
    },
    // Between two outcomes: what was checked is shown, and no more. What was checked is known to the next build, and so is
    // what an earlier one found.
    BETWEEN_OUTCOMES,
    // What a cancelled build didn't come to is shown as before, until a build does. What it came to isn't checked again.
    Row {
        files: &[
            THREE,
            (b"A.Mod", b"MODULE A; END Y."),
            (b"B.Mod", b"MODULE B; END Y."),
            (b"C.Mod", b"MODULE C; END Y."),
        ],
        changes: &[
            (3, b"A.Mod", b"MODULE A; END A."),
            (3, b"B.Mod", b"MODULE B; END B."),
            (3, b"C.Mod", b"MODULE C; END C."),
        ],
        sent: "
initialize
compile 2 app
wait
compile 3 app
wait 1
cancel 3
compile 5 app
wait
shutdown 6
exit
",
        told: "
initialized
start r2
start r2.t1 app
start r2.c1 r2.t1 A.Mod
start r2.c2 r2.t1 B.Mod
start r2.c3 r2.t1 C.Mod
finish r2.c1 r2.t1 2
publish app A.Mod; 0:14-0:15 1 endName name after END differs
finish r2.c2 r2.t1 2
publish app B.Mod; 0:14-0:15 1 endName name after END differs
finish r2.c3 r2.t1 2
publish app C.Mod; 0:14-0:15 1 endName name after END differs
report r2.t1 app 3 0
finish r2 2
result 2 2
start r3
start r3.t1 app
start r3.c1 r3.t1 A.Mod
start r3.c2 r3.t1 B.Mod
start r3.c3 r3.t1 C.Mod
finish r3.c1 r3.t1 1
publish app A.Mod
finish r3.c2 r3.t1 3
finish r3.c3 r3.t1 3
finish r3.t1 r3 3
finish r3 3
result 3 3
start r5
start r5.t1 app
start r5.c1 r5.t1 B.Mod
start r5.c2 r5.t1 C.Mod
finish r5.c1 r5.t1 1
publish app B.Mod
finish r5.c2 r5.t1 1
publish app C.Mod
report r5.t1 app 0 0
finish r5 1
result 5 1
null 6
",
        ..ROW
    },
    // Behind a cancelled build the next one that waits begins, with the documents as they are then. One of an unknown target
    // is refused when its turn comes, and not before.
    Row {
        changes: &[(3, b"A.Mod", b"MODULE A; END Y.")],
        sent: "
initialize
compile 2 app
compile 3 zzz
compile 4 app
compile 5 app
cancel 4
cancel 2
wait
shutdown 6
exit
",
        told: "
initialized
start r2
start r2.t1 app
start r2.c1 r2.t1 A.Mod
result 4 3
finish r2.c1 r2.t1 3
finish r2.t1 r2 3
finish r2 3
result 2 3
error 3 -32602 invalid params: targets[0].uri
start r5
start r5.t1 app
start r5.c1 r5.t1 A.Mod
finish r5.c1 r5.t1 2
publish app A.Mod; 0:14-0:15 1 endName name after END differs
report r5.t1 app 1 0
finish r5 2
result 5 2
null 6
",
        ..ROW
    },
    // An id that is answered may come again, and then it is the new request's.
    Row {
        sent: "
initialize
compile 2 app
compile 3 app
cancel 3
compile 3 app
wait
cancel 3
compile 3 app
wait
shutdown 4
exit
",
        told: "
initialized
start r2
start r2.t1 app
start r2.c1 r2.t1 A.Mod
result 3 3
finish r2.c1 r2.t1 1
report r2.t1 app 0 0
finish r2 1
result 2 1
start r5
start r5.t1 app
report r5.t1 app 0 0 noop
finish r5 1
result 3 1
start r7
start r7.t1 app
report r7.t1 app 0 0 noop
finish r7 1
result 3 1
null 4
",
        ..ROW
    },
    // The answer to a cancelled compile has its originId, whether it ran or waited.
    Row {
        origin: "\"originId\":\"o\",",
        sent: "
initialize
compile 2 app
compile 3 app
cut
cancel 3
cancel 2
shutdown 4
exit
",
        told: "
initialized
start r2
start r2.t1 app
start r2.c1 r2.t1 A.Mod
result 3 3
finish r2.c1 r2.t1 3
finish r2.t1 r2 3
finish r2 3
result 2 3
null 4
",
        ..ROW
    },
];

/// Ids that are taken, and cancels that find no request.
const IDLE: &[Row<'static>] = &[
    // A request may not have the id of one that is open, whether that runs or waits.
    Row {
        sent: "
initialize
compile 2 app
compile 2 app
compile 9223372036854775807 app
targets 9223372036854775807
reload 2
clean 9223372036854775807 app
wait
shutdown 3
exit
",
        told: "
initialized
start r2
start r2.t1 app
start r2.c1 r2.t1 A.Mod
error null -32600 invalid request
error null -32600 invalid request
error null -32600 invalid request
error null -32600 invalid request
finish r2.c1 r2.t1 1
report r2.t1 app 0 0
finish r2 1
result 2 1
start r4
start r4.t1 app
report r4.t1 app 0 0 noop
finish r4 1
result 9223372036854775807 1
null 3
",
        ..ROW
    },
    // Ids that are unknown, or answered already: by a build, by a cancel, at once, or with an error.
    Row {
        sent: "
initialize
cancel 1
compile 2 app
wait
cancel 2
compile 4 zzz
cancel 4
compile 6 app
body {\"jsonrpc\":\"2.0\",\"id\":7,\"method\":\"buildTarget/sources\"}
cancel 7
cancel -6
cancel 6.0
cancel \"6\"
cancel null
body {\"jsonrpc\":\"2.0\",\"method\":\"$/cancelRequest\"}
body {\"jsonrpc\":\"2.0\",\"method\":\"$/cancelRequest\",\"params\":[6]}
body {\"jsonrpc\":\"2.0\",\"method\":\"$/cancelRequest\",\"params\":{}}
wait
shutdown 8
cancel 8
exit
",
        told: "
initialized
start r3
start r3.t1 app
start r3.c1 r3.t1 A.Mod
finish r3.c1 r3.t1 1
report r3.t1 app 0 0
finish r3 1
result 2 1
error 4 -32602 invalid params: targets[0].uri
start r7
start r7.t1 app
report r7.t1 app 0 0 noop
finish r7 1
result 6 1
error 7 -32602 invalid params: params
null 8
",
        ..ROW
    },
    // Ids of a reload and of a cleaning that are answered.
    Row {
        sent: "
initialize
reload 2
cancel 2
clean 3 app
cancel 3
compile 4 app
wait
shutdown 5
exit
",
        told: "
initialized
null 2
cleaned 3
start r6
start r6.t1 app
start r6.c1 r6.t1 A.Mod
finish r6.c1 r6.t1 1
report r6.t1 app 0 0
finish r6 1
result 4 1
null 5
",
        ..ROW
    },
    // Texts are ids too, and none is that of a number.
    Row {
        sent: "
initialize
compile \"a\" app
compile 2 app
compile \"2\" app
compile \"\" app
cancel \"2\"
cancel \"b\"
cancel \"\"
cancel \"a\"
wait
shutdown \"a\"
exit
",
        told: "
initialized
start r2
start r2.t1 app
start r2.c1 r2.t1 A.Mod
result \"2\" 3
result \"\" 3
finish r2.c1 r2.t1 3
finish r2.t1 r2 3
finish r2 3
result \"a\" 3
start r3
start r3.t1 app
start r3.c1 r3.t1 A.Mod
finish r3.c1 r3.t1 1
report r3.t1 app 0 0
finish r3 1
result 2 1
null \"a\"
",
        ..ROW
    },
    // Before the session is opened, and behind its shutdown.
    Row {
        sent: "
cancel 2
compile 2 app
reload 3
clean 4 app
cancel 2
initialize
shutdown 5
cancel 5
compile 6 app
reload 7
clean 8 app
cancel 8
exit
",
        told: "
error 2 -32002 server not initialized
error 3 -32002 server not initialized
error 4 -32002 server not initialized
initialized
null 5
error 6 -32600 invalid request
error 7 -32600 invalid request
error 8 -32600 invalid request
",
        ..ROW
    },
];

/// What ends a session, which reads of its input fail, what that writes, the note and the status.
const ENDS: [(&str, &[u64], &str, &str, u8); 5] = [
    (
        "shutdown 5\ntargets 5\nexit",
        &[],
        "null 5\nerror 5 -32600 invalid request",
        "",
        0,
    ),
    ("exit", &[], "", "", 1),
    ("", &[], "", "", 1),
    (
        "bytes Content-Length: 9",
        &[],
        "error null -32700 parse error",
        "damaged input at byte 813: truncated\n",
        2,
    ),
    // The first call reads a piece, the next two polls find nothing, and the one behind them fails.
    ("", &[4], "", "input failed\n", 3),
];

const BEFORE_THE_END: &str = "
initialize
compile 2 app
compile 3 app
reload 6
compile 4 app
clean 7 app
wait 2
";

const TOLD_BEFORE_THE_END: &str = "
initialized
start r2
start r2.t1 app
start r2.c1 r2.t1 A.Mod
start r2.c2 r2.t1 B.Mod
start r2.c3 r2.t1 C.Mod
finish r2.c1 r2.t1 1
finish r2.c2 r2.t1 1
finish r2.c3 r2.t1 3
finish r2.t1 r2 3
finish r2 3
result 2 3
result 3 3
error 6 -32800 request cancelled
result 4 3
error 7 -32800 request cancelled
";

#[test]
fn cancels_what_is_open(rt: HostRuntime) -> Result<(), Fail> {
    expect_rows(rt.alloc(), CANCELS)
}

#[test]
fn cancels_nothing_else(rt: HostRuntime) -> Result<(), Fail> {
    expect_rows(rt.alloc(), IDLE)
}

#[test]
fn ends_while_a_build_runs(rt: HostRuntime) -> Result<(), Fail> {
    for &(end, failing, told, notes, status) in &ENDS {
        let row = Row {
            files: THREE_CLEAN,
            sent: BEFORE_THE_END,
            failing,
            told: TOLD_BEFORE_THE_END,
            notes,
            status,
            ..ROW
        };
        expect_longer(rt.alloc(), &row, end, told)?;
    }
    Ok(())
}
