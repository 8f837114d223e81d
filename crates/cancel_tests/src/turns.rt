//! Sessions by crews that aren't the program's: outcomes in another order, crews without room, and outcomes that come when
//! their build was cancelled.
use crate::cancels::{BETWEEN_OUTCOMES, THREE, THREE_CLEAN};
use session_runs::{A, CountingCrew, Files, KeenCrew, ODD_Z, ROW, Row, WORKSPACE_FILE, expect_by};
use std::process::Abort;
use std::test::Fail;

/// A session, the order of the jobs, for how many of them the crew has room, and how many it is given and drops.
const COUNTED: [(Row<'static>, &[u32], u64, [u64; 2]); 5] = [
    // Nine modules are to be looked at, of which three are as an earlier build found them. One check isn't begun.
    (BETWEEN_OUTCOMES, &[], 100, [6, 1]),
    // The outcomes of a build come in any order.
    (
        Row {
            files: &[
                THREE,
                (b"A.Mod", b"MODULE A; IMPORT C; CONST a* = C.c; END A."),
                (b"B.Mod", b"MODULE B; END Y."),
                (b"C.Mod", b"MODULE C; CONST c* = 1; END C."),
            ],
            sent: "
initialize
compile 2 app
wait
compile 3 app
shutdown 4
exit
",
            told: "
initialized
start r2
start r2.t1 app
start r2.c1 r2.t1 B.Mod
start r2.c2 r2.t1 C.Mod
finish r2.c2 r2.t1 1
start r2.c3 r2.t1 A.Mod
finish r2.c3 r2.t1 1
finish r2.c1 r2.t1 2
publish app B.Mod; 0:14-0:15 1 endName name after END differs
report r2.t1 app 1 0
finish r2 2
result 2 2
start r3
start r3.t1 app
report r3.t1 app 1 0 noop
finish r3 2
result 3 2
null 4
",
            ..ROW
        },
        &[1, 1],
        100,
        [3, 0],
    ),
    // Unfinished checks are told of in the order in which they started.
    (
        Row {
            files: THREE_CLEAN,
            sent: "
initialize
compile 2 app
wait 1
cancel 2
shutdown 3
exit
",
            told: "
initialized
start r2
start r2.t1 app
start r2.c1 r2.t1 A.Mod
start r2.c2 r2.t1 B.Mod
start r2.c3 r2.t1 C.Mod
finish r2.c2 r2.t1 1
finish r2.c1 r2.t1 3
finish r2.c3 r2.t1 3
finish r2.t1 r2 3
finish r2 3
result 2 3
null 3
",
            ..ROW
        },
        &[1],
        100,
        [3, 2],
    ),
    // An exit leaves no job behind.
    (
        Row {
            files: THREE_CLEAN,
            sent: "
initialize
compile 2 app
exit
",
            told: "
initialized
start r2
start r2.t1 app
start r2.c1 r2.t1 A.Mod
start r2.c2 r2.t1 B.Mod
start r2.c3 r2.t1 C.Mod
finish r2.c1 r2.t1 3
finish r2.c2 r2.t1 3
finish r2.c3 r2.t1 3
finish r2.t1 r2 3
finish r2 3
result 2 3
",
            status: 1,
            ..ROW
        },
        &[],
        100,
        [3, 3],
    ),
    // Where a crew has no room there is no memory.
    (
        Row {
            files: THREE_CLEAN,
            sent: "
initialize
compile 2 app
",
            told: "
initialized
start r2
start r2.t1 app
start r2.c1 r2.t1 A.Mod
start r2.c2 r2.t1 B.Mod
start r2.c3 r2.t1 C.Mod
",
            status: 5,
            ..ROW
        },
        &[],
        2,
        [2, 0],
    ),
];

fn expect_counted(
    rt: &(impl Abort + AllocGlobal),
    row: &Row,
    order: &[u32],
    room: u64,
    [given, drained]: [u64; 2],
) -> Result<(), Fail> {
    let order = Vec::from_slice(rt.alloc(), order)?;
    let mut crew = CountingCrew::new(rt.alloc(), order, room);
    expect_by(rt.alloc(), row, &mut crew)?;
    assert_eq!(rt; crew.given, given);
    assert_eq!(rt; crew.drained, drained);
    Ok(())
}

#[test]
fn gives_and_drains_jobs(rt: HostRuntime) -> Result<(), Fail> {
    for (row, order, room, counts) in &COUNTED {
        expect_counted(&rt, row, order, *room, *counts)?;
    }
    Ok(())
}

/// Sessions whose crew has begun all jobs of a build that is cancelled, and the order in which it does jobs.
const LATE: [(Row<'static>, &[u32]); 7] = [
    // What comes of them is never shown, nor taken for what comes of the next build's.
    (BEHIND_A_CANCEL, &[]),
    // The same where some of them come between those of the next build.
    (BEHIND_A_CANCEL, &[0, 2, 0, 1, 0]),
    // They come when a third build runs, which takes none of them either.
    (
        Row {
            files: ODD,
            changes: &[
                (4, b"A.Mod", b"MODULE A; END A."),
                (4, b"B.Mod", b"MODULE B; END B."),
                (4, b"C.Mod", b"MODULE C; END Z."),
            ],
            sent: "
initialize
compile 2 app
cancel 2
compile 3 app
cancel 3
compile 4 app
wait
shutdown 5
exit
",
            told: "
initialized
start r2
start r2.t1 app
start r2.c1 r2.t1 A.Mod
start r2.c2 r2.t1 B.Mod
start r2.c3 r2.t1 C.Mod
finish r2.c1 r2.t1 3
finish r2.c2 r2.t1 3
finish r2.c3 r2.t1 3
finish r2.t1 r2 3
finish r2 3
result 2 3
start r4
start r4.t1 app
start r4.c1 r4.t1 A.Mod
start r4.c2 r4.t1 B.Mod
start r4.c3 r4.t1 C.Mod
finish r4.c1 r4.t1 3
finish r4.c2 r4.t1 3
finish r4.c3 r4.t1 3
finish r4.t1 r4 3
finish r4 3
result 3 3
start r6
start r6.t1 app
start r6.c1 r6.t1 A.Mod
start r6.c2 r6.t1 B.Mod
start r6.c3 r6.t1 C.Mod
finish r6.c1 r6.t1 1
finish r6.c2 r6.t1 1
finish r6.c3 r6.t1 2
publish app C.Mod; 0:14-0:15 1 endName name after END differs
report r6.t1 app 1 0
finish r6 2
result 4 2
null 5
",
            ..ROW
        },
        &[],
    ),
    // They come when a build of other texts runs. A third one, of two of the first texts again, starts no check of these.
    (
        Row {
            files: ODD,
            changes: &[
                (3, b"A.Mod", b"MODULE A; END A."),
                (3, b"B.Mod", b"MODULE B; END B."),
                (3, b"C.Mod", b"MODULE C; END C."),
                (4, b"A.Mod", b"MODULE A; END Y."),
                (4, b"B.Mod", b"MODULE B; END Y."),
                (4, b"C.Mod", b"MODULE C; END Z."),
            ],
            sent: "
initialize
compile 2 app
cancel 2
compile 3 app
wait
compile 4 app
wait
shutdown 5
exit
",
            told: "
initialized
start r2
start r2.t1 app
start r2.c1 r2.t1 A.Mod
start r2.c2 r2.t1 B.Mod
start r2.c3 r2.t1 C.Mod
finish r2.c1 r2.t1 3
finish r2.c2 r2.t1 3
finish r2.c3 r2.t1 3
finish r2.t1 r2 3
finish r2 3
result 2 3
start r4
start r4.t1 app
start r4.c1 r4.t1 A.Mod
start r4.c2 r4.t1 B.Mod
start r4.c3 r4.t1 C.Mod
finish r4.c1 r4.t1 1
finish r4.c2 r4.t1 1
finish r4.c3 r4.t1 1
report r4.t1 app 0 0
finish r4 1
result 3 1
start r5
start r5.t1 app
publish app A.Mod; 0:14-0:15 1 endName name after END differs
publish app B.Mod; 0:14-0:15 1 endName name after END differs
start r5.c1 r5.t1 C.Mod
finish r5.c1 r5.t1 2
publish app C.Mod; 0:14-0:15 1 endName name after END differs
report r5.t1 app 3 0
finish r5 2
result 4 2
null 5
",
            ..ROW
        },
        &[],
    ),
    // A target is cleaned before they come: what comes of its document isn't kept, and what comes of the other's is.
    (
        Row {
            files: OLD_AND_NEW,
            sent: "
initialize
compile 2 app old
cancel 2
clean 4 app
compile 5 new
wait
compile 6 app old
wait
shutdown 7
exit
",
            told: "
initialized
start r2
start r2.t1 app
start r2.t2 old
start r2.c1 r2.t1 A.Mod
start r2.c2 r2.t2 Z.Mod
finish r2.c1 r2.t1 3
finish r2.c2 r2.t2 3
finish r2.t1 r2 3
finish r2.t2 r2 3
finish r2 3
result 2 3
cleaned 4
start r5
start r5.t1 new
start r5.c1 r5.t1 N.Mod
finish r5.c1 r5.t1 1
report r5.t1 new 0 0
finish r5 1
result 5 1
start r6
start r6.t1 app
start r6.t2 old
start r6.c1 r6.t1 A.Mod
publish old Z.Mod; 0:14-0:15 1 endName name after END differs
finish r6.c1 r6.t1 1
report r6.t1 app 0 0
report r6.t2 old 1 0 noop
finish r6 2
result 6 2
null 7
",
            ..ROW
        },
        &[],
    ),
    // A target is gone as they come, and is back behind that.
    (
        Row {
            files: OLD_AND_NEW,
            changes: &[
                (3, WORKSPACE_FILE, APP_AND_NEW),
                (5, WORKSPACE_FILE, APP_OLD_AND_NEW),
            ],
            sent: "
initialize
compile 2 app old
cancel 2
reload 4
compile 5 new
wait
reload 6
compile 7 app old
wait
shutdown 8
exit
",
            told: "
initialized
start r2
start r2.t1 app
start r2.t2 old
start r2.c1 r2.t1 A.Mod
start r2.c2 r2.t2 Z.Mod
finish r2.c1 r2.t1 3
finish r2.c2 r2.t2 3
finish r2.t1 r2 3
finish r2.t2 r2 3
finish r2 3
result 2 3
changed old 3
null 4
start r5
start r5.t1 new
start r5.c1 r5.t1 N.Mod
finish r5.c1 r5.t1 1
report r5.t1 new 0 0
finish r5 1
result 5 1
changed old 1
null 6
start r7
start r7.t1 app
start r7.t2 old
start r7.c1 r7.t2 Z.Mod
finish r7.c1 r7.t2 2
publish old Z.Mod; 0:14-0:15 1 endName name after END differs
report r7.t1 app 0 0 noop
report r7.t2 old 1 0
finish r7 2
result 7 2
null 8
",
            ..ROW
        },
        &[],
    ),
    // A target went and is back as they come. The reload waits behind their build, which is cancelled.
    (
        Row {
            files: OLD_AND_NEW,
            changes: &[
                (3, WORKSPACE_FILE, APP_AND_NEW),
                (4, WORKSPACE_FILE, APP_OLD_AND_NEW),
            ],
            sent: "
initialize
compile 2 app old
reload 3
reload 4
cancel 2
compile 6 new
wait
compile 7 app old
wait
shutdown 8
exit
",
            told: "
initialized
start r2
start r2.t1 app
start r2.t2 old
start r2.c1 r2.t1 A.Mod
start r2.c2 r2.t2 Z.Mod
finish r2.c1 r2.t1 3
finish r2.c2 r2.t2 3
finish r2.t1 r2 3
finish r2.t2 r2 3
finish r2 3
result 2 3
changed old 3
null 3
changed old 1
null 4
start r6
start r6.t1 new
start r6.c1 r6.t1 N.Mod
finish r6.c1 r6.t1 1
report r6.t1 new 0 0
finish r6 1
result 6 1
start r7
start r7.t1 app
start r7.t2 old
start r7.c1 r7.t2 Z.Mod
finish r7.c1 r7.t2 2
publish old Z.Mod; 0:14-0:15 1 endName name after END differs
report r7.t1 app 0 0 noop
report r7.t2 old 1 0
finish r7 2
result 7 2
null 8
",
            ..ROW
        },
        &[],
    ),
];

const ODD: &[(&[u8], &[u8])] = &[
    THREE,
    (b"A.Mod", b"MODULE A; END Y."),
    (b"B.Mod", b"MODULE B; END Y."),
    (b"C.Mod", b"MODULE C; END Y."),
];

const APP_OLD_AND_NEW: &[u8] =
    b"{\"version\":1,\"targets\":[{\"name\":\"app\",\"kind\":\"application\",\"modules\":[\"A.Mod\"],\"main\":\"A\"},{\"name\":\"old\",\"kind\":\"library\",\"modules\":[\"Z.Mod\"]},{\"name\":\"new\",\"kind\":\"library\",\"modules\":[\"N.Mod\"]}]}";

const APP_AND_NEW: &[u8] =
    b"{\"version\":1,\"targets\":[{\"name\":\"app\",\"kind\":\"application\",\"modules\":[\"A.Mod\"],\"main\":\"A\"},{\"name\":\"new\",\"kind\":\"library\",\"modules\":[\"N.Mod\"]}]}";

const OLD_AND_NEW: Files<'static> = &[
    (WORKSPACE_FILE, APP_OLD_AND_NEW),
    A,
    ODD_Z,
    (b"N.Mod", b"MODULE N; END N."),
];

/// A build behind one that is cancelled when one of its three outcomes is there.
const BEHIND_A_CANCEL: Row<'static> = Row {
    files: ODD,
    changes: &[
        (3, b"A.Mod", b"MODULE A; END A."),
        (3, b"B.Mod", b"MODULE B; END B."),
        (3, b"C.Mod", b"MODULE C; END Z."),
    ],
    sent: "
initialize
compile 2 app
wait 1
cancel 2
compile 4 app
wait
shutdown 5
exit
",
    told: "
initialized
start r2
start r2.t1 app
start r2.c1 r2.t1 A.Mod
start r2.c2 r2.t1 B.Mod
start r2.c3 r2.t1 C.Mod
finish r2.c1 r2.t1 2
publish app A.Mod; 0:14-0:15 1 endName name after END differs
finish r2.c2 r2.t1 3
finish r2.c3 r2.t1 3
finish r2.t1 r2 3
finish r2 3
result 2 3
start r4
start r4.t1 app
start r4.c1 r4.t1 A.Mod
start r4.c2 r4.t1 B.Mod
start r4.c3 r4.t1 C.Mod
finish r4.c1 r4.t1 1
publish app A.Mod
finish r4.c2 r4.t1 1
finish r4.c3 r4.t1 2
publish app C.Mod; 0:14-0:15 1 endName name after END differs
report r4.t1 app 1 0
finish r4 2
result 4 2
null 5
",
    ..ROW
};

#[test]
fn shows_nothing_that_comes_late(rt: HostRuntime) -> Result<(), Fail> {
    for (row, order) in &LATE {
        let order = Vec::from_slice(rt.alloc(), order)?;
        let mut crew = KeenCrew::new(rt.alloc(), order);
        expect_by(rt.alloc(), row, &mut crew)?;
    }
    Ok(())
}
