//! Rows that expect what isn't so. That each is refused shows that the other rows are looked at.
use session_runs::{ROW, Row, expect_row};
use std::process::{ExitCode, Termination};
use std::test::Fail;

/// A session of one compile, as it goes.
const RIGHT: Row<'static> = Row {
    sent: "
initialize
compile 2 app
wait
shutdown 3
exit
",
    told: TOLD,
    ..ROW
};

const TOLD: &str = "
initialized
start r2
start r2.t1 app
start r2.c1 r2.t1 A.Mod
finish r2.c1 r2.t1 1
report r2.t1 app 0 0
finish r2 1
result 2 1
null 3
";

/// The same with one thing that is otherwise, and what.
const WRONG: [(Row<'static>, &str); 5] = [
    (
        Row {
            told: "
initialized
start r2
start r2.t1 app
start r2.c1 r2.t1 A.Mod
finish r2.c1 r2.t1 1
report r2.t1 app 0 0
finish r2 1
result 2 2
null 3
",
            ..RIGHT
        },
        "a number in a line",
    ),
    (
        Row {
            told: "
initialized
start r2
start r2.t1 app
start r2.c1 r2.t1 A.Mod
finish r2.c1 r2.t1 1
report r2.t1 app 0 0
finish r2 1
result 2 1
",
            ..RIGHT
        },
        "the last line",
    ),
    (
        Row {
            notes: "input failed\n",
            ..RIGHT
        },
        "the note",
    ),
    (Row { status: 1, ..RIGHT }, "the status"),
    // The byte behind the exit isn't taken.
    (
        Row {
            sent: "
initialize
compile 2 app
wait
shutdown 3
exit
bytes x
",
            ..RIGHT
        },
        "the count of bytes that are taken",
    ),
];

/// What is told of each is written to standard error.
#[test]
fn a_wrong_row_is_refused(rt: HostRuntime) -> Result<(), Fail> {
    expect_row(rt.alloc(), &RIGHT)?;
    for (row, other) in &WRONG {
        let status = expect_row(rt.alloc(), row).report(&rt);
        assert!(rt; status == ExitCode::FAILURE, "{other}");
    }
    Ok(())
}
