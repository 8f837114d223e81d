use crate::parts::{Row, expect, expect_over, plain};
use bsp_edge::{MemSink, MemSource};
use ob_text::{NoMemory, Text};
use session_lines::{CLOSED, EXIT, INITIALIZE, INITIALIZED, Parts, SHUTDOWN, Sent, framed, joined};
use session_runs::{
    Ended, Fails, NOTHING_FAILS, Status, WORKSPACE, WORKSPACE_ALONE, WORKSPACE_FILE, expect_whole,
    file, read_words, run_words, tree,
};
use std::alloc::Global;
use std::test::Fail;
use worker_pool::InlineCrew;

const PARSE_ERROR: &[u8] =
    b"Content-Length: 75\r\n\r\n{\"error\":{\"code\":-32700,\"message\":\"parse error\"},\"id\":null,\"jsonrpc\":\"2.0\"}";

const INVALID: &[u8] =
    b"Content-Length: 79\r\n\r\n{\"error\":{\"code\":-32600,\"message\":\"invalid request\"},\"id\":null,\"jsonrpc\":\"2.0\"}";

const UNREADABLE: &[u8] =
    b"Content-Length: 79\r\n\r\n{\"error\":{\"code\":-32603,\"message\":\"sources unreadable\"},\"id\":1,\"jsonrpc\":\"2.0\"}";

const INVALID_INITIALIZE: &[u8] =
    b"Content-Length: 76\r\n\r\n{\"error\":{\"code\":-32600,\"message\":\"invalid request\"},\"id\":1,\"jsonrpc\":\"2.0\"}";

const EARLY_CLOSE: &[u8] =
    b"Content-Length: 83\r\n\r\n{\"error\":{\"code\":-32002,\"message\":\"server not initialized\"},\"id\":2,\"jsonrpc\":\"2.0\"}";

#[test]
fn two_frames(rt: HostRuntime) -> Result<(), Fail> {
    expect(
        rt.alloc(),
        &plain(
            &[INITIALIZE, SHUTDOWN, EXIT],
            0,
            336,
            &[INITIALIZED, CLOSED],
        ),
    )
}

#[test]
fn cut_after_each_byte(rt: HostRuntime) -> Result<(), Fail> {
    let mut cuts = Vec::new(rt.alloc());
    for offset in 0..336 {
        cuts.push(offset)?;
    }
    expect(
        rt.alloc(),
        &Row {
            cuts: cuts.as_slice(),
            ..plain(
                &[INITIALIZE, SHUTDOWN, EXIT],
                0,
                336,
                &[INITIALIZED, CLOSED],
            )
        },
    )
}

const NO_BODY: &[u8] = b"Content-Length: 2\r\n\r\n[]";

/// The parts of an input, its status, the bytes that are taken, the answers and the note.
const ENDS: [(Parts, u8, u64, Parts, &[u8]); 9] = [
    (&[], 1, 0, &[], b""),
    (&[INITIALIZE], 1, 203, &[INITIALIZED], b""),
    (&[EXIT], 1, 61, &[], b""),
    (&[INITIALIZE, EXIT, SHUTDOWN], 1, 264, &[INITIALIZED], b""),
    (
        &[INITIALIZE, SHUTDOWN, EXIT, b"\0"],
        0,
        336,
        &[INITIALIZED, CLOSED],
        b"",
    ),
    (
        &[INITIALIZE, b"Content-Length: 5\n", SHUTDOWN],
        2,
        293,
        &[INITIALIZED, PARSE_ERROR],
        b"damaged input at byte 220: bad line\n",
    ),
    (
        &[b"Content-Type: a\r\ncontent-length:\t2 \r\n\r\n[]", EXIT],
        1,
        102,
        &[INVALID],
        b"",
    ),
    (&[NO_BODY, INITIALIZE], 1, 226, &[INVALID, INITIALIZED], b""),
    (
        &[SHUTDOWN, NO_BODY, EXIT],
        1,
        156,
        &[EARLY_CLOSE, INVALID],
        b"",
    ),
];

#[test]
fn ends_of_input(rt: HostRuntime) -> Result<(), Fail> {
    for &(sent, status, taken, output, notes) in &ENDS {
        expect(
            rt.alloc(),
            &Row {
                notes,
                ..plain(sent, status, taken, output)
            },
        )?;
    }
    Ok(())
}

const COMPILE: &[u8] =
    b"{\"jsonrpc\":\"2.0\",\"id\":7,\"method\":\"buildTarget/compile\",\"params\":{\"targets\":[]}}";

const EARLY_COMPILE: &[u8] =
    b"{\"error\":{\"code\":-32002,\"message\":\"server not initialized\"},\"id\":7,\"jsonrpc\":\"2.0\"}";

const LATE_COMPILE: &[u8] =
    b"{\"error\":{\"code\":-32600,\"message\":\"invalid request\"},\"id\":7,\"jsonrpc\":\"2.0\"}";

const UNKNOWN: &[u8] = b"{\"jsonrpc\":\"2.0\",\"id\":7,\"method\":\"x\"}";

const UNKNOWN_ANSWER: &[u8] =
    b"{\"error\":{\"code\":-32601,\"message\":\"method not found\"},\"id\":7,\"jsonrpc\":\"2.0\"}";

const INVALID_BODY: &[u8] =
    b"{\"error\":{\"code\":-32600,\"message\":\"invalid request\"},\"id\":null,\"jsonrpc\":\"2.0\"}";

const NO_JSON: &[u8] =
    b"{\"error\":{\"code\":-32700,\"message\":\"parse error\"},\"id\":null,\"jsonrpc\":\"2.0\"}";

/// A session with requests before it is opened and behind its shutdown.
fn early_and_late(alloc: Global) -> Result<Vec<u8>, Fail> {
    let before = framed(alloc, &[COMPILE])?;
    let behind = framed(alloc, &[COMPILE, UNKNOWN])?;
    joined(
        alloc,
        &[
            before.as_slice(),
            INITIALIZE,
            SHUTDOWN,
            behind.as_slice(),
            EXIT,
        ],
    )
}

fn early_and_late_answers(alloc: Global) -> Result<Vec<u8>, Fail> {
    let early = framed(alloc, &[EARLY_COMPILE])?;
    let late = framed(alloc, &[LATE_COMPILE, LATE_COMPILE])?;
    joined(
        alloc,
        &[early.as_slice(), INITIALIZED, CLOSED, late.as_slice()],
    )
}

#[test]
fn judges_before_and_behind_the_session(rt: HostRuntime) -> Result<(), Fail> {
    let output = early_and_late_answers(rt.alloc())?;
    let mut tree = tree(rt.alloc(), WORKSPACE_ALONE, &[], &[])?;
    let session = Sent::whole(rt.alloc(), early_and_late(rt.alloc())?);
    expect_whole(rt.alloc(), &mut tree, session, 0, output.as_slice())
}

/// A body, and what it is answered.
const JUDGED: [(&[u8], &[u8]); 8] = [
    (UNKNOWN, UNKNOWN_ANSWER),
    (b"", NO_JSON),
    (b"{", NO_JSON),
    (b"[]", INVALID_BODY),
    (
        b"{\"jsonrpc\":\"2.0\",\"id\":1.5,\"method\":\"x\"}",
        INVALID_BODY,
    ),
    (
        b"{\"jsonrpc\":\"2.0\",\"id\":9223372036854775808,\"method\":\"x\"}",
        INVALID_BODY,
    ),
    (
        b"{\"jsonrpc\":\"2.0\",\"id\":9223372036854775807,\"method\":\"x\"}",
        b"{\"error\":{\"code\":-32601,\"message\":\"method not found\"},\"id\":9223372036854775807,\"jsonrpc\":\"2.0\"}",
    ),
    (
        b"{\"jsonrpc\":\"2.0\",\"id\":\"a\",\"method\":\"x\"}",
        b"{\"error\":{\"code\":-32601,\"message\":\"method not found\"},\"id\":\"a\",\"jsonrpc\":\"2.0\"}",
    ),
];

/// A front, and the frame of a body.
fn with_body(alloc: Global, front: &[u8], body: &[u8]) -> Result<Vec<u8>, Fail> {
    let frame = framed(alloc, &[body])?;
    joined(alloc, &[front, frame.as_slice()])
}

fn expect_judged(alloc: Global, body: &[u8], answer: &[u8]) -> Result<(), Fail> {
    let output = with_body(alloc, INITIALIZED, answer)?;
    let mut tree = tree(alloc, WORKSPACE_ALONE, &[], &[])?;
    let session = Sent::whole(alloc, with_body(alloc, INITIALIZE, body)?);
    expect_whole(alloc, &mut tree, session, 1, output.as_slice())
}

#[test]
fn judges_bodies_and_ids(rt: HostRuntime) -> Result<(), Fail> {
    for &(body, answer) in &JUDGED {
        expect_judged(rt.alloc(), body, answer)?;
    }
    Ok(())
}

/// A session with a request of the largest size, which has blanks behind it.
fn largest_session(alloc: Global) -> Result<Vec<u8>, Fail> {
    let mut session = joined(
        alloc,
        &[
            INITIALIZE,
            b"Content-Length: 16777216\r\n\r\n{\"jsonrpc\":\"2.0\",\"id\":2,\"method\":\"build/shutdown\"}",
        ],
    )?;
    session.resize(203 + 28 + 16_777_216, b' ')?;
    session.extend_from_slice(EXIT)?;
    Ok(session)
}

#[test]
fn largest_frame(rt: HostRuntime) -> Result<(), Fail> {
    let output = joined(rt.alloc(), &[INITIALIZED, CLOSED])?;
    let mut tree = tree(rt.alloc(), WORKSPACE_ALONE, &[], &[])?;
    let session = Sent::whole(rt.alloc(), largest_session(rt.alloc())?);
    expect_whole(rt.alloc(), &mut tree, session, 0, output.as_slice())
}

const FILL: &[u8] = b"................................................................";

/// The parts of an input, and where and how it is damaged.
const DAMAGES: [(Parts, &[u8]); 9] = [
    (&[b"Content-Length: 5\r\n\r\n{\"a"], b"24: truncated"),
    (&[b"content-length: 2"], b"17: truncated"),
    (&[b"A b: 1\r\n"], b"1: bad line"),
    (
        &[b"Content-Length: 2\r\nContent-Length: 2\r\n\r\n[]"],
        b"33: two lengths",
    ),
    (&[b"Content-Length: 2x\r\n\r\n[]"], b"17: bad length"),
    (&[b"Content-Length: 123456789"], b"24: bad length"),
    (&[b"Content-Length: 16777217\r\n"], b"23: too long"),
    (&[b"A: b\r\n\r\n"], b"6: no length"),
    (
        &[
            b"A:", FILL, FILL, FILL, FILL, FILL, FILL, FILL, FILL, FILL, FILL, FILL, FILL, FILL,
            FILL, FILL, FILL,
        ],
        b"1024: header too long",
    ),
];

fn expect_damage(alloc: Global, sent: Parts, damage: &[u8]) -> Result<(), Fail> {
    let taken = joined(alloc, sent)?.len() as u64;
    let notes = joined(alloc, &[b"damaged input at byte ", damage, b"\n"])?;
    expect(
        alloc,
        &Row {
            notes: notes.as_slice(),
            ..plain(sent, 2, taken, &[PARSE_ERROR])
        },
    )
}

#[test]
fn damages(rt: HostRuntime) -> Result<(), Fail> {
    for &(sent, damage) in &DAMAGES {
        expect_damage(rt.alloc(), sent, damage)?;
    }
    Ok(())
}

const SESSION: Parts<'static> = &[INITIALIZE, SHUTDOWN, EXIT];

/// Which read of a session in three pieces fails, its status, the bytes that are taken, the answers and the note.
const READS: [(&[u64], u8, u64, Parts, &[u8]); 4] = [
    (&[1], 3, 0, &[], b"input failed\n"),
    (&[2], 3, 203, &[INITIALIZED], b"input failed\n"),
    (&[3], 3, 275, &[INITIALIZED, CLOSED], b"input failed\n"),
    (&[4], 0, 336, &[INITIALIZED, CLOSED], b""),
];

#[test]
fn source_fails_at_each_call(rt: HostRuntime) -> Result<(), Fail> {
    for &(input, status, taken, output, notes) in &READS {
        expect(
            rt.alloc(),
            &Row {
                cuts: &[203, 275],
                fails: Fails {
                    input,
                    ..NOTHING_FAILS
                },
                notes,
                ..plain(SESSION, status, taken, output)
            },
        )?;
    }
    Ok(())
}

/// Which write fails, the status, the bytes that are taken and the answers.
const WRITES: [(&[u64], u8, u64, Parts); 3] = [
    (&[1], 4, 203, &[]),
    (&[2], 4, 275, &[INITIALIZED]),
    (&[3], 0, 336, &[INITIALIZED, CLOSED]),
];

#[test]
fn sink_fails_at_each_write(rt: HostRuntime) -> Result<(), Fail> {
    for &(fails, status, taken, answers) in &WRITES {
        expect(
            rt.alloc(),
            &Row {
                fails: Fails {
                    output: fails,
                    ..NOTHING_FAILS
                },
                ..plain(SESSION, status, taken, answers)
            },
        )?;
    }
    Ok(())
}

/// Which writes of the output and of the notes fail, and what stands there then. Where the output failed nothing is
/// noted, and where the notes failed a front of the note stands there.
const NOTES: [(&[u64], &[u64], Parts, &[u8]); 3] = [
    (&[], &[1], &[PARSE_ERROR], b""),
    (&[], &[2], &[PARSE_ERROR], b"damaged input at byte "),
    (&[1], &[], &[], b""),
];

#[test]
fn sink_fails_at_damage(rt: HostRuntime) -> Result<(), Fail> {
    for &(output, notes, answers, note) in &NOTES {
        expect(
            rt.alloc(),
            &Row {
                fails: Fails {
                    output,
                    notes,
                    ..NOTHING_FAILS
                },
                notes: note,
                ..plain(&[b"x"], 4, 1, answers)
            },
        )?;
    }
    Ok(())
}

/// Which calls of the tree fail, the status, the answers, and how often something is handed out.
const HANDS: [(&[u64], u8, Parts, usize); 4] = [
    (&[], 0, &[INITIALIZED, INVALID_INITIALIZE, CLOSED], 1),
    (&[1], 0, &[UNREADABLE, INITIALIZED, CLOSED], 1),
    (&[2], 0, &[INITIALIZED, INVALID_INITIALIZE, CLOSED], 1),
    (&[1, 2], 1, &[UNREADABLE, UNREADABLE, EARLY_CLOSE], 0),
];

#[test]
fn tree_fails_at_each_call(rt: HostRuntime) -> Result<(), Fail> {
    for &(failing, status, answers, handed) in &HANDS {
        let sent = [INITIALIZE, INITIALIZE, SHUTDOWN, EXIT];
        let mut tree = tree(rt.alloc(), WORKSPACE_ALONE, &[], failing)?;
        expect_over(rt.alloc(), &plain(&sent, status, 539, answers), &mut tree)?;
        assert_eq!(rt; tree.handed().len(), handed);
    }
    Ok(())
}

#[test]
fn tree_is_asked_for_the_workspace_file(rt: HostRuntime) -> Result<(), Fail> {
    let mut tree = tree(rt.alloc(), WORKSPACE_ALONE, &[], &[])?;
    expect_over(
        rt.alloc(),
        &plain(&[INITIALIZE], 1, 203, &[INITIALIZED]),
        &mut tree,
    )?;
    let handed = tree.handed().first().ok_or("nothing was handed out")?;
    let want = [file(rt.alloc(), WORKSPACE_FILE, WORKSPACE)?];
    assert!(rt; handed.entries.as_slice() == want.as_slice());
    Ok(())
}

const USAGE: &[u8] =
    b"usage: oberon-bsp serve DIR [--workers N] [--record] | client SCRIPT | check | soak N\n";

/// Words of a command line that aren't known.
const WORDS: [Parts; 7] = [
    &[],
    &[b"serve"],
    &[b"serve", b""],
    &[b"serve", b"--record"],
    &[b"serve", b"w", b"x"],
    &[b"Serve", b"w"],
    &[b"soak", b"1"],
];

fn texts(alloc: Global, words: Parts) -> Result<Vec<Text>, NoMemory> {
    let mut texts = Vec::new(alloc);
    for word in words {
        texts.push(Text::new(alloc, word)?)?;
    }
    Ok(texts)
}

/// How a run over these words ends, what it notes, and how often the tree is asked.
fn run_of(alloc: Global, words: Parts) -> Result<(Ended, MemSink, usize), Fail> {
    let words = texts(alloc, words)?;
    let mut tree = tree(alloc, WORKSPACE_ALONE, &[], &[])?;
    let mut output = MemSink::new(alloc, 0, Vec::new(alloc))?;
    let mut notes = MemSink::new(alloc, 100, Vec::new(alloc))?;
    let mut input = MemSource::new(
        Vec::new(alloc),
        Vec::new(alloc),
        Vec::new(alloc),
        Vec::new(alloc),
    );
    let asked = read_words(words.as_slice());
    let mut crew = InlineCrew::new(alloc);
    let ended = run_words(
        alloc,
        asked,
        &mut input,
        &mut tree,
        &mut output,
        &mut notes,
        &mut crew,
    );
    Ok((ended, notes, tree.handed().len()))
}

#[test]
fn other_words(rt: HostRuntime) -> Result<(), Fail> {
    for &words in &WORDS {
        let (ended, notes, asked) = run_of(rt.alloc(), words)?;
        let want = Ended {
            status: Status::Usage,
            taken: 0,
        };
        assert_eq!(rt; ended, want);
        assert!(rt; notes.given() == USAGE);
        assert_eq!(rt; asked, 0);
    }
    Ok(())
}
