use client_script::{Line, ScriptFault, read_script};
use ob_text::Text;
use std::alloc::Global;
use std::test::Fail;

/// What reading a script tells: how many lines it has, or the number of its first bad line.
#[derive(Clone, Copy, PartialEq)]
enum Told {
    Lines(usize),
    Bad(u32),
}

/// A script, and what reading it tells.
const SCRIPTS: [(&str, Told); 36] = [
    ("", Told::Lines(0)),
    ("\n\n", Told::Lines(0)),
    ("initialize file:///w", Told::Lines(1)),
    ("initialize file:///w\n", Told::Lines(1)),
    ("\ninitialize file:///w\n\nexit\n\n", Told::Lines(2)),
    (
        "initialize u\ntargets\nsources a\ninverse A.Mod\ncompile a b\ntest c\nrun d\nclean a\nreload\ncancel 1\nwait\nshow all\nshow errors\nshutdown\nexit",
        Told::Lines(15),
    ),
    // `initialize` is the first line that isn't empty, and no other.
    ("exit", Told::Bad(1)),
    ("\n\ntargets\n", Told::Bad(3)),
    ("initialize u\ninitialize u", Told::Bad(2)),
    ("initialize u\n\nwait\ninitialize v\nnonsense", Told::Bad(4)),
    // Words are spelled exactly, and one blank parts two.
    ("initialize u\nwaits", Told::Bad(2)),
    ("initialize u\nWait", Told::Bad(2)),
    ("initialize u\n wait", Told::Bad(2)),
    ("initialize u\nwait ", Told::Bad(2)),
    ("initialize u\nwait now", Told::Bad(2)),
    ("initialize u\nwait\r\nexit", Told::Bad(2)),
    ("initialize u\n ", Told::Bad(2)),
    ("initialize  u", Told::Bad(1)),
    ("initialize", Told::Bad(1)),
    ("initialize ", Told::Bad(1)),
    ("initialize u v", Told::Bad(1)),
    // Names, a path, a name.
    ("initialize u\ncompile", Told::Bad(2)),
    ("initialize u\ncompile ", Told::Bad(2)),
    ("initialize u\ncompile a  b", Told::Bad(2)),
    ("initialize u\nrun a b", Told::Bad(2)),
    ("initialize u\ninverse", Told::Bad(2)),
    // Plain decimals of at most 2^63 - 1.
    ("initialize u\ncancel 0", Told::Lines(2)),
    ("initialize u\ncancel 9223372036854775807", Told::Lines(2)),
    ("initialize u\ncancel 9223372036854775808", Told::Bad(2)),
    ("initialize u\ncancel 99999999999999999999", Told::Bad(2)),
    ("initialize u\ncancel 01", Told::Bad(2)),
    ("initialize u\ncancel +1", Told::Bad(2)),
    ("initialize u\ncancel -1", Told::Bad(2)),
    ("initialize u\ncancel", Told::Bad(2)),
    // What is shown.
    ("initialize u\nshow", Told::Bad(2)),
    ("initialize u\nshow warnings", Told::Bad(2)),
];

/// What reading a script tells, if there is memory for it.
fn read(alloc: Global, text: &str) -> Option<Told> {
    if text.len() > 262_144 {
        return None;
    }
    match read_script(alloc, text) {
        Ok(script) => Some(Told::Lines(script.lines.as_slice().len())),
        Err(ScriptFault::Line(number)) => Some(Told::Bad(number)),
        Err(ScriptFault::NoMemory) => None,
    }
}

#[test]
fn reads_scripts(rt: HostRuntime) -> Result<(), Fail> {
    for &(text, wanted) in &SCRIPTS {
        assert!(rt; read(rt.alloc(), text) == Some(wanted));
    }
    Ok(())
}

fn are_names(names: &[Text], wanted: &[&str]) -> bool {
    names.len() == wanted.len()
        && names
            .iter()
            .zip(wanted)
            .all(|(name, word)| name.as_slice() == word.as_bytes())
}

#[test]
fn keeps_words(rt: HostRuntime) -> Result<(), Fail> {
    let text = "initialize file:///w\ncompile lib app\ncancel 27";
    let Ok(script) = read_script(rt.alloc(), text) else {
        return Err(Fail::new("not read"));
    };
    let is = match script.lines.as_slice() {
        [
            Line::Initialize(uri),
            Line::Compile(names),
            Line::Cancel(id),
        ] => {
            uri.as_slice() == b"file:///w".as_slice()
                && are_names(names.as_slice(), &["lib", "app"])
                && *id == 27
        }
        _ => false,
    };
    assert!(rt; is);
    Ok(())
}
