ghost use Rattle.std.specs.Prelude.{IfOk, OnOk, Some};
ghost use Rattle.std.specs.List.{All};
ghost use Rattle.recordings.specs.Recordings.{AreTexts, IsHeldText, IsTextEntry};

use ob_text::{Held, Items, Path, Snapshot, Text};
use recordings::{begin_into, end_into, in_into, out_into, tree_into};
use std::alloc::Global;
use std::test::Fail;

fn text(alloc: Global, content: &str) -> Result<Held, Fail>
    ensures { IfOk result IsHeldText }
{
    Ok(Held::Text(Text::new(alloc, content.as_bytes())?))
}

/// Adds what is held at a path.
fn add(alloc: Global, entries: &mut Vec<(Path, Held)>, path: &str, held: Held) -> Result<(), Fail>
    requires texts { All IsTextEntry entries.old.items }
    requires held { IsHeldText held }
    ensures { OnOk result (All IsTextEntry entries.new.items) }
{
    let path = Path::new(alloc, path.as_bytes())?;
    entries.push((path, held))?;
    Ok(())
}

/// What a tree handed out of four paths.
fn snapshot(alloc: Global) -> Result<Snapshot, Fail>
    ensures { IfOk result (λ snapshot. AreTexts (Some snapshot.entries)) }
{
    let mut entries = Vec::new(alloc);
    let module = text(alloc, "MODULE A;\nEND A.")?;
    add(alloc, &mut entries, "A.Mod", module)?;
    add(alloc, &mut entries, "B.Mod", Held::Absent)?;
    add(alloc, &mut entries, "C.Mod", Held::TooLarge)?;
    add(alloc, &mut entries, "D\u{e9}\".Mod", Held::NotText)?;
    Ok(Snapshot {
        entries: Items::from_vec(entries),
    })
}

/// A recording, line by line.
const RECORDING: &str = concat!(
    "oberon-bsp record 1\n",
    "in 0\n\n",
    "in 12\nexit\r\nbehind\n",
    "tree 4\nnull\n",
    "tree 2\n[]\n",
    "tree 102\n[[\"A.Mod\",\"text\",\"MODULE A;\\nEND A.\"],[\"B.Mod\",\"absent\"],",
    "[\"C.Mod\",\"tooLarge\"],[\"D\u{e9}\\\".Mod\",\"notText\"]]\n",
    "out 3\n{\n}\n",
    "end 1\n5\n",
);

#[test]
fn entries_are_spelled(rt: HostRuntime) -> Result<(), Fail> {
    let alloc = rt.alloc();
    let mut out = Vec::new(alloc);
    begin_into(&mut out)?;
    in_into(&mut out, b"")?;
    in_into(&mut out, b"exit\r\nbehind")?;
    tree_into(alloc, &mut out, None)?;
    let nothing = Snapshot {
        entries: Items::from_vec(Vec::new(alloc)),
    };
    tree_into(alloc, &mut out, Some(&nothing))?;
    let four = snapshot(alloc)?;
    tree_into(alloc, &mut out, Some(&four))?;
    out_into(&mut out, b"{\n}")?;
    end_into(&mut out, 5)?;
    assert_eq!(rt; out.as_slice(), RECORDING.as_bytes());
    Ok(())
}
