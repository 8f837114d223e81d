use ob_text::{Code, Held, Items, Name, NoMemory, Path, Severity, Snapshot, Text};
use std::alloc::Global;
use std::collections::HashSet;
use std::test::Fail;

#[test]
fn owns_and_gives_back(rt: HostRuntime) -> Result<(), Fail> {
    let path = Path::new(rt.alloc(), b"A.Mod")?;
    assert_eq!(rt; path.as_slice(), b"A.Mod".as_slice());
    let copy = path.copy(rt.alloc())?;
    assert_eq!(rt; copy.into_vec().as_slice(), b"A.Mod".as_slice());
    Ok(())
}

#[test]
fn compares_texts(rt: HostRuntime) -> Result<(), Fail> {
    let text = Text::new(rt.alloc(), b"ab")?;
    assert!(rt; text != Text::new(rt.alloc(), b"abc")?);
    assert!(rt; text.followed_by(b"c")? == Text::new(rt.alloc(), b"abc")?);
    Ok(())
}

#[test]
fn finds_names_by_their_hash(rt: HostRuntime) -> Result<(), Fail> {
    let mut names = HashSet::new(rt.alloc());
    names.insert(Name::new(rt.alloc(), b"app")?)?;
    assert!(rt; names.contains(&Name::new(rt.alloc(), b"app")?));
    assert!(rt; !names.contains(&Name::new(rt.alloc(), b"lib")?));
    Ok(())
}

/// A byte, how many of it a file has, and what is held there.
const FILES: [(u8, usize, &str); 6] = [
    (b'$', 0, "text"),
    (b'$', 262_144, "text"),
    (b'$', 262_145, "too large"),
    (255, 1, "not text"),
    (255, 262_144, "not text"),
    (255, 262_145, "too large"),
];

#[test]
fn holds_what_files_have(rt: HostRuntime) -> Result<(), Fail> {
    for &(byte, count, want) in &FILES {
        let got = match Held::from_bytes(vec![in rt.alloc(); byte; count]?) {
            Held::Text(_) => "text",
            Held::Absent => "absent",
            Held::TooLarge => "too large",
            Held::NotText => "not text",
        };
        assert_eq!(rt; got, want, "{count} bytes of {byte}");
    }
    Ok(())
}

fn entry(alloc: Global, path: &str, held: &Held) -> Result<(Path, Held), NoMemory> {
    let path = Path::new(alloc, path.as_bytes())?;
    Ok((path, held.copy(alloc)?))
}

/// A snapshot in which a path stands twice.
fn snapshot_of(alloc: Global, text: &Held) -> Result<Snapshot, NoMemory> {
    let mut entries = Vec::new(alloc);
    entries.push(entry(alloc, "A.Mod", text)?)?;
    entries.push(entry(alloc, "B.Mod", &Held::Absent)?)?;
    entries.push(entry(alloc, "A.Mod", &Held::TooLarge)?)?;
    Ok(Snapshot {
        entries: Items::from_vec(entries),
    })
}

/// Is this what a snapshot has of a path?
fn gives(alloc: Global, snapshot: &Snapshot, path: &str, want: &Held) -> Result<bool, NoMemory> {
    let path = Path::new(alloc, path.as_bytes())?;
    match snapshot.get(&path) {
        Some(held) => Ok(held == want),
        None => Ok(false),
    }
}

#[test]
fn gives_what_was_held(rt: HostRuntime) -> Result<(), Fail> {
    let alloc = rt.alloc();
    let text = Held::Text(Text::new(alloc, b"MODULE A; END A.")?);
    let snapshot = snapshot_of(alloc, &text)?;
    assert!(rt; gives(alloc, &snapshot, "A.Mod", &text)?);
    assert!(rt; gives(alloc, &snapshot, "B.Mod", &Held::Absent)?);
    assert!(rt; snapshot.get(&Path::new(alloc, b"a.Mod")?).is_none());
    assert_eq!(rt; snapshot.entries.into_vec().len(), 3);
    Ok(())
}

#[test]
fn prints_codes(rt: HostRuntime) {
    assert_eq!(rt; Code::OpenComment.name(), "openComment");
    assert_eq!(rt; Code::OpenComment.message(), "comment is not closed");
    assert_eq!(rt; Code::UnusedImport.message(), "unused import: ");
    assert_eq!(rt; Code::UnusedImport.severity() as u8, 2);
    assert_eq!(rt; Code::BadControl.severity() as u8, 1);
    assert_eq!(rt; Severity::Error as u8, 1);
    assert_eq!(rt; Code::DocumentAbsent as u8, 1);
    assert_eq!(rt; Code::BadControl as u8, 38);
}
