use bsp_edge::{FolderTree, Tree, TreeFault};
use ob_text::{Held, Path, Snapshot, Text};
use std::path::PathBuf;
use std::test::Fail;
use std::{env, fs, process};

fn read_all<T: Tree>(tree: &mut T, paths: &[Path]) -> Result<Snapshot, TreeFault> {
    tree.read_all(paths)
}

fn put(rt: &HostRuntime, folder: &PathBuf, name: &str, contents: &[u8]) -> Result<(), Fail> {
    fs::write(rt, folder.join(rt.alloc(), name)?, contents)?;
    Ok(())
}

/// The name of a folder in the system's folder for temporary files.
fn folder_name(rt: &HostRuntime) -> Result<PathBuf, Fail> {
    let id = process::id(rt.process());
    let name = format!(in rt.alloc(); "edge_tests-{id}")?;
    Ok(env::temp_dir(rt)?.join(rt.alloc(), name)?)
}

fn put_bytes(rt: &HostRuntime, folder: &PathBuf, name: &str, count: usize) -> Result<(), Fail> {
    let bytes = vec![in rt.alloc(); 0; count]?;
    put(rt, folder, name, bytes.as_slice())
}

fn make_folder(rt: &HostRuntime, folder: &PathBuf) -> Result<(), Fail> {
    fs::create_dir(rt, folder.as_path())?;
    fs::create_dir(rt, folder.join(rt.alloc(), "lib")?)?;
    put(rt, folder, "A.Mod", b"MODULE A; END A.")?;
    put(rt, folder, "lib/B.Mod", b"")?;
    put(rt, folder, "bytes", b"\xC3\x28")?;
    put_bytes(rt, folder, "largest", 262_144)?;
    put_bytes(rt, folder, "larger", 262_145)
}

/// What the folder holds at a name: a text of so many bytes, or another word.
fn held_at(rt: HostRuntime, folder: &PathBuf, name: &str) -> Result<(&'static str, usize), Fail> {
    let alloc = rt.alloc();
    let folder = Text::new(alloc, folder.as_str().as_bytes())?;
    let mut tree = FolderTree::new(rt, alloc, folder);
    let paths = [Path::new(alloc, name.as_bytes())?];
    match read_all(&mut tree, &paths) {
        Ok(snapshot) => match snapshot.get(&paths[0]).ok_or("path")? {
            Held::Text(text) => Ok(("text", text.as_slice().len())),
            Held::Absent => Ok(("absent", 0)),
            Held::TooLarge => Ok(("too large", 0)),
            Held::NotText => Ok(("not text", 0)),
        },
        Err(TreeFault::Failed) => Ok(("failed", 0)),
        Err(TreeFault::NoMemory) => Err(Fail::new("no memory")),
    }
}

/// A name, and what the folder holds there.
const HELD: [(&str, &str, usize); 10] = [
    ("A.Mod", "text", 16),
    ("lib/B.Mod", "text", 0),
    ("largest", "text", 262_144),
    ("larger", "too large", 0),
    ("bytes", "not text", 0),
    ("C.Mod", "absent", 0),
    ("A.Mod/D.Mod", "absent", 0),
    ("none/E.Mod", "absent", 0),
    ("lib", "failed", 0),
    ("/dev/null", "failed", 0),
];

#[test]
fn reads_a_folder(rt: HostRuntime) -> Result<(), Fail> {
    let folder = folder_name(&rt)?;
    make_folder(&rt, &folder)?;
    for &(name, want, size) in &HELD {
        assert_eq!(rt; held_at(rt, &folder, name)?, (want, size), "{name}");
    }
    fs::remove_dir_all(&rt, folder.as_path())?;
    assert_eq!(rt; held_at(rt, &folder, "A.Mod")?, ("absent", 0));
    Ok(())
}
