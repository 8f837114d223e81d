use bsp_edge::{MemTree, Tree, TreeFault};
use ob_text::{Held, Items, NoMemory, Path, Snapshot, Text};
use std::alloc::Global;
use std::test::Fail;

fn read_all<T: Tree>(tree: &mut T, paths: &[Path]) -> Result<Snapshot, TreeFault> {
    tree.read_all(paths)
}

fn held(alloc: Global, text: &[u8]) -> Result<Held, NoMemory> {
    Ok(Held::Text(Text::new(alloc, text)?))
}

/// A tree that holds `one` at `A`, with these changes and failing calls.
fn tree_of(
    alloc: Global,
    changes: &[(u64, &str, &[u8])],
    failing: &[u64],
) -> Result<MemTree, Fail> {
    let mut files = Vec::new(alloc);
    files.push((Path::new(alloc, b"A")?, held(alloc, b"one")?))?;
    let files = Snapshot {
        entries: Items::from_vec(files),
    };
    let mut made = Vec::new(alloc);
    for (number, path, text) in changes {
        let path = Path::new(alloc, path.as_bytes())?;
        made.push((*number, path, held(alloc, text)?))?;
    }
    let failing = Vec::from_slice(alloc, failing)?;
    Ok(MemTree::new(alloc, files, made, failing))
}

/// Is this what was handed out of the path? An empty text stands for nothing.
fn is_entry(entry: &(Path, Held), path: &Path, text: &str) -> bool {
    match &entry.1 {
        Held::Text(held) => entry.0 == *path && held.as_slice() == text.as_bytes(),
        Held::Absent => entry.0 == *path && text.is_empty(),
        _ => false,
    }
}

/// Does a call hand out just these texts of `B` and of `A`, in this order?
fn hands_out(alloc: Global, tree: &mut MemTree, b: &str, a: &str) -> Result<bool, TreeFault> {
    let paths = [Path::new(alloc, b"B")?, Path::new(alloc, b"A")?];
    let snapshot = read_all(tree, &paths)?;
    match snapshot.entries.as_slice() {
        [first, second] => Ok(is_entry(first, &paths[0], b) && is_entry(second, &paths[1], a)),
        _ => Ok(false),
    }
}

/// Does a call hand out just this of one path?
fn hands_out_of(
    alloc: Global,
    tree: &mut MemTree,
    path: &[u8],
    want: &Held,
) -> Result<bool, TreeFault> {
    let paths = [Path::new(alloc, path)?];
    let snapshot = read_all(tree, &paths)?;
    match snapshot.entries.as_slice() {
        [entry] => Ok(entry.0 == paths[0] && entry.1 == *want),
        _ => Ok(false),
    }
}

#[test]
fn changes_before_calls(rt: HostRuntime) -> Result<(), Fail> {
    let alloc = rt.alloc();
    let changes: [(u64, &str, &[u8]); 5] = [
        (3, "A", b"three"),
        (2, "A", b"lost"),
        (2, "B", b"new"),
        (2, "A", b"two"),
        (0, "B", b"never"),
    ];
    let mut tree = tree_of(alloc, &changes, &[])?;
    for (b, a) in [
        ("", "one"),
        ("new", "two"),
        ("new", "three"),
        ("new", "three"),
    ] {
        assert!(rt; hands_out(alloc, &mut tree, b, a)?);
    }
    assert_eq!(rt; tree.handed().len(), 4);
    Ok(())
}

#[test]
fn told_calls_fail(rt: HostRuntime) -> Result<(), Fail> {
    let alloc = rt.alloc();
    let mut tree = tree_of(alloc, &[(1, "B", b"new")], &[4, 1])?;
    for fails in [true, false, false, true, false] {
        let hands = hands_out(alloc, &mut tree, "new", "one");
        let want = if fails {
            Err(TreeFault::Failed)
        } else {
            Ok(true)
        };
        assert_eq!(rt; hands, want);
    }
    assert_eq!(rt; tree.handed().len(), 3);
    Ok(())
}

#[test]
fn hands_out_documents_alone(rt: HostRuntime) -> Result<(), Fail> {
    let alloc = rt.alloc();
    let long = vec![in alloc; b'$'; 262_145]?;
    let changes: [(u64, &str, &[u8]); 2] = [(1, "A", b"\xFF"), (1, "B", long.as_slice())];
    let mut tree = tree_of(alloc, &changes, &[])?;
    assert!(rt; hands_out_of(alloc, &mut tree, b"A", &Held::NotText)?);
    assert!(rt; hands_out_of(alloc, &mut tree, b"B", &Held::TooLarge)?);
    Ok(())
}
