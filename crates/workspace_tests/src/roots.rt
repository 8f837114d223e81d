//! Roots, by what a client says is one.
use std::alloc::Global;
use std::test::Fail;
use target_graph::{Root, RootFault, root_of};

/// What `url` makes of a root, or nothing where it is a bad one.
pub fn root(alloc: Global, text: &str) -> Result<Option<Root>, Fail> {
    if text.len() > 4_096 {
        return Err(Fail::new("too long"));
    }
    match root_of(alloc, text) {
        Ok(root) => Ok(Some(root)),
        Err(RootFault::BadRoot) => Ok(None),
        Err(RootFault::NoMemory) => Err(Fail::new("no memory")),
    }
}

/// Whether a `rootUri` makes this root. A bad one makes the empty text.
fn makes(alloc: Global, text: &str, wanted: &str) -> Result<bool, Fail> {
    match root(alloc, text)? {
        Some(root) => Ok(root.as_slice() == wanted.as_bytes()),
        None => Ok(wanted.is_empty()),
    }
}

#[test]
fn makes_roots(rt: HostRuntime) -> Result<(), Fail> {
    for (text, wanted) in [
        ("file:///w", "file:///w/"),
        ("file:///w/", "file:///w/"),
        ("FILE:///a/../w b", "file:///w%20b/"),
        ("http://Host", "http://host/"),
        ("w", ""),
        ("mailto:a", ""),
        ("file:///w?", ""),
        ("file:///w#", ""),
        ("file:///w?a#b", ""),
    ] {
        assert!(rt; makes(rt.alloc(), text, wanted)?, "at {text}");
    }
    Ok(())
}

/// So many times the letter `a`.
pub fn letters(alloc: Global, count: usize) -> Result<String, Fail> {
    let mut text = String::new(alloc);
    for _ in 0..count {
        text.push_str("a")?;
    }
    Ok(text)
}

#[test]
fn measures_roots(rt: HostRuntime) -> Result<(), Fail> {
    let alloc = rt.alloc();
    let longest = letters(alloc, 4_087)?;
    let text = format!(in alloc; "file:///{longest}/")?;
    assert!(rt; makes(alloc, text.as_str(), text.as_str())?);
    let text = format!(in alloc; "file:///{longest}a")?;
    assert!(rt; makes(alloc, text.as_str(), "")?);
    Ok(())
}
