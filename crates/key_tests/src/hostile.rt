use crate::keys::comes_back;
use crate::samples::{numbered, view};
use iface_key::{Key, key_of, view_of};
use ob_text::NoMemory;
use std::alloc::Global;
use std::test::Fail;

/// Bytes that are no view's key: none, a view of no kind, a byte too many, an end that lacks, a name that lacks, an
/// entity and a constant of no kind, a byte 5 behind a 1, a truth that is none, digits that lack, a type of no kind,
/// and a name that is exported twice.
const NO_KEYS: [&[u8]; 12] = [
    &[],
    &[4],
    &[0, 0],
    &[3],
    &[3, 1],
    &[3, 1, 97, 0, 4, 0, 0],
    &[3, 1, 97, 0, 0, 5, 0, 0],
    &[3, 1, 1, 5, 0, 1, 1, 0],
    &[3, 1, 97, 0, 0, 2, 2, 0],
    &[3, 1, 97, 0, 2, 6, 255, 255, 255],
    &[3, 1, 97, 0, 1, 10, 0],
    &[3, 1, 97, 0, 1, 1, 1, 97, 0, 1, 2, 0],
];

fn is_none(alloc: Global, bytes: &[u8]) -> Result<bool, NoMemory> {
    let key = Key::new(alloc, bytes)?;
    Ok(view_of(alloc, &key)?.is_none())
}

#[test]
fn no_keys(rt: HostRuntime) -> Result<(), Fail> {
    for &bytes in &NO_KEYS {
        assert!(rt; is_none(rt.alloc(), bytes)?);
    }
    Ok(())
}

/// A key that is cut off, at each place, is none, nor is one with a byte more.
#[test]
fn cut_keys(rt: HostRuntime) -> Result<(), Fail> {
    let key = key_of(rt.alloc(), &view(rt.alloc(), numbered(9))?)?;
    let bytes = key.as_slice();
    for end in 0..bytes.len() {
        assert!(rt; is_none(rt.alloc(), &bytes[..end])?, "cut at {end}");
    }
    let longer = key.copy(rt.alloc())?.followed_by(&[0])?;
    assert!(rt; is_none(rt.alloc(), longer.as_slice())?);
    assert!(rt; comes_back(rt.alloc(), &key)?);
    Ok(())
}

/// The key of a view whose one type is so many open arrays deep.
fn deep_arrays(alloc: Global, depth: u32) -> Result<Key, NoMemory> {
    let mut bytes = Vec::from_slice(alloc, &[3, 1, 97, 0, 1])?;
    for _ in 0..depth {
        bytes.push(8)?;
    }
    bytes.extend_from_slice(&[1, 0])?;
    Ok(Key::from_vec(bytes))
}

/// The key of a view whose one type is so many records deep, each a field of the next.
fn deep_records(alloc: Global, depth: u32) -> Result<Key, NoMemory> {
    let mut bytes = Vec::from_slice(alloc, &[3, 1, 97, 0, 1])?;
    for _ in 0..depth {
        bytes.extend_from_slice(&[9, 0, 0, 0, 0, 0, 1, 98, 0, 1])?;
    }
    bytes.push(1)?;
    for _ in 0..depth {
        bytes.extend_from_slice(&[0, 1, 0, 0, 0])?;
    }
    bytes.push(0)?;
    Ok(Key::from_vec(bytes))
}

/// A type may be nested 4,096 deep.
#[test]
fn deep_array_types(rt: HostRuntime) -> Result<(), Fail> {
    for (depth, is_view) in [(0, true), (4096, true), (4097, false), (1_000_000, false)] {
        let key = deep_arrays(rt.alloc(), depth)?;
        assert_eq!(rt; comes_back(rt.alloc(), &key)?, is_view, "{depth} arrays");
    }
    Ok(())
}

#[test]
fn deep_record_types(rt: HostRuntime) -> Result<(), Fail> {
    for (depth, is_view) in [(1, true), (4096, true), (4097, false)] {
        let key = deep_records(rt.alloc(), depth)?;
        assert_eq!(rt; comes_back(rt.alloc(), &key)?, is_view, "{depth} records");
    }
    Ok(())
}
