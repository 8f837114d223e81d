//! In which order places are given, and which are on a cycle.
use crate::rows::{owned, single};
use crate::run::run;
use std::alloc::Global;
use std::test::Fail;

/// Rows of imports, the places on a cycle, the places in the order in which they are given, and how many were given
/// when nothing was ready any more: at first, and behind each place that was finished.
const RUNS: &[(&[&[u32]], &[u32], &[u32], &[usize])] = &[
    (&[], &[], &[], &[0]),
    (&[&[1], &[], &[0]], &[], &[1, 0, 2], &[1, 2, 3, 3]),
    (&[&[], &[], &[]], &[], &[0, 1, 2], &[3, 3, 3, 3]),
    // An import is named twice.
    (&[&[1, 1], &[]], &[], &[1, 0], &[1, 2, 2]),
    // Two places import the same one, and one imports both.
    (
        &[&[1, 2], &[3], &[3], &[]],
        &[],
        &[3, 1, 2, 0],
        &[1, 3, 3, 4, 4],
    ),
    // A place imports itself, and another one imports it.
    (&[&[0], &[0]], &[0], &[0, 1], &[2, 2, 2]),
    // A place imports itself and another one.
    (&[&[0, 1], &[]], &[0], &[1, 0], &[1, 2, 2]),
    // Between two cycles stands 2.
    (
        &[&[1], &[0, 2], &[3], &[4], &[3]],
        &[0, 1, 3, 4],
        &[0, 2, 3, 4, 1],
        &[4, 4, 5, 5, 5, 5],
    ),
    // A cycle of three imports 3, and 4 imports the cycle.
    (
        &[&[1], &[2], &[0, 3], &[], &[1]],
        &[0, 1, 2],
        &[0, 1, 3, 4, 2],
        &[4, 4, 4, 5, 5, 5],
    ),
    // Two cycles share 1.
    (
        &[&[1], &[0, 2], &[1]],
        &[0, 1, 2],
        &[0, 1, 2],
        &[3, 3, 3, 3],
    ),
];

#[test]
fn gives_places_in_order(rt: HostRuntime) -> Result<(), Fail> {
    let alloc = rt.alloc();
    for (rows, cycles, order, steps) in RUNS {
        let found = run(alloc, owned(alloc, rows)?)?;
        assert_eq!(rt; found.cycles.as_slice(), *cycles);
        assert_eq!(rt; found.order.as_slice(), *order);
        assert_eq!(rt; found.steps.as_slice(), *steps);
        assert_eq!(rt; found.done.as_slice(), [rows.len()].as_slice());
    }
    Ok(())
}

/// The numbers from one up to another.
fn upwards(alloc: Global, from: u32, to: u32) -> Result<Vec<u32>, Fail> {
    let mut numbers = Vec::new(alloc);
    for number in from..to {
        numbers.push(number)?;
    }
    Ok(numbers)
}

fn downwards(alloc: Global, from: u32, to: u32) -> Result<Vec<u32>, Fail> {
    let mut numbers = upwards(alloc, from, to)?;
    numbers.as_mut_slice().reverse();
    Ok(numbers)
}

#[test]
fn gives_a_chain_from_its_end(rt: HostRuntime) -> Result<(), Fail> {
    let alloc = rt.alloc();
    let mut imports = Vec::new(alloc);
    for place in 1..1_000 {
        imports.push(Some(place))?;
    }
    imports.push(None)?;
    let found = run(alloc, single(alloc, imports.as_slice())?)?;
    assert!(rt; found.cycles.is_empty());
    assert_eq!(rt;
        found.order.as_slice(),
        downwards(alloc, 0, 1_000)?.as_slice()
    );
    Ok(())
}

#[test]
fn gives_a_chain_from_its_start(rt: HostRuntime) -> Result<(), Fail> {
    let alloc = rt.alloc();
    let mut imports = Vec::new(alloc);
    imports.push(None)?;
    for place in 0..999 {
        imports.push(Some(place))?;
    }
    let found = run(alloc, single(alloc, imports.as_slice())?)?;
    assert!(rt; found.cycles.is_empty());
    assert_eq!(rt;
        found.order.as_slice(),
        upwards(alloc, 0, 1_000)?.as_slice()
    );
    Ok(())
}

/// A cycle of 500, and behind it 500 places of which each imports the one before.
#[test]
fn finds_a_cycle_with_importers(rt: HostRuntime) -> Result<(), Fail> {
    let alloc = rt.alloc();
    let mut imports = Vec::new(alloc);
    imports.push(Some(499))?;
    for place in 0..999 {
        imports.push(Some(place))?;
    }
    let found = run(alloc, single(alloc, imports.as_slice())?)?;
    assert_eq!(rt; found.cycles.as_slice(), upwards(alloc, 0, 500)?.as_slice());
    assert_eq!(rt;
        found.order.as_slice(),
        upwards(alloc, 0, 1_000)?.as_slice()
    );
    Ok(())
}

/// 500 places of which each imports the next, the last one a cycle of 500.
#[test]
fn finds_a_cycle_behind_its_importers(rt: HostRuntime) -> Result<(), Fail> {
    let alloc = rt.alloc();
    let mut imports = Vec::new(alloc);
    for place in 1..1_000 {
        imports.push(Some(place))?;
    }
    imports.push(Some(500))?;
    let found = run(alloc, single(alloc, imports.as_slice())?)?;
    assert_eq!(rt;
        found.cycles.as_slice(),
        upwards(alloc, 500, 1_000)?.as_slice()
    );
    // All of the cycle is ready at once, and each of its importers behind the next.
    let mut order = upwards(alloc, 499, 1_000)?;
    order.extend_from_slice(downwards(alloc, 0, 499)?.as_slice())?;
    assert_eq!(rt; found.order.as_slice(), order.as_slice());
    Ok(())
}
