//! In which order jobs are done, and what becomes of them.
ghost use Rattle.worker_pool.specs.Crews.{IsFresh};

use crate::acting::told;
use std::alloc::Global;
use std::test::Fail;
use worker_pool::{Crew, InlineCrew, ScriptCrew, Totals};

/// Calls of a crew that does the oldest job in each wait, and its answers.
const OLDEST: [(&str, &str); 9] = [
    ("wcd", "-.0"),
    ("gggwcwcwcwc", "+0+1+2-."),
    ("gwcgwc", "+0+3"),
    ("ggc", "."),
    ("ggwwc", "++0"),
    ("gggwdcw", "+20-"),
    ("ggdw", "2-"),
    ("gwdgwcwc", "+0+0+3"),
    ("ggwcgwcwc", "+0+1+4"),
];

#[test]
fn does_the_oldest(rt: HostRuntime) -> Result<(), Fail> {
    let alloc = rt.alloc();
    for &(acts, want) in &OLDEST {
        let mut crew = InlineCrew::new(alloc);
        assert_eq!(rt; told(alloc, &mut crew, acts)?.as_str(), want, "{acts:?}");
    }
    Ok(())
}

/// An order, calls of a crew that does its jobs in it, and its answers.
const ORDERED: [(&[u32], &str, &str); 8] = [
    (&[1, 0], "ggwcwc", "+1+0"),
    (&[], "gggwcwcwcw", "+0+1+2-"),
    (&[2], "gggwcwcwc", "+2+0+1"),
    (&[1, 1], "gggwcwcwc", "+1+2+0"),
    (&[5, 3, 7], "gggwcwcwc", "+2+1+0"),
    (&[1, 1], "ggwwcggwc", "++1+5"),
    (&[1, 1], "wgwggcwc", "-+1+4"),
    (&[4294967295], "gggwdc", "+20"),
];

#[test]
fn does_the_one_at_the_next_index(rt: HostRuntime) -> Result<(), Fail> {
    let alloc = rt.alloc();
    for &(order, acts, want) in &ORDERED {
        let mut crew = ScriptCrew::new(alloc, Vec::from_slice(alloc, order)?);
        assert_eq!(rt; told(alloc, &mut crew, acts)?.as_str(), want, "{acts:?}");
    }
    Ok(())
}

/// Calls of a crew, and then how many jobs it was given, how many were collected and drained, and how many are left.
const ENDS: [(&str, [u64; 4]); 6] = [
    ("", [0, 0, 0, 0]),
    ("ggg", [3, 0, 0, 3]),
    ("gggw", [3, 1, 0, 2]),
    ("gggwc", [3, 1, 0, 2]),
    ("gggwd", [3, 1, 2, 0]),
    ("gggdg", [4, 0, 3, 1]),
];

#[test]
fn tells_what_became_of_the_jobs(rt: HostRuntime) -> Result<(), Fail> {
    let alloc = rt.alloc();
    for &(acts, [given, collected, drained, left]) in &ENDS {
        let want = Totals {
            given,
            collected,
            drained,
            left,
        };
        let mut inline = InlineCrew::new(alloc);
        assert_eq!(rt; end(alloc, &mut inline, acts)?, want, "{acts:?}");
        let mut script = ScriptCrew::new(alloc, Vec::from_slice(alloc, &[1, 1])?);
        assert_eq!(rt; end(alloc, &mut script, acts)?, want, "{acts:?}");
    }
    Ok(())
}

fn end<C: Crew>(alloc: Global, crew: &mut C, acts: &str) -> Result<Totals, Fail>
    requires { IsFresh (C.sight crew.old) }
{
    told(alloc, crew, acts)?;
    Ok(crew.finish())
}
