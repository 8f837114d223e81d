//! What an outcome tells.
use crate::jobs::{held_of, reading_of};
use indexmap::IndexMap;
use ob_text::{Code, Name};
use oberon_types::View;
use std::alloc::Global;
use std::sync::Arc;
use std::test::Fail;
use worker_pool::{Check, Done, Job, Outcome, Work};

/// A text of A, whether B is known as broken or as leading back to A, and what is found first.
const ROWS: [(&str, Option<bool>, Option<Code>); 5] = [
    ("MODULE A; END A.", None, None),
    ("MODULE B; END B.", None, Some(Code::ModuleName)),
    (CALLING, None, Some(Code::NoModule)),
    (CALLING, Some(true), Some(Code::ImportBroken)),
    (CALLING, Some(false), Some(Code::ImportCyclic)),
];

const CALLING: &str = "MODULE A; IMPORT B; BEGIN B.P END A.";

#[test]
fn has_what_the_check_finds(rt: HostRuntime) -> Result<(), Fail> {
    let alloc = rt.alloc();
    for &(text, broken, want) in &ROWS {
        let unread = job_by(alloc, text, broken, false)?.run(alloc);
        assert_eq!(rt; first_code(&unread)?, want, "{text:?}");
        let read = job_by(alloc, text, broken, true)?.run(alloc);
        assert_eq!(rt; first_code(&read)?, want, "{text:?}, read before");
    }
    Ok(())
}

fn first_code(outcome: &Outcome) -> Result<Option<Code>, Fail> {
    match outcome.done() {
        Done::Checked(checked) => Ok(checked.list.as_slice().first().map(|one| one.code)),
        Done::NoMemory => Err(Fail::from("no memory")),
    }
}

/// An outcome is that of its job.
#[test]
fn outcome_has_its_job(rt: HostRuntime) -> Result<(), Fail> {
    let alloc = rt.alloc();
    let outcome = job_by(alloc, "MODULE A; END A.", Some(false), true)?.run(alloc);
    assert_eq!(rt; outcome.number(), 7);
    assert_eq!(rt; outcome.job().number, 7);
    let (job, _done) = outcome.into_parts();
    assert_eq!(rt; job.number, 7);
    Ok(())
}

/// A check shows what it is made of.
#[test]
fn check_shows_its_parts(rt: HostRuntime) -> Result<(), Fail> {
    let alloc = rt.alloc();
    let Work::Check(check) = job_by(alloc, "MODULE A; END A.", Some(false), true)?.work;
    assert_eq!(rt; check.held(), &held_of(alloc, "MODULE A; END A.")?);
    assert_eq!(rt; check.stem().as_slice(), b"A".as_slice());
    assert_eq!(rt; check.views().len(), 1);
    Ok(())
}

/// A job that was done comes back with what it was given.
#[test]
fn gives_the_check_back(rt: HostRuntime) -> Result<(), Fail> {
    let alloc = rt.alloc();
    let outcome = job_by(alloc, "MODULE A; END A.", Some(false), true)?.run(alloc);
    let (job, _done) = outcome.into_parts();
    let Work::Check(check) = job.work;
    let (held, stem, views) = check.into_parts();
    assert_eq!(rt; &*held, &held_of(alloc, "MODULE A; END A.")?);
    assert_eq!(rt; stem.as_slice(), b"A".as_slice());
    assert_eq!(rt; views.len(), 1);
    Ok(())
}

/// The check of a text of A, where B is broken, or leads back to A, or isn't known. The text may be read before.
fn job_by(alloc: Global, text: &str, broken: Option<bool>, read: bool) -> Result<Job, Fail> {
    let held = Arc::new(alloc, held_of(alloc, text)?)?;
    let reading = if read {
        Some(reading_of(alloc, &held)?)
    } else {
        None
    };
    let stem = Name::new(alloc, b"A")?;
    let mut views = IndexMap::new(alloc);
    if let Some(broken) = broken {
        let view = if broken { View::Broken } else { View::Cyclic };
        views.insert(Name::new(alloc, b"B")?, view)?;
    }
    Ok(Job {
        number: 7,
        work: Work::Check(Check::new(held, reading, stem, views)),
    })
}
