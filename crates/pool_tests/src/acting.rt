//! Calls of a crew, as letters.
ghost use Rattle.std.specs.Prelude.{◌≡◌, ◌≤◌, ◌<◌, ◌+◌, ◌^◌, ◌-◌, false, length, IfOk, OnOk};
ghost use Rattle.worker_pool.specs.Crews.{IsFresh};

use crate::jobs::job_of;
use std::alloc::Global;
use std::test::Fail;
use worker_pool::Crew;

/// What a crew without jobs answers to some calls. A `g` gives it a job, whose number is the index of the letter; a `w`
/// waits, and is answered by `+` or `-`; a `c` collects, and is answered by the job's number or a `.`; a `d` drains, and is
/// answered by the number of jobs that were dropped.
pub fn told<C: Crew>(alloc: Global, crew: &mut C, acts: &str) -> Result<String, Fail>
    requires { IsFresh (C.sight crew.old) }
    ensures { OnOk result ((C.sight crew.new).finished ≡ false) }
{
    let mut told = String::new(alloc);
    let mut number: u64 = 0;
    'acts: for act in acts.as_bytes() {
        answer(alloc, crew, *act, number, &mut told)?;
        number += 1;
    }
    Ok(told)
}

fn answer<C: Crew>(
    alloc: Global,
    crew: &mut C,
    act: u8,
    number: u64,
    told: &mut String,
) -> Result<(), Fail>
    requires going { (C.sight crew.old).finished ≡ false }
    requires next { (C.sight crew.old).next ≤ number }
    requires number { number < 2 ^ 64 - 1 }
    ensures going { OnOk result ((C.sight crew.new).finished ≡ false) }
    ensures next { OnOk result ((C.sight crew.new).next ≤ number + 1) }
{
    match act {
        b'g' => give(alloc, crew, number),
        b'w' => {
            let sign = if crew.wait() { "+" } else { "-" };
            Ok(told.push_str(sign)?)
        }
        b'c' => match crew.collect() {
            Some(outcome) => Ok(write!(told, "{}", outcome.number())?),
            None => Ok(told.push_str(".")?),
        },
        _ => {
            let count = crew.drain();
            Ok(write!(told, "{count}")?)
        }
    }
}

fn give<C: Crew>(alloc: Global, crew: &mut C, number: u64) -> Result<(), Fail>
    requires going { (C.sight crew.old).finished ≡ false }
    requires next { (C.sight crew.old).next ≤ number }
    requires number { number < 2 ^ 64 - 1 }
    ensures going { OnOk result ((C.sight crew.new).finished ≡ false) }
    ensures next { OnOk result ((C.sight crew.new).next ≤ number + 1) }
{
    let job = job_of(alloc, number, "MODULE A; END A.")?;
    if crew.give(job).is_err() {
        return Err(Fail::from("no memory"));
    }
    Ok(())
}
