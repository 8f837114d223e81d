//! Jobs that check small modules.
ghost use Rattle.std.specs.Prelude.{◌≡◌, IfOk};
ghost use Rattle.ob_text.specs.Held.{IsReadable};
ghost use Rattle.oberon_module.specs.Reading.{IsRead};

use indexmap::IndexMap;
use ob_text::{Held, Name, Text};
use oberon_module::{Reading, read_tokens, read_tree};
use std::alloc::Global;
use std::sync::Arc;
use std::test::Fail;
use worker_pool::{Check, Job, Work};

/// The check of a text of A by no views.
pub fn job_of(alloc: Global, number: u64, text: &str) -> Result<Job, Fail>
    ensures { IfOk result (λ job. job.number ≡ number) }
{
    let held = Arc::new(alloc, held_of(alloc, text)?)?;
    let stem = Name::new(alloc, b"A")?;
    let check = Check::new(held, None, stem, IndexMap::new(alloc));
    Ok(Job {
        number,
        work: Work::Check(check),
    })
}

/// A text as it is held.
pub fn held_of(alloc: Global, text: &str) -> Result<Held, Fail>
    ensures { IfOk result IsReadable }
{
    if text.len() > 262_144 {
        return Err(Fail::from("too long"));
    }
    Ok(Held::Text(Text::new(alloc, text.as_bytes())?))
}

/// What is read of it.
pub fn reading_of(alloc: Global, held: &Held) -> Result<Arc<Reading>, Fail>
    requires { IsReadable held.now }
    ensures { IfOk result (λ reading. IsRead held.now reading.value) }
{
    let tokens = read_tokens(alloc, held)?;
    match Arc::new(alloc, read_tree(alloc, held, tokens)?) {
        Ok(reading) => Ok(reading),
        Err(_) => Err(Fail::from("no memory")),
    }
}
