//! Steps on a queue, each with what it has to answer.
use ob_text::{Name, NoMemory};
use rpc_peer::Id;
use session_queue::{Queue, Waiting};
use std::alloc::Global;
use std::process::Abort;
use std::test::Fail;

/// An id.
#[derive(Clone, Copy)]
pub enum Key {
    Number(i64),
    Text(&'static str),
}

/// A request that was taken: its id, its number, and whether it was marked.
#[derive(Clone, Copy)]
pub struct Taken(pub Key, pub u64, pub bool);

/// A call of a queue. What it answers stands last.
#[derive(Clone, Copy)]
pub enum Step {
    Push(Key, u64),
    /// A request that is to be cancelled from the start.
    PushMarked(Key, u64),
    IsOpen(Key, bool),
    Mark(Key, bool),
    MarkAll,
    TakeFirst(Option<Taken>),
    TakeMarked(Option<Taken>),
    Len(usize),
}

pub fn id_of(alloc: Global, key: Key) -> Result<Id, NoMemory> {
    match key {
        Key::Number(number) => Ok(Id::Number(number)),
        Key::Text(text) => Ok(Id::Text(Name::new(alloc, text.as_bytes())?)),
    }
}

/// Lets a request wait that isn't open yet. It asks for its number and 1,000.
pub fn push(
    alloc: Global,
    queue: &mut Queue<u64>,
    key: Key,
    number: u64,
    cancelled: bool,
) -> Result<(), Fail> {
    let id = id_of(alloc, key)?;
    if queue.is_open(&id) {
        return Err(Fail::new("the id is open"));
    }
    let call = number.saturating_add(1_000);
    queue.push(Waiting {
        id,
        number,
        call,
        cancelled,
    })?;
    Ok(())
}

/// Is this the request that was expected?
pub fn is_taken(
    alloc: Global,
    found: Option<Waiting<u64>>,
    wanted: Option<Taken>,
) -> Result<bool, NoMemory> {
    match (found, wanted) {
        (None, None) => Ok(true),
        (Some(waiting), Some(Taken(key, number, cancelled))) => Ok(
            waiting.id == id_of(alloc, key)?
                && waiting.number == number
                && waiting.call == number.saturating_add(1_000)
                && waiting.cancelled == cancelled,
        ),
        _ => Ok(false),
    }
}

/// Makes one step.
fn make(alloc: Global, queue: &mut Queue<u64>, step: Step) -> Result<bool, Fail> {
    match step {
        Step::Push(key, number) => {
            push(alloc, queue, key, number, false)?;
            Ok(true)
        }
        Step::PushMarked(key, number) => {
            push(alloc, queue, key, number, true)?;
            Ok(true)
        }
        Step::IsOpen(key, wanted) => Ok(queue.is_open(&id_of(alloc, key)?) == wanted),
        Step::Mark(key, wanted) => Ok(queue.mark(&id_of(alloc, key)?) == wanted),
        Step::MarkAll => {
            queue.mark_all();
            Ok(true)
        }
        Step::TakeFirst(wanted) => Ok(is_taken(alloc, queue.take_first(), wanted)?),
        Step::TakeMarked(wanted) => Ok(is_taken(alloc, queue.take_marked(), wanted)?),
        Step::Len(wanted) => Ok(queue.len() == wanted && queue.is_empty() == (wanted == 0)),
    }
}

/// Makes these steps on an empty queue, one after another.
pub fn walk(rt: &impl Abort, alloc: Global, steps: &[Step]) -> Result<(), Fail> {
    let mut queue = Queue::new(alloc);
    for (index, step) in steps.iter().enumerate() {
        assert!(rt; make(alloc, &mut queue, *step)?, "step {index}");
    }
    Ok(())
}
