//! What it comes to where all marked requests are taken, one after another.
ghost use Rattle.std.specs.Prelude.{◌≡◌, IfOk, OnOk};
ghost use Rattle.session_queue.specs.Waiting.{kept_of, marked_of};

use crate::steps::Key::Number;
use crate::steps::push;
use session_queue::{Queue, Waiting};
use std::alloc::{AllocError, Global};
use std::test::Fail;

/// Takes all that are marked: they are those that were, in order, and the others stay in order.
fn settled<T: Drop>(alloc: Global, queue: &mut Queue<T>) -> Result<Vec<Waiting<T>>, AllocError>
    ensures taken { IfOk result (λ taken. taken.items ≡ marked_of queue.old) }
    ensures kept { OnOk result (queue.new ≡ kept_of queue.old) }
{
    let mut taken = Vec::new(alloc);
    while let Some(waiting) = queue.take_marked() {
        taken.push(waiting)?;
    }
    Ok(taken)
}

#[test]
fn settles_what_is_marked(rt: HostRuntime) -> Result<(), Fail> {
    let alloc = rt.alloc();
    let mut queue = Queue::new(alloc);
    for number in 0..9u64 {
        push(
            alloc,
            &mut queue,
            Number(number as i64),
            number,
            number % 3 == 0,
        )?;
    }
    let taken = settled(alloc, &mut queue)?;
    assert_eq!(rt; taken.len(), 3);
    for (index, waiting) in taken.iter().enumerate() {
        assert_eq!(rt; waiting.number, 3 * index as u64);
    }
    assert_eq!(rt; queue.len(), 6);
    Ok(())
}
