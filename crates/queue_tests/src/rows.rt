//! Rows of steps.
use crate::steps::Key::{Number, Text};
use crate::steps::Step::{IsOpen, Len, Mark, MarkAll, Push, PushMarked, TakeFirst, TakeMarked};
use crate::steps::{Step, Taken, is_taken, push, walk};
use session_queue::Queue;
use std::test::Fail;

const ROWS: &[&[Step]] = &[
    // Nothing waits.
    &[
        Len(0),
        IsOpen(Number(1), false),
        Mark(Number(1), false),
        MarkAll,
        TakeFirst(None),
        TakeMarked(None),
        Len(0),
    ],
    // Requests are taken in order of arrival, whatever their ids and numbers are.
    &[
        Push(Number(3), 7),
        Push(Text("b"), 5),
        Push(Number(-1), 9),
        Len(3),
        TakeFirst(Some(Taken(Number(3), 7, false))),
        Push(Text("a"), 10),
        TakeFirst(Some(Taken(Text("b"), 5, false))),
        TakeFirst(Some(Taken(Number(-1), 9, false))),
        TakeFirst(Some(Taken(Text("a"), 10, false))),
        TakeFirst(None),
    ],
    // A number and a text are two ids, and so are two spellings of one number.
    &[
        Push(Number(1), 1),
        IsOpen(Text("1"), false),
        Push(Text("1"), 2),
        Push(Text("1.0"), 3),
        Push(Text(""), 4),
        IsOpen(Text("1"), true),
        IsOpen(Text(""), true),
        IsOpen(Text("1 "), false),
        Mark(Text("1"), true),
        TakeMarked(Some(Taken(Text("1"), 2, true))),
        IsOpen(Text("1"), false),
        IsOpen(Number(1), true),
        TakeFirst(Some(Taken(Number(1), 1, false))),
    ],
    // The one in the middle is marked, twice, and an id that isn't there.
    &[
        Push(Number(1), 1),
        Push(Number(2), 2),
        Push(Number(3), 3),
        Mark(Number(2), true),
        Mark(Number(4), false),
        Mark(Number(2), true),
        IsOpen(Number(2), true),
        Len(3),
        TakeMarked(Some(Taken(Number(2), 2, true))),
        TakeMarked(None),
        IsOpen(Number(2), false),
        Mark(Number(2), false),
        Len(2),
        TakeFirst(Some(Taken(Number(1), 1, false))),
        TakeFirst(Some(Taken(Number(3), 3, false))),
        Len(0),
    ],
    // Marked ones are taken by their arrival, and not in the order in which they were marked.
    &[
        Push(Number(1), 1),
        Push(Number(2), 2),
        Push(Number(3), 3),
        Push(Number(4), 4),
        Mark(Number(4), true),
        Mark(Number(2), true),
        TakeMarked(Some(Taken(Number(2), 2, true))),
        TakeMarked(Some(Taken(Number(4), 4, true))),
        TakeMarked(None),
        TakeFirst(Some(Taken(Number(1), 1, false))),
        TakeFirst(Some(Taken(Number(3), 3, false))),
    ],
    // All are marked, and one that comes later isn't.
    &[
        Push(Text("a"), 1),
        Push(Text("b"), 2),
        MarkAll,
        Push(Text("c"), 3),
        TakeFirst(Some(Taken(Text("a"), 1, true))),
        TakeMarked(Some(Taken(Text("b"), 2, true))),
        TakeMarked(None),
        TakeFirst(Some(Taken(Text("c"), 3, false))),
    ],
    // An id may come again once its request was taken, and its mark is forgotten.
    &[
        Push(Number(1), 1),
        Mark(Number(1), true),
        TakeFirst(Some(Taken(Number(1), 1, true))),
        Push(Number(1), 2),
        TakeMarked(None),
        TakeFirst(Some(Taken(Number(1), 2, false))),
        PushMarked(Number(1), 3),
        TakeMarked(Some(Taken(Number(1), 3, true))),
        Len(0),
    ],
];

#[test]
fn rows_are_answered(rt: HostRuntime) -> Result<(), Fail> {
    for row in ROWS {
        walk(&rt, rt.alloc(), row)?;
    }
    Ok(())
}

/// A hundred wait, and each second one is cancelled.
#[test]
fn each_second_is_cancelled(rt: HostRuntime) -> Result<(), Fail> {
    let alloc = rt.alloc();
    let mut queue = Queue::new(alloc);
    for number in 0..100u64 {
        push(alloc, &mut queue, Number(number as i64), number, false)?;
        if number % 2 == 1 {
            assert!(rt; queue.mark(&rpc_peer::Id::Number(number as i64)));
        }
    }
    for index in 0..50u64 {
        let number = 2 * index + 1;
        let wanted = Some(Taken(Number(number as i64), number, true));
        assert!(rt; is_taken(alloc, queue.take_marked(), wanted)?, "{number}");
    }
    assert!(rt; is_taken(alloc, queue.take_marked(), None)?);
    for index in 0..50u64 {
        let number = 2 * index;
        let wanted = Some(Taken(Number(number as i64), number, false));
        assert!(rt; is_taken(alloc, queue.take_first(), wanted)?, "{number}");
    }
    assert!(rt; queue.is_empty());
    Ok(())
}
