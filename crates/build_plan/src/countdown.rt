ghost use Rattle.std.specs.Prelude.{◌≡◌, ℕ, ◌<◌, ◌≤◌, ◌∷◌, []};
ghost use Rattle.std.specs.List.{slice_index, slice_index_or};
ghost use Rattle.build_plan.specs.Lists.{count_of};
ghost use Rattle.build_plan.specs.Front.{IsQueue, CountsDown};

use std::cmp::Reverse;
use std::collections::BinaryHeap;

/// Takes one from what each of the places waits for, and puts those that wait for nothing any more to the ready ones.
/// Takes no memory.
pub(crate) fn count_down(
    waiting: &mut Vec<usize>,
    ready: &mut BinaryHeap<Reverse<u32>>,
    places: &[u32],
)
    requires queue { IsQueue waiting.old.items ready.old }
    requires waits { (p : ℕ) → count_of p places.now ≤ slice_index_or waiting.old.items p 0 }
    ensures queue { IsQueue waiting.new.items ready.new }
    ensures counts { CountsDown places.now waiting.old.items ready.old waiting.new.items ready.new }
{
    for place in places {
        count_down_one(waiting, ready, *place);
    }
}

fn count_down_one(waiting: &mut Vec<usize>, ready: &mut BinaryHeap<Reverse<u32>>, place: u32)
    requires queue { IsQueue waiting.old.items ready.old }
    requires waits { 0 < slice_index_or waiting.old.items place 0 }
    ensures queue { IsQueue waiting.new.items ready.new }
    ensures counts { CountsDown (place ∷ []) waiting.old.items ready.old waiting.new.items ready.new }
{
    let index = place as usize;
    waiting[index] -= 1;
    if waiting[index] == 0 {
        ready.push(Reverse(place)).unwrap();
    }
}
