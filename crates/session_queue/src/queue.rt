ghost use Rattle.std.specs.Prelude.{◌≡◌, ◌↔◌, ◌++◌, ◌∷◌, [], false, length, position, OnOk, OnErr, IfSome, IfNone, IsTrue};
ghost use Rattle.std.specs.Option.{option_to_list};
ghost use Rattle.session_queue.specs.IdSet.{equal};
ghost use Rattle.session_queue.specs.Waiting.{AreApart, all_marked, first_marked, has_this_id, ids, is_open, kept_of, marked_of, marked_where, without};

use crate::waiting::Waiting;
use indexmap::IndexSet;
use ob_text::NoMemory;
use rpc_peer::Id;
use std::alloc::Global;
use std::collections::VecDeque;
use std::marker::Model;

/// The requests that wait, in order of arrival. No two have one id.
///
/// Whether an id waits is told by one hash, and the oldest request is taken in constant time. One that is marked is looked
/// for from the front, by its id to mark it, and by its mark to take it.
pub struct Queue<T> {
    alloc: Global,
    requests: VecDeque<Waiting<T>>,
    // the ids of those that wait
    ids: IndexSet<Id>,
}

impl<T: Drop> Drop for Queue<T> {
    fn drop(self) {
        let Self {
            alloc: _,
            requests: _,
            ids: _,
        } = self;
    }
}

impl<T> Model for Queue<T> {
    ghost use Rattle.std.specs.Prelude.{List};
    ghost use Rattle.session_queue.specs.IdSet.{HasIdsOf};
    ghost use Rattle.session_queue.specs.declared.waiting.Waiting.{Waiting};

    ghost Value = { List (Waiting T) };

    ghost view = { λ queue. queue.requests.items };

    ghost invariant = { λ queue. HasIdsOf queue.requests.items queue.ids };
}

impl<T> Queue<T> {
    /// No request waits. Takes no memory.
    pub fn new(alloc: Global) -> Queue<T>
        ensures { result ≡ [] }
    {
        Queue {
            alloc,
            requests: VecDeque::new(alloc),
            ids: IndexSet::new(alloc),
        }
    }

    /// Lets a request wait behind the others. Where there is no memory for it, it is let go.
    pub fn push(&mut self, waiting: Waiting<T>) -> Result<(), NoMemory>
    where
        T: Drop,
        requires { is_open waiting.id self.old ≡ false }
        ensures pushed { OnOk result (self.new ≡ self.old ++ waiting ∷ []) }
        ensures unchanged { OnErr result (self.new ≡ self.old) }
    {
        let id = waiting.id.copy(self.alloc)?;
        self.requests.reserve(1)?;
        self.ids.insert(id)?;
        self.requests.push_back_reserved(waiting);
        Ok(())
    }

    /// Does a request with this id wait? Takes no memory.
    pub fn is_open(&self, id: &Id) -> bool
        ensures open { result ≡ is_open id.now self.now }
        ensures apart { AreApart (ids self.now) }
    {
        self.ids.contains(id)
    }

    /// The request with this id is to be cancelled. Tells whether there is one. Takes no memory.
    pub fn mark(&mut self, id: &Id) -> bool
        ensures open { result ≡ is_open id.now self.old }
        ensures marked { self.new ≡ marked_where (has_this_id id.now) self.old }
    {
        match index_of(&self.requests, id) {
            Some(index) => {
                self.requests[index].cancelled = true;
                true
            }
            None => false,
        }
    }

    /// All requests are to be cancelled. Takes no memory.
    pub fn mark_all(&mut self)
        ensures { self.new ≡ all_marked self.old }
    {
        for index in 0..self.requests.len() {
            self.requests[index].cancelled = true;
        }
    }

    /// Takes the oldest request. Takes no memory.
    pub fn take_first(&mut self) -> Option<Waiting<T>>
        ensures first { self.old ≡ option_to_list result ++ self.new }
        ensures none { IfNone result (self.old ≡ []) }
    {
        let waiting = self.requests.pop_front()?;
        self.ids.swap_remove(&waiting.id);
        Some(waiting)
    }

    /// Takes the oldest request that is to be cancelled. Takes no memory.
    pub fn take_marked(&mut self) -> Option<Waiting<T>>
        ensures first { result ≡ first_marked self.old }
        ensures others { IfSome result (λ waiting. self.new ≡ without waiting.id self.old) }
        ensures none { IfNone result (self.new ≡ self.old) }
        // So those that are taken one after another are all that are marked, in order, and the others stay in order.
        ensures marked { marked_of self.old ≡ option_to_list result ++ marked_of self.new }
        ensures kept { kept_of self.new ≡ kept_of self.old }
        ensures apart { AreApart (ids self.old) }
    {
        let index = first_marked(&self.requests)?;
        let waiting = self.requests.remove(index)?;
        self.ids.swap_remove(&waiting.id);
        Some(waiting)
    }

    pub fn len(&self) -> usize
        ensures len { result ≡ length self.now }
        ensures apart { AreApart (ids self.now) }
    {
        self.requests.len()
    }

    pub fn is_empty(&self) -> bool
        ensures { IsTrue result ↔ (self.now ≡ []) }
    {
        self.requests.is_empty()
    }
}

/// The index of the request with this id.
fn index_of<T>(requests: &VecDeque<Waiting<T>>, id: &Id) -> Option<usize>
    ensures { result ≡ position (λ waiting. equal id.now waiting.id) requests.now.items }
{
    requests.iter().position(|waiting| *id == waiting.id)
}

/// The index of the oldest request that is marked.
fn first_marked<T>(requests: &VecDeque<Waiting<T>>) -> Option<usize>
    ensures { result ≡ position (λ waiting. waiting.cancelled) requests.now.items }
{
    requests.iter().position(|waiting| waiting.cancelled)
}
