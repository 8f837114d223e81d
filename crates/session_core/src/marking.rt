ghost use Rattle.std.specs.Prelude.{◌≡◌, true};
ghost use Rattle.session_core.specs.Marking.{marked_all, marked_head, marked_one};

use crate::head::Head;
use crate::session::Core;
use rpc_peer::Id;

impl Core {
    /// The request with this id is to be cancelled, where it is the head or waits. Takes no memory.
    pub(crate) fn mark(&mut self, id: &Id)
        ensures { self.new ≡ marked_one id.now self.old }
    {
        if let Some(head) = &mut self.head {
            if head.id == *id {
                head.cancelled = true;
            }
        }
        self.queue.mark(id);
    }

    /// The head and all requests that wait are to be cancelled. Takes no memory.
    pub(crate) fn mark_all(&mut self)
        ensures { self.new ≡ marked_all self.old }
    {
        mark_head(&mut self.head);
        self.queue.mark_all();
    }
}

// The head is to be cancelled.
fn mark_head(head: &mut Option<Head>)
    ensures { head.new ≡ marked_head (λ id. true) head.old }
{
    if let Some(head) = head {
        head.cancelled = true;
    }
}
