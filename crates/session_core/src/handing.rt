ghost use Rattle.std.specs.Prelude.{◌≡◌, ◌<◌, None, OnOk, OnErr};
ghost use Rattle.session_core.specs.Acting.{Acts, ActsInVain};
ghost use Rattle.session_core.specs.Moving.{StaysBare};
ghost use Rattle.session_core.specs.Settled.{IsAsking, IsSettled, IsSound, NeedsNothing, StartsAt, Suits, head_left, left_to_do};
ghost use Rattle.session_core.specs.Standing.{IsAlive, IsQuiet, IsUpHead};
ghost use Rattle.session_core.specs.State.{handed_of, rest_of};
ghost use Rattle.session_law.specs.Order.{hand};

use crate::head::{Head, Phase};
use crate::session::Core;
use ob_text::{NoMemory, Snapshot};
use session_verdicts::Reason;

impl Core {
    /// Takes the answer of the tree for the request at the head.
    pub(crate) fn take_hand(&mut self, got: Option<Snapshot>) -> Result<(), NoMemory>
        requires quiet { IsQuiet self.old }
        requires settled { IsSettled (rest_of self.old) }
        requires needs { NeedsNothing (rest_of self.old) }
        requires wanted { Suits (rest_of self.old) got }
        ensures ok { OnOk result (Acts self.old self.new (hand (handed_of got))) }
        ensures bare { OnOk result (StaysBare self.old self.new) }
        ensures lost { OnErr result (ActsInVain self.old self.new (hand (handed_of got))) }
        ensures settled { OnOk result (IsSettled (rest_of self.new)) }
        ensures asking { OnOk result (IsAsking (rest_of self.new)) }
        ensures starts { OnOk result (StartsAt (rest_of self.new) self.old.given) }
        ensures given { self.new.given ≡ self.old.given }
        ensures fewer { OnOk result (left_to_do (rest_of self.new) < left_to_do (rest_of self.old)) }
        ensures found { OnOk result (IsAlive self.old) }
        ensures status { self.new.status ≡ self.old.status }
        ensures drains { self.new.drains ≡ self.old.drains }
    {
        if self.dead {
            return Err(NoMemory);
        }
        self.act_on_hand(got)?;
        self.take_up_next()
    }

    // Acts on the answer of the tree: answers the request at the head, or begins its build.
    fn act_on_hand(&mut self, got: Option<Snapshot>) -> Result<(), NoMemory>
        requires quiet { IsQuiet self.old }
        requires settled { IsSettled (rest_of self.old) }
        requires needs { NeedsNothing (rest_of self.old) }
        requires wanted { Suits (rest_of self.old) got }
        ensures ok { OnOk result (Acts self.old self.new (hand (handed_of got))) }
        ensures bare { OnOk result (StaysBare self.old self.new) }
        ensures err { OnErr result (self.new.out.items ≡ self.old.out.items) }
        ensures sound { OnOk result (IsSound (rest_of self.new)) }
        ensures up { OnOk result (IsUpHead self.new.head) }
        ensures starts { OnOk result (StartsAt (rest_of self.new) self.old.given) }
        ensures given { self.new.given ≡ self.old.given }
        ensures fewer { OnOk result (head_left self.new.head < head_left self.old.head) }
        ensures queue { self.new.queue ≡ self.old.queue }
        ensures status { self.new.status ≡ self.old.status }
        ensures drains { self.new.drains ≡ self.old.drains }
    {
        let Some(head) = self.head.take() else {
            unreachable!()
        };
        let Head {
            id,
            number,
            cancelled: _,
            phase,
        } = head;
        match phase {
            Phase::Opening(root) => self.open(id, root, got),
            Phase::Rereading => self.reload(id, got),
            Phase::Planned(planned) => match got {
                Some(snapshot) => self.begin(id, number, planned, snapshot),
                None => self.refuse_first(id, Reason::InternalError),
            },
            Phase::Built(..) => unreachable!(),
        }
    }
}
