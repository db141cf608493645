//! What is done with a lock.
ghost use Rattle.std.specs.Prelude.{◌≡◌, IfOk, OnOk, OnErr};
ghost use Rattle.hotel_lock.specs.Logged.{logged_after};
ghost use Rattle.hotel_door.specs.Doings.{answer_at, answer_text, done_at};

use hotel_lock::LoggedLock;
use hotel_nights::Moment;
use keycard_rules::{CardNo, Code, Link, Memory};

/// What happens at the door.
#[derive(Clone, Copy)]
pub(crate) enum Doing {
    /// A card is shown from outside.
    Show { card: CardNo, link: Link },
    /// A card goes out.
    Leave { card: CardNo, link: Link },
    /// Staff set the lock to a code.
    Set { code: Code },
}

impl Doing {
    /// What the program prints for the lock's answer.
    pub(crate) fn text(&self, answer: bool) -> &'static [u8]
        ensures { result.now ≡ answer_text self.now answer }
    {
        match (self, answer) {
            (Doing::Show { .. }, true) => b"opens\n",
            (Doing::Show { .. }, false) => b"stays shut\n",
            (Doing::Leave { .. }, true) => b"left\n",
            (Doing::Leave { .. }, false) => b"not inside\n",
            (Doing::Set { .. }, true) => b"set\n",
            (Doing::Set { .. }, false) => b"not set\n",
        }
    }
}

/// Does it. The answer: whether the door opens, the lock notes that the card goes out, or the lock then holds the code,
/// also where it held it before. Where the answer is no, the lock does nothing.
pub(crate) fn carry_out(logged: &mut LoggedLock, doing: &Doing, at: Moment) -> Result<bool, Memory>
    ensures answer { IfOk result (λ answer. answer ≡ answer_at logged.old doing.now at) }
    ensures ok { OnOk result (logged.new ≡ logged_after logged.old (done_at logged.old doing.now at)) }
    ensures err { OnErr result (logged.new ≡ logged.old) }
{
    match doing {
        Doing::Show { card, link } => logged.enter(*card, link, at),
        Doing::Leave { card, link } => logged.leave(*card, link, at),
        Doing::Set { code } => logged.set(*code, at),
    }
}
