//! The rule by which a lock opens to a card and recodes itself.
ghost use Rattle.std.specs.Prelude.{◌≡◌};
ghost use Rattle.keycard_rules.specs.Lock.{turn};

use crate::card::Link;
use crate::code::Code;

/// The code that a lock holds after a card of the link, or `None` where it stays shut and keeps its own.
///
/// It is the rule of the two-key form in Nipkow's Verifying a Hotel Key Card System, and looks at codes alone: at no
/// room and at no other card.
pub fn turn(held: Code, link: &Link) -> Option<Code>
    ensures { result ≡ turn held link.now }
{
    if held == link.new_code || held == link.old_code {
        Some(link.new_code)
    } else {
        None
    }
}
