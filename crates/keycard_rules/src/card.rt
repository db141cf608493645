//! Links of codes, and the cards that carry them.

use crate::code::Code;
use crate::numbers::{CardNo, PartyNo};

/// The pair of codes that one check-in, transfer or reissue makes: the room's current code before it, and the new one.
#[derive(Clone, Copy, Debug, PartialEq, Eq)]
pub struct Link {
    /// A lock that holds it opens and takes the new one.
    pub old_code: Code,
    /// A lock that holds it opens and keeps it.
    pub new_code: Code,
}

/// A card. A spare card has a number of its own and the link of an earlier card of its party.
#[derive(Clone, Copy, Debug, PartialEq, Eq)]
pub struct Card {
    pub number: CardNo,
    pub party: PartyNo,
    pub link: Link,
}
