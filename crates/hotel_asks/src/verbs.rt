//! The verbs of commands and lists.

ghost use Rattle.std.specs.Prelude.{◌≡◌, ◌≤◌, length};
ghost use Rattle.hotel_asks.specs.{Names.names_of, Verbs.is_list, Verbs.read_verb, Verbs.texts, Verbs.verb_in};
ghost use Rattle.hotel_asks.specs.declared.texts.TheConstants.{MOST_VALUES};

use crate::values::ValueName;

/// What is to be done, or which list is wanted; the values follow it.
#[derive(Clone, Copy, Debug, PartialEq, Eq)]
pub enum Verb {
    Begin,
    AddKind,
    AddRoom,
    Reserve,
    Cancel,
    CheckIn,
    Spare,
    Reissue,
    Transfer,
    CheckOut,
    Refit,
    NextDay,
    Entered,
    Left,
    Recoded,
    Arrivals,
    InHouse,
    ChainOf,
    LeftBehind,
    AuditOf,
    BusinessDay,
    RoomStatus,
    Inside,
    Bookings,
    Availability,
    CardsGiven,
    CardOf,
    Locks,
}

/// The words of the verbs, in the order in which help lists them.
pub static VERBS: [(&str, Verb); 28] = [
    ("begin", Verb::Begin),
    ("add-kind", Verb::AddKind),
    ("add-room", Verb::AddRoom),
    ("reserve", Verb::Reserve),
    ("cancel", Verb::Cancel),
    ("check-in", Verb::CheckIn),
    ("spare", Verb::Spare),
    ("reissue", Verb::Reissue),
    ("transfer", Verb::Transfer),
    ("check-out", Verb::CheckOut),
    ("refit", Verb::Refit),
    ("next-day", Verb::NextDay),
    ("entered", Verb::Entered),
    ("left", Verb::Left),
    ("recoded", Verb::Recoded),
    ("arrivals", Verb::Arrivals),
    ("in-house", Verb::InHouse),
    ("chain", Verb::ChainOf),
    ("left-behind", Verb::LeftBehind),
    ("audit-of", Verb::AuditOf),
    ("business-day", Verb::BusinessDay),
    ("room-status", Verb::RoomStatus),
    ("inside", Verb::Inside),
    ("bookings", Verb::Bookings),
    ("availability", Verb::Availability),
    ("cards", Verb::CardsGiven),
    ("card", Verb::CardOf),
    ("locks", Verb::Locks),
];

impl Verb {
    /// Whether a list is wanted.
    pub fn is_list(self) -> bool
        ensures { result ≡ is_list self }
    {
        match self {
            Verb::Arrivals | Verb::InHouse | Verb::ChainOf | Verb::LeftBehind | Verb::AuditOf =>
                true,
            Verb::BusinessDay | Verb::RoomStatus | Verb::Inside | Verb::Bookings => true,
            Verb::Availability | Verb::CardsGiven | Verb::CardOf | Verb::Locks => true,
            _ => false,
        }
    }

    /// The names of its values, in their order.
    pub fn values<'a>(self) -> &'a [ValueName]
        ensures names { result.now ≡ names_of self }
        ensures few { length result.now ≤ MOST_VALUES }
    {
        match self {
            Verb::NextDay | Verb::InHouse | Verb::LeftBehind => &[],
            Verb::BusinessDay | Verb::RoomStatus | Verb::Inside | Verb::Bookings => &[],
            Verb::Locks => &[],
            Verb::CardsGiven => &[ValueName::Party],
            Verb::CardOf => &[ValueName::Card],
            Verb::Begin | Verb::Arrivals => &[ValueName::Day],
            Verb::AddKind => &[ValueName::Kind],
            Verb::Cancel | Verb::Spare | Verb::Reissue | Verb::CheckOut => &[ValueName::Party],
            Verb::Refit | Verb::ChainOf | Verb::AuditOf => &[ValueName::Room],
            Verb::AddRoom => &[ValueName::Room, ValueName::Kind],
            Verb::CheckIn | Verb::Transfer => &[ValueName::Party, ValueName::Room],
            Verb::Availability => &[ValueName::Day, ValueName::Nights],
            Verb::Reserve => &[
                ValueName::Kind,
                ValueName::Arrive,
                ValueName::Nights,
                ValueName::Guest,
            ],
            Verb::Recoded => &[
                ValueName::Lock,
                ValueName::Count,
                ValueName::From,
                ValueName::To,
                ValueName::Moment,
            ],
            Verb::Entered | Verb::Left => &[
                ValueName::Lock,
                ValueName::Count,
                ValueName::Card,
                ValueName::Old,
                ValueName::New,
                ValueName::Moment,
            ],
        }
    }
}

/// The verb of the first row with this word.
fn verb_in(word: &[u8], rows: &[(&str, Verb)]) -> Option<Verb>
    ensures { result ≡ verb_in word.now (texts rows.now) }
{
    for (text, verb) in rows {
        if word == text.as_bytes() {
            return Some(*verb);
        }
    }
    None
}

/// The verb that the word is, as `check-in`. None where it is another word.
#[tactic(auto, unfolding(crate::specs::Verbs::read_verb))]
pub fn read_verb(word: &[u8]) -> Option<Verb>
    ensures { result ≡ read_verb word.now }
{
    verb_in(word, &VERBS)
}
