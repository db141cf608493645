//! The values of verbs: each read from a text, or refused by its name.

ghost use Rattle.std.specs.Prelude.{◌≡◌, ◌≤◌, true, length};
ghost use Rattle.hotel_asks.specs.{Names.name_text, declared.values.AskFault.TheVariants.Values};
ghost use Rattle.hotel_asks.specs.Values.{day_in, code_in, kind_in, nights_in, guest_in, room_in, slash_in, fit_after};
ghost use Rattle.hotel_asks.specs.Values.{lock_in, party_in, card_in, count_in, moment_in, IsReading};

use hotel_nights::{Day, Guest, GuestFault, KindCode, Moment, Nights};
use keycard_rules::{CardNo, Code, Count, FitNo, PartyNo, RoomNo};
use std::alloc::Global;

/// The names of the values of verbs, and of those that the program takes beside them.
#[derive(Clone, Copy, Debug, PartialEq, Eq)]
pub enum ValueName {
    Day,
    Kind,
    Arrive,
    Nights,
    Guest,
    Room,
    Lock,
    Party,
    Card,
    Count,
    Old,
    New,
    From,
    To,
    Moment,
    File,
    Port,
}

impl ValueName {
    /// The name as users read it: `ROOM`.
    pub fn text<'a>(self) -> &'a str
        ensures same { result.now ≡ name_text self }
        ensures short { length result.now ≤ 6 }
    {
        match self {
            ValueName::Day => "DAY",
            ValueName::Kind => "KIND",
            ValueName::Arrive => "ARRIVE",
            ValueName::Nights => "NIGHTS",
            ValueName::Guest => "GUEST",
            ValueName::Room => "ROOM",
            ValueName::Lock => "LOCK",
            ValueName::Party => "PARTY",
            ValueName::Card => "CARD",
            ValueName::Count => "COUNT",
            ValueName::Old => "OLD",
            ValueName::New => "NEW",
            ValueName::From => "FROM",
            ValueName::To => "TO",
            ValueName::Moment => "MOMENT",
            ValueName::File => "FILE",
            ValueName::Port => "PORT",
        }
    }
}

/// A lock: its room, and which of the room's locks it is.
#[derive(Clone, Copy, Debug, PartialEq, Eq)]
pub struct Lock {
    pub room: RoomNo,
    pub fit: FitNo,
}

/// Why the texts are no values of a verb.
#[derive(Clone, Copy, Debug, PartialEq, Eq)]
pub enum ValueFault {
    /// There are too few or too many of them.
    Number,
    /// The first value that its reader refuses.
    Value(ValueName),
}

/// Why a verb and the texts of its values were not read.
#[derive(Clone, Copy, Debug, PartialEq, Eq)]
pub enum AskFault {
    Values(ValueFault),
    /// A growth of memory was refused.
    Memory,
}

impl From<ValueFault> for AskFault {
    ghost from_gives = { λ fault e. e ≡ Values fault };

    fn from(fault: ValueFault) -> AskFault {
        AskFault::Values(fault)
    }
}

/// Reads a day, `YYYY-MM-DD` from 2000 to 2099, as the value of that name.
pub fn read_day(name: ValueName, text: &[u8]) -> Result<Day, ValueFault>
    ensures { result ≡ day_in name text.now }
{
    Day::read(text).ok_or(ValueFault::Value(name))
}

/// Reads a code of 1 to 12 hexadecimal digits, as the value of that name.
pub fn read_code(name: ValueName, text: &[u8]) -> Result<Code, ValueFault>
    ensures { result ≡ code_in name text.now }
{
    Code::read(text).ok_or(ValueFault::Value(name))
}

/// Reads the code of a kind of rooms: 1 to 8 capital letters and digits.
pub fn read_kind(text: &[u8]) -> Result<KindCode, ValueFault>
    ensures { result ≡ kind_in text.now }
{
    KindCode::read(text).ok_or(ValueFault::Value(ValueName::Kind))
}

/// Reads a number of nights, 1 to 90.
pub fn read_nights(text: &[u8]) -> Result<Nights, ValueFault>
    ensures { result ≡ nights_in text.now }
{
    Nights::read(text).ok_or(ValueFault::Value(ValueName::Nights))
}

/// Reads a room's number, 1 to 9,999.
pub fn read_room(text: &[u8]) -> Result<RoomNo, ValueFault>
    ensures { result ≡ room_in text.now }
{
    RoomNo::read(text).ok_or(ValueFault::Value(ValueName::Room))
}

/// Where the text's first slash is, or the text's length where there is none.
#[tactic(auto, unfolding(crate::specs::Values::slash_in))]
fn slash_in(text: &[u8]) -> usize
    ensures value { result ≡ slash_in text.now }
    ensures within { result ≤ length text.now }
{
    for (i, byte) in text.iter().enumerate() {
        if *byte == b'/' {
            return i;
        }
    }
    text.len()
}

/// The number of a lock after the slash at this place, or the first one where the text ends there.
fn fit_after(text: &[u8], slash: usize) -> Option<FitNo>
    requires { slash ≤ length text.now }
    ensures { result ≡ fit_after text.now slash }
{
    if slash == text.len() {
        return FitNo::new(1);
    }
    FitNo::read(&text[slash + 1..])
}

/// Reads a lock: a room's number, or that, a slash and the number of the room's lock. Without a slash it is
/// the room's first lock. What isn't read is refused as `ValueName::Lock`.
pub fn read_lock(text: &[u8]) -> Result<Lock, ValueFault>
    ensures { result ≡ lock_in text.now }
{
    let slash = slash_in(text);
    let room = RoomNo::read(&text[..slash]).ok_or(ValueFault::Value(ValueName::Lock))?;
    let fit = fit_after(text, slash).ok_or(ValueFault::Value(ValueName::Lock))?;
    Ok(Lock { room, fit })
}

/// Reads a party's number.
pub fn read_party(text: &[u8]) -> Result<PartyNo, ValueFault>
    ensures { result ≡ party_in text.now }
{
    PartyNo::read(text).ok_or(ValueFault::Value(ValueName::Party))
}

/// Reads a card's number.
pub fn read_card(text: &[u8]) -> Result<CardNo, ValueFault>
    ensures { result ≡ card_in text.now }
{
    CardNo::read(text).ok_or(ValueFault::Value(ValueName::Card))
}

/// Reads a lock's count of a note.
pub fn read_count(text: &[u8]) -> Result<Count, ValueFault>
    ensures { result ≡ count_in text.now }
{
    Count::read(text).ok_or(ValueFault::Value(ValueName::Count))
}

/// Reads a moment, `YYYY-MM-DDTHH:MM:SS` with `T` or one space.
pub fn read_moment(text: &[u8]) -> Result<Moment, ValueFault>
    ensures { result ≡ moment_in text.now }
{
    Moment::read(text).ok_or(ValueFault::Value(ValueName::Moment))
}

/// Reads the name of a guest: 1 to 60 bytes of UTF-8 without control characters, and without a space at either end.
/// `Memory` where there was none for its copy.
pub fn read_guest(alloc: Global, text: &[u8]) -> Result<Guest, AskFault>
    ensures { IsReading (λ guest. true) (guest_in text.now) result }
{
    let Ok(text) = std::str::from_utf8(text) else {
        return Err(AskFault::Values(ValueFault::Value(ValueName::Guest)));
    };
    match Guest::read(alloc, text) {
        Ok(guest) => Ok(guest),
        Err(GuestFault::Unread) => Err(AskFault::Values(ValueFault::Value(ValueName::Guest))),
        Err(GuestFault::Memory) => Err(AskFault::Memory),
    }
}
