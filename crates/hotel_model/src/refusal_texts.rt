//! What a refusal prints.
ghost use Rattle.std.specs.Prelude.{◌≡◌, ◌≤◌, Some, length};
ghost use Rattle.hotel_model.specs.RefusalTexts.{refusal_name, refusal_text};

use crate::reply::Refusal;
use std::error::Error;
use std::fmt;

impl Refusal {
    /// The number and the name, as `7 NoParty`.
    pub const fn name(&self) -> &'static str
        ensures same { result.now ≡ refusal_name self.now }
        ensures short { length result.now ≤ 20 }
    {
        match self {
            Refusal::NotBegun => "1 NotBegun",
            Refusal::AlreadyBegun => "2 AlreadyBegun",
            Refusal::KindExists => "3 KindExists",
            Refusal::NoKind => "4 NoKind",
            Refusal::RoomExists => "5 RoomExists",
            Refusal::NoRoom => "6 NoRoom",
            Refusal::NoParty => "7 NoParty",
            Refusal::NotBooked => "8 NotBooked",
            Refusal::NotInHouse => "9 NotInHouse",
            Refusal::TooEarly => "10 TooEarly",
            Refusal::StayOver => "11 StayOver",
            Refusal::WrongKind => "12 WrongKind",
            Refusal::SameRoom => "13 SameRoom",
            Refusal::RoomTaken => "14 RoomTaken",
            Refusal::PastArrival => "15 PastArrival",
            Refusal::PastEnd => "16 PastEnd",
            Refusal::KindFull(_) => "17 KindFull",
            Refusal::NumbersUsedUp => "18 NumbersUsedUp",
            Refusal::NoFreshCode => "19 NoFreshCode",
            Refusal::LastDay => "20 LastDay",
            Refusal::Conflict => "21 Conflict",
            Refusal::Gap(_) => "22 Gap",
            Refusal::NoCard => "23 NoCard",
            Refusal::CardDiffers => "24 CardDiffers",
            Refusal::LockShut => "25 LockShut",
            Refusal::NotInside => "26 NotInside",
            Refusal::HeldDiffers => "27 HeldDiffers",
            Refusal::NotAwaited => "28 NotAwaited",
            Refusal::Memory => "29 Memory",
            Refusal::Store => "30 Store",
            Refusal::OldFit => "31 OldFit",
            Refusal::NoFit => "32 NoFit",
            Refusal::FitsUsedUp => "33 FitsUsedUp",
        }
    }
}

/// As the desk prints it, without the line feed: `refused 17 KindFull 2026-12-24`.
impl fmt::Display for Refusal {
    ghost output = { λ why. Some (refusal_text why) };

    fn fmt<W: fmt::Write>(&self, f: &mut fmt::Formatter<W>) -> fmt::Result {
        write!(f, "refused {}", self.name())?;
        match self {
            Refusal::KindFull(day) => write!(f, " {day}"),
            Refusal::Gap(expected) => write!(f, " {expected}"),
            _ => Ok(()),
        }
    }
}

impl Error for Refusal {}
