//! Each refusal by its name, with its number and its text.
use crate::values::day;
use hotel_core::{Refusal, Reply, reply_text};
use std::process::Abort;
use std::test::Fail;

/// The refusals by their numbers, but for that of a full kind, which has a day.
const REFUSALS: [Refusal; 32] = [
    Refusal::NotBegun,
    Refusal::AlreadyBegun,
    Refusal::KindExists,
    Refusal::NoKind,
    Refusal::RoomExists,
    Refusal::NoRoom,
    Refusal::NoParty,
    Refusal::NotBooked,
    Refusal::NotInHouse,
    Refusal::TooEarly,
    Refusal::StayOver,
    Refusal::WrongKind,
    Refusal::SameRoom,
    Refusal::RoomTaken,
    Refusal::PastArrival,
    Refusal::PastEnd,
    Refusal::NumbersUsedUp,
    Refusal::NoFreshCode,
    Refusal::LastDay,
    Refusal::Conflict,
    Refusal::Gap(4),
    Refusal::NoCard,
    Refusal::CardDiffers,
    Refusal::LockShut,
    Refusal::NotInside,
    Refusal::HeldDiffers,
    Refusal::NotAwaited,
    Refusal::Memory,
    Refusal::Store,
    Refusal::OldFit,
    Refusal::NoFit,
    Refusal::FitsUsedUp,
];

/// The text of a refusal: those of a full kind and of a gap are of one day and of one count.
fn text_of(refusal: &Refusal) -> &'static [u8] {
    match refusal {
        Refusal::NotBegun => b"refused 1 NotBegun\n",
        Refusal::AlreadyBegun => b"refused 2 AlreadyBegun\n",
        Refusal::KindExists => b"refused 3 KindExists\n",
        Refusal::NoKind => b"refused 4 NoKind\n",
        Refusal::RoomExists => b"refused 5 RoomExists\n",
        Refusal::NoRoom => b"refused 6 NoRoom\n",
        Refusal::NoParty => b"refused 7 NoParty\n",
        Refusal::NotBooked => b"refused 8 NotBooked\n",
        Refusal::NotInHouse => b"refused 9 NotInHouse\n",
        Refusal::TooEarly => b"refused 10 TooEarly\n",
        Refusal::StayOver => b"refused 11 StayOver\n",
        Refusal::WrongKind => b"refused 12 WrongKind\n",
        Refusal::SameRoom => b"refused 13 SameRoom\n",
        Refusal::RoomTaken => b"refused 14 RoomTaken\n",
        Refusal::PastArrival => b"refused 15 PastArrival\n",
        Refusal::PastEnd => b"refused 16 PastEnd\n",
        Refusal::KindFull(_) => b"refused 17 KindFull 2031-05-04\n",
        Refusal::NumbersUsedUp => b"refused 18 NumbersUsedUp\n",
        Refusal::NoFreshCode => b"refused 19 NoFreshCode\n",
        Refusal::LastDay => b"refused 20 LastDay\n",
        Refusal::Conflict => b"refused 21 Conflict\n",
        Refusal::Gap(_) => b"refused 22 Gap 4\n",
        Refusal::NoCard => b"refused 23 NoCard\n",
        Refusal::CardDiffers => b"refused 24 CardDiffers\n",
        Refusal::LockShut => b"refused 25 LockShut\n",
        Refusal::NotInside => b"refused 26 NotInside\n",
        Refusal::HeldDiffers => b"refused 27 HeldDiffers\n",
        Refusal::NotAwaited => b"refused 28 NotAwaited\n",
        Refusal::Memory => b"refused 29 Memory\n",
        Refusal::Store => b"refused 30 Store\n",
        Refusal::OldFit => b"refused 31 OldFit\n",
        Refusal::NoFit => b"refused 32 NoFit\n",
        Refusal::FitsUsedUp => b"refused 33 FitsUsedUp\n",
    }
}

fn is_told(rt: &impl Abort, refusal: Refusal) {
    let text = reply_text(&Reply::Refused(refusal));
    assert!(rt; text.as_bytes() == text_of(&refusal));
}

#[test]
fn texts_of_refusals(rt: HostRuntime) -> Result<(), Fail> {
    for refusal in REFUSALS {
        is_told(&rt, refusal);
    }
    is_told(&rt, Refusal::KindFull(day(b"2031-05-04")?));
    Ok(())
}
