//! Recodings and a replaced lock of a chain of codes, and the first full night of a list of stays, by their own calls.
use hotel_nights::{Day, Guest, KindCode, Stay, StayState, first_full_night};
use keycard_rules::{Chain, Code, Link, PartyNo, RecodeFault, Turned};
use std::alloc::Global;
use std::process::Abort;
use std::test::Fail;

fn code(value: u64) -> Result<Code, Fail> {
    Ok(Code::new(value).ok_or("a code")?)
}

fn link(old_code: u64, new_code: u64) -> Result<Link, Fail> {
    Ok(Link {
        old_code: code(old_code)?,
        new_code: code(new_code)?,
    })
}

/// Issues a code that wasn't issued before.
fn issue(chain: &mut Chain, value: u64) -> Result<Link, Fail> {
    let code = code(value)?;
    if chain.holds(code) {
        return Err(Fail::from("issued before"));
    }
    Ok(chain.issue(code)?)
}

/// The room of two guests who were both checked in: its lock holds a0, and awaits a1 and a2.
fn left_behind(alloc: Global) -> Result<Chain, Fail> {
    let mut chain = Chain::install(alloc, code(0xa0)?)?;
    issue(&mut chain, 0xa1)?;
    issue(&mut chain, 0xa2)?;
    Ok(chain)
}

/// The lock holds this code and awaits so many, and the last one issued is a2.
fn stands<A: Abort>(rt: &A, chain: &Chain, held: u64, awaited: usize) -> Result<(), Fail> {
    assert!(rt; chain.held() == code(held)?);
    assert!(rt; chain.awaited_len() == awaited);
    assert!(rt; chain.current() == code(0xa2)?);
    Ok(())
}

/// The second guest's card opens nothing before the recoding and all after it.
#[test]
fn left_behind_recoded(rt: HostRuntime) -> Result<(), Fail> {
    let mut chain = left_behind(rt.alloc())?;
    let newest = link(0xa1, 0xa2)?;
    assert!(rt; chain.enter(&newest) == None);
    stands(&rt, &chain, 0xa0, 2)?;
    assert!(rt; chain.recode(code(0xa0)?, code(0xa2)?) == Ok(()));
    stands(&rt, &chain, 0xa2, 0)?;
    let held = code(0xa2)?;
    let turned = Turned {
        before: held,
        after: held,
    };
    assert!(rt; chain.enter(&newest) == Some(turned));
    stands(&rt, &chain, 0xa2, 0)
}

/// To a passed code, to another room's, to the held one; from another than the held one.
static REFUSED: [(u64, u64, RecodeFault); 4] = [
    (0xa1, 0xa0, RecodeFault::NotAwaited),
    (0xa1, 0xb0, RecodeFault::NotAwaited),
    (0xa1, 0xa1, RecodeFault::NotAwaited),
    (0xa0, 0xa2, RecodeFault::HeldDiffers),
];

/// After the first guest's entry these recodings are refused and change nothing; then one is taken.
#[test]
fn recoding_refused(rt: HostRuntime) -> Result<(), Fail> {
    let mut chain = left_behind(rt.alloc())?;
    chain.enter(&link(0xa0, 0xa1)?);
    stands(&rt, &chain, 0xa1, 1)?;
    for (from, to, why) in &REFUSED {
        assert!(rt; chain.recode(code(*from)?, code(*to)?) == Err(*why));
        stands(&rt, &chain, 0xa1, 1)?;
    }
    assert!(rt; chain.recode(code(0xa1)?, code(0xa2)?) == Ok(()));
    stands(&rt, &chain, 0xa2, 0)
}

/// Fits a lock of a code that wasn't issued before.
fn refit(chain: &mut Chain, value: u64) -> Result<(), Fail> {
    let code = code(value)?;
    if chain.holds(code) {
        return Err(Fail::from("issued before"));
    }
    Ok(chain.refit(code)?)
}

/// A room whose guest never came; then its lock is replaced by one of code a2.
fn refitted(alloc: Global) -> Result<Chain, Fail> {
    let mut chain = Chain::install(alloc, code(0xa0)?)?;
    issue(&mut chain, 0xa1)?;
    refit(&mut chain, 0xa2)?;
    Ok(chain)
}

/// The lock opens to no earlier card and is recoded to no earlier code; nothing of the chain is lost.
#[test]
fn refitted_chain(rt: HostRuntime) -> Result<(), Fail> {
    let mut chain = refitted(rt.alloc())?;
    stands(&rt, &chain, 0xa2, 0)?;
    for value in [0xa0, 0xa1, 0xa2] {
        assert!(rt; chain.holds(code(value)?));
    }
    assert!(rt; chain.enter(&link(0xa0, 0xa1)?) == None);
    assert!(rt; chain.recode(code(0xa2)?, code(0xa1)?) == Err(RecodeFault::NotAwaited));
    stands(&rt, &chain, 0xa2, 0)
}

/// The card that is issued next is of the lock's code, and opens it.
#[test]
fn card_of_a_refitted_chain(rt: HostRuntime) -> Result<(), Fail> {
    let mut chain = refitted(rt.alloc())?;
    let newest = issue(&mut chain, 0xa3)?;
    assert!(rt; newest == link(0xa2, 0xa3)?);
    let turned = Turned {
        before: code(0xa2)?,
        after: code(0xa3)?,
    };
    assert!(rt; chain.enter(&newest) == Some(turned));
    assert!(rt; chain.held() == code(0xa3)?);
    assert!(rt; chain.awaited_len() == 0);
    Ok(())
}

fn day(number: u16) -> Result<Day, Fail> {
    Ok(Day::new(number).ok_or("a day")?)
}

fn kind() -> Result<KindCode, Fail> {
    Ok(KindCode::read(b"DBL").ok_or("a kind")?)
}

/// A booked stay of these days.
fn booked(alloc: Global, party: u32, arrive: u16, depart: u16) -> Result<Stay, Fail> {
    Ok(Stay {
        party: PartyNo::new(party).ok_or("a party")?,
        guest: Guest::read(alloc, "A")?,
        kind: kind()?,
        arrive: day(arrive)?,
        depart: day(depart)?,
        state: StayState::Booked,
    })
}

/// So many rooms, and the days that are asked for; the first full night, where there is one.
static ASKED: [(u32, u16, u16, Option<u16>); 5] = [
    (1, 4, 6, Some(4)),
    (1, 5, 8, None),
    (2, 1, 5, None),
    (0, 6, 8, Some(6)),
    (1, 4, 4, None),
];

#[test]
fn first_full_nights(rt: HostRuntime) -> Result<(), Fail> {
    let stays = [booked(rt.alloc(), 1, 1, 3)?, booked(rt.alloc(), 2, 3, 5)?];
    for (rooms, arrive, depart, full) in &ASKED {
        let night = first_full_night(&stays, &kind()?, *rooms, day(*arrive)?, day(*depart)?);
        let full = match full {
            Some(number) => Some(day(*number)?),
            None => None,
        };
        assert!(rt; night == full);
    }
    Ok(())
}
