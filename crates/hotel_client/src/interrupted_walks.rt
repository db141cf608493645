//! A desk on a connection with a limit on the steps of a statement: a list that goes past it fails, which shuts
//! nothing.
use crate::connections::{database_text, opened};
use crate::tables::tables_behind;
use hotel_scenarios::desks::Desk;
use hotel_scenarios::scenario_runs::desk_of;
use hotel_scenarios::scenarios::{CHECKED_IN, OPENED};
use hotel_tables::TableBooks;
use sqlite::MemStore;
use std::alloc::Global;
use std::process::Abort;
use std::test::Fail;

/// The most steps of a statement on the desk. An answer has fewer rows.
const MOST_STEPS: u64 = 60;

/// A desk on which party 1 is in house, with such a limit. The source gives b1, b2 and so on next.
fn desk_limited(alloc: Global, most: Option<u64>) -> Result<Desk<TableBooks<MemStore>>, Fail> {
    let mut codes = Vec::new(alloc);
    for code in 0xb1..=0xffu64 {
        codes.push(code)?;
    }
    let mut conn = tables_behind(alloc, &[OPENED, CHECKED_IN])?.close();
    conn.set_step_limit(most);
    desk_of(alloc, opened(alloc, conn)?, codes.as_slice(), 0xff)
}

/// So many lost cards of the party, each with a code of its own.
fn lose_cards(desk: &mut Desk<TableBooks<MemStore>>, cards: u64) -> Result<(), Fail> {
    for _ in 0..cards {
        desk.do_line(b"reissue 1")?;
    }
    Ok(())
}

/// The list of the room's codes ends by the store's failure, behind whole rows or nothing.
fn is_interrupted(
    rt: &(impl Abort + AllocGlobal),
    desk: &mut Desk<TableBooks<MemStore>>,
) -> Result<(), Fail> {
    let mut writer = Vec::new(rt.alloc());
    let mut faults = Vec::new(rt.alloc());
    let status = desk.list(b"chain 101", &mut writer, &mut faults)?;
    assert!(rt; status == 4 && faults.as_slice() == b"store\n".as_slice());
    assert!(rt; writer.is_empty() || writer.as_slice().ends_with(b"\n"));
    Ok(())
}

/// The list fails, and then the desk goes on as one without a limit.
#[test]
fn a_list_interrupted(rt: HostRuntime) -> Result<(), Fail> {
    let mut limited = desk_limited(rt.alloc(), Some(MOST_STEPS))?;
    let mut free = desk_limited(rt.alloc(), None)?;
    lose_cards(&mut limited, MOST_STEPS)?;
    lose_cards(&mut free, MOST_STEPS)?;
    is_interrupted(&rt, &mut limited)?;
    let next = b"card 62 party 1 old 0000000000ec new 0000000000ed\n";
    assert!(rt; limited.answers(b"reissue 1", next)?);
    assert!(rt; free.answers(b"reissue 1", next)?);
    is_interrupted(&rt, &mut limited)?;
    let rows = database_text(rt.alloc(), &mut free.books.close())?;
    let mut conn = limited.books.close();
    conn.set_step_limit(None);
    assert!(rt; database_text(rt.alloc(), &mut conn)? == rows);
    Ok(())
}
