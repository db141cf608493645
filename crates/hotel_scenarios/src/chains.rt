//! The codes of room 101, as a list and by walks.
use crate::desks::room;
use hotel_core::{ChainRow, Sink, Stop, WalkFault, Walks};
use hotel_lists::chain_of;
use std::alloc::Global;
use std::test::Fail;

/// Of scenario `two-entries`, the codes of room 101.
pub const TWO_CODES: &[u8] = b"place,code,state\n0,0000000000a0,passed\n1,0000000000a1,held\n";

/// Whether the list of the room's codes reads so.
pub fn chain_reads<B: Walks>(alloc: Global, books: &mut B, text: &[u8]) -> Result<bool, Fail> {
    let room = room(101)?;
    let mut writer = Vec::new(alloc);
    chain_of(alloc, books, room, &mut writer)?;
    Ok(writer.as_slice() == text)
}

/// Takes so many rows, and stops at the next one.
#[derive(Drop)]
struct Taker {
    places: Vec<u32>,
    most: usize,
}

impl Sink<ChainRow> for Taker {
    ghost after = { λ _ _ _. Unit {0} };

    ghost after_stop = { λ _ _ _. Unit {0} };

    fn take(&mut self, row: &ChainRow) -> Result<(), Stop> {
        if self.places.len() >= self.most {
            return Err(Stop);
        }
        match self.places.push(row.place) {
            Ok(()) => Ok(()),
            Err(_) => Err(Stop),
        }
    }
}

/// Whether a walk over the codes of room 101, of which its sink takes so many, ends so.
fn walk_ends<B: Walks>(
    alloc: Global,
    books: &mut B,
    most: usize,
    end: Result<(), WalkFault>,
    places: &[u32],
) -> Result<bool, Fail> {
    let room = room(101)?;
    let mut taker = Taker {
        places: Vec::new(alloc),
        most,
    };
    let ended = books.walk_chain(room, &mut taker);
    Ok(ended == end && taker.places.as_slice() == places)
}

/// Whether walks over three codes end where they should, by a sink that takes two and by one that takes three.
pub fn walks_end<B: Walks>(alloc: Global, books: &mut B) -> Result<bool, Fail> {
    let stopped = walk_ends(alloc, books, 2, Err(WalkFault::Stopped), &[0, 1])?;
    let whole = walk_ends(alloc, books, 3, Ok(()), &[0, 1, 2])?;
    Ok(stopped && whole)
}
