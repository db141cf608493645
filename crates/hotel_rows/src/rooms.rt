//! The numbers of the rooms, as rooms of the books.
ghost use Rattle.std.specs.Prelude.{◌≡◌, true, map, IfOk};
ghost use Rattle.std.specs.Result.{IfErr};
ghost use Rattle.std.specs.List.{list_all};
ghost use Rattle.keycard_rules.specs.declared.issued.LookFault.TheVariants.{Memory};
ghost use Rattle.hotel_rows.specs.Keys.{room_key};
ghost use Rattle.hotel_rows.specs.RowTests.{is_room_number};

use crate::damage::numbers::number;
use crate::stored::PlainRoom;
use crate::values::counted;
use keycard_rules::{LookFault, RoomNo};
use std::alloc::Global;

/// The numbers of the rooms, in the order of their rows.
///
/// `Store` only where one isn't a room's number; `Memory` only where a growth was refused.
pub fn rooms_of(alloc: Global, rooms: &[PlainRoom]) -> Result<Vec<RoomNo>, LookFault>
    ensures ok { IfOk result (λ numbers. numbers.items ≡ map room_key rooms.now) }
    ensures err { list_all is_room_number rooms.now ≡ true → IfErr result (λ why. why ≡ Memory) }
{
    let mut numbers = Vec::new(alloc);
    for i in 0..rooms.len() {
        let room = counted(number(rooms[i].room))?;
        let Ok(()) = numbers.push(room) else {
            return Err(LookFault::Memory);
        };
    }
    Ok(numbers)
}
