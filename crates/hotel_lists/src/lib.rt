//! The lists of the desk as text. The crate knows neither verbs nor tables.
//!
//! - src: row_lines, line_sink, write_lists, lists; specs: RowLines, LineSink, Listings: the header and the line of each
//!   row, by `csv`'s row text (a note's: hotel_lock); what a list wrote, and which faults its calls reported, by how it
//!   ended.
//! - src: looked_lists; LookedLists: the lists whose rows are looked up.
//! - src: fault; Faults: the refusal that a list's fault is answered by.
#![tactic(auto)]

mod fault;
mod line_sink;
mod lists;
mod looked_lists;
mod row_lines;
mod write_lists;

pub use fault::ListFault;
pub use lists::{
    arrivals, audit_of, availability, bookings, business_day, card_of, chain_of, in_house, inside,
    left_behind, locks, room_status,
};
pub use row_lines::RowLine;
pub use write_lists::{write_business_day, write_card_of, write_room_rows, write_rows};
