//! What a verb and the texts of its values ask, however they came: as a line, as arguments or as a form. A list
//! that is asked for is written here. `read_ask` answers a command or a list, the first value that is refused, or that
//! it is out of memory. Whoever asks fills one list of texts, `ValueTexts`, in the order of `Verb::values`.
//!
//! - src: asked: what a desk may be asked.
//! - specs: Values, Names, Verbs, Asks: what a verb and the texts of its values ask for. Listings: what a list shows.
//!   Faults: what faults print.
#![tactic(auto)]

mod asked;
mod asks;
mod faults;
mod listings;
mod notes;
mod texts;
mod values;
mod verbs;

pub use asked::{Ask, ListAsk};
pub use asks::{accept_ask, read_ask};
pub use listings::write_list;
pub use texts::{MOST_VALUES, ValueTexts};
pub use values::{
    AskFault, Lock, ValueFault, ValueName, read_card, read_code, read_count, read_day, read_guest,
    read_kind, read_lock, read_moment, read_nights, read_party, read_room,
};
pub use verbs::{VERBS, Verb, read_verb};
