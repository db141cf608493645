//! The import of audit files: the notes that staff read out of the locks and send to the desk. Where the bytes come
//! from isn't known here, and hotel_lock reads them.
//!
//! - specs: Answers, Import: the answers to a file's lines; an import is a run of its notes. ListSent: the list of a
//!   room's notes, sent as an audit file.
//! - specs: SentAgain, SentAtOnce, FilesCounted: files that come again, or in pieces. Shut: what an import answers over
//!   shut books.
#![tactic(auto)]

mod answer;
mod imports;
mod laws;
mod texts;
mod written;

pub use answer::{LineAnswer, has_taken};
pub use imports::{ImportFault, import};
pub use laws::{
    files_counted, imports_lead, list_comes_back, seen_again, sent_again_at_once,
    shut_import_answers_nothing, stopped_and_sent_again,
};
pub use texts::{AnswerText, StoppedText, answer_text, stopped_text};
pub use written::write_answers;
