//! The lock of one door, for a maker of locks: what a lock keeps, when it opens, what it notes, and the text of its
//! notes that the desk imports. The crate knows neither the desk nor which cards were issued.
//!
//! - The rule of the lock. src: lock; specs: Door: what a lock keeps, and what it does. Log: its notes are counted to a
//!   last one, and tell which cards are inside.
//! - Its log. src: logged; specs: Logged: a lock with all its notes, which are those that it makes.
//! - The log's text. src: gathered, note_line, log_writer; specs: Gathered, NoteLine, LogWriter: CSV, a header and a
//!   line for each note.
//! - Its reader. src: audit_file, header, fields, line; specs: AuditFile, Header, Fields, Line: bytes, at most
//!   `AUDIT_BYTES`, are read as lines, each a note or why it can't be read.
//! - src: laws; specs: ReadBack: what is written is read back. Readings: bytes are read in one way. src: faults; specs:
//!   Faults: what faults print.
#![tactic(auto)]

mod audit_file;
mod faults;
mod fields;
mod gathered;
mod header;
mod laws;
mod line;
mod lock;
mod log_writer;
mod logged;
mod note_line;

pub use audit_file::{AUDIT_BYTES, AuditFault, read_notes};
pub use gathered::Gathered;
pub use laws::{log_reads_back, records_of_bytes};
pub use line::{Cause, Line};
pub use lock::{Lock, is_inside};
pub use log_writer::{LogFault, write_notes};
pub use logged::LoggedLock;
pub use note_line::audit_header;
