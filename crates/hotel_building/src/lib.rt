//! A building: the desk, and the locks of its doors, which stand alone; and the law that what the desk says is so at
//! the doors. The crate has no code.
//!
//! - src: laws and scenes, functions with an empty body.
//! - specs: Building: what happens, the doors, what the desk has heard; Promises: what is proved; Faults: doors that
//!   fail; Calls: calls of a desk in a building; Logs: the locks as hotel_lock runs them; Scenes: worked scenes, and
//!   what goes wrong without each premise.
//! - proofs: Quiet, Answers: notes change no answer. Inside, Alike: two histories that are alike at a room. Taken,
//!   Grows, Replays, Past: notes that the desk has not heard may follow whatever it did meanwhile. Agrees, AtDoor,
//!   Whole: what holds of each building that can be. Promise: the law. Faults: the law where doors may fail. TrueNotes,
//!   Calls, CallsBut, RunsStay, NotesTold: calls of the desk. Logs: the locks with their logs. Opened: where the scenes
//!   begin.
#![tactic(auto)]

mod laws;
mod scenes;

pub use laws::{calls_stay, faults_harm_their_doors, logs_are_doors, promised, runs_stay};
