//! The building for the calls that the program runs: over books that stand in a building, each leaves them in one. The
//! crate has no code.
//!
//! - src: laws, functions with an empty body.
//! - specs: Stands: books that stand in a building. Calls: commands, notes and runs. Lists, Imports, Requests,
//!   Connections, Scripts: what else the program is asked for.
//! - proofs: Stays: what all of these share.
#![tactic(auto)]

mod laws;

pub use laws::{
    buildings_begin, calls_stay, connections_stay, imports_stay, lists_stay, requests_stay,
    scripts_stay,
};
