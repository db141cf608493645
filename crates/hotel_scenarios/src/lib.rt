//! For tests: the worked scenarios, each once as steps on a desk over any books. What is public here has no clauses of
//! its own.
//!
//! - scenarios, replaced_locks, clerks_lists: the scenarios as tables of steps. scenario_runs: steps over any books.
//! - desks: a desk over any books. line_asks, chains, rooms_now, sent_again: what tests look at.
//! - many_rows: the look-ups that no command makes.
#![tactic(auto)]

pub mod chains;
pub mod clerks_lists;
pub mod desks;
pub mod line_asks;
pub mod many_rows;
pub mod replaced_locks;
pub mod rooms_now;
pub mod scenario_runs;
pub mod scenarios;
pub mod sent_again;
