//! Tests that need no tables. They are in a crate of their own, since the gate proves a crate with tests twice.
//! `hotel_client` has the tests over tables, and `hotel_scenarios` what both crates share.
#![tactic(auto)]

#[cfg(test)]
mod asked_commands;
#[cfg(test)]
mod causes;
#[cfg(test)]
mod chains_and_nights;
#[cfg(test)]
mod command_runs;
#[cfg(test)]
mod failed_draws;
#[cfg(test)]
mod failing_calls;
#[cfg(test)]
mod failing_walks;
#[cfg(test)]
mod lists;
#[cfg(test)]
mod lone_locks;
#[cfg(test)]
mod one_byte;
#[cfg(test)]
mod stopped_commands;
#[cfg(test)]
mod stopped_imports;
#[cfg(test)]
mod stops;
#[cfg(test)]
mod value_readers;
#[cfg(test)]
mod web_pages;
#[cfg(test)]
mod worked_scenarios;
