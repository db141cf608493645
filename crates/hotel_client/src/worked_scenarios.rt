//! The worked scenarios over tables in memory, from bytes to bytes and exit status.
use crate::connections::new_tables;
use hotel_scenarios::clerks_lists::OF_CLERKS;
use hotel_scenarios::many_rows::{locks_and_notes_are_found, many_rows_are_found};
use hotel_scenarios::replaced_locks::OF_REPLACED_LOCKS;
use hotel_scenarios::scenario_runs::scenario_holds;
use hotel_scenarios::scenarios::{OF_FILES, OF_LOCKS, OF_THE_DESK, Scenario};
use std::alloc::Global;
use std::test::Fail;

/// The scenario holds over the tables of a new desk.
fn tables_hold(alloc: Global, scenario: &Scenario) -> Result<(), Fail> {
    scenario_holds(alloc, new_tables(alloc)?, scenario)
}

/// Each of the scenarios holds.
fn scenarios_hold(alloc: Global, scenarios: &[Scenario]) -> Result<(), Fail> {
    for scenario in scenarios {
        tables_hold(alloc, scenario)?;
    }
    Ok(())
}

#[test]
fn scenarios_of_locks(rt: HostRuntime) -> Result<(), Fail> {
    scenarios_hold(rt.alloc(), &OF_LOCKS)
}

#[test]
fn scenarios_of_replaced_locks(rt: HostRuntime) -> Result<(), Fail> {
    scenarios_hold(rt.alloc(), &OF_REPLACED_LOCKS)
}

#[test]
fn scenarios_of_clerks(rt: HostRuntime) -> Result<(), Fail> {
    scenarios_hold(rt.alloc(), &OF_CLERKS)
}

#[test]
fn scenarios_of_files(rt: HostRuntime) -> Result<(), Fail> {
    scenarios_hold(rt.alloc(), &OF_FILES)
}

#[test]
fn scenarios_of_the_desk(rt: HostRuntime) -> Result<(), Fail> {
    scenarios_hold(rt.alloc(), &OF_THE_DESK)
}

/// Look-ups that no command makes, by their own calls.
#[test]
fn many_rows(rt: HostRuntime) -> Result<(), Fail> {
    assert!(rt; many_rows_are_found(rt.alloc(), new_tables(rt.alloc())?)?);
    Ok(())
}

#[test]
fn locks_and_notes(rt: HostRuntime) -> Result<(), Fail> {
    assert!(rt; locks_and_notes_are_found(rt.alloc(), new_tables(rt.alloc())?)?);
    Ok(())
}
