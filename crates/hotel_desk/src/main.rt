//! The hotel's front desk as a program.
#![tactic(auto)]

mod host;

use host::{Host, words};
use hotel_program::{Databases, run_program};
use hotel_tables::{PathDisk, SystemDisk, TableBooks};
use sqlite::{Alter, FileStore};
use std::process::ExitCode;

/// The program over the system's streams, with books over these stores. It answers the exit status.
///
/// Here the store is a parameter, and in `run_on_disks` the disk: what the books and the store know is compared as it
/// stands here, and not with all that is below it.
fn run_with_stores<S: Alter + Drop, E: Databases<TableBooks<S>>>(
    rt: &HostRuntime,
    around: &mut E,
) -> u8 {
    let mut reader = rt.stdin().lock();
    let mut writer = rt.stdout().lock();
    let mut faults = rt.stderr().lock();
    let words = words(rt);
    run_program::<_, _, _, TableBooks<S>, E>(
        rt.alloc(),
        words,
        &mut reader,
        &mut writer,
        &mut faults,
        around,
    )
}

/// The program with databases in files on these disks.
fn run_on_disks<D: PathDisk>(rt: &HostRuntime) -> u8 {
    let mut around: Host<D> = Host::new(rt);
    run_with_stores::<FileStore<D>, Host<D>>(rt, &mut around)
}

fn main(rt: HostRuntime) -> ExitCode {
    ExitCode::from(run_on_disks::<SystemDisk>(&rt))
}
