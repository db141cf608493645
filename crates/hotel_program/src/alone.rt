//! What is asked for alone: one command, a list, or an audit file.

mod audit_runs;
mod command_runs;
mod list_runs;

pub use audit_runs::run_audit;
pub use command_runs::run_one;
pub use list_runs::run_list;
