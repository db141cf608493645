//! The program of the front desk, over any reader, writers, arguments and surroundings. The books of a database are a
//! parameter, so all is checked without `sqlite`; of `hotel_rows` it has the names of tables and faults alone.
//!
//! - script of src and specs: a script's lines, what they ask for, their answers; a script is a run of its commands.
//! - alone: one command, list or audit file that is asked for alone, with its exit status.
//! - src: command_line; specs: CommandLine, Plans: the command line, its help, and the plan that its arguments give.
//! - src: program, acts; Program, Plan, Acts: the program's course by its arguments.
//! - src: server, connections, listener, timed; Connections, Timed: a port, the connections on it, and how long calls
//!   of them may take.
//! - src: surroundings, files, faults, statuses; Files, Faults, Statuses: what is around the program; faults and exit
//!   statuses.
//! - src: laws; Shut: what follows for a script's lines and a server's connections; what they answer over shut books.
#![tactic(auto)]

mod acts;
mod alone;
mod command_line;
mod connections;
mod faults;
mod files;
mod laws;
mod listener;
mod program;
mod script;
mod server;
mod statuses;
mod surroundings;
mod timed;

pub use alone::{run_audit, run_list, run_one};
pub use command_line::{DeskAct, FileName, Plan, UsageFault, parse_words};
pub use connections::serve_connections;
pub use faults::{Fault, FaultSink};
pub use files::{SEED_BYTES, audit_file_in, seed_in};
pub use hotel_asks::{ListAsk, ValueName};
pub use hotel_rows::{FileFault, OpenFault, TableName};
pub use hotel_streams::IoCalls;
pub use laws::{
    scripts_happen, servers_follow, shut_script_answers_nothing, shut_server_answers_nothing,
};
pub use listener::{Caller, ClockedListener, Listener, NoClock, SystemCaller};
pub use program::run_program;
pub use script::{ScriptEnd, ScriptFault, run_script, run_script_by};
pub use statuses::status_of;
pub use surroundings::{Databases, Surroundings};
