//! The words after the program's name: what they ask for.

mod command;
mod help;
mod parse;
mod plan;

pub use parse::parse_words;
pub use plan::{DeskAct, FileName, Plan, UsageFault};
