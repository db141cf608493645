//! The command line, as `clap` reads it.

ghost use Rattle.std.specs.Prelude.{◌≡◌, IfOk, map, fold, false, []};
ghost use Rattle.clap.specs.Words.{app_of, with_subcommand};
ghost use Rattle.clap.specs.declared.builder.Command.TheViews.{out-Command as fields_of};
ghost use Rattle.hotel_asks.specs.Verbs.{texts};
ghost use Rattle.hotel_program.specs.CommandLine.{leaf, verb_leaf, options, desk};

use super::help::{VERSION, about_value, about_verb};
use clap::{Arg, Command};
use hotel_asks::{VERBS, ValueName, Verb};
use std::alloc::{AllocError, Global};

/// A subcommand with its values, which are all required.
fn with_values<'a>(
    alloc: Global,
    name: &'a str,
    about: &'a str,
    values: &'a [ValueName],
) -> Result<Command<'a>, AllocError>
    ensures shape { IfOk result (λ c. app_of c ≡ record { top = leaf name.entry.now values.entry.now; subs = [] }) }
    ensures globals { IfOk result (λ c. (fields_of c).has_globals ≡ false) }
{
    let mut command = Command::new(alloc, name).about(about);
    for value in values {
        let arg = Arg::new(alloc, value.text())
            .help(about_value(name, *value))
            .required(true);
        command = command.arg(arg)?;
    }
    Ok(command)
}

/// The program's own options: the database and the seed file.
fn with_options<'a>(alloc: Global) -> Result<Command<'a>, AllocError>
    ensures shape { IfOk result (λ c. app_of c ≡ options) }
    ensures globals { IfOk result (λ c. (fields_of c).has_globals ≡ false) }
{
    let database = Arg::new(alloc, "db").long("db").value_name("FILE").help(
        "the database file, created if it doesn't exist; without it the data is in memory and is lost at the end",
    );
    let seed_file = Arg::new(alloc, "seed-file")
        .long("seed-file")
        .value_name("FILE")
        .help("for tests: a file of 32 bytes that decides all codes; without it codes are random");
    Command::new(alloc, "hotel_desk")
        .bin_name("hotel_desk")?
        .version(VERSION)
        .about(
            "The front desk of a hotel whose door locks have no network. \
                Without arguments it runs a script in memory, for tests.",
        )
        .no_binary_name(true)
        .subcommand_required(true)
        .arg(database)?
        .arg(seed_file)
}

/// The program's own options and a subcommand for each command and list.
fn with_verbs<'a>(alloc: Global, verbs: &[(&'a str, Verb)]) -> Result<Command<'a>, AllocError>
    ensures shape { IfOk result (λ c. app_of c ≡ fold with_subcommand options (map verb_leaf (texts verbs.now))) }
    ensures globals { IfOk result (λ c. (fields_of c).has_globals ≡ false) }
{
    let mut command = with_options(alloc)?;
    for row in verbs {
        let subcommand = with_values(alloc, row.0, about_verb(row.1), row.1.values())?;
        command = command.subcommand(subcommand)?;
    }
    Ok(command)
}

/// The command line with all its subcommands.
pub(crate) fn desk_command<'a>(alloc: Global) -> Result<Command<'a>, AllocError>
    ensures shape { IfOk result (λ c. app_of c ≡ desk) }
    ensures globals { IfOk result (λ c. (fields_of c).has_globals ≡ false) }
{
    let about_audit =
        "Import an audit file of locks and print an answer for each line: audit 101.csv";
    let about_serve = "Serve HTTP on 127.0.0.1, one connection after the other: serve 8080 1000";
    let audit = with_values(alloc, "audit", about_audit, &[ValueName::File])?;
    let script = with_values(alloc, "script", "Run the script on standard input", &[])?;
    let serve = with_values(
        alloc,
        "serve",
        about_serve,
        &[ValueName::Port, ValueName::Count],
    )?;
    with_verbs(alloc, &VERBS)?
        .subcommand(audit)?
        .subcommand(script)?
        .subcommand(serve)
}
