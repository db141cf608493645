//! From words to a plan.

ghost use Rattle.std.specs.Prelude.{◌≡◌, ◌<◌, ◌^◌, Some, Ok, IfOk, IfErr, codes, option_map};
ghost use Rattle.std.specs.Prelude.{string_bytes, map, true};
ghost use Rattle.clap.specs.Words.{first_of, found_of, has_subcommand, kind_of, rows_of, subcommand_rows_of};
ghost use Rattle.hotel_asks.specs.Names.{names_of};
ghost use Rattle.hotel_program.specs.Plans.{text_value, texts_in, number_in, verb_act, serve_act, own_act, desk_act};
ghost use Rattle.hotel_program.specs.Plans.{act_in, IsOf, IsRead, IsRefusalOf, IsValueOrMemory};
ghost use Rattle.hotel_program.specs.Plan.{ParseTo};

use super::command::desk_command;
use super::plan::{DeskAct, FileName, Plan, UsageFault};
use clap::error::ErrorKind;
use clap::{ArgMatches, Error};
use hotel_asks::{Ask, AskFault, ValueFault, ValueName, ValueTexts, Verb, read_ask, read_verb};
use keycard_rules::read_numeral;
use std::alloc::Global;

/// The greatest port.
pub(crate) const MOST_PORT: u64 = 65_535;

/// The most connections that one call serves.
pub(crate) const MOST_CONNECTIONS: u64 = 1_000_000;

fn given<'a>(matches: &ArgMatches<'a>, id: &str) -> Option<&'a str>
    ensures { option_map (λ s. s.now) result ≡ first_of id.now (rows_of (found_of matches.now)) }
{
    matches.get_str(id)
}

/// The text of a value.
fn text<'a>(matches: &ArgMatches<'a>, name: ValueName) -> Result<&'a str, UsageFault>
    ensures { IsRead (λ s. s.now) (text_value (rows_of (found_of matches.now)) name) result }
{
    given(matches, name.text()).ok_or(UsageFault::Value(name))
}

/// The texts of a verb's values, in their order.
fn texts<'a>(matches: &ArgMatches<'a>, verb: Verb) -> Result<ValueTexts<'a>, UsageFault>
    ensures { IsRead (λ texts. texts) (texts_in (rows_of (found_of matches.now)) (names_of verb)) result }
{
    let mut texts = ValueTexts::new();
    for name in verb.values() {
        texts.push(text(matches, *name)?.as_bytes());
    }
    Ok(texts)
}

/// What a verb with its values asks for.
fn verb_act(alloc: Global, verb: Verb, matches: &ArgMatches) -> Result<DeskAct, UsageFault>
    ensures { IsRead (λ a. a) (verb_act verb (rows_of (found_of matches.now))) result }
{
    let texts = texts(matches, verb)?;
    match read_ask(alloc, verb, &texts) {
        Ok(Ask::Command(command)) => Ok(DeskAct::One(command)),
        Ok(Ask::List(list)) => Ok(DeskAct::List(list)),
        Err(AskFault::Values(ValueFault::Value(name))) => Err(UsageFault::Value(name)),
        Err(AskFault::Values(ValueFault::Number)) => unreachable!(),
        Err(AskFault::Memory) => Err(UsageFault::Memory),
    }
}

/// A number from 1 on, as the value of that name.
fn number(most: u64, name: ValueName, text: &str) -> Result<u64, UsageFault>
    requires { most < 2 ^ 63 }
    ensures { IsRead (λ n. n) (number_in most name text.now) result }
{
    match read_numeral(text.as_bytes(), 10, 9) {
        Some(number) if number >= 1 && number <= most => Ok(number),
        _ => Err(UsageFault::Value(name)),
    }
}

/// The port and how many connections.
fn serve_act(matches: &ArgMatches) -> Result<DeskAct, UsageFault>
    ensures { IsRead (λ a. a) (serve_act (rows_of (found_of matches.now))) result }
{
    let port = number(MOST_PORT, ValueName::Port, text(matches, ValueName::Port)?)?;
    let count = number(
        MOST_CONNECTIONS,
        ValueName::Count,
        text(matches, ValueName::Count)?,
    )?;
    Ok(DeskAct::Serve {
        port: port as u16,
        count: count as u32,
    })
}

/// What a subcommand that is no verb asks for.
fn own_act(alloc: Global, name: &str, matches: &ArgMatches) -> Result<DeskAct, UsageFault>
    ensures { IsRead (λ a. a) (own_act name.now (rows_of (found_of matches.now))) result }
{
    if name == "audit" {
        match FileName::of(alloc, text(matches, ValueName::File)?) {
            Ok(file) => Ok(DeskAct::Audit(file)),
            Err(_) => Err(UsageFault::Memory),
        }
    } else if name == "serve" {
        serve_act(matches)
    } else {
        Ok(DeskAct::Script)
    }
}

/// What a subcommand asks for.
fn act(alloc: Global, name: &str, matches: &ArgMatches) -> Result<DeskAct, UsageFault>
    ensures { IsRead (λ a. a) (desk_act name.now (rows_of (found_of matches.now))) result }
{
    match read_verb(name.as_bytes()) {
        Some(verb) => verb_act(alloc, verb, matches),
        None => own_act(alloc, name, matches),
    }
}

/// The name of the file that an option has.
fn option(alloc: Global, matches: &ArgMatches, id: &str) -> Result<Option<FileName>, UsageFault>
    ensures ok { IfOk result (λ file. file ≡ first_of id.now (rows_of (found_of matches.now))) }
    ensures err { IfErr result (λ why. why ≡ UsageFault.Memory) }
{
    match given(matches, id) {
        None => Ok(None),
        Some(text) => match FileName::of(alloc, text) {
            Ok(file) => Ok(Some(file)),
            Err(_) => Err(UsageFault::Memory),
        },
    }
}

/// The text of a fault of the words: help or the version that was asked for, or what is wrong with them.
fn usage_fault(alloc: Global, error: &Error) -> UsageFault
    ensures kind { IsOf (kind_of error.now) result }
{
    let Ok(text) = error.to_string(alloc) else {
        return UsageFault::Memory;
    };
    match error.kind() {
        ErrorKind::OutOfMemory => UsageFault::Memory,
        ErrorKind::DisplayHelp | ErrorKind::DisplayVersion => UsageFault::Shown(text),
        _ => UsageFault::Usage(text),
    }
}

/// The plan of matches.
fn plan(alloc: Global, matches: &ArgMatches) -> Result<Plan, UsageFault>
    requires { has_subcommand matches.now ≡ true }
    ensures act { IfOk result (λ p. act_in (subcommand_rows_of matches.now) ≡ Some (Ok p.act)) }
    ensures db { IfOk result (λ p. p.db ≡ first_of (codes "db") (rows_of (found_of matches.now))) }
    ensures seed { IfOk result (λ p. p.seed_file ≡ first_of (codes "seed-file") (rows_of (found_of matches.now))) }
    ensures value { IfErr result (IsRefusalOf (act_in (subcommand_rows_of matches.now))) }
    ensures only { IfErr result IsValueOrMemory }
{
    let Some((name, inner)) = matches.subcommand() else {
        unreachable!();
    };
    let act = act(alloc, name, inner)?;
    let db = option(alloc, matches, "db")?;
    let seed_file = option(alloc, matches, "seed-file")?;
    Ok(Plan { db, seed_file, act })
}

/// The meaning of the words after the program's name: what `clap` finds in them, its values read from left to right.
/// Help or the version, where it was asked for, and what `clap` says of words in which its definition finds a fault,
/// come as texts.
pub fn parse_words(alloc: Global, words: &[String]) -> Result<Plan, UsageFault>
    ensures { ParseTo (map string_bytes words.now) result }
{
    let Ok(command) = desk_command(alloc) else {
        return Err(UsageFault::Memory);
    };
    match command.try_get_matches_from(words) {
        Ok(matches) => plan(alloc, &matches),
        Err(error) => Err(usage_fault(alloc, &error)),
    }
}
