//! What a lock notes, as verbs and values say it.

ghost use Rattle.std.specs.Prelude.{◌≡◌, [], ◌∷◌};
ghost use Rattle.hotel_asks.specs.declared.verbs.Verb.TheVariants.{Recoded};
ghost use Rattle.hotel_asks.specs.Asks.{report_of, link_in, card_act, card_report, command_of};

use crate::values::{
    Lock, ValueFault, ValueName, read_card, read_code, read_count, read_lock, read_moment,
};
use crate::verbs::Verb;
use hotel_core::Command;
use hotel_nights::Moment;
use keycard_rules::{Act, CardNo, Count, Link};

/// The report of a lock's note.
fn report_of(lock: Lock, count: Count, act: Act, at: Moment) -> Command
    ensures { result ≡ report_of lock count act at }
{
    Command::Reported(at.note(lock.room, lock.fit, count, act))
}

fn read_link(old: &[u8], new: &[u8]) -> Result<Link, ValueFault>
    ensures { result ≡ link_in old.now new.now }
{
    let old_code = read_code(ValueName::Old, old)?;
    let new_code = read_code(ValueName::New, new)?;
    Ok(Link { old_code, new_code })
}

/// What a lock notes of a card that leaves it; else of one that opens it.
fn card_act(verb: Verb, card: CardNo, link: Link) -> Act
    ensures { result ≡ card_act verb card link }
{
    match verb {
        Verb::Left => Act::Left { card, link },
        _ => Act::Entered { card, link },
    }
}

/// Reads the report of what a lock noted of a card.
pub(crate) fn read_card_report(
    verb: Verb,
    lock: &[u8],
    count: &[u8],
    card: &[u8],
    old: &[u8],
    new: &[u8],
    moment: &[u8],
) -> Result<Command, ValueFault>
    ensures { result ≡ card_report verb lock.now count.now card.now old.now new.now moment.now }
{
    let lock = read_lock(lock)?;
    let count = read_count(count)?;
    let card = read_card(card)?;
    let link = read_link(old, new)?;
    let at = read_moment(moment)?;
    Ok(report_of(lock, count, card_act(verb, card, link), at))
}

/// Reads the report that a lock was set to another code.
pub(crate) fn read_recoding(
    lock: &[u8],
    count: &[u8],
    from: &[u8],
    to: &[u8],
    moment: &[u8],
) -> Result<Command, ValueFault>
    ensures { result ≡ command_of Recoded (lock.now ∷ count.now ∷ from.now ∷ to.now ∷ moment.now ∷ []) }
{
    let lock = read_lock(lock)?;
    let count = read_count(count)?;
    let from = read_code(ValueName::From, from)?;
    let to = read_code(ValueName::To, to)?;
    let at = read_moment(moment)?;
    Ok(report_of(lock, count, Act::Recoded { from, to }, at))
}
