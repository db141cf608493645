//! The ranges of the values in commands and replies, as their types hold them.
ghost use Rattle.hotel_model.specs.Ranges.{IsCommand, IsReply};
ghost use Rattle.hotel_model.specs.declared.command.Command.TheVariants as command;

use hotel_model::{Command, Reply};
use keycard_rules::LockNote;

/// Does nothing: a note's values are in their ranges.
pub(crate) fn known_note(note: &LockNote)
    ensures { IsCommand (command.Reported note.now) }
{
    note.fit.value();
    note.count.value();
}

/// Does nothing: a command's values are in their ranges.
pub(crate) fn known_command(command: &Command)
    ensures { IsCommand command.now }
{
    match command {
        Command::Begin(day) => {
            day.number();
        }
        Command::AddKind(kind) => {
            kind.as_bytes();
        }
        Command::AddRoom { room, .. } => {
            room.value();
        }
        Command::Reserve {
            guest,
            arrive,
            nights,
            ..
        } => {
            guest.text();
            arrive.number();
            nights.value();
        }
        Command::Reported(note) => known_note(note),
        Command::Cancel(_)
        | Command::CheckIn { .. }
        | Command::Spare(_)
        | Command::Reissue(_)
        | Command::Transfer { .. }
        | Command::CheckOut(_)
        | Command::Refit(_)
        | Command::NextDay => {}
    }
}

/// Does nothing: a reply's codes are in their range.
pub(crate) fn known_reply(reply: &Reply)
    ensures { IsReply reply.now }
{
    match reply {
        Reply::RoomAdded { code } => {
            code.value();
        }
        Reply::Issued(card) => {
            card.link.new_code.value();
        }
        Reply::Refitted { code, .. } => {
            code.value();
        }
        _ => {}
    }
}
