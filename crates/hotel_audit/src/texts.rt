//! The texts of lines' answers, of an import that was stopped, and of faults.
ghost use Rattle.std.specs.Prelude.{◌≡◌, ◌++◌, ◌+◌, ◌≤◌, Some, length};
ghost use Rattle.hotel_core.specs.declared.reply_texts.TheConstants.{REPLY_BYTES};
ghost use Rattle.hotel_core.specs.Texts.{reply_text};
ghost use Rattle.hotel_audit.specs.declared.texts.TheConstants.{ANSWER_BYTES};
ghost use Rattle.hotel_audit.specs.Answers.{answer_text, cause_name, cause_text, import_fault_text, stopped_text};

use crate::answer::LineAnswer;
use crate::imports::ImportFault;
use hotel_core::{Reply, reply_text};
use hotel_lock::Cause;
use keycard_rules::{LookFault, ShortText};
use std::error::Error;
use std::fmt;

/// The most bytes of the text of an answer, the line feed included.
const ANSWER_BYTES: usize = 85;

/// The text of an answer: at most `ANSWER_BYTES`.
pub type AnswerText = ShortText<ANSWER_BYTES>;

fn push_reply(text: &mut AnswerText, reply: &Reply)
    requires { length text.old + REPLY_BYTES ≤ ANSWER_BYTES }
    ensures { text.new ≡ text.old ++ reply_text reply.now }
{
    text.push(reply_text(reply).as_bytes());
}

/// The name of a cause.
const fn cause_name(cause: Cause) -> &'static [u8]
    ensures same { result.now ≡ cause_name cause }
    ensures short { length result.now ≤ 20 }
{
    match cause {
        Cause::FieldCount => b"FieldCount",
        Cause::BadRoom => b"BadRoom",
        Cause::BadFit => b"BadFit",
        Cause::BadCount => b"BadCount",
        Cause::BadKind => b"BadKind",
        Cause::BadCard => b"BadCard",
        Cause::BadOld => b"BadOld",
        Cause::BadNew => b"BadNew",
        Cause::BadMoment => b"BadMoment",
    }
}

/// The text of the answer to the line of this number, which ends in a line feed. Lines are numbered from 1, and the
/// header isn't counted.
pub fn answer_text(number: usize, answer: &LineAnswer) -> AnswerText
    ensures { result ≡ answer_text number answer.now }
{
    let mut text = AnswerText::new();
    text.push_number::<20>(number as u128);
    text.push(b" ");
    match answer {
        LineAnswer::Taken => push_reply(&mut text, &Reply::Taken),
        LineAnswer::Seen => push_reply(&mut text, &Reply::Seen),
        LineAnswer::Refused(why) => push_reply(&mut text, &Reply::Refused(*why)),
        LineAnswer::Unread(cause) => {
            text.push(b"unread ");
            text.push(cause_name(*cause));
            text.push(b"\n");
        }
    }
    text
}

/// The most bytes of what is said of an import that was stopped, the line feed included.
const STOPPED_BYTES: usize = 43;

/// The text of an import that was stopped: at most `STOPPED_BYTES`.
pub type StoppedText = ShortText<STOPPED_BYTES>;

/// What stopped an import, and the end of the line.
const fn cause_text(by: LookFault) -> &'static [u8]
    ensures same { result.now ≡ cause_text by }
    ensures short { length result.now ≤ 9 }
{
    match by {
        LookFault::Memory => b": Memory\n",
        LookFault::Store => b": Store\n",
    }
}

/// What is said of an import that was stopped behind so many lines.
pub fn stopped_text(answered: usize, by: LookFault) -> StoppedText
    ensures { result ≡ stopped_text answered by }
{
    let mut text = StoppedText::new();
    text.push(b"stopped after ");
    text.push_number::<20>(answered as u128);
    text.push(cause_text(by));
    text
}

impl fmt::Display for ImportFault {
    ghost output = { λ why. Some (import_fault_text why) };

    fn fmt<W: fmt::Write>(&self, f: &mut fmt::Formatter<W>) -> fmt::Result {
        match self {
            ImportFault::File(why) => write!(f, "{why}"),
            ImportFault::Memory { answered, .. } => write!(f, "stopped after {answered}: Memory"),
            ImportFault::Store { answered, .. } => write!(f, "stopped after {answered}: Store"),
        }
    }
}

impl Error for ImportFault {}
