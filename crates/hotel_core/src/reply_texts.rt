//! The text of a reply.
ghost use Rattle.std.specs.Prelude.{◌≡◌, [], ◌++◌, ◌+◌, ◌≤◌, length};
ghost use Rattle.keycard_rules.specs.Numerals.{code_text};
ghost use Rattle.hotel_model.specs.declared.reply.Reply.TheVariants as reply;
ghost use Rattle.hotel_core.specs.declared.reply_texts.TheConstants.{REPLY_BYTES};
ghost use Rattle.hotel_core.specs.Texts.{reply_line, reply_text};

use hotel_model::{Refusal, Reply};
use keycard_rules::{Card, Code, ShortText};

/// The most bytes of the text of a reply, the line feed included.
pub const REPLY_BYTES: usize = 64;

/// The text of a reply.
pub type ReplyText = ShortText<REPLY_BYTES>;

fn push_code(text: &mut ReplyText, code: &Code)
    requires { length text.old + 12 ≤ REPLY_BYTES }
    ensures text { text.new ≡ text.old ++ code_text code.now }
    ensures len { length text.new ≡ length text.old + 12 }
{
    text.push(&code.print());
}

fn push_card(text: &mut ReplyText, card: &Card)
    requires { text.old ≡ [] }
    ensures text { text.new ≡ reply_line (reply.Issued card.now) }
    ensures len { length text.new ≤ 60 }
{
    text.push(b"card ");
    text.push_number::<7>(u128::from(card.number.value()));
    text.push(b" party ");
    text.push_number::<7>(u128::from(card.party.value()));
    text.push(b" old ");
    push_code(text, &card.link.old_code);
    text.push(b" new ");
    push_code(text, &card.link.new_code);
}

fn push_refusal(text: &mut ReplyText, refusal: &Refusal)
    requires { text.old ≡ [] }
    ensures text { text.new ≡ reply_line (reply.Refused refusal.now) }
    ensures len { length text.new ≤ 60 }
{
    text.push(b"refused ");
    text.push(refusal.name().as_bytes());
    match refusal {
        Refusal::KindFull(day) => {
            text.push(b" ");
            text.push(&day.print());
        }
        Refusal::Gap(expected) => {
            text.push(b" ");
            text.push_number::<10>(u128::from(*expected));
        }
        _ => {}
    }
}

/// The text of a reply, which ends in a line feed. Codes have twelve digits, numbers no leading zeros.
pub fn reply_text(reply: &Reply) -> ReplyText
    ensures { result ≡ reply_text reply.now }
{
    let mut text = ReplyText::new();
    match reply {
        Reply::Begun => text.push(b"begun"),
        Reply::KindAdded => text.push(b"kind added"),
        Reply::RoomAdded { code } => {
            text.push(b"room code ");
            push_code(&mut text, code);
        }
        Reply::Reserved { party } => {
            text.push(b"party ");
            text.push_number::<7>(u128::from(party.value()));
        }
        Reply::Cancelled => text.push(b"cancelled"),
        Reply::Issued(card) => push_card(&mut text, card),
        Reply::CheckedOut => text.push(b"checked out"),
        Reply::Refitted { code, fit } => {
            text.push(b"lock ");
            text.push_number::<2>(u128::from(fit.value()));
            text.push(b" code ");
            push_code(&mut text, code);
        }
        Reply::DayIs(day) => {
            text.push(b"day ");
            text.push(&day.print());
        }
        Reply::Taken => text.push(b"taken"),
        Reply::Seen => text.push(b"seen"),
        Reply::Refused(refusal) => push_refusal(&mut text, refusal),
    }
    text.push(b"\n");
    text
}
