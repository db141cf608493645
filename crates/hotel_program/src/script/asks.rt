//! What a script's line asks for.

ghost use Rattle.std.specs.Prelude.{◌≡◌, ◌<◌, true, None, IfOk, IfSome, IsSomeAnd, MatchOption, OnErr, length};
ghost use Rattle.hotel_asks.specs.{Asks.accepted, Asks.ask_copies, declared.texts.TheConstants.MOST_VALUES};
ghost use Rattle.hotel_program.specs.Script.{Asks.words_and_rest, Asks.values_after, Asks.ask_in, Words.words};

use crate::script::lines::is_readable;
use crate::script::words::{first_of_words, next_word, trimmed};
use hotel_asks::{Ask, ValueTexts, Verb, accept_ask, read_verb};
use std::alloc::{AllocError, Global};

/// The words of a text. None where there are more than `MOST_VALUES`.
fn split_words(text: &[u8]) -> Option<ValueTexts<'_>>
    ensures found { IfSome result (λ values. values ≡ words text.now) }
    ensures more { result ≡ None → MOST_VALUES < length (words text.now) }
{
    let mut values = ValueTexts::new();
    let mut rest = text;
    while let Some((word, later)) = first_of_words(rest) {
        if values.is_full() {
            return None;
        }
        values.push(word);
        rest = later;
    }
    Some(values)
}

/// The first three words of a text, and the rest of it without the spaces at both ends. None where it has fewer words.
fn split_reservation(text: &[u8]) -> Option<ValueTexts<'_>>
    ensures { MatchOption result (length (words_and_rest 3 text.now) < 4)
        (λ values. values ≡ words_and_rest 3 text.now) }
{
    let (kind, text) = next_word(text)?;
    let (arrive, text) = next_word(text)?;
    let (nights, text) = next_word(text)?;
    let mut values = ValueTexts::new();
    values.push(kind);
    values.push(arrive);
    values.push(nights);
    values.push(trimmed(text));
    Some(values)
}

/// The values that a line has after its verb. None where they are too few or too many for it.
fn split_values(verb: Verb, text: &[u8]) -> Option<ValueTexts<'_>>
    ensures found { IfSome result (λ values. values ≡ values_after verb text.now) }
    ensures none { result ≡ None → accepted verb (values_after verb text.now) ≡ None }
{
    match verb {
        Verb::Reserve => split_reservation(text),
        _ => split_words(text),
    }
}

/// Reads what a script's line asks for. The line is without its end. A guest is the rest of its line;
/// a moment has a `T`, since a space would make two words of it. None where the line is too long, not UTF-8,
/// has another first word, too few or too many words, or a word that its reader refuses.
pub(crate) fn read_line(alloc: Global, line: &[u8]) -> Result<Option<Ask>, AllocError>
    ensures read { IfOk result (λ asked. asked ≡ ask_in line.now) }
    ensures memory { OnErr result (IsSomeAnd (ask_in line.now) (λ asked. ask_copies asked ≡ true)) }
{
    if !is_readable(line) {
        return Ok(None);
    }
    let Some((word, text)) = next_word(line) else {
        return Ok(None);
    };
    let Some(verb) = read_verb(word) else {
        return Ok(None);
    };
    match split_values(verb, text) {
        Some(values) => accept_ask(alloc, verb, &values),
        None => Ok(None),
    }
}
