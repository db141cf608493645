//! The words of a text.

ghost use Rattle.std.specs.Prelude.{◌≡◌, ◌≤◌, ◌==◌, length, option_map};
ghost use Rattle.std.specs.List.{prefix_len, position_or_len};
ghost use Rattle.hotel_program.specs.Script.Words.{words, next_word, trimmed_start, words_from};
ghost use Rattle.hotel_program.specs.Script.Words.{trimmed};

/// How many spaces the text begins with.
fn leading_spaces(text: &[u8]) -> usize
    ensures value { result ≡ prefix_len (λ b. b == 32) text.now }
    ensures within { result ≤ length text.now }
{
    for (i, byte) in text.iter().enumerate() {
        if *byte != b' ' {
            return i;
        }
    }
    text.len()
}

/// The text from its first byte that is no space.
#[tactic(auto, unfolding(crate::specs::Script::Words::trimmed_start))]
pub(crate) fn trimmed_start(text: &[u8]) -> &[u8]
    ensures { result.now ≡ trimmed_start text.now }
{
    &text[leading_spaces(text)..]
}

/// Where the first space is, or the text's length where there is none.
fn word_end(text: &[u8]) -> usize
    ensures value { result ≡ position_or_len (λ b. b == 32) text.now }
    ensures within { result ≤ length text.now }
{
    for (i, byte) in text.iter().enumerate() {
        if *byte == b' ' {
            return i;
        }
    }
    text.len()
}

/// The first word of a text, and the text after it. None where the text has no word.
#[tactic(auto, unfolding(crate::specs::Script::Words::first_word, crate::specs::Script::Words::after_word))]
pub(crate) fn next_word(text: &[u8]) -> Option<(&[u8], &[u8])>
    ensures { option_map (λ p. (p.0.now, p.1.now)) result ≡ next_word text.now }
{
    let from = trimmed_start(text);
    if from.is_empty() {
        return None;
    }
    let end = word_end(from);
    Some((&from[..end], &from[end..]))
}

/// The first of a text's words, and the text of the others. None where the text has no word.
#[tactic(auto, using(crate::proofs::OfScript::WordLemmas::words_next))]
pub(crate) fn first_of_words(text: &[u8]) -> Option<(&[u8], &[u8])>
    ensures { words text.now ≡ words_from (option_map (λ p. (p.0.now, p.1.now)) result) }
{
    next_word(text)
}

/// The text without the spaces at both ends.
pub(crate) fn trimmed(text: &[u8]) -> &[u8]
    ensures { result.now ≡ trimmed text.now }
{
    let text = trimmed_start(text);
    let mut end = text.len();
    while end > 0 && text[end - 1] == b' ' {
        end -= 1;
    }
    &text[..end]
}
