//! What a line of a scenario asks for, read by the readers of verbs and values alone.
use hotel_asks::{Ask, ValueTexts, read_ask, read_verb};
use std::alloc::Global;
use std::test::Fail;

/// The text before the first space, and the text behind it.
fn cut(text: &[u8]) -> (&[u8], &[u8]) {
    for (at, byte) in text.iter().enumerate() {
        if *byte == b' ' {
            let rest = text.get(at.saturating_add(1)..).unwrap_or(b"");
            return (text.get(..at).unwrap_or(b""), rest);
        }
    }
    (text, b"")
}

/// What a line asks for whose words stand one space apart. Its last value is all that is left of it.
pub fn ask_of(alloc: Global, line: &[u8]) -> Result<Ask, Fail> {
    let (word, mut rest) = cut(line);
    let verb = read_verb(word).ok_or("no verb")?;
    let mut values = ValueTexts::new();
    let mut left = verb.values().len();
    for _ in verb.values() {
        left = left.saturating_sub(1);
        let (value, later) = if left == 0 {
            (rest, b"".as_slice())
        } else {
            cut(rest)
        };
        if values.is_full() {
            return Err(Fail::from("too many values"));
        }
        values.push(value);
        rest = later;
    }
    Ok(read_ask(alloc, verb, &values)?)
}
