//! The lines of a script.

ghost use Rattle.std.specs.Prelude.{◌≡◌, ◌∷◌, [], None, IfSome, ℕ, ◌≤◌, ◌<◌, ◌≢◌, length, slice_index};
ghost use Rattle.hotel_program.specs.Script.Lines.{lines, without_return, is_silent, is_readable};

use crate::script::words::trimmed_start;

/// The most bytes of a line that is read, without its end.
pub(crate) const LINE_LIMIT: usize = 1024;

/// Where the first line feed is, or the text's length where there is none.
fn line_end(text: &[u8]) -> usize
    ensures within { result ≤ length text.now }
    ensures before { (k : ℕ) → k < result → slice_index text.now k ≢ 10 }
    ensures found { result < length text.now → slice_index text.now result ≡ 10 }
{
    for (i, byte) in text.iter().enumerate() {
        if *byte == b'\n' {
            return i;
        }
    }
    text.len()
}

/// The first line of a text, without its line feed, and the text after it. None where the text is empty.
pub(crate) fn first_line(text: &[u8]) -> Option<(&[u8], &[u8])>
    ensures none { result ≡ None → lines text.now ≡ [] }
    ensures some { IfSome result (λ p. lines text.now ≡ p.0.now ∷ lines p.1.now) }
    ensures shorter { IfSome result (λ p. length p.1.now < length text.now) }
{
    if text.is_empty() {
        return None;
    }
    let end = line_end(text);
    if end == text.len() {
        return Some((text, &text[end..]));
    }
    Some((&text[..end], &text[end + 1..]))
}

/// The line without one carriage return at its end.
pub(crate) fn without_return(line: &[u8]) -> &[u8]
    ensures { result.now ≡ without_return line.now }
{
    let len = line.len();
    if len > 0 && line[len - 1] == b'\r' {
        return &line[..len - 1];
    }
    line
}

/// Whether the line gets no answer: it is empty, of spaces alone, or a comment.
pub(crate) fn is_silent(line: &[u8]) -> bool
    ensures { result ≡ is_silent line.now }
{
    let rest = trimmed_start(line);
    rest.is_empty() || rest[0] == b'#'
}

/// Whether the line, without its end, is short enough and UTF-8.
pub(crate) fn is_readable(line: &[u8]) -> bool
    ensures { result ≡ is_readable line.now }
{
    if line.len() > LINE_LIMIT {
        return false;
    }
    match std::str::from_utf8(line) {
        Ok(_) => true,
        Err(_) => false,
    }
}
