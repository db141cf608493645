//! What a route asks for, by its path and the form behind the head.

ghost use Rattle.std.specs.Prelude.{◌≡◌, ◌≤◌, ◌+◌, true, length, map, IfOk, OnErr};
ghost use Rattle.hotel_asks.specs.declared.texts.TheConstants.{MOST_VALUES};
ghost use Rattle.hotel_http.specs.declared.tasks.TheConstants.{MOST_PARTS};
ghost use Rattle.hotel_http.specs.Tasks.{after_slash, before_slash, after_first, second_part, third_part, fields_of};
ghost use Rattle.hotel_http.specs.Tasks.{parts_of, value_texts, ask_of_request, has_fields, task_in, reads_form};

use crate::form::{Form, read_form};
use crate::routes::Target;
use hotel_asks::{Ask, ValueTexts, Verb, accept_ask};
use std::alloc::{AllocError, Global};

/// What a request asks of the desk.
#[derive(Drop)]
pub enum Task {
    /// A command or a list.
    Asks(Ask),
    /// The import of the body, an audit file.
    Audit,
}

fn after_slash(path: &str) -> &str
    ensures { result.now ≡ after_slash path.now }
{
    match path.split_once('/') {
        Some((_, rest)) => rest,
        None => "",
    }
}

fn before_slash(path: &str) -> &str
    ensures { result.now ≡ before_slash path.now }
{
    match path.split_once('/') {
        Some((prefix, _)) => prefix,
        None => path,
    }
}

/// What stands behind the first part of a path, as 101/chain of /rooms/101/chain.
fn after_first(path: &str) -> &str
    ensures { result.now ≡ after_first path.now }
{
    after_slash(after_slash(path))
}

/// The second part of a path, as 101 of /rooms/101/chain.
fn second_part(path: &str) -> &str
    ensures { result.now ≡ second_part path.now }
{
    before_slash(after_first(path))
}

/// The third part of a path, as 2 of /availability/2031-05-01/2.
fn third_part(path: &str) -> &str
    ensures { result.now ≡ third_part path.now }
{
    before_slash(after_slash(after_first(path)))
}

/// The most values that a verb has in its path.
const MOST_PARTS: usize = 2;

/// The names of the form's fields that a verb's route has for its values, in their order.
fn fields_of<'a>(verb: Verb) -> &'a [&'a str]
    ensures names { map (λ name. name.now) result.now ≡ fields_of verb }
    ensures few { length result.now + MOST_PARTS ≤ MOST_VALUES }
{
    match verb {
        Verb::Begin => &["day"],
        Verb::AddKind => &["kind"],
        Verb::AddRoom => &["room", "kind"],
        Verb::Reserve => &["kind", "arrive", "nights", "guest"],
        Verb::CheckIn | Verb::Transfer => &["room"],
        _ => &[],
    }
}

/// The texts of the values that are no fields of the form: the second part of the path, and the third, as far as the
/// verb has such values.
fn parts_of<'p>(verb: Verb, path: &'p str) -> ValueTexts<'p>
    ensures texts { result ≡ parts_of verb path.now }
    ensures few { length result ≤ MOST_PARTS }
{
    let parts = verb.values().len().saturating_sub(fields_of(verb).len());
    let mut texts = ValueTexts::new();
    if parts > 0 {
        texts.push(second_part(path).as_bytes());
    }
    if parts > 1 {
        texts.push(third_part(path).as_bytes());
    }
    texts
}

/// The texts of a verb's values, from the path and the form. None where one is missing or stands twice.
fn value_texts<'t>(verb: Verb, path: &'t str, form: &'t Form<'_>) -> Option<ValueTexts<'t>>
    ensures { result ≡ value_texts verb path.now form.now }
{
    let mut texts = parts_of(verb, path);
    for name in fields_of(verb) {
        texts.push(form.text(name)?.as_bytes());
    }
    Some(texts)
}

/// What a route's verb asks for. No form is read for a verb that has no fields.
fn ask_by_verb(
    alloc: Global,
    verb: Verb,
    path: &str,
    body: &[u8],
) -> Result<Option<Ask>, AllocError>
    ensures read { IfOk result (λ given. given ≡ ask_of_request verb path.now body.now) }
    ensures memory { OnErr result (has_fields verb ≡ true) }
{
    if fields_of(verb).is_empty() {
        return accept_ask(alloc, verb, &parts_of(verb, path));
    }
    let form = read_form(alloc, body)?;
    match value_texts(verb, path, &form) {
        Some(texts) => accept_ask(alloc, verb, &texts),
        None => Ok(None),
    }
}

/// What a route asks for, by its path and its body. None where a value is missing, stands twice or is refused.
pub(crate) fn read_task(
    alloc: Global,
    target: Target,
    path: &str,
    body: &[u8],
) -> Result<Option<Task>, AllocError>
    ensures read { IfOk result (λ given. given ≡ task_in target path.now body.now) }
    ensures memory { OnErr result (reads_form target ≡ true) }
{
    match target {
        Target::Audit => Ok(Some(Task::Audit)),
        Target::Asks(verb) => match ask_by_verb(alloc, verb, path, body)? {
            Some(asked) => Ok(Some(Task::Asks(asked))),
            None => Ok(None),
        },
    }
}
