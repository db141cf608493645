//! The fields of a form.

ghost use Rattle.std.specs.Prelude.{◌≡◌, IfOk};
ghost use Rattle.std.specs.Option.{option_map};
ghost use Rattle.hotel_http.specs.Form.{form_fields, texts_named, only};

use std::alloc::{AllocError, Global};
use std::borrow::CowStr;
use std::marker::Model;

/// A field of a form. What needs no decoding is borrowed from the body.
#[derive(Drop)]
struct Field<'b> {
    name: CowStr<'b, Global>,
    text: CowStr<'b, Global>,
}

/// The fields of a form, in order. Contracts see the name and the text of each.
#[derive(Drop)]
pub(crate) struct Form<'b> {
    fields: Vec<Field<'b>>,
}

impl<'b> Model for Form<'b> {
    ghost use Rattle.std.specs.Prelude.{map, List};
    ghost use Rattle.hotel_http.specs.{Fields.Pair, Form.field_read};

    ghost Value = { List Pair };

    ghost view = { λ form. map field_read form.fields.items };
}

impl Form<'_> {
    /// The text of the field of this name. None where it doesn't stand, or more than once.
    pub fn text(&self, name: &str) -> Option<&str>
        ensures { option_map (λ text. text.now) result ≡ only (texts_named name.now self.now) }
    {
        let mut named = self
            .fields
            .iter()
            .filter(|field| field.name.as_str() == name);
        match (named.next(), named.next()) {
            (Some(field), None) => Some(field.text.as_str()),
            _ => None,
        }
    }
}

/// Reads a form.
pub(crate) fn read_form<'b>(alloc: Global, body: &'b [u8]) -> Result<Form<'b>, AllocError>
    ensures { IfOk result (λ form. form ≡ form_fields body.now) }
{
    let mut fields = Vec::new(alloc);
    for pair in form_urlencoded::parse(alloc, body) {
        let (name, text) = pair?;
        fields.push(Field { name, text })?;
    }
    Ok(Form { fields })
}
