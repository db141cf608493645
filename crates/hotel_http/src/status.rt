//! The statuses of answers.

ghost use Rattle.std.specs.Prelude.{◌≡◌, ◌≤◌, length};
ghost use Rattle.hotel_http.specs.Status.{number_of, phrase_of};

/// The status of an answer.
#[derive(Clone, Copy, Debug, PartialEq, Eq)]
pub(crate) enum Status {
    Success,
    BadRequest,
    Forbidden,
    NotFound,
    MethodNotAllowed,
    Conflict,
    ContentTooLarge,
    HeadTooLarge,
    NotImplemented,
    Unavailable,
}

impl Status {
    /// Its number, as 404.
    pub fn number(self) -> u16
        ensures { result ≡ number_of self }
    {
        match self {
            Status::Success => 200,
            Status::BadRequest => 400,
            Status::Forbidden => 403,
            Status::NotFound => 404,
            Status::MethodNotAllowed => 405,
            Status::Conflict => 409,
            Status::ContentTooLarge => 413,
            Status::HeadTooLarge => 431,
            Status::NotImplemented => 501,
            Status::Unavailable => 503,
        }
    }

    /// The phrase that stands behind the number.
    pub fn phrase(self) -> &'static [u8]
        ensures same { result.now ≡ phrase_of self }
        ensures short { length result.now ≤ 31 }
    {
        match self {
            Status::Success => b"OK",
            Status::BadRequest => b"Bad Request",
            Status::Forbidden => b"Forbidden",
            Status::NotFound => b"Not Found",
            Status::MethodNotAllowed => b"Method Not Allowed",
            Status::Conflict => b"Conflict",
            Status::ContentTooLarge => b"Content Too Large",
            Status::HeadTooLarge => b"Request Header Fields Too Large",
            Status::NotImplemented => b"Not Implemented",
            Status::Unavailable => b"Service Unavailable",
        }
    }
}
