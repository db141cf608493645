//! Why a request asks nothing of the desk.

/// The methods that the routes take.
#[derive(Clone, Copy, Debug, PartialEq, Eq)]
pub(crate) enum Method {
    Get,
    Post,
}

/// Why a request asks nothing of the desk. Each has a status and a text.
#[derive(Clone, Copy, Debug, PartialEq, Eq)]
pub(crate) enum Rejection {
    /// The head, its fields or its target are wrong, or the input ends before the body does.
    BadRequest,
    /// The head has too many bytes or fields.
    HeadTooLarge,
    /// It comes from a web page, and none may ask.
    Foreign,
    /// The body is coded for its transfer.
    NotImplemented,
    /// The body has too many bytes.
    BodyTooLarge,
    /// No route has the path.
    NotFound,
    /// The route of the path has this method alone.
    WrongMethod(Method),
    /// A value of the path or of the form is missing, stands twice or is refused by its reader.
    Unread,
    /// There was no memory to read the form.
    Memory,
}
