//! The text of an answer's head.

use keycard_rules::ShortText;

/// The text of an answer's head: at most 320 bytes.
pub(crate) type HeadText = ShortText<320>;
