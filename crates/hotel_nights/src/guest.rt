//! Names of guests.

ghost use Rattle.std.specs.Prelude.{◌≡◌, ◌↔◌, ℕ, List, Some, true, false, IfOk, string_bytes, not};
ghost use Rattle.std.specs.List.{list_all};
ghost use Rattle.std.specs.Char.{is_control};
ghost use Rattle.std.specs.Cmp.Rules.{comparing};
ghost use Rattle.std.specs.Str.{chars, bytes_eq};
ghost use Rattle.std.proofs.Common.{rules};
ghost use Rattle.hotel_nights.specs.Guests.{fault_text, is_guest};

use std::alloc::Global;
use std::error::Error;
use std::fmt;
use std::marker::Model;

/// Why a text gives no guest.
#[derive(Clone, Copy, PartialEq, Eq, Debug)]
pub enum GuestFault {
    /// The text is no name of a guest.
    Unread,
    /// The memory for a copy of the text was refused.
    Memory,
}

impl fmt::Display for GuestFault {
    ghost output = { λ why. Some (fault_text why) };

    fn fmt<W: fmt::Write>(&self, f: &mut fmt::Formatter<W>) -> fmt::Result {
        f.write_str(match self {
            GuestFault::Unread => "unread",
            GuestFault::Memory => "memory",
        })
    }
}

impl Error for GuestFault {}

/// The name of a guest: 1 to 60 bytes of UTF-8 with no control character (U+0000 to U+001F and U+007F to U+009F) and no
/// space (U+0020) first or last.
///
/// Contracts see a guest as the bytes of the name. A copy takes memory, so `clone` answers a `Result`; a copy that was
/// made is the same guest.
#[derive(Clone, Debug, Drop)]
pub struct Guest {
    text: String,
}

impl Model for Guest {
    ghost use Rattle.std.specs.Prelude.{◌≡◌, ℕ, List, true, string_bytes};
    ghost use Rattle.hotel_nights.specs.Guests.{is_guest};

    ghost Value = { List ℕ };

    ghost view = { λ g. string_bytes g.text };

    ghost invariant = { λ g. is_guest (string_bytes g.text) ≡ true };
}

/// The most bytes of a guest's name.
pub const GUEST_BYTES: usize = 60;

/// Whether no character of the text is a control character.
fn has_no_control(text: &str) -> bool
    ensures { result ≡ list_all (λ c. not (is_control c)) (chars text.now) }
{
    text.chars().all(|c| !c.is_control())
}

/// Whether the text is the name of a guest. It takes no memory.
pub fn is_guest(text: &str) -> bool
    ensures { result ≡ is_guest text.now }
{
    let bytes = text.as_bytes();
    if bytes.is_empty() || bytes.len() > GUEST_BYTES {
        return false;
    }
    if bytes[0] == b' ' || bytes[bytes.len() - 1] == b' ' {
        return false;
    }
    has_no_control(text)
}

impl Guest {
    /// The guest of this name, whose text is copied.
    ///
    /// `Unread` where the text is no name of a guest; else `Memory` where the memory for the copy was refused.
    pub fn read(alloc: Global, text: &str) -> Result<Guest, GuestFault>
        ensures same { IfOk result (λ g. g ≡ text.now) }
        ensures unread { (result ≡ Err GuestFault.Unread) ↔ (is_guest text.now ≡ false) }
    {
        if !is_guest(text) {
            return Err(GuestFault::Unread);
        }
        let Ok(text) = String::from_str(alloc, text) else {
            return Err(GuestFault::Memory);
        };
        Ok(Guest { text })
    }

    /// The name.
    pub fn text(&self) -> &str
        ensures same { result.now ≡ self.now }
        ensures known { is_guest result.now ≡ true }
    {
        self.text.as_str()
    }
}

impl PartialEq for Guest {
    ghost eq = { bytes_eq };

    ghost laws = { Prim.search (comparing, rules) };

    fn eq(&self, other: &Guest) -> bool {
        self.text() == other.text()
    }
}

impl Eq for Guest {
    ghost laws = { Prim.search (comparing, rules) };
}
