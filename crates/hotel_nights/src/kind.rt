//! The codes of kinds of rooms.

ghost use Rattle.std.specs.Prelude.{◌≡◌, ℕ, List, true};
ghost use Rattle.std.specs.List.{list_all};
ghost use Rattle.std.specs.Ordering.{nat_cmp, as_partial_cmp};
ghost use Rattle.std.specs.Cmp.{partial_order_from_own_ties};
ghost use Rattle.std.specs.Cmp.Lexicographic.{slice_cmp};
ghost use Rattle.std.specs.Cmp.Rules.{comparing};
ghost use Rattle.std.specs.Str.{bytes_eq};
ghost use Rattle.std.proofs.Common.{rules};
ghost use Rattle.hotel_nights.specs.Kinds.{is_kind, read_kind, is_kind_byte};

use std::cmp::Ordering;
use std::marker::Model;

/// The most bytes of the code of a kind.
pub const KIND_BYTES: usize = 8;

/// The code of a kind of rooms, as `DBL`: one to eight of the letters A to Z and the digits 0 to 9.
///
/// Contracts see a code as its bytes. Codes are equal where these are, and ordered as texts are: by the first byte that
/// differs, and a code before each longer one that begins with it. So a `BTreeSet` of codes is a list of texts in this
/// order.
#[derive(Clone, Copy, Debug)]
pub struct KindCode {
    /// The code, and zeros after it.
    bytes: [u8; KIND_BYTES],
    len: usize,
}

impl Model for KindCode {
    ghost use Rattle.std.specs.Prelude.{◌≡◌, ◌≤◌, ◌-◌, ◌++◌, ℕ, List, length, take, drop, replicate, true};
    ghost use Rattle.std.proofs.Common.{arith, ap, sym, ◌∙◌, take-append-drop, length-take-le};
    ghost use Rattle.hotel_nights.specs.{Kinds.is_kind, declared.kind.TheConstants.KIND_BYTES};

    ghost Value = { List ℕ };

    ghost view = { λ k. take k.len k.bytes };

    ghost invariant = { λ k. (length k.bytes ≡ KIND_BYTES) × (k.len ≤ KIND_BYTES)
        × (drop k.len k.bytes ≡ replicate (KIND_BYTES - k.len) 0) × (is_kind (take k.len k.bytes) ≡ true) };

    ghost inverse = { λ l. record { bytes = l ++ replicate (KIND_BYTES - length l) 0; len = length l } };

    ghost inverse_ok = { λ k h i. record {
      bytes = (ap (λ m. take k.len k.bytes ++ replicate (KIND_BYTES - m) 0)
          (length-take-le k.len k.bytes (omega (arith, h.0, h.1)))
          ∙ (ap (λ t. take k.len k.bytes ++ t) (sym h.2) ∙ take-append-drop k.len k.bytes)) i;
      len = length-take-le k.len k.bytes (omega (arith, h.0, h.1)) i;
    } };
}

/// Whether each byte is a capital letter or a digit.
fn are_kind_bytes(text: &[u8]) -> bool
    ensures { result ≡ list_all is_kind_byte text.now }
{
    text.iter()
        .all(|byte| byte.is_ascii_uppercase() || byte.is_ascii_digit())
}

impl KindCode {
    /// Reads one to eight capital letters and digits; `None` for any other text.
    pub fn read(text: &[u8]) -> Option<KindCode>
        ensures { result ≡ read_kind text.now }
    {
        if text.is_empty() || text.len() > KIND_BYTES || !are_kind_bytes(text) {
            return None;
        }
        let len = text.len();
        let mut bytes = [0; KIND_BYTES];
        bytes[..len].copy_from_slice(text);
        Some(KindCode { bytes, len })
    }

    /// The bytes of the code, one to eight.
    pub fn as_bytes(&self) -> &[u8]
        ensures same { result.now ≡ self.now }
        ensures known { is_kind result.now ≡ true }
    {
        &self.bytes[..self.len]
    }
}

impl PartialEq for KindCode {
    ghost eq = { bytes_eq };

    ghost laws = { Prim.search (comparing, rules) };

    fn eq(&self, other: &KindCode) -> bool {
        self.as_bytes() == other.as_bytes()
    }
}

impl Eq for KindCode {
    ghost laws = { Prim.search (comparing, rules) };
}

impl Ord for KindCode {
    ghost cmp = { slice_cmp nat_cmp };

    ghost total = { Prim.search (comparing, rules) };

    ghost matches_partial_cmp = { Prim.search (comparing, rules) };

    ghost matches_eq = { Prim.search (comparing, rules) };

    fn cmp(&self, other: &KindCode) -> Ordering {
        self.as_bytes().cmp(other.as_bytes())
    }
}

impl PartialOrd for KindCode {
    ghost partial_cmp = { as_partial_cmp (slice_cmp nat_cmp) };

    ghost laws = { partial_order_from_own_ties (Prim.search (comparing, rules)) (Prim.search (comparing, rules)) };

    fn partial_cmp(&self, other: &KindCode) -> Option<Ordering> {
        Some(self.cmp(other))
    }
}
