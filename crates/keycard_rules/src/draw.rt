//! Drawing a code that was never issued.
ghost use Rattle.std.specs.Prelude.{◌≡◌, Err, None};
ghost use Rattle.keycard_rules.specs.{Draw.past, Draw.MovedAtMost, Draw.Draws};
ghost use Rattle.keycard_rules.specs.declared.draw.TheConstants.{MOST_WORDS};
ghost use Rattle.keycard_rules.specs.{Draw.fault_in, Leaves.Leaves, Leaves.Rose};

use crate::code::Code;
use crate::issued::{Issued, LookFault};
use rand_core::Rng;

/// The most words of a source that one draw examines.
pub const MOST_WORDS: u32 = 64;

/// Why no code was drawn.
#[derive(Clone, Copy, Debug, PartialEq, Eq)]
pub enum DrawFault {
    /// The codes of all `MOST_WORDS` words were issued.
    NoFreshCode,
    /// A look-up answered that memory ran out.
    Memory,
    /// A look-up answered that the store failed.
    Store,
}

/// Draws a code that wasn't issued: the first such one among the codes of the source's next `MOST_WORDS` words.
///
/// A word's code is its upper 48 bits. The source moves by the words that were examined, and on a fault of a look-up by
/// no more than without it. Takes no memory of its own.
pub fn draw_fresh<R: Rng, I: Issued>(source: &mut R, issued: &mut I) -> Result<Code, DrawFault>
    ensures drawn { I.is_honest issued.new → Draws (I.issued issued.old) (R.stream source.old) result
        (R.stream source.new) }
    ensures moved { MovedAtMost MOST_WORDS (R.stream source.old) (R.stream source.new) }
    ensures none_moved { result ≡ Err DrawFault.NoFreshCode → R.stream source.new
        ≡ past MOST_WORDS (R.stream source.old) }

    ensures kept { I.is_clean issued.new → I.is_kept issued.old issued.new }
    ensures leaves { Leaves I.Kept issued.old (fault_in result) issued.new }
    ensures rose { Rose I.Kept issued.old (fault_in result) issued.new }
    ensures stop { I.leaves_no_more issued.old issued.new }
    ensures sure { I.never_fails → fault_in result ≡ None }
{
    for _ in 0..MOST_WORDS {
        let code = Code::of_word(source.next_u64());
        match issued.is_issued(code) {
            Ok(false) => return Ok(code),
            Ok(true) => {}
            Err(LookFault::Memory) => return Err(DrawFault::Memory),
            Err(LookFault::Store) => return Err(DrawFault::Store),
        }
    }
    Err(DrawFault::NoFreshCode)
}
