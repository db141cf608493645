//! What is kept of the codes that were issued, and how it may fail.
ghost use Rattle.std.specs.Prelude.{◌≡◌, ℕ, List};
ghost use Rattle.keycard_rules.specs.{declared.issued.LookFault.LookFault, declared.issued.LookFault.TheVariants.Store};

/// A state that keeps the codes that were issued: a list in memory, or tables in a store. It counts its failures by
/// their cause.
pub trait Kept {
    /// The codes that were issued.
    ghost issued: { Self → List ℕ };

    /// A test of the state: the clauses speak of calls at whose end it holds.
    ghost is_clean: { Self → Type 0 };

    /// A weaker test of the state, which says nothing of failures: nobody else wrote what it is kept in, and what was
    /// written is read back.
    ghost is_honest: { Self → Type 0 };

    /// The second state has what the first one has: all that a look-up may leave.
    ghost is_kept: { Self → Self → Type 0 };

    /// How often calls reported that memory failed, and how often that the store did, each at most the greatest `u64`.
    ghost failures: { Self → LookFault → ℕ };

    /// How often a call of the disk failed on which the state is kept, at most the greatest `u64`; 0 in memory.
    ghost disk_failures: { Self → ℕ };

    /// The look-ups never fail.
    ghost never_fails: { Type 0 };

    /// A stop at the second state leaves nothing that a stop at the first one couldn't have left.
    ghost leaves_no_more: { Self → Self → Type 0 };

    /// Why a look-up or a walk from the first state to the second has no answer, but for lack of memory: a call of the
    /// store failed, or what it showed can't be read.
    ghost look_up_fails: { Self → Self → Type 0 };

    // What never fails has no failure of the store.
    ghost never_store: { (a : Self) → never_fails → failures a Store ≡ 0 };

    // What is clean is honest.
    ghost clean_honest: { (a : Self) → is_clean a → is_honest a };

    ghost kept_refl: { (a : Self) → is_kept a a };

    ghost kept_trans: { (a b c : Self) → is_kept a b → is_kept b c → is_kept a c };

    ghost no_more_refl: { (a : Self) → leaves_no_more a a };

    ghost no_more_trans: { (a b c : Self) → leaves_no_more a b → leaves_no_more b c → leaves_no_more a c };

    ghost kept_issued: { (a b : Self) → is_kept a b → issued b ≡ issued a };
}
