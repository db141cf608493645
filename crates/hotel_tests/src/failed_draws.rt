//! Draws whose look-ups fail.
ghost use Rattle.std.specs.Prelude.{[], refl};

use keycard_rules::{Code, DrawFault, Issued, Kept, ListedWords, LookFault, draw_fresh};
use rand_core::Rng;
use std::test::Fail;

/// Look-ups that say that every code was issued, and fail once some were made.
#[derive(Drop)]
struct FailingCodes {
    left: u32,
    fault: LookFault,
    failures: u64,
}

impl Kept for FailingCodes {
    ghost issued = { λ _. [] };

    ghost is_clean = { λ _. ⊥ };

    ghost is_honest = { λ _. ⊥ };

    ghost leaves_no_more = { λ _ _. Unit {0} };

    ghost look_up_fails = { λ _ _. Unit {0} };

    ghost is_kept = { λ _ _. Unit {0} };

    ghost failures = { λ codes _. codes.failures };

    ghost disk_failures = { λ _. 0 };

    ghost never_fails = { ⊥ };

    ghost never_store = { λ a never. absurd never };

    ghost clean_honest = { λ a clean. clean };

    ghost kept_refl = { λ a. tt };

    ghost kept_trans = { λ a b c first second. tt };

    ghost no_more_refl = { λ a. tt };

    ghost no_more_trans = { λ a b c first second. tt };

    ghost kept_issued = { λ a b kept. refl };
}

impl Issued for FailingCodes {
    fn is_issued(&mut self, _code: Code) -> Result<bool, LookFault> {
        if self.left == 0 {
            self.failures = self.failures.saturating_add(1);
            return Err(self.fault);
        }
        self.left -= 1;
        Ok(true)
    }
}

#[test]
fn failed_look_ups(rt: HostRuntime) -> Result<(), Fail> {
    for (fault, want) in [
        (LookFault::Memory, DrawFault::Memory),
        (LookFault::Store, DrawFault::Store),
    ] {
        let mut words = ListedWords::new([1, 2, 3, 4].to_vec(rt.alloc())?);
        let mut codes = FailingCodes {
            left: 2,
            fault,
            failures: 0,
        };
        assert!(rt; draw_fresh(&mut words, &mut codes) == Err(want));
        assert!(rt; codes.failures == 1);
        assert!(rt; words.next_u64() == 4);
    }
    Ok(())
}
