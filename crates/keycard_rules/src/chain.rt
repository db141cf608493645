//! The codes of one room, in order of issue, and the lock's place among them.

ghost use Rattle.std.specs.Prelude.{◌≡◌, [], ◌∷◌, ◌++◌, length, Ok, IfOk, OnOk, OnErr, option_map, false, nat_eq};
ghost use Rattle.std.specs.List.{IsDistinct};
ghost use Rattle.keycard_rules.specs.{Words.is_one_of, Lock.turn};
ghost use Rattle.keycard_rules.specs.Chain.{Ledger, IsLinkOf, issued, current, installed, with_issued, entered, turned};
ghost use Rattle.keycard_rules.specs.Chain.{recode_answer, recoded, refitted, place_in};

use crate::card::Link;
use crate::code::Code;
use std::alloc::Global;
use std::marker::Model;

/// Lack of memory: the one fault of a call that only makes room.
#[derive(Clone, Copy, PartialEq, Eq, Debug)]
pub struct Memory;

/// Why a recoding is refused.
#[derive(Clone, Copy, PartialEq, Eq, Debug)]
pub enum RecodeFault {
    /// The lock holds another code than the one that the recoding starts from.
    HeldDiffers,
    /// The lock doesn't await the code that it was to be set to: it is passed, held, or no code of the chain.
    NotAwaited,
}

/// The codes that a lock held before and after a card that opened it: the same one where the card's new code was held.
#[derive(Clone, Copy, PartialEq, Eq, Debug)]
pub struct Turned {
    pub before: Code,
    pub after: Code,
}

/// One room's codes in order of issue, and which of them its lock holds.
///
/// No code stands twice. A call that refuses leaves the chain as it was.
#[derive(Drop)]
pub struct Chain {
    codes: Vec<Code>,
    place: usize,
}

impl Model for Chain {
    ghost use Rattle.std.specs.Prelude.{◌<◌, ◌+◌, length, take, drop, slice_index, nat_eq};
    ghost use Rattle.std.specs.List.{IsDistinct};
    ghost use Rattle.keycard_rules.specs.Chain.{Ledger};

    ghost Value = { Ledger };

    ghost view = { λ c. record {
      passed = take c.place c.codes.items;
      held = slice_index c.codes.items c.place;
      awaited = drop (c.place + 1) c.codes.items;
    } };

    ghost invariant = { λ c. (c.place < length c.codes.items) × IsDistinct nat_eq c.codes.items };
}

/// The first place of the code, or the number of codes where it is not there.
#[tactic(auto, unfolding(crate::specs::Chain::place_in))]
fn place_of(codes: &[Code], code: Code) -> usize
    ensures { result ≡ place_in codes.now code }
{
    for (i, other) in codes.iter().enumerate() {
        if *other == code {
            return i;
        }
    }
    codes.len()
}

impl Chain {
    /// A new room: its lock holds this one code. Keeps `alloc` for later issues.
    pub fn install(alloc: Global, code: Code) -> Result<Chain, Memory>
        ensures { IfOk result (λ c. c ≡ installed code) }
    {
        let mut codes = Vec::new(alloc);
        codes.push(code).map_err(|_| Memory)?;
        Ok(Chain { codes, place: 0 })
    }

    /// Issues a code that no call has issued here before (`holds` is the test): the lock awaits it as the last.
    ///
    /// The link is for the cards of this issue.
    pub fn issue(&mut self, code: Code) -> Result<Link, Memory>
        requires fresh { is_one_of code (issued self.old) ≡ false }
        ensures ok { OnOk result (self.new ≡ with_issued self.old code) }
        ensures codes { OnOk result (issued self.new ≡ issued self.old ++ (code ∷ [])) }
        ensures link { IfOk result (λ l. l ≡ record { old_code = current self.old; new_code = code }) }
        ensures is_link { IfOk result (λ l. IsLinkOf (issued self.new) l) }
        ensures err { OnErr result (self.new ≡ self.old) }
    {
        let old_code = self.current();
        self.codes.push(code).map_err(|_| Memory)?;
        Ok(Link {
            old_code,
            new_code: code,
        })
    }

    /// Shows a card of the link to the lock: `None` where it stays shut.
    ///
    /// A link that the chain issued opens as the lock's rule says. A link from elsewhere that has the held code as its
    /// old one stays shut unless its new code is the first awaited one.
    pub fn enter(&mut self, link: &Link) -> Option<Turned>
        ensures answer { result ≡ turned self.old link.now }
        ensures moved { self.new ≡ entered self.old link.now }
        ensures same_codes { issued self.new ≡ issued self.old }
        ensures lock_rule { IsLinkOf (issued self.old) link.now
            → option_map (λ t. t.after) result ≡ turn self.old.held link.now }
    {
        let held = self.codes[self.place];
        if held == link.new_code {
            return Some(Turned {
                before: held,
                after: held,
            });
        }
        let next = self.place + 1;
        if held != link.old_code || next >= self.codes.len() || self.codes[next] != link.new_code {
            return None;
        }
        self.place = next;
        Some(Turned {
            before: held,
            after: link.new_code,
        })
    }

    /// Staff set the lock from the code that it holds to an awaited one. The codes between the two are passed.
    pub fn recode(&mut self, from: Code, to: Code) -> Result<(), RecodeFault>
        ensures answer { result ≡ recode_answer self.old from to }
        ensures ok { OnOk result (self.new ≡ recoded self.old to) }
        ensures err { OnErr result (self.new ≡ self.old) }
        ensures same_codes { issued self.new ≡ issued self.old }
    {
        if self.codes[self.place] != from {
            return Err(RecodeFault::HeldDiffers);
        }
        let next = self.place + 1;
        let ahead = place_of(&self.codes[next..], to);
        let place = next + ahead;
        if place >= self.codes.len() {
            return Err(RecodeFault::NotAwaited);
        }
        self.place = place;
        Ok(())
    }

    /// Fits a new lock, which holds a code that was never issued here (`holds` is the test): the earlier codes, awaited
    /// ones among them, are passed. A refusal for lack of memory changes nothing.
    pub fn refit(&mut self, code: Code) -> Result<(), Memory>
        requires fresh { is_one_of code (issued self.old) ≡ false }
        ensures ok { OnOk result (self.new ≡ refitted self.old code) }
        ensures codes { OnOk result (issued self.new ≡ issued self.old ++ (code ∷ [])) }
        ensures err { OnErr result (self.new ≡ self.old) }
    {
        let last = self.codes.len();
        self.codes.push(code).map_err(|_| Memory)?;
        self.place = last;
        Ok(())
    }

    /// Whether the code was issued here: passed, held or awaited.
    pub fn holds(&self, code: Code) -> bool
        ensures answer { result ≡ is_one_of code (issued self.now) }
        ensures distinct { IsDistinct nat_eq (issued self.now) }
    {
        self.codes.as_slice().contains(&code)
    }

    /// The code that the lock holds.
    pub fn held(&self) -> Code
        ensures { result ≡ self.now.held }
    {
        self.codes[self.place]
    }

    /// The code issued last.
    pub fn current(&self) -> Code
        ensures { result ≡ current self.now }
    {
        self.codes[self.codes.len() - 1]
    }

    /// How many codes the lock has not yet taken.
    pub fn awaited_len(&self) -> usize
        ensures { result ≡ length self.now.awaited }
    {
        self.codes.len() - self.place - 1
    }
}
