//! A source of words for tests.
ghost use Rattle.std.specs.Prelude.{◌≡◌, ℕ, ◌<◌, length};
ghost use Rattle.keycard_rules.specs.{Draw.words, ListedWords.next_listed, ListedWords.listed_stream};
ghost use Rattle.keycard_rules.specs.{ListedWords.first_listed};

use rand_core::utils::NextWord;
use rand_core::{Rng, utils};
use std::marker::Model;

/// A generator for tests: it gives the words of a list one after the other, and the last one for ever.
///
/// `next_u32` takes the low half of a word, and `fill_bytes` writes words with the low byte first.
#[derive(Drop)]
pub struct ListedWords {
    words: Vec<u64>,
    place: usize,
}

impl Model for ListedWords {
    ghost use Rattle.std.specs.Prelude.{ℕ, ◌<◌, List, length, drop};

    ghost Value = { List ℕ };

    ghost view = { λ source. drop source.place source.words.items };

    ghost invariant = { λ source. source.place < length source.words.items };
}

impl ListedWords {
    /// A generator of these words, of which there is one or more.
    pub fn new(list: Vec<u64>) -> ListedWords
        requires some_words { 0 < length list.items }
        ensures listed { result ≡ list.items }
        ensures stream { (n : ℕ) → words n (listed_stream result) ≡ first_listed n result }
    {
        ListedWords {
            words: list,
            place: 0,
        }
    }
}

impl NextWord<u64> for ListedWords {
    ghost step = { next_listed };

    fn next_word(&mut self) -> u64 {
        let word = self.words[self.place];
        if self.place + 1 < self.words.len() {
            self.place += 1;
        }
        word
    }
}

impl Rng for ListedWords {
    ghost stream = { listed_stream };

    fn next_u32(&mut self) -> u32 {
        (self.next_word() % (1 << 32)) as u32
    }

    fn next_u64(&mut self) -> u64 {
        self.next_word()
    }

    fn fill_bytes(&mut self, dst: &mut [u8]) {
        utils::fill_bytes_via_u64(self, dst)
    }
}
