//! The generator: each number has its own draws.

ghost use Rattle.std.specs.Prelude.{◌≡◌, ◌%◌, ◌^◌, ◌<◌, ◌≤◌};
ghost use Rattle.rand_chacha.specs.ChaCha.{ChaCha};
ghost use Rattle.film_make.specs.Generator.{words_left, words_of, words_after};

use rand_chacha::ChaCha8Rng;
use rand_core::SeedableRng;
use rand_core::utils::NextWord;
use std::fmt;
use std::marker::Model;

/// The draws of a number: ChaCha with eight rounds (D. J. Bernstein, 2008), seeded with the
/// number's eight bytes, the least first, and 24 zero bytes.
///
/// Contracts see the words that are still to come as `words_left`, from the next one on.
#[derive(Drop)]
pub struct Draws {
    rng: ChaCha8Rng,
}

impl fmt::Debug for Draws {
    fn fmt<W: fmt::Write>(&self, f: &mut fmt::Formatter<W>) -> fmt::Result {
        f.debug_struct("Draws").finish_non_exhaustive()
    }
}

impl Model for Draws {
    ghost Value = { ChaCha };

    ghost view = { λ d. d.rng };

    ghost invariant = { λ d. d.rng.word_pos < 2 ^ 68 };
}

impl Draws {
    /// Returns the draws of a number, from the first on.
    pub fn new(number: u64) -> Draws
        ensures { words_left result ≡ words_of number }
    {
        let mut seed = [0; 32];
        seed[..8].copy_from_slice(&number.to_le_bytes());
        Draws {
            rng: ChaCha8Rng::from_seed(seed),
        }
    }

    /// Draws the next word modulo `n`, which is at least 1.
    pub fn draw(&mut self, n: u32) -> u32
        requires { 1 ≤ n }
        ensures value { result ≡ words_left self.old 0 % n }
        ensures left { words_left self.new ≡ words_after 1 (words_left self.old) }
    {
        // The bias of a remainder, at most n in 2^32, does no harm in generated inputs.
        self.rng.next_word() % n
    }
}
