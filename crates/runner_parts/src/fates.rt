ghost use Rattle.std.specs.Prelude.{◌≡◌};
ghost use Rattle.runner_parts.specs.Fates.{drawn, first, next_fate};

use rand_core::SeedableRng;
use rand_core::utils::NextWord;
use rand_pcg::Pcg32;
use std::marker::Model;

/// What becomes of a packet that is taken: it is lost, it comes, or it comes and comes again.
#[derive(Clone, Copy, Debug, PartialEq, Eq)]
pub enum Fate {
    Lost,
    Once,
    Twice,
}

/// The fates of the packets that come to one place, drawn by the PCG generator of 32 bits (XSH RR).
/// Contracts see the generator, and how many packets are lost and repeated.
#[derive(Drop)]
pub struct Fates {
    words: Pcg32,
    lose: u64,
    repeat: u64,
}

impl Model for Fates {
    ghost use Rattle.runner_parts.specs.Fates.{FatesOf};

    ghost Value = { FatesOf };

    ghost view = { λ f. record { words = f.words; lose = f.lose; repeat = f.repeat } };
}

impl Fates {
    /// The fates of a place, by a generator with the seed `word + place` (modulo 2^64), of which
    /// one packet in `lose` is lost, and of the others one in `repeat` is repeated; 0 for none.
    pub fn new(word: u64, place: u64, lose: u64, repeat: u64) -> Fates
        ensures { result ≡ first word place lose repeat }
    {
        Fates {
            words: Pcg32::seed_from_u64(word.wrapping_add(place)),
            lose,
            repeat,
        }
    }

    /// The fate of the next packet. Where packets are lost, a word is drawn, and the packet is lost
    /// where it is 0 modulo `lose`. If it isn't, and packets are repeated, another word is drawn,
    /// and it comes twice where that is 0 modulo `repeat`.
    pub fn next(&mut self) -> Fate
        ensures { (result, self.new) ≡ next_fate self.old }
    {
        if draw_one_in(&mut self.words, self.lose) {
            return Fate::Lost;
        }
        if draw_one_in(&mut self.words, self.repeat) {
            return Fate::Twice;
        }
        Fate::Once
    }
}

/// Whether a word that is drawn is 0 modulo n; where n is 0, none is drawn.
fn draw_one_in(words: &mut Pcg32, n: u64) -> bool
    ensures { (result, words.new) ≡ drawn n words.old }
{
    if n == 0 {
        return false;
    }
    let word = words.next_word();
    u64::from(word) % n == 0
}
