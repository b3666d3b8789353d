// The draws of a generator, and the words that are drawn.
ghost use Rattle.std.specs.Prelude.{◌≡◌, ◌<◌, ℕ};
ghost use Rattle.qg_generator.specs.GeneratedScript.{drawn_on, draw, sub_drawn, ino_drawn, position_drawn};
ghost use Rattle.qg_generator.specs.GeneratedScript.{length_drawn};

use qg_num::{Ino, RootId};
use std::marker::Model;

/// What a draw multiplies the state by.
const MULTIPLIER: u64 = 6364136223846793005;

/// What a draw adds to it then.
const INCREMENT: u64 = 1442695040888963407;

/// How many bytes a sector has.
const SECTOR: u64 = 4096;

/// The state that the next draw is made from (this project's own). A contract sees its number.
#[derive(Drop)]
pub(crate) struct Draws {
    state: u64,
}

impl Model for Draws {
    ghost Value = { ℕ };

    ghost view = { λ d. d.state };

    ghost inverse = { λ n. record { state = n } };
}

impl Draws {
    /// The draws from a seed.
    pub(crate) fn new(seed: u64) -> Draws
        ensures { result ≡ seed }
    {
        Draws { state: seed }
    }

    /// One draw, below a bound.
    #[tactic(auto, unfolding(crate::specs::GeneratedScript::drawn_on, crate::specs::GeneratedScript::draw))]
    pub(crate) fn below(&mut self, bound: u64) -> u64
        requires { 0 < bound }
        ensures value { result ≡ draw bound self.old }
        ensures state { self.new ≡ drawn_on self.old }
        ensures below { result < bound }
    {
        self.state = self.state.wrapping_mul(MULTIPLIER).wrapping_add(INCREMENT);
        (self.state >> 33) % bound
    }

    /// A subvolume.
    #[tactic(auto, unfolding(crate::specs::GeneratedScript::sub_drawn))]
    pub(crate) fn sub(&mut self) -> RootId
        ensures value { result ≡ sub_drawn self.old }
        ensures state { self.new ≡ drawn_on self.old }
    {
        let drawn = self.below(16);
        if drawn < 8 {
            return RootId::new(5);
        }
        RootId::new(248 + drawn)
    }

    /// A file.
    #[tactic(auto, unfolding(crate::specs::GeneratedScript::ino_drawn))]
    pub(crate) fn ino(&mut self) -> Ino
        ensures value { result ≡ ino_drawn self.old }
        ensures state { self.new ≡ drawn_on self.old }
    {
        Ino::new(257 + self.below(8))
    }

    /// A position in a file, in bytes.
    #[tactic(auto, unfolding(crate::specs::GeneratedScript::position_drawn))]
    pub(crate) fn position(&mut self) -> u64
        ensures value { result ≡ position_drawn self.old }
        ensures state { self.new ≡ drawn_on self.old }
    {
        SECTOR * self.below(64)
    }

    /// A length, in bytes.
    #[tactic(auto, unfolding(crate::specs::GeneratedScript::length_drawn))]
    pub(crate) fn length(&mut self) -> u64
        ensures value { result ≡ length_drawn self.old }
        ensures state { self.new ≡ drawn_on self.old }
    {
        SECTOR * (1 + self.below(16))
    }
}
