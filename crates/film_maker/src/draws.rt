ghost use Rattle.std.specs.Prelude.{◌≡◌, ◌<◌};
ghost use Rattle.model_trial.specs.Draws.{generator, draw};

use rand_core::SeedableRng;
use rand_core::utils::NextWord;
use rand_pcg::Pcg32;
use std::marker::Model;

/// Numbers that are drawn one after the other by the words of PCG32. Contracts see the state of the
/// generator.
#[derive(Drop)]
pub struct Draws {
    generator: Pcg32,
}

impl Model for Draws {
    ghost use Rattle.rand_pcg.specs.Lcg.{Lcg};

    ghost Value = { Lcg };

    ghost view = { λ a. a.generator };
}

impl Draws {
    /// The draws of the generator that a number makes.
    #[tactic(auto, unfolding(model_trial::specs::Draws::generator))]
    pub fn new(number: u64) -> Draws
        ensures { result ≡ generator number }
    {
        Draws {
            generator: Pcg32::seed_from_u64(number),
        }
    }

    /// The next number below a bound: what is left of the generator's next word where it is divided
    /// by the bound.
    #[tactic(auto, unfolding(model_trial::specs::Draws::draw))]
    pub fn draw(&mut self, bound: u32) -> u32
        requires { 0 < bound }
        ensures drawn { (result, self.new) ≡ draw bound self.old }
        ensures below { result < bound }
    {
        self.generator.next_word() % bound
    }
}
