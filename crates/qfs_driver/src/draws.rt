//! Whose turn it is, drawn from a number.
ghost use Rattle.std.specs.Prelude.{◌≡◌, ℕ, ◌<◌, length, Some};
ghost use Rattle.rand_pcg.specs.Pcg.{pcg32};
ghost use Rattle.qfs_model_world.specs.Drawn.{generator_of, drawn_of};

use qfs_base::numbers::ActorId;
use rand_core::utils::NextWord;
use rand_pcg::Pcg32;

/// The stream of the generator that draws orders.
const ORDER_STREAM: u64 = 11;

/// The generator that a number gives.
#[tactic(auto, unfolding(qfs_model_world::specs::Drawn::generator_of))]
pub fn generator_of(number: u64) -> Pcg32
    ensures { result ≡ generator_of number }
{
    Pcg32::new(number, ORDER_STREAM)
}

/// Draws one of the actors whose turn it may be: the one at the place of the generator's next word.
#[tactic(auto, unfolding(qfs_model_world::specs::Drawn::drawn_of))]
pub fn draw(generator: &mut Pcg32, turns: &[ActorId]) -> ActorId
    requires { 0 < length turns.now }
    ensures drawn { drawn_of turns.now (pcg32 generator.old).0 ≡ Some result }
    ensures next { generator.new ≡ (pcg32 generator.old).1 }
{
    let word = generator.next_word();
    turns[word as usize % turns.len()]
}
