//! The turn, and the places of the history.
ghost use Rattle.std.specs.Prelude.{◌≡◌, length};
ghost use Rattle.qfs_model_meta.specs.Step.{next_turn};
ghost use Rattle.qfs_meta.specs.Kept.{IsKept};

use qfs_base::image::MetaImage;
use qfs_base::numbers::Place;

/// The place at which a request is decided: the number of entries in the file history.
pub fn next_place(image: &MetaImage) -> Place
    requires { IsKept image.now }
    ensures { result ≡ length image.now.history }
{
    image.history.len() as Place
}

/// Raises the turn, as each request that is logged does.
#[tactic(auto, unfolding(qfs_model_meta::specs::Step::next_turn))]
pub fn raise_turn(image: &mut MetaImage)
    ensures { image.new ≡ next_turn image.old }
{
    image.turn = image.turn.saturating_add(1);
}
