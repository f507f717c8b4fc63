//! What requests read of a state before they decide.
ghost use Rattle.std.specs.Prelude.{◌≡◌, length, IfOk};

use qfs_base::numbers::Place;
use qfs_state::State;
use std::alloc::AllocError;

/// The place of a request in the file history. None is left where the history has more
/// entries than 32 bits count.
pub fn place_of(state: &State) -> Result<Place, AllocError>
    ensures { IfOk result (λ place. place ≡ length state.now.image.history) }
{
    match Place::try_from(state.names().place()) {
        Ok(place) => Ok(place),
        Err(_) => Err(AllocError),
    }
}
