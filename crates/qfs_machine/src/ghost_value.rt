//! A value that only clauses read.
ghost use Rattle.std.specs.Prelude.{◌≡◌};
ghost use base.Fml.{ftrue};

use std::marker::{Model, PhantomData, Send, Sync};

/// A `T` as clauses see it. It has no bytes and owns nothing, so that an actor can say what it
/// was told without keeping it.
pub struct Ghost<T> {
    marker: PhantomData<T>,
    pub ghost value: { T },
}

impl<T> Model for Ghost<T> {
    ghost also_owns = { λ _. ftrue };
}

impl<T> Ghost<T> {
    /// The value that the caller's proof picks, of what these two show.
    pub fn of<A, B>(first: &A, second: &B) -> Ghost<T>
        ghost next: { T }
        ensures { result.value ≡ next }
    {
        let _ = first;
        let _ = second;
        Ghost {
            marker: PhantomData,
        }
    }
}

unsafe impl<T> Send for Ghost<T> {}

unsafe impl<T> Sync for Ghost<T> {}

impl<T> Drop for Ghost<T> {
    fn drop(self) {
        let Self { marker: _ } = self;
    }
}
