//! The bytes of a chunk on their way to a server.

ghost use Rattle.std.specs.Prelude.{◌≡◌, IsTrue};

use qfs_base::lists::Bytes;
use qfs_machine::Ghost;
use std::marker::Model;

/// The bytes of a chunk. Contracts see them also once they were handed on, and then nothing is kept
/// of them.
#[derive(Drop)]
pub struct Chunk {
    held: Option<Bytes>,
    bytes: Ghost<Bytes>,
}

impl Model for Chunk {
    ghost use Rattle.qfs_repair.specs.Chunks.{ChunkState, IsHeldAs};
    ghost use Rattle.std.specs.Option.{is_some};

    ghost Value = { ChunkState };

    ghost view = { λ it. record { bytes = it.bytes.value; is_held = is_some it.held } };

    ghost invariant = { λ it. IsHeldAs it.bytes.value it.held };
}

impl Chunk {
    /// These bytes, at hand. Takes no memory.
    pub fn new(bytes: Bytes) -> Chunk
        ensures bytes { result.bytes ≡ bytes }
        ensures held { IsTrue result.is_held }
    {
        let seen = Ghost::of(&bytes, &());
        Chunk {
            held: Some(bytes),
            bytes: seen,
        }
    }

    /// Hands the bytes on, which are at hand, with no copy of them.
    pub fn hand_on(&mut self) -> Bytes
        requires { IsTrue self.old.is_held }
        ensures handed { result ≡ self.old.bytes }
        ensures bytes { self.new.bytes ≡ self.old.bytes }
    {
        match self.held.take() {
            Some(bytes) => bytes,
            None => unreachable!(),
        }
    }
}
