//! What a get keeps of the bytes that it has read.
#![tactic(auto, unfolding(qfs_model_actor::specs::Shown::shown_if_few, qfs_model_actor::specs::Shown::excerpt_of))]

ghost use Rattle.std.specs.Prelude.{◌≡◌, ◌+◌, ◌<◌, ◌^◌, [], ◌++◌, length, IfOk};
ghost use Rattle.qfs_model_actor.specs.Shown.{excerpt_of};
ghost use Rattle.qfs_reader.specs.ReadSoFar.{shown_of};

use qfs_base::command::{Excerpt, Shown};
use qfs_base::listing::Listing;
use qfs_base::lists::Bytes;
use qfs_machine::Ghost;
use sha2::{Digest, Sha256};
use std::alloc::{AllocError, Global};
use std::marker::Model;

/// The most bytes that are shown as they are.
const MOST_SHOWN: usize = 32;

/// The bytes that a get has read so far. Contracts see all of them. What is kept is how many they
/// are, the bytes themselves as long as they are at most 32, and a hasher that has taken them.
#[derive(Drop)]
pub struct ReadSoFar {
    len: u32,
    first: [u8; 32],
    hasher: Sha256,
    read: Ghost<Bytes>,
}

impl Model for ReadSoFar {
    ghost use Rattle.std.specs.Prelude.{List, ℕ};

    ghost Value = { List ℕ };

    ghost use Rattle.qfs_reader.specs.ReadSoFar.{IsReadSoFar};

    ghost view = { λ got. got.read.value };

    ghost invariant = { λ got. IsReadSoFar got.len got.first got.hasher got.read.value };
}

impl ReadSoFar {
    /// No bytes yet. Takes no memory.
    pub fn nothing() -> ReadSoFar
        ensures { result ≡ [] }
    {
        let hasher = Sha256::new();
        let read = Ghost::of(&(), &());
        ReadSoFar {
            len: 0,
            first: [0; 32],
            hasher,
            read,
        }
    }

    /// Puts bytes behind those that were read. Takes no memory.
    pub fn add(&mut self, bytes: &[u8])
        requires { length self.old + length bytes.now < 2 ^ 32 }
        ensures { self.new ≡ self.old ++ bytes.now }
    {
        let len = self.len as usize;
        let end = len + bytes.len();
        if end <= MOST_SHOWN {
            self.first[len..end].copy_from_slice(bytes);
        }
        self.hasher.update(bytes);
        self.len = end as u32;
        self.read = Ghost::of(&self.read, &bytes);
    }

    /// What is shown of the bytes: all of them or, of more than 32, their SHA-256.
    fn shown(&self, alloc: Global) -> Result<Shown, AllocError>
        ensures { IfOk result (λ shown. shown ≡ shown_of self.now) }
    {
        let len = self.len as usize;
        if len <= MOST_SHOWN {
            let whole = Listing::from_slice(alloc, &self.first[..len])?;
            Ok(Shown::Whole(whole))
        } else {
            let digest = self.hasher.clone()?.finalize();
            let digest = Listing::from_slice(alloc, &digest)?;
            Ok(Shown::Digest(digest))
        }
    }

    /// What is kept of the bytes: how many they are, and what is shown of them.
    pub fn excerpt(&self, alloc: Global) -> Result<Excerpt, AllocError>
        ensures { IfOk result (λ excerpt. excerpt ≡ excerpt_of self.now) }
    {
        let shown = self.shown(alloc)?;
        Ok(Excerpt {
            len: self.len,
            shown,
        })
    }
}
