//! A list with promised room, for changes that may not fail: the room is made first, and what
//! comes later goes into it without memory.
ghost use Rattle.std.specs.Prelude.{◌≡◌, ◌+◌, ◌<◌, ◌≤◌, [], ◌∷◌, ◌++◌, length, take, insert, remove, slice_get, IsOk, IfOk, OnOk, OnErr};
ghost use Rattle.qfs_base.specs.Reserved.{room_of};

use crate::listing::Listing;
use std::alloc::{AllocError, Global};
use std::marker::Model;

/// A list that says how many items more it takes without memory. A `Listing` is seen as its items
/// alone, as messages and records need; whoever has to know of room keeps this.
#[derive(Drop)]
pub struct ReservedList<T> {
    items: Vec<T>,
}

impl<T> Model for ReservedList<T> {
    ghost use Rattle.std.specs.Prelude.{◌-◌, vec_len, vec_capacity};
    ghost use Rattle.qfs_base.specs.Reserved.{Reserved, reserved_code};

    ghost Value = { Reserved T };

    ghost coded = { reserved_code T.code };

    ghost view = { λ it. record {
      items = it.items.items;
      spare = vec_capacity it.items - vec_len it.items;
    } };
}

impl<T> ReservedList<T> {
    /// The empty list, which takes no memory and has no room.
    pub fn new(alloc: Global) -> ReservedList<T>
        ensures items { result.items ≡ [] }
    {
        ReservedList {
            items: Vec::new(alloc),
        }
    }

    /// The empty list, with room for `room` items.
    pub fn with_capacity(alloc: Global, room: usize) -> Result<ReservedList<T>, AllocError>
        ensures items { IfOk result (λ list. list.items ≡ []) }
        ensures spare { IfOk result (λ list. room ≤ list.spare) }
    {
        let items = Vec::with_capacity(alloc, room)?;
        Ok(ReservedList { items })
    }

    /// The items of a list, with the room that it has.
    pub fn from_listing(list: Listing<T>) -> ReservedList<T>
        ensures items { result.items ≡ list }
    {
        ReservedList {
            items: list.into_vec(),
        }
    }

    /// The items as a list.
    pub fn into_listing(self) -> Listing<T>
        ensures { result ≡ self.items }
    {
        let ReservedList { items } = self;
        Listing::from_vec(items)
    }

    pub fn as_slice(&self) -> &[T]
        ensures { result.now ≡ self.now.items }
    {
        self.items.as_slice()
    }

    pub fn len(&self) -> usize
        ensures { result ≡ length self.now.items }
    {
        self.items.len()
    }

    /// Makes room for `more` items beside those that are there. Where that room is there it takes
    /// no memory and can't fail; on want of memory the list and its room stay.
    pub fn reserve(&mut self, more: usize) -> Result<(), AllocError>
        ensures items { self.new.items ≡ self.old.items }
        ensures kept { self.old.spare ≤ self.new.spare }
        ensures ok { OnOk result (more ≤ self.new.spare) }
        ensures err { OnErr result (self.new.spare ≡ self.old.spare) }
        ensures succeeds { more ≤ self.old.spare → IsOk result }
    {
        self.items.reserve(more)
    }

    /// Puts an item at the end, into room that is there.
    pub fn push_reserved(&mut self, item: T)
        requires { 0 < self.old.spare }
        ensures items { self.new.items ≡ self.old.items ++ item ∷ [] }
        ensures spare { self.new.spare + 1 ≡ self.old.spare }
    {
        self.items.push_reserved(item);
    }

    /// Takes the item at `at` out; those behind it move up, and its room is there again.
    pub fn remove(&mut self, at: usize) -> T
        requires { at < length self.old.items }
        ensures item { slice_get self.old.items at ≡ Some result }
        ensures rest { self.new.items ≡ remove self.old.items at }
        ensures spare { self.new.spare ≡ self.old.spare + 1 }
    {
        self.items.remove(at)
    }
}

impl<T: Drop> ReservedList<T> {
    /// Puts an item before the one that is at `at`, or at the end, into room that is there.
    pub fn insert_reserved(&mut self, at: usize, item: T)
        requires within { at ≤ length self.old.items }
        requires room { 0 < self.old.spare }
        ensures items { self.new.items ≡ insert self.old.items at item }
        ensures spare { self.new.spare + 1 ≡ self.old.spare }
    {
        let _there_was_room = self.items.insert(at, item);
    }

    /// Keeps the first `len` items, or all where there are fewer. The room of the others is there
    /// again.
    pub fn truncate(&mut self, len: usize)
        ensures items { self.new.items ≡ take len self.old.items }
        ensures room { room_of self.new ≡ room_of self.old }
    {
        self.items.truncate(len);
    }
}
