//! Laws of the code over files: the slots of a block are code words, and so six of them give each.
#![tactic(auto)]

ghost use Rattle.std.specs.Prelude.{◌≡◌, ℕ, ◌+◌, ◌<◌, ◌≤◌, List, All, length, map, true};
ghost use Rattle.qfs_base.specs.Mask.{IsMask, has_slot};
ghost use Rattle.qfs_base.specs.Shape.{Shape};
ghost use Rattle.qfs_base.specs.Sizes.{SLOTS, DATA_SLOTS};
ghost use Rattle.qfs_model_slot.specs.CodeWord.{AreCodeWords, slot_at};
ghost use Rattle.qfs_model_slot.specs.Restored.{restored};
ghost use Rattle.qfs_model_slot.specs.Slot.{chunk_len};
ghost use Rattle.qfs_laws_code.specs.Parts.{part, part_of_slot, slots_of_block};

/// The nine slots of a block of a file are code words, as long as the block's chunks.
pub fn slots_of_blocks_are_code_words()
    ensures { (layout : Shape) (bytes : List ℕ) (k : ℕ) → All (λ byte. byte < 256) bytes
        → AreCodeWords (chunk_len layout (length bytes) k) (slots_of_block layout bytes k) }
{}

/// The same part of each of nine slots that are code words is one too.
pub fn parts_are_code_words()
    ensures { (size at count : ℕ) (slots : List (List ℕ))
        → at + count ≤ size → AreCodeWords size slots
        → AreCodeWords count (map (part at count) slots) }
{}

/// Six or more right slots of a block, read over any part of their bytes, give that part of each
/// slot, whatever stands in the places of the others.
pub fn six_slots_give_each()
    ensures { (layout : Shape) (bytes : List ℕ) (k at count : ℕ)
        (have : List ℕ) (nine : List (List ℕ)) (want : ℕ)
        → All (λ byte. byte < 256) bytes → at + count ≤ chunk_len layout (length bytes) k
        → IsMask have → DATA_SLOTS ≤ length have → want < SLOTS → length nine ≡ SLOTS
        → ((j : ℕ) → j < SLOTS → has_slot have j ≡ true
        → slot_at nine j ≡ part_of_slot layout bytes k at count j)
        → restored have count nine want ≡ part_of_slot layout bytes k at count want }
{}
