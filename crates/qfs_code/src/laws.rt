//! The laws of the code, each the contract of a function that does nothing.

ghost use Rattle.std.specs.Prelude.{◌≡◌, ◌≢◌, ℕ, ◌<◌, ◌≤◌, List, ◌++◌, length, All, true};
ghost use Rattle.qfs_base.specs.Mask.{IsMask, has_slot};
ghost use Rattle.qfs_base.specs.Sizes.{SLOTS, DATA_SLOTS};
ghost use Rattle.qfs_model_slot.specs.CodeWord.{AreCodeWords, slot_at};
ghost use Rattle.qfs_model_slot.specs.Restored.{dot, counts_of, cross, restored};
ghost use Rattle.qfs_code.specs.Code.{parity_slots};

/// Six slots of bytes and their parity slots are a code word at each offset.
pub fn slots_with_parity_are_code_words()
    ensures { (size : ℕ) (six : List (List ℕ)) → length six ≡ DATA_SLOTS
        → All (λ slot. length slot ≡ size) six
        → All (λ slot. All (λ byte. byte < 256) slot) six
        → AreCodeWords size (six ++ parity_slots size six) }
{}

/// Whatever three slots are lost, the others determine them: what any three slots count in the three equations of a code
/// word has a determinant other than 0. Of the three, those that are parity slots leave each minor of one, two or three
/// rows and columns of what the data slots count.
pub fn any_three_slots_are_independent()
    ensures { (a b c : ℕ) → a < SLOTS → b < SLOTS → c < SLOTS → a ≢ b → c ≢ a → c ≢ b
        → dot (cross (counts_of a) (counts_of b)) (counts_of c) ≢ 0 }
{}

/// Of code words, a slot that is restored from six or more is the slot.
pub fn restored_slots_are_the_slots()
    ensures { (have : List ℕ) (size : ℕ) (nine slots : List (List ℕ)) (want : ℕ)
        → IsMask have → DATA_SLOTS ≤ length have → want < SLOTS → length nine ≡ SLOTS
        → AreCodeWords size slots
        → ((j : ℕ) → has_slot have j ≡ true → slot_at nine j ≡ slot_at slots j)
        → restored have size nine want ≡ slot_at slots want }
{}

/// What stands in the place of a slot that isn't at hand has no influence on a restored slot.
pub fn slots_not_at_hand_have_no_influence()
    ensures { (have : List ℕ) (size : ℕ) (nine others : List (List ℕ)) (want : ℕ)
        → length nine ≡ length others
        → ((j : ℕ) → has_slot have j ≡ true → slot_at nine j ≡ slot_at others j)
        → restored have size nine want ≡ restored have size others want }
{}
