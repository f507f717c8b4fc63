//! The chunks of a file: what a put stores in each slot of each block.

ghost use Rattle.std.specs.Prelude.{◌≡◌, ℕ, ◌+◌, ◌-◌, ◌*◌, ◌^◌, ◌<◌, ◌≤◌, length};
ghost use Rattle.std.specs.Prelude.{slice_index, EachIndex, IfOk};
ghost use Rattle.qfs_base.specs.Layout.{blocks_of};
ghost use Rattle.qfs_base.specs.Recipe.{bytes_of};
ghost use Rattle.qfs_base.specs.Sizes.{SLOTS, MOST_CHUNK_BYTES};
ghost use Rattle.qfs_model_slot.specs.CodeWord.{parity};
ghost use Rattle.qfs_model_slot.specs.Slot.{data_byte, data_bytes, slot_of};

use qfs_base::listing::Listing;
use qfs_base::lists::Bytes;
use qfs_base::numbers::Slot;
use qfs_base::recipe::Recipe;
use qfs_base::sizes::DATA_SLOTS;
use qfs_code::encode_slot;
use qfs_recipe::RecipeCalls;
use qfs_stripe::{Layout, LayoutCalls};
use std::alloc::{AllocError, Global};

/// The bytes of slot `slot` of block `index` of a file with these bytes, at most 67,108,864 of
/// them: a data slot holds one stripe of each row, with zeros past the file's end, and a parity
/// slot completes the code words.
pub fn chunk_of(
    alloc: Global,
    layout: &Layout,
    recipe: &Recipe,
    index: u32,
    slot: Slot,
) -> Result<Bytes, AllocError>
    requires block { index < blocks_of layout.now.s layout.now.r (length (bytes_of recipe.now)) }
    requires slot { slot < SLOTS }
    ensures value { IfOk result (λ chunk.
        chunk ≡ slot_of layout.now (bytes_of recipe.now) index slot) }
    ensures bound { IfOk result (λ chunk. length chunk ≤ MOST_CHUNK_BYTES) }
{
    let rows = layout.rows_of(recipe.len(), index);
    let stripe = layout.s as usize;
    let mut chunk = vec![in alloc; 0; rows as usize * stripe]?;
    if slot < DATA_SLOTS {
        fill_data(layout, recipe, index, slot, rows, chunk.as_mut_slice());
    } else {
        let mut six = vec![in alloc; 0; DATA_SLOTS as usize * stripe]?;
        fill_parity(
            layout,
            recipe,
            index,
            slot - DATA_SLOTS,
            rows,
            six.as_mut_slice(),
            chunk.as_mut_slice(),
        );
    }
    Ok(Listing::from_vec(chunk))
}

/// Fills `out` with the stripes of a data slot in the first `rows` rows of block `index`.
fn fill_data(layout: &Layout, recipe: &Recipe, index: u32, slot: Slot, rows: u32, out: &mut [u8])
    requires slot { slot < DATA_SLOTS }
    requires len { length out.old ≡ rows * layout.now.s }
    ensures { EachIndex out.new (λ a. slice_index out.new a
        ≡ data_byte layout.now (bytes_of recipe.now) index slot a) }
{
    let stripe = layout.s as usize;
    let row_bytes = layout.row_bytes() as usize;
    let first = index as usize * layout.block_bytes() as usize + slot as usize * stripe;
    for row in 0..rows as usize {
        let at = row * stripe;
        fill_from(recipe, first + row * row_bytes, &mut out[at..at + stripe]);
    }
}

/// Fills `out` with the bytes that complete the code words of the first `rows` rows of block
/// `index`, in the parity slot of this number, 0 to 2. `six` is room for the stripes of a row,
/// which stand one after another in the file.
fn fill_parity(
    layout: &Layout,
    recipe: &Recipe,
    index: u32,
    number: u8,
    rows: u32,
    six: &mut [u8],
    out: &mut [u8],
)
    requires number { number < 3 }
    requires six { length six.old ≡ DATA_SLOTS * layout.now.s }
    requires len { length out.old ≡ rows * layout.now.s }
    ensures { EachIndex out.new (λ a. slice_index out.new a
        ≡ parity number (data_bytes layout.now (bytes_of recipe.now) index a)) }
{
    let stripe = layout.s as usize;
    let row_bytes = layout.row_bytes() as usize;
    let first = index as usize * layout.block_bytes() as usize;
    for row in 0..rows as usize {
        let at = row * stripe;
        fill_from(recipe, first + row * row_bytes, six);
        encode_slot(six, stripe, number, &mut out[at..at + stripe]);
    }
}

/// Fills `out` with the recipe's bytes from `from` on, and with zeros past the last of them.
fn fill_from(recipe: &Recipe, from: usize, out: &mut [u8])
    ensures { EachIndex out.new (λ i. slice_index out.new i
        ≡ slice_index (bytes_of recipe.now) (from + i)) }
{
    let len = recipe.len() as usize;
    let start = from.min(len);
    let count = out.len().min(len - start);
    let (filled, past) = out.split_at_mut(count);
    recipe.fill(start as u32, filled);
    past.fill(0);
}
