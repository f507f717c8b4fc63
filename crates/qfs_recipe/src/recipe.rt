//! The calls on a recipe.

ghost use Rattle.std.specs.Prelude.{◌≡◌, ℕ, ◌+◌, ◌≤◌, List, length, map, slice_range};
ghost use Rattle.std.specs.List.{range_with_len};
ghost use Rattle.qfs_base.specs.Recipe.{bytes_of, pattern_byte};

use qfs_base::recipe::{Form, Recipe};

/// The calls on a recipe. They take no memory and refuse nothing.
pub trait RecipeCalls {
    /// The bytes that the recipe stands for.
    ghost bytes: { Self → List ℕ };

    /// How many bytes the recipe stands for: at most 268,435,456.
    fn len(&self) -> u32
        ensures value { result ≡ length (bytes self.now) }
        ensures bound { result ≤ 268435456 };

    /// Writes the recipe's bytes from `offset` on, as many as `out` holds.
    fn fill(&self, offset: u32, out: &mut [u8])
        requires { offset + length out.old ≤ length (bytes self.now) }
        ensures { out.new ≡ slice_range (bytes self.now) offset (offset + length out.old) };
}

impl RecipeCalls for Recipe {
    ghost bytes = { bytes_of };

    fn len(&self) -> u32 {
        match &self.form {
            Form::Hex(bytes) => bytes.len() as u32,
            Form::Fill { len, .. } => *len,
            Form::Pattern { len, .. } => *len,
        }
    }

    fn fill(&self, offset: u32, out: &mut [u8]) {
        match &self.form {
            Form::Hex(bytes) => copy_from(bytes.as_slice(), offset as usize, out),
            Form::Fill { byte, .. } => out.fill(*byte),
            Form::Pattern { start, .. } => fill_pattern(*start, offset, out),
        }
    }
}

/// Copies the bytes from `offset` on, as many as `out` holds.
fn copy_from(bytes: &[u8], offset: usize, out: &mut [u8])
    requires { offset + length out.old ≤ length bytes.now }
    ensures { out.new ≡ slice_range bytes.now offset (offset + length out.old) }
{
    let end = offset + out.len();
    out.copy_from_slice(&bytes[offset..end]);
}

/// What a step along the pattern adds to its product.
const FACTOR: u32 = 2_654_435_761;

/// Writes the bytes of the pattern from `offset` on, as many as `out` holds. From one byte to the
/// next the product grows by the factor, so that no byte costs a product or a branch.
fn fill_pattern(start: u32, offset: u32, out: &mut [u8])
    ensures { out.new ≡ map (pattern_byte start) (range_with_len offset (length out.old)) }
{
    let mut product = start.wrapping_add(offset).wrapping_mul(FACTOR);
    for byte in out.iter_mut() {
        *byte = (product >> 24) as u8;
        product = product.wrapping_add(FACTOR);
    }
}
