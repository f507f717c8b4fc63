//! What a range takes of bytes of a file.

ghost use Rattle.std.specs.Prelude.{◌≡◌, take, drop};
ghost use Rattle.qfs_model_actor.specs.Windows.{cut_to_range};

/// The first `count` bytes of these, or all where there are fewer.
fn first_bytes(bytes: &[u8], count: u32) -> &[u8]
    ensures { result.now ≡ take count bytes.now }
{
    let end = bytes.len().min(count as usize);
    &bytes[..end]
}

/// These bytes without the first `count`, or none where there are fewer.
fn bytes_behind(bytes: &[u8], count: u32) -> &[u8]
    ensures { result.now ≡ drop count bytes.now }
{
    let start = bytes.len().min(count as usize);
    &bytes[start..]
}

/// Of bytes that begin at byte `start` of a file, those from byte `from` up to byte `to`.
#[tactic(auto, unfolding(qfs_model_actor::specs::Windows::cut_to_range))]
pub fn cut_to_range(from: u32, to: u32, start: u32, bytes: &[u8]) -> &[u8]
    ensures { result.now ≡ cut_to_range from to start bytes.now }
{
    let count = to.saturating_sub(from.max(start));
    first_bytes(bytes_behind(bytes, from.saturating_sub(start)), count)
}
