//! What a log disk in memory was asked to do to its bytes.

/// A call of a log disk that succeeded.
#[derive(Drop)]
pub enum DiskCall {
    /// These bytes were written at this offset.
    Write { at: u64, bytes: Vec<u8> },
    /// The file was cut to this length.
    Cut { len: u64 },
    /// What was written and cut was settled.
    Sync,
}
