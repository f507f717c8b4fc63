//! The limits of scripts that both words and lines keep, each named once.

/// The most actors of a script, whose numbers go from 1 to this one.
pub const MOST_ACTORS: u32 = 64;

/// The most ticks of a term and of a hibernation.
pub const MOST_TICKS: u32 = 1_000;
