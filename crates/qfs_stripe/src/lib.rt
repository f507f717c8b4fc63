//! The layout of files: which block, row and slot each byte stands in, and the windows of rows in
//! which a range is read.
#![tactic(auto)]

mod block_windows;
mod layout;
mod windows;

pub use block_windows::BlockWindows;
pub use layout::LayoutCalls;
pub use qfs_base::layout::{Layout, Spot, Window};
pub use windows::Windows;
