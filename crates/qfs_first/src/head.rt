//! The lines of a script before its commands.
ghost use Rattle.std.specs.Prelude.{◌≡◌, IsTrue, ◌↔◌};
ghost use Rattle.std.specs.Str.{bytes_eq};
ghost use Rattle.qfs_first.specs.Head.{fixed_form, layout_form, servers_form, is_shape};
ghost use Rattle.qfs_first.specs.Script.{Says, read_line, read_head};

use crate::lines::{Lines, Words};
use crate::numbers::number_below;
use qfs_stripe::{Layout, LayoutCalls};

/// The layout that a line `layout S R` says: stripes of S bytes, a power of two from 16 to 65,536,
/// and chunks of at most R rows, 1 to 1,024. None says that the line is of another form.
#[tactic(auto, unfolding(crate::specs::Head::layout_form))]
fn layout_of(line: &[u8]) -> Option<Layout>
    ensures { result ≡ layout_form line.now }
{
    let mut words = Words::of(line);
    let word = words.next_word()?;
    let stripe = words.next_word()?;
    let rows = words.next_word()?;
    if !words.is_done() || word != b"layout".as_slice() {
        return None;
    }
    Layout::new(number_below(65_537, stripe)?, number_below(1_025, rows)?)
}

/// The number of servers that a line `servers N` says: 9 to 64. None says that the line is of
/// another form.
#[tactic(auto, unfolding(crate::specs::Head::servers_form))]
fn servers_of(line: &[u8]) -> Option<u16>
    ensures { result ≡ servers_form line.now }
{
    let mut words = Words::of(line);
    let word = words.next_word()?;
    let count = words.next_word()?;
    if !words.is_done() || word != b"servers".as_slice() {
        return None;
    }
    match number_below(65, count) {
        Some(count) if 9 <= count => Some(count as u16),
        _ => None,
    }
}

/// Reads a line that is to be these bytes. The error is the line's number.
fn fixed_line(number: u32, fixed: &[u8], lines: &mut Lines<'_>) -> Result<(), u32>
    ensures { Says (read_line number (fixed_form fixed.now) lines.old) lines.new result }
{
    match lines.next_line() {
        Some(line) if line == fixed => Ok(()),
        _ => Err(number),
    }
}

/// Reads the layout's line. The error is the line's number.
fn layout_line(number: u32, lines: &mut Lines<'_>) -> Result<Layout, u32>
    ensures { Says (read_line number layout_form lines.old) lines.new result }
{
    let line = lines.next_line().ok_or(number)?;
    layout_of(line).ok_or(number)
}

/// Reads the line of the servers. The error is the line's number.
fn servers_line(number: u32, lines: &mut Lines<'_>) -> Result<u16, u32>
    ensures { Says (read_line number servers_form lines.old) lines.new result }
{
    let line = lines.next_line().ok_or(number)?;
    servers_of(line).ok_or(number)
}

/// Reads the five lines before the commands: the layout, and the number of servers. The error is
/// the number of the first line that is of another form or isn't there.
#[tactic(auto, unfolding(crate::specs::Script::read_head))]
pub fn read_head(lines: &mut Lines<'_>) -> Result<(Layout, u16), u32>
    ensures { Says (read_head lines.old) lines.new result }
{
    fixed_line(1, b"qfs 1", lines)?;
    let layout = layout_line(2, lines)?;
    let servers = servers_line(3, lines)?;
    fixed_line(4, b"phase", lines)?;
    fixed_line(5, b"actor 1", lines)?;
    Ok((layout, servers))
}
