//! The lines of a text, and the words of a line.
ghost use Rattle.std.specs.Prelude.{◌≡◌, ◌∷◌, [], MatchOption, position, IsTrue, ◌↔◌};
ghost use Rattle.qfs_first.specs.Lines.{text_lines, words_of, is_line_end, is_blank};

use std::marker::Model;

/// The lines of a text that are still to be read. Contracts see their list.
#[derive(Drop)]
pub struct Lines<'a> {
    rest: &'a [u8],
}

impl<'a> Model for Lines<'a> {
    ghost use Rattle.std.specs.Prelude.{ℕ, List};
    ghost use Rattle.qfs_first.specs.Lines.{text_lines};

    ghost Value = { List (List ℕ) };

    ghost view = { λ lines. text_lines lines.rest.now };
}

impl<'a> Lines<'a> {
    /// All lines of the text.
    pub fn of(text: &'a [u8]) -> Lines<'a>
        ensures { result ≡ text_lines text.now }
    {
        Lines { rest: text }
    }

    /// Takes the first line off. None says that no line is left.
    pub fn next_line(&mut self) -> Option<&'a [u8]>
        ensures { MatchOption result ((self.old ≡ []) × (self.new ≡ [])) (λ line. self.old ≡ line.now ∷ self.new) }
    {
        let text = self.rest;
        if text.is_empty() {
            return None;
        }
        match first_line_end(text) {
            Some(at) => {
                self.rest = &text[at + 1..];
                Some(&text[..at])
            }
            None => {
                self.rest = &text[text.len()..];
                Some(text)
            }
        }
    }
}

/// The place of the first line end.
fn first_line_end(text: &[u8]) -> Option<usize>
    ensures { result ≡ position is_line_end text.now }
{
    text.iter().position(|byte| *byte == b'\n')
}

/// The place of the first blank.
fn first_blank(line: &[u8]) -> Option<usize>
    ensures { result ≡ position is_blank line.now }
{
    line.iter().position(|byte| *byte == b' ')
}

/// The words of a line that are still to be read. Contracts see their list.
#[derive(Drop)]
pub struct Words<'a> {
    left: Option<&'a [u8]>,
}

impl<'a> Model for Words<'a> {
    ghost use Rattle.std.specs.Prelude.{ℕ, List};
    ghost use Rattle.qfs_first.specs.Lines.{words_left};

    ghost Value = { List (List ℕ) };

    ghost view = { λ words. words_left words.left };
}

impl<'a> Words<'a> {
    /// All words of the line.
    pub fn of(line: &'a [u8]) -> Words<'a>
        ensures { result ≡ words_of line.now }
    {
        Words { left: Some(line) }
    }

    /// Takes the first word off. None says that no word is left.
    pub fn next_word(&mut self) -> Option<&'a [u8]>
        ensures { MatchOption result ((self.old ≡ []) × (self.new ≡ [])) (λ word. self.old ≡ word.now ∷ self.new) }
    {
        let line = self.left?;
        match first_blank(line) {
            Some(at) => {
                self.left = Some(&line[at + 1..]);
                Some(&line[..at])
            }
            None => {
                self.left = None;
                Some(line)
            }
        }
    }

    /// Whether no word is left.
    pub fn is_done(&self) -> bool
        ensures { IsTrue result ↔ (self.now ≡ []) }
    {
        self.left.is_none()
    }
}
