//! The lines of a text, and the words of a line.
ghost use Rattle.std.specs.Prelude.{◌≡◌, ◌∷◌, [], MatchOption, position, IsTrue, ◌↔◌, All};
ghost use Rattle.qfs_model_grammar.specs.Lines.{text_lines, line_words, is_line_end, is_blank, is_text};
ghost use Rattle.qfs_lexer.specs.Left.{pieces_of, words_among, IsTextByte};

use std::marker::Model;

/// The lines of a text that are still to be read. Contracts see their list.
#[derive(Drop)]
pub struct Lines<'a> {
    rest: &'a [u8],
}

impl<'a> Model for Lines<'a> {
    ghost use Rattle.std.specs.Prelude.{ℕ, List};
    ghost use Rattle.qfs_model_grammar.specs.Lines.{text_lines};

    ghost Value = { List (List ℕ) };

    ghost view = { λ lines. text_lines lines.rest.now };
}

impl<'a> Lines<'a> {
    /// All lines of the text.
    pub fn of(text: &'a [u8]) -> Lines<'a>
        ensures { result ≡ text_lines text.now }
    {
        Lines { rest: text }
    }

    /// Takes the first line off. None says that no line is left.
    pub fn next_line(&mut self) -> Option<&'a [u8]>
        ensures { MatchOption result ((self.old ≡ []) × (self.new ≡ []))
            (λ line. self.old ≡ line.now ∷ self.new) }
    {
        let text = self.rest;
        if text.is_empty() {
            return None;
        }
        match first_line_end(text) {
            Some(at) => {
                self.rest = &text[at + 1..];
                Some(&text[..at])
            }
            None => {
                self.rest = &text[text.len()..];
                Some(text)
            }
        }
    }
}

/// The place of the first line end.
fn first_line_end(text: &[u8]) -> Option<usize>
    ensures { result ≡ position is_line_end text.now }
{
    text.iter().position(|byte| *byte == b'\n')
}

/// The place of the first blank.
fn first_blank(line: &[u8]) -> Option<usize>
    ensures { result ≡ position is_blank line.now }
{
    line.iter().position(|byte| *byte == b' ')
}

/// Whether each byte is a blank or visible in ASCII.
fn all_visible(line: &[u8]) -> bool
    ensures { IsTrue result ↔ All IsTextByte line.now }
{
    line.iter().all(|byte| b' ' <= *byte && *byte <= b'~')
}

/// Whether a line has no byte but blanks and what is visible in ASCII.
pub fn is_text(line: &[u8]) -> bool
    ensures { result ≡ is_text line.now }
{
    all_visible(line)
}

/// What stands between the blanks of a line, as far as it is still to be read. Contracts see the
/// list of pieces, of which those between two neighbouring blanks are empty.
#[derive(Drop)]
struct Pieces<'a> {
    left: Option<&'a [u8]>,
}

impl<'a> Model for Pieces<'a> {
    ghost use Rattle.std.specs.Prelude.{ℕ, List};
    ghost use Rattle.qfs_lexer.specs.Left.{pieces_left};

    ghost Value = { List (List ℕ) };

    ghost view = { λ pieces. pieces_left pieces.left };
}

impl<'a> Pieces<'a> {
    fn of(line: &'a [u8]) -> Pieces<'a>
        ensures { result ≡ pieces_of line.now }
    {
        Pieces { left: Some(line) }
    }

    /// Takes the first piece off. None says that none is left.
    fn next_piece(&mut self) -> Option<&'a [u8]>
        ensures { MatchOption result ((self.old ≡ []) × (self.new ≡ []))
            (λ piece. self.old ≡ piece.now ∷ self.new) }
    {
        let line = self.left?;
        match first_blank(line) {
            Some(at) => {
                self.left = Some(&line[at + 1..]);
                Some(&line[..at])
            }
            None => {
                self.left = None;
                Some(line)
            }
        }
    }
}

/// The words of a line that are still to be read. Contracts see their list.
#[derive(Drop)]
pub struct Words<'a> {
    pieces: Pieces<'a>,
}

impl<'a> Model for Words<'a> {
    ghost use Rattle.std.specs.Prelude.{ℕ, List};
    ghost use Rattle.qfs_lexer.specs.Left.{words_among};

    ghost Value = { List (List ℕ) };

    ghost view = { λ words. words_among words.pieces };
}

impl<'a> Words<'a> {
    /// All words of the line.
    #[tactic(auto, unfolding(qfs_model_grammar::specs::Lines::line_words, crate::specs::Left::words_among, crate::specs::Left::pieces_of))]
    pub fn of(line: &'a [u8]) -> Words<'a>
        ensures { result ≡ line_words line.now }
    {
        Words {
            pieces: Pieces::of(line),
        }
    }

    /// Takes the first word off. None says that no word is left.
    pub fn next_word(&mut self) -> Option<&'a [u8]>
        ensures { MatchOption result ((self.old ≡ []) × (self.new ≡ []))
            (λ word. self.old ≡ word.now ∷ self.new) }
    {
        first_word(&mut self.pieces)
    }
}

/// Takes pieces off up to the first word. None says that no word is among them.
#[tactic(auto, unfolding(crate::specs::Left::words_among))]
fn first_word<'a>(pieces: &mut Pieces<'a>) -> Option<&'a [u8]>
    ensures { MatchOption result ((words_among pieces.old ≡ []) × (words_among pieces.new ≡ []))
        (λ word. words_among pieces.old ≡ word.now ∷ words_among pieces.new) }
{
    while let Some(piece) = pieces.next_piece() {
        if !piece.is_empty() {
            return Some(piece);
        }
    }
    None
}
