//! A text as the line of a report that it is.
ghost use Rattle.std.specs.Prelude.{◌≡◌, ◌↔◌, ◌<◌, length, IfOk, IfSome, IfNone, IsTrue, true};
ghost use Rattle.report_text.specs.Line.{Line, line_text, has_printable_ends};
ghost use Rattle.report_text.specs.Ranges.{is_in_range, IsLine};
ghost use Rattle.report_text.specs.Seen.{line_of};

use crate::RepLine;
use crate::guess::candidate;
use crate::range::is_in_range;
use crate::write::write_line;

/// The most bytes of a line, without its line feed.
const MOST_BYTES: usize = 256;

/// Why a text is no line of a report.
#[derive(Clone, Copy, Debug, PartialEq, Eq)]
pub enum BadLine {
    /// It has more than 256 bytes.
    TooLong,
    /// It is the text of no line.
    NoForm,
}

/// The line whose text this is, without its line feed. A line has one text, and no other spelling is read.
pub fn read_line(text: &[u8]) -> Result<RepLine, BadLine>
    ensures line { IfOk result (λ rep. IsLine text.now (line_of rep)) }
    ensures too_long { (result ≡ Err BadLine.TooLong) ↔ (256 < length text.now) }
    ensures ends { IfOk result (λ rep. has_printable_ends (line_of rep) ≡ true) }
    ensures no_form { result ≡ Err BadLine.NoForm → (l : Line) → ¬ IsLine text.now l }
{
    if text.len() > MOST_BYTES {
        return Err(BadLine::TooLong);
    }
    spelled_line(text).ok_or(BadLine::NoForm)
}

/// The line that the text spells.
fn spelled_line(text: &[u8]) -> Option<RepLine>
    ensures line { IfSome result (λ rep. IsLine text.now (line_of rep)) }
    ensures none { IfNone result ((l : Line) → ¬ IsLine text.now l) }
{
    let rep = candidate(text);
    if is_line(text, &rep) { Some(rep) } else { None }
}

/// Whether the text is this line.
fn is_line(text: &[u8], rep: &RepLine) -> bool
    ensures { IsTrue result ↔ IsLine text.now (line_of rep.now) }
{
    is_in_range(rep) && is_spelled(text, rep)
}

/// Whether the text is that of this line.
fn is_spelled(text: &[u8], rep: &RepLine) -> bool
    requires { has_printable_ends (line_of rep.now) ≡ true }
    ensures { IsTrue result ↔ (text.now ≡ line_text (line_of rep.now)) }
{
    write_line(rep).as_slice() == text
}
