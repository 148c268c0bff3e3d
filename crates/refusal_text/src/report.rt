//! Where a report is refused.
ghost use Rattle.std.specs.Prelude.{◌≡◌, ◌≤◌};
ghost use Rattle.arrayvec.specs.ArrayVec.{array_vec_len};
ghost use Rattle.refusal_text.specs.Report.{report_refusal};

use crate::pieces::{push_number, push_text};
use dec_text::Line;

/// The line that says at which line, from 1, a report is refused, without its line feed.
pub fn report_refusal(number: u64) -> Line
    ensures text { result.items ≡ report_refusal number }
    ensures short { array_vec_len result ≤ 41 }
{
    let mut line = Line::new();
    push_text(b"report refused: line ", &mut line);
    push_number(number, &mut line);
    line
}
