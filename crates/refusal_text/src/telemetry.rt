//! Why a telemetry is refused.
ghost use Rattle.std.specs.Prelude.{◌≡◌, ◌+◌, ◌≤◌, [], ◌++◌, codes, decimal, length};
ghost use Rattle.arrayvec.specs.ArrayVec.{array_vec_len};
ghost use Rattle.refusal_text.specs.Model.{decimal_cause};
ghost use Rattle.refusal_text.specs.Telemetry.{column_text, fields_cause, telemetry_cause, refused_line, telemetry_refusal};

use crate::model::decimal_cause;
use crate::pieces::{push_index, push_number, push_text};
use dec_text::Line;
use telem_csv::{Col, TelemFault, TelemWhy};

/// The line that says why a telemetry of at most `limit` bytes is refused, without its line feed; where memory ran out, that it did.
pub fn telemetry_refusal(fault: &TelemFault, limit: u64) -> Line
    ensures text { result.items ≡ telemetry_refusal limit fault.now }
    ensures short { array_vec_len result ≤ 108 }
{
    let mut line = Line::new();
    if fault.why == TelemWhy::Memory {
        push_text(b"out of memory", &mut line);
        return line;
    }
    push_text(b"telemetry refused: line ", &mut line);
    push_number(fault.line, &mut line);
    push_text(b": ", &mut line);
    push_cause(fault.why, limit, &mut line);
    line
}

fn push_cause(why: TelemWhy, limit: u64, line: &mut Line)
    requires room { array_vec_len line.old + 62 ≤ 256 }
    ensures text { line.new.items ≡ line.old.items ++ telemetry_cause limit why }
    ensures longer { array_vec_len line.new ≤ array_vec_len line.old + 62 }
{
    match why {
        TelemWhy::NoHeader => push_text(b"no header", line),
        TelemWhy::NoColumn(col) => {
            push_text(b"no column for ", line);
            push_column(col, line);
        }
        TelemWhy::TwiceColumn(col) => {
            push_text(b"column twice for ", line);
            push_column(col, line);
        }
        TelemWhy::Ragged { want, got } => push_ragged(want, got, line),
        TelemWhy::Field { col, why } => {
            push_column(col, line);
            push_text(b": ", line);
            push_text(decimal_cause(why), line);
        }
        TelemWhy::NoInput { index } => {
            push_text(b"input ", line);
            push_index(index, line);
            push_text(b" is missing", line);
        }
        TelemWhy::LongLine => push_text(b"line over 4096 bytes", line),
        TelemWhy::StrayCr => push_text(b"carriage return inside a line", line),
        TelemWhy::TooLong => {
            push_text(b"file over ", line);
            push_number(limit, line);
            push_text(b" bytes", line);
        }
        TelemWhy::Memory => {}
    }
}

fn push_column(col: Col, line: &mut Line)
    requires room { array_vec_len line.old + 17 ≤ 256 }
    ensures text { line.new.items ≡ line.old.items ++ column_text col }
    ensures longer { array_vec_len line.new ≤ array_vec_len line.old + 17 }
{
    push_text(if col.input { b"input " } else { b"output " }, line);
    push_index(col.index, line);
}

fn push_ragged(want: usize, got: usize, line: &mut Line)
    requires room { array_vec_len line.old + 62 ≤ 256 }
    ensures text { line.new.items ≡ line.old.items ++ fields_cause want got }
    ensures longer { array_vec_len line.new ≤ array_vec_len line.old + 62 }
{
    push_number(want as u64, line);
    push_text(b" fields wanted, ", line);
    push_number(got as u64, line);
    push_text(b" found", line);
}
