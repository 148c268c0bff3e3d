//! Why a model file is refused.
ghost use Rattle.std.specs.Prelude.{◌≡◌, ◌+◌, ◌≤◌, [], ◌++◌, codes, decimal, length};
ghost use Rattle.arrayvec.specs.ArrayVec.{array_vec_len};
ghost use Rattle.refusal_text.specs.Model.{index_text, field_place, path_text, count_place, decimal_cause, shape_cause};
ghost use Rattle.refusal_text.specs.Model.{refused_at, model_refusal};

use crate::pieces::{push_index, push_number, push_text};
use dec_text::{DecFault, Line};
use model_file::{Count, Field, ModelFault, Path};

/// The line that says why a model file is refused, without its line feed; where memory ran out, that it did.
pub fn model_refusal(fault: &ModelFault) -> Line
    ensures text { result.items ≡ model_refusal fault.now }
    ensures short { array_vec_len result ≤ 160 }
{
    let mut line = Line::new();
    match fault {
        ModelFault::NotToml => push_text(b"model refused: not TOML", &mut line),
        ModelFault::Missing { path } => push_refusal(path, b"missing", &mut line),
        ModelFault::Kind { path } => push_refusal(path, b"wrong kind", &mut line),
        ModelFault::Decimal { path, why } => push_refusal(path, decimal_cause(*why), &mut line),
        ModelFault::Shape { path, want, got } => {
            push_refusal(path, b"", &mut line);
            push_shape(*want, *got, &mut line);
        }
        ModelFault::Over { path } => push_refusal(path, b"out of range", &mut line),
        ModelFault::Name { path } => push_refusal(path, b"bad name", &mut line),
        ModelFault::TooMany { what, got, at } => push_too_many(*what, *got, *at, &mut line),
        ModelFault::Memory => push_text(b"out of memory", &mut line),
    }
    line
}

/// Starts a line with a place and a cause.
fn push_refusal(path: &Path, cause: &[u8], line: &mut Line)
    requires empty { line.old.items ≡ [] }
    requires short { length cause.now ≤ 22 }
    ensures text { line.new.items ≡ refused_at (path_text path.now) cause.now }
    ensures longer { array_vec_len line.new ≤ 93 }
{
    push_text(b"model refused: ", line);
    push_path(path, line);
    push_text(b": ", line);
    push_text(cause, line);
}

pub(crate) fn decimal_cause(why: DecFault) -> &'static [u8]
    ensures text { result.now ≡ decimal_cause why }
    ensures short { length result.now ≤ 22 }
{
    match why {
        DecFault::Shape => b"not a decimal",
        DecFault::TooLarge => b"too large",
        DecFault::TooFine => b"finer than 0.000000001",
    }
}

fn push_shape(want: usize, got: usize, line: &mut Line)
    requires room { array_vec_len line.old + 63 ≤ 256 }
    ensures text { line.new.items ≡ line.old.items ++ shape_cause want got }
    ensures longer { array_vec_len line.new ≤ array_vec_len line.old + 63 }
{
    push_number(want as u64, line);
    push_text(b" entries wanted, ", line);
    push_number(got as u64, line);
    push_text(b" found", line);
}

/// Starts a line with the place of a count and the count.
fn push_too_many(what: Count, got: u64, at: Option<u32>, line: &mut Line)
    requires empty { line.old.items ≡ [] }
    ensures text { line.new.items ≡ refused_at (count_place what at) (codes "too many, " ++ decimal got) }
    ensures longer { array_vec_len line.new ≤ 77 }
{
    push_text(b"model refused: ", line);
    match what {
        Count::Bytes => push_text(b"file", line),
        Count::Inputs => push_place(None, Field::Inputs, line),
        Count::Outputs => push_place(None, Field::Outputs, line),
        Count::Models => push_place(None, Field::Models, line),
        Count::States => push_place(at, Field::States, line),
        Count::Disturbances => push_place(at, Field::Disturbances, line),
    }
    push_text(b": too many, ", line);
    push_number(got, line);
}

fn push_path(path: &Path, line: &mut Line)
    requires room { array_vec_len line.old + 54 ≤ 256 }
    ensures text { line.new.items ≡ line.old.items ++ path_text path.now }
    ensures longer { array_vec_len line.new ≤ array_vec_len line.old + 54 }
{
    push_place(path.model, path.field, line);
    push_bracketed(path.row, line);
    push_bracketed(path.col, line);
}

/// Appends a field, outside the models or within one.
fn push_place(model: Option<u32>, field: Field, line: &mut Line)
    requires room { array_vec_len line.old + 30 ≤ 256 }
    ensures text { line.new.items ≡ line.old.items ++ field_place model field }
    ensures longer { array_vec_len line.new ≤ array_vec_len line.old + 30 }
{
    match (model, field) {
        (None, _) => push_text(field.key().as_bytes(), line),
        (Some(_), Field::Models) => {
            push_text(b"model", line);
            push_bracketed(model, line);
        }
        (Some(_), _) => {
            push_text(b"model", line);
            push_bracketed(model, line);
            push_text(b".", line);
            push_text(field.key().as_bytes(), line);
        }
    }
}

/// Appends an index in brackets, or nothing.
fn push_bracketed(index: Option<u32>, line: &mut Line)
    requires room { array_vec_len line.old + 12 ≤ 256 }
    ensures text { line.new.items ≡ line.old.items ++ index_text index }
    ensures longer { array_vec_len line.new ≤ array_vec_len line.old + 12 }
{
    if let Some(i) = index {
        push_text(b"[", line);
        push_index(i, line);
        push_text(b"]", line);
    }
}
