//! A line of a report as its text.
ghost use Rattle.std.specs.Prelude.{◌≡◌, ℕ, ◌+◌, ◌^◌, ◌≤◌, ◌++◌, length, true, unsigned_abs};
ghost use Rattle.arrayvec.specs.ArrayVec.{array_vec_len};
ghost use Rattle.farkas_check.specs.Certificate.{certificate_of};
ghost use Rattle.report_text.specs.Line.{line_text, model, pred, exclude, hull, status, possible, verdict};
ghost use Rattle.report_text.specs.Line.{has_printable_ends, number_word, certificate_text, verdict_text};
ghost use Rattle.report_text.specs.Seen.{line_of};

use crate::RepLine;
use crate::pieces::{
    push_count, push_index, push_indices, push_interval, push_multipliers, push_text, push_word,
};
use dec_text::Line;
use farkas_check::Cert;
use isolate_core::Verdict;

/// The text of a line, without its line feed.
pub fn write_line(rep: &RepLine) -> Line
    requires { has_printable_ends (line_of rep.now) ≡ true }
    ensures text { result.items ≡ line_text (line_of rep.now) }
    ensures short { array_vec_len result ≤ 192 }
{
    let mut line = Line::new();
    push_line(rep, &mut line);
    line
}

/// Appends the text of a line, without its line feed: where that is put, so that it is not made and moved for each line.
pub fn push_line(rep: &RepLine, line: &mut Line)
    requires ends { has_printable_ends (line_of rep.now) ≡ true }
    requires room { array_vec_len line.old + 192 ≤ 256 }
    ensures text { line.new.items ≡ line.old.items ++ line_text (line_of rep.now) }
    ensures longer { array_vec_len line.new ≤ array_vec_len line.old + 192 }
{
    match rep {
        RepLine::Title => push_text(b"zonomon 1", line),
        RepLine::Model { index, name } => push_model(*index, name.as_bytes(), line),
        RepLine::Sample { k } => push_counted(b"sample", *k, line),
        RepLine::Pred {
            model,
            output,
            lo,
            hi,
        } => push_pred(*model, *output, *lo, *hi, line),
        RepLine::Exclude { model, cert } => push_exclusion(*model, cert, line),
        RepLine::Hull {
            model,
            state,
            lo,
            hi,
        } => push_hull(*model, *state, *lo, *hi, line),
        RepLine::Status { model, kept } => push_status(*model, *kept, line),
        RepLine::Possible { models } => push_possible(models, line),
        RepLine::Verdict(verdict) => push_judgement(*verdict, line),
        RepLine::End { samples } => push_counted(b"end", *samples, line),
    }
}

fn push_model(index: u32, name: &[u8], line: &mut Line)
    requires short { length name.now ≤ 32 }
    requires room { array_vec_len line.old + 192 ≤ 256 }
    ensures text { line.new.items ≡ line.old.items ++ line_text (model index name.now) }
    ensures longer { array_vec_len line.new ≤ array_vec_len line.old + 192 }
{
    push_text(b"model", line);
    push_index(index, line);
    push_word(name, line);
}

/// Appends a word and a count.
fn push_counted(word: &[u8], count: u64, line: &mut Line)
    requires short { length word.now ≤ 8 }
    requires room { array_vec_len line.old + 192 ≤ 256 }
    ensures text { line.new.items ≡ line.old.items ++ (word.now ++ number_word count) }
    ensures longer { array_vec_len line.new ≤ array_vec_len line.old + 192 }
{
    push_text(word, line);
    push_count(count, line);
}

fn push_pred(model: u32, output: u32, lo: i128, hi: i128, line: &mut Line)
    requires low { unsigned_abs lo ≤ 10 ^ 24 }
    requires high { unsigned_abs hi ≤ 10 ^ 24 }
    requires room { array_vec_len line.old + 192 ≤ 256 }
    ensures text { line.new.items ≡ line.old.items ++ line_text (pred model output lo hi) }
    ensures longer { array_vec_len line.new ≤ array_vec_len line.old + 192 }
{
    push_text(b"p", line);
    push_interval(model, output, lo, hi, line);
}

fn push_hull(model: u32, state: u32, lo: i128, hi: i128, line: &mut Line)
    requires low { unsigned_abs lo ≤ 10 ^ 24 }
    requires high { unsigned_abs hi ≤ 10 ^ 24 }
    requires room { array_vec_len line.old + 192 ≤ 256 }
    ensures text { line.new.items ≡ line.old.items ++ line_text (hull model state lo hi) }
    ensures longer { array_vec_len line.new ≤ array_vec_len line.old + 192 }
{
    push_text(b"h", line);
    push_interval(model, state, lo, hi, line);
}

fn push_exclusion(index: u32, cert: &Cert, line: &mut Line)
    requires room { array_vec_len line.old + 192 ≤ 256 }
    ensures text { line.new.items ≡ line.old.items ++ line_text (exclude index (certificate_of cert.now)) }
    ensures longer { array_vec_len line.new ≤ array_vec_len line.old + 192 }
{
    push_text(b"x", line);
    push_index(index, line);
    push_certificate(cert, line);
}

fn push_status(index: u32, kept: bool, line: &mut Line)
    requires room { array_vec_len line.old + 192 ≤ 256 }
    ensures text { line.new.items ≡ line.old.items ++ line_text (status index kept) }
    ensures longer { array_vec_len line.new ≤ array_vec_len line.old + 192 }
{
    push_text(b"s", line);
    push_index(index, line);
    push_text(if kept { b" fits" } else { b" undecided" }, line);
}

fn push_possible(models: &[u32], line: &mut Line)
    requires few { length models.now ≤ 16 }
    requires room { array_vec_len line.old + 192 ≤ 256 }
    ensures text { line.new.items ≡ line.old.items ++ line_text (possible models.now) }
    ensures longer { array_vec_len line.new ≤ array_vec_len line.old + 192 }
{
    push_text(b"possible", line);
    push_indices(models, line);
}

fn push_judgement(judgement: Verdict, line: &mut Line)
    requires room { array_vec_len line.old + 192 ≤ 256 }
    ensures text { line.new.items ≡ line.old.items ++ line_text (verdict judgement) }
    ensures longer { array_vec_len line.new ≤ array_vec_len line.old + 192 }
{
    push_text(b"verdict", line);
    push_verdict(judgement, line);
}

fn push_certificate(cert: &Cert, line: &mut Line)
    requires { array_vec_len line.old + 77 ≤ 256 }
    ensures text { line.new.items ≡ line.old.items ++ certificate_text (certificate_of cert.now) }
    ensures longer { array_vec_len line.new ≤ array_vec_len line.old + 77 }
{
    match cert {
        Cert::Out(output) => {
            push_text(b" out", line);
            push_index(*output, line);
        }
        Cert::Rows(multipliers) => {
            push_text(b" rows", line);
            push_multipliers(multipliers, line);
        }
    }
}

fn push_verdict(verdict: Verdict, line: &mut Line)
    requires { array_vec_len line.old + 20 ≤ 256 }
    ensures text { line.new.items ≡ line.old.items ++ verdict_text verdict }
    ensures longer { array_vec_len line.new ≤ array_vec_len line.old + 20 }
{
    match verdict {
        Verdict::None => push_text(b" none", line),
        Verdict::Isolated(model) => {
            push_text(b" isolated", line);
            push_index(model, line);
        }
        Verdict::Several => push_text(b" several", line),
        Verdict::Fault => push_text(b" fault", line),
    }
}
