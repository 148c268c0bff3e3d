//! The one line that a text can be. Whether it is that line shows when the line is written again.
ghost use Rattle.std.specs.Prelude.{◌≡◌};
ghost use Rattle.farkas_check.specs.Certificate.{certificate_of};
ghost use Rattle.report_text.specs.Seen.{line_of};
ghost use Rattle.report_text.specs.Loose.{candidate, line_by, model_in, pred_in, hull_in, exclude_in, status_in};
ghost use Rattle.report_text.specs.Loose.{certificate_in, verdict_in, first_in, second_in, low_in, high_in};

use crate::RepLine;
use crate::words::{count_of, cut, end_of, index_of, indices_of, multipliers_of, name_of};
use farkas_check::{Cert, Multipliers};
use isolate_core::Verdict;

/// No output has this index.
const NO_OUTPUT: u32 = 16;

/// The words of an interval.
#[derive(Clone, Copy)]
struct Interval {
    first: u32,
    second: u32,
    lo: i128,
    hi: i128,
}

/// The one line that a text can be.
pub fn candidate(text: &[u8]) -> RepLine
    ensures { line_of result ≡ candidate text.now }
{
    let (word, rest) = cut(text);
    line_by(word, rest)
}

/// The line that a word begins.
#[tactic(auto, unfolding(crate::specs::Loose::line_by))]
fn line_by(word: &[u8], rest: &[u8]) -> RepLine
    ensures { line_of result ≡ line_by word.now rest.now }
{
    if word == b"model".as_slice() {
        model_in(rest)
    } else if word == b"sample".as_slice() {
        RepLine::Sample { k: count_of(rest) }
    } else if word == b"p".as_slice() {
        pred_in(rest)
    } else if word == b"x".as_slice() {
        exclude_in(rest)
    } else if word == b"h".as_slice() {
        hull_in(rest)
    } else if word == b"s".as_slice() {
        status_in(rest)
    } else if word == b"possible".as_slice() {
        RepLine::Possible {
            models: indices_of(rest),
        }
    } else if word == b"verdict".as_slice() {
        RepLine::Verdict(verdict_in(rest))
    } else if word == b"end".as_slice() {
        RepLine::End {
            samples: count_of(rest),
        }
    } else {
        RepLine::Title
    }
}

fn model_in(rest: &[u8]) -> RepLine
    ensures { line_of result ≡ model_in rest.now }
{
    let (index, name) = cut(rest);
    RepLine::Model {
        index: index_of(index),
        name: name_of(name),
    }
}

fn pred_in(rest: &[u8]) -> RepLine
    ensures { line_of result ≡ pred_in rest.now }
{
    let interval = interval_in(rest);
    RepLine::Pred {
        model: interval.first,
        output: interval.second,
        lo: interval.lo,
        hi: interval.hi,
    }
}

fn hull_in(rest: &[u8]) -> RepLine
    ensures { line_of result ≡ hull_in rest.now }
{
    let interval = interval_in(rest);
    RepLine::Hull {
        model: interval.first,
        state: interval.second,
        lo: interval.lo,
        hi: interval.hi,
    }
}

fn exclude_in(rest: &[u8]) -> RepLine
    ensures { line_of result ≡ exclude_in rest.now }
{
    let (model, words) = cut(rest);
    RepLine::Exclude {
        model: index_of(model),
        cert: certificate_in(words),
    }
}

fn status_in(rest: &[u8]) -> RepLine
    ensures { line_of result ≡ status_in rest.now }
{
    let (model, word) = cut(rest);
    RepLine::Status {
        model: index_of(model),
        kept: word == b"fits".as_slice(),
    }
}

fn interval_in(rest: &[u8]) -> Interval
    ensures first { result.first ≡ first_in rest.now }
    ensures second { result.second ≡ second_in rest.now }
    ensures low { result.lo ≡ low_in rest.now }
    ensures high { result.hi ≡ high_in rest.now }
{
    let (first, rest) = cut(rest);
    let (second, rest) = cut(rest);
    let (lo, hi) = cut(rest);
    Interval {
        first: index_of(first),
        second: index_of(second),
        lo: end_of(lo),
        hi: end_of(hi),
    }
}

#[tactic(auto, unfolding(crate::specs::Loose::verdict_in))]
fn verdict_in(rest: &[u8]) -> Verdict
    ensures { result ≡ verdict_in rest.now }
{
    if rest == b"none".as_slice() {
        Verdict::None
    } else if rest == b"several".as_slice() {
        Verdict::Several
    } else if rest == b"fault".as_slice() {
        Verdict::Fault
    } else {
        let (_, index) = cut(rest);
        Verdict::Isolated(index_of(index))
    }
}

#[tactic(auto, unfolding(crate::specs::Loose::certificate_in))]
fn certificate_in(rest: &[u8]) -> Cert
    ensures { certificate_of result ≡ certificate_in rest.now }
{
    let (kind, words) = cut(rest);
    if kind == b"out".as_slice() {
        return Cert::Out(index_of(words));
    }
    match Multipliers::of(&multipliers_of(words)) {
        Some(multipliers) => Cert::Rows(multipliers),
        None => Cert::Out(NO_OUTPUT),
    }
}
