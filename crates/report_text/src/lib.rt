//! The lines of a report, as text.
#![tactic(auto)]

ghost use Rattle.report_text.specs.Laws.{LinesDiffer, FrontsDiffer, ExclusionsDiffer, LinesAreShort, LinesHaveNoFeed};

mod guess;
mod line;
mod pieces;
mod range;
mod read;
mod words;
mod write;

pub use line::RepLine;
pub use read::{BadLine, read_line};
pub use write::{push_line, write_line};

/// The laws of the lines that are in range: each has one text, which is short and has no line feed.
pub fn laws()
    ensures lines { LinesDiffer }
    ensures fronts { FrontsDiffer }
    ensures exclusions { ExclusionsDiffer }
    ensures short { LinesAreShort }
    ensures no_feed { LinesHaveNoFeed }
{}
