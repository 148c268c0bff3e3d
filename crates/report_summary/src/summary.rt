//! The lines of a report, summed up.
ghost use Rattle.std.specs.Prelude.{◌≡◌, ◌+◌, ◌<◌, ◌≤◌, ◌^◌, List, IfSome, IfNone};
ghost use Rattle.std.specs.List.{list_any, position};
ghost use Rattle.report_text.specs.Line.{Line, line_text, lines_text};
ghost use Rattle.report_text.specs.Laws.{is_feed};
ghost use Rattle.report_text.specs.Seen.{line_of};
ghost use Rattle.report_summary.specs.Told.{IsTold, AreTold};
ghost use Rattle.report_summary.specs.Sums.{Sums, nothing_yet, after, after_exclusion};

use report_text::{RepLine, read_line};

/// The samples in which the first two models of a report are excluded, and how many lines say that a model is undecided.
#[derive(Clone, Copy, Debug)]
pub struct Summary {
    /// The sample that the next line speaks of.
    sample: u64,
    pub(crate) first: Option<u64>,
    pub(crate) second: Option<u64>,
    pub(crate) undecided: u64,
}

impl Summary {
    /// Of the text of a report, line by line.
    pub fn of(report: &[u8]) -> Summary
        ensures { (lines : List Line) → AreTold lines → report.now ≡ lines_text lines → Sums lines result }
    {
        let mut summary = Summary::nothing_yet();
        let mut at = 0;
        'lines: while let Some(feed) = first_feed(&report[at..]) {
            summary.take_text(&report[at..at + feed]);
            at += feed + 1;
        }
        summary
    }

    /// Before the first line.
    fn nothing_yet() -> Summary
        ensures { result ≡ nothing_yet }
    {
        Summary {
            sample: 0,
            first: None,
            second: None,
            undecided: 0,
        }
    }

    /// Takes the text of a line.
    fn take_text(&mut self, text: &[u8])
        requires few { self.old.undecided + 1 < 2 ^ 64 }
        ensures taken { (line : Line) → IsTold line → text.now ≡ line_text line → self.new ≡ after self.old line }
        ensures one { self.new.undecided ≤ self.old.undecided + 1 }
    {
        if let Ok(line) = read_line(text) {
            self.take(&line);
        }
    }

    /// Takes a line.
    fn take(&mut self, line: &RepLine)
        requires few { self.old.undecided + 1 < 2 ^ 64 }
        ensures taken { self.new ≡ after self.old (line_of line.now) }
        ensures one { self.new.undecided ≤ self.old.undecided + 1 }
    {
        match line {
            RepLine::Sample { k } => self.sample = *k,
            RepLine::Exclude { model, cert: _ } => self.exclude(*model),
            RepLine::Status { model: _, kept } => {
                if !*kept {
                    self.undecided += 1;
                }
            }
            _ => {}
        }
    }

    /// Takes the exclusion of a model.
    fn exclude(&mut self, model: u32)
        ensures { self.new ≡ after_exclusion self.old model }
    {
        if model == 0 {
            self.first = self.first.or(Some(self.sample));
        } else if model == 1 {
            self.second = self.second.or(Some(self.sample));
        }
    }
}

/// The place of the first line feed.
fn first_feed(bytes: &[u8]) -> Option<usize>
    ensures { result ≡ position is_feed bytes.now }
{
    bytes.iter().position(|c| *c == b'\n')
}
