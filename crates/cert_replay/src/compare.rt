//! Lines that are made, beside those of the report.
ghost use Rattle.std.specs.Prelude.{◌≡◌, ◌≢◌, ℕ, ◌+◌, ◌<◌, ◌≤◌, ◌^◌, List, [], ◌∷◌, ◌++◌, length, take, drop, get_or};
ghost use Rattle.std.specs.Prelude.{true, false, IfErr, OnOk};
ghost use Rattle.std.specs.List.{count_by};
ghost use Rattle.observer_step.specs.Seen.{is_printable_interval};
ghost use Rattle.model_bank.specs.Bank.{names_in};
ghost use Rattle.model_bank.specs.Seen.{sample_seen, refusal_with};
ghost use Rattle.report_text.specs.Laws.{is_feed};
ghost use Rattle.report_text.specs.Line.{lines_text, end};
ghost use Rattle.report_rules.specs.Lines.{head_lines, sample_lines};
ghost use Rattle.cert_replay.specs.Faults.{IsCompareFault};
ghost use Rattle.cert_replay.specs.Lines.{room, lines_to_refused};
ghost use Rattle.cert_replay.specs.Window.{left_in, TakesText, PartsBehind, DepartsFrom, DepartsBehind};

use crate::fault::CheckFault;
use crate::window::Window;
use model_bank::{ModelRec, Refused, SampleRec};
use model_file::Bank0;
use report_put::{put_end, put_head, put_refused, put_sample};

impl Window {
    /// Compares the title and the names of the models with what is left.
    pub fn compare_head(&mut self, models: &Bank0) -> Result<(), CheckFault>
        requires { self.old.lines + room + 1 < 2 ^ 64 }
        ensures same { OnOk result (TakesText (lines_text (head_lines (names_in models.now))) self.old self.new) }
        ensures departs { IfErr result (λ fault. (line : ℕ) → fault ≡ CheckFault.Report line
            → DepartsFrom (lines_text (head_lines (names_in models.now))) self.old line) }
        ensures few { OnOk result (self.new.lines ≤ self.old.lines + room) }
        ensures fault { IfErr result IsCompareFault }
    {
        self.made.clear();
        if put_head(&mut self.made, models).is_err() {
            return Err(CheckFault::Memory);
        }
        self.compare()
    }

    /// Compares the lines of a sample with what is left.
    pub fn compare_sample(&mut self, made: &SampleRec) -> Result<(), CheckFault>
        requires { self.old.lines + room + 1 < 2 ^ 64 }
        ensures same { OnOk result (TakesText (lines_text (sample_lines (sample_seen made.now))) self.old self.new) }
        ensures departs { IfErr result (λ fault. (line : ℕ) → fault ≡ CheckFault.Report line
            → DepartsFrom (lines_text (sample_lines (sample_seen made.now))) self.old line) }
        ensures few { OnOk result (self.new.lines ≤ self.old.lines + room) }
        ensures fault { IfErr result IsCompareFault }
    {
        self.made.clear();
        if put_sample(&mut self.made, made).is_err() {
            return Err(CheckFault::Memory);
        }
        self.compare()
    }

    /// Compares the lines of sample `k` up to the predictions of the model that is refused with what is left, and tells the line
    /// that departs: one of these, or the one behind them.
    pub fn compare_refused(&mut self, k: u64, below: &[ModelRec], refused: &Refused) -> CheckFault
        requires { self.old.lines + room + 1 < 2 ^ 64 }
        ensures departs { (line : ℕ) → result ≡ CheckFault.Report line
            → DepartsBehind (lines_text (lines_to_refused k (refusal_with refused.now below.now))) self.old line }
        ensures fault { IsCompareFault result }
    {
        self.made.clear();
        if put_refused(&mut self.made, k, below, refused.model, &refused.preds).is_err() {
            return CheckFault::Memory;
        }
        match self.compare() {
            Ok(()) => CheckFault::Report {
                line: self.lines + 1,
            },
            Err(fault) => fault,
        }
    }

    /// Compares the last line, after so many samples, with what is left.
    pub fn compare_end(&mut self, samples: u64) -> Result<(), CheckFault>
        requires { self.old.lines + room + 1 < 2 ^ 64 }
        ensures same { OnOk result (TakesText (lines_text (end samples ∷ [])) self.old self.new) }
        ensures departs { IfErr result (λ fault. (line : ℕ) → fault ≡ CheckFault.Report line
            → DepartsFrom (lines_text (end samples ∷ [])) self.old line) }
        ensures few { OnOk result (self.new.lines ≤ self.old.lines + room) }
        ensures fault { IfErr result IsCompareFault }
    {
        self.made.clear();
        if put_end(&mut self.made, samples).is_err() {
            return Err(CheckFault::Memory);
        }
        self.compare()
    }

    /// Takes the text that was made, with all lines that end in it, where what is left begins with it; else the line departs in
    /// which they part.
    fn compare(&mut self) -> Result<(), CheckFault>
        requires { self.old.lines + room + 1 < 2 ^ 64 }
        ensures same { OnOk result (TakesText self.old.made.text.items self.old self.new) }
        ensures departs { IfErr result (λ fault. (line : ℕ) → fault ≡ CheckFault.Report line
            → DepartsFrom self.old.made.text.items self.old line) }
        ensures few { OnOk result (self.new.lines ≤ self.old.lines + room) }
        ensures fault { IfErr result IsCompareFault }
    {
        let found = self.agreement();
        if !found.stands {
            return Err(CheckFault::Report {
                line: self.lines + found.feeds + 1,
            });
        }
        self.lines += found.feeds;
        self.at += found.same;
        Ok(())
    }

    /// How far what is left agrees with the text that was made.
    fn agreement(&self) -> Agreement
        ensures text { result.same ≤ length self.now.made.text.items }
        ensures left { result.same ≤ length (left_in self.now) }
        ensures feeds { result.feeds ≡ count_by is_feed (take result.same self.now.made.text.items) }
        ensures stands { result.stands ≡ true → (result.same ≡ length self.now.made.text.items)
            × (left_in self.now ≡ self.now.made.text.items ++ drop result.same (left_in self.now)) }
        ensures parts { result.stands ≡ false
            → PartsBehind self.now.made.text.items (left_in self.now) (take result.same self.now.made.text.items) }
    {
        let text: &[u8] = &self.made.text;
        let left = self.left();
        if left.starts_with(text) {
            return Agreement {
                same: text.len(),
                feeds: feeds_in(text),
                stands: true,
            };
        }
        let same = agreeing(text, left);
        Agreement {
            same,
            feeds: feeds_in(&text[..same]),
            stands: false,
        }
    }
}

/// How a text agrees with bytes.
#[derive(Clone, Copy)]
struct Agreement {
    /// How many bytes agree.
    same: usize,
    /// How many line feeds these have.
    feeds: u64,
    /// Whether they are all of the text.
    stands: bool,
}

/// How many bytes of a text the bytes begin with.
fn agreeing(text: &[u8], bytes: &[u8]) -> usize
    ensures text { result ≤ length text.now }
    ensures bytes { result ≤ length bytes.now }
    ensures same { take result text.now ≡ take result bytes.now }
    ensures ends { result < length text.now → (r : List ℕ) → drop result bytes.now ≢ get_or text.now result 0 ∷ r }
{
    let mut same = 0;
    while same < text.len() && same < bytes.len() && text[same] == bytes[same] {
        same += 1;
    }
    same
}

/// How many line feeds there are.
fn feeds_in(bytes: &[u8]) -> u64
    ensures count { result ≡ count_by is_feed bytes.now }
    ensures few { result ≤ length bytes.now }
{
    bytes.iter().filter(|c| **c == b'\n').count() as u64
}
