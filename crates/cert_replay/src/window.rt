//! The report, read from its slot in pieces: the lines that were taken, and are not compared yet.
ghost use Rattle.std.specs.Prelude.{◌≡◌, ◌≢◌, ℕ, ◌+◌, ◌*◌, ◌-◌, ◌<◌, ◌≤◌, ◌^◌, List, [], length, drop, take, slice_range};
ghost use Rattle.std.specs.Prelude.{true, false, None, Some, Err, IfOk, IfErr, IfSome, IfNone, OnOk};
ghost use Rattle.cert_replay.specs.Lines.{room};

use crate::fault::CheckFault;
use crate::made::MadeText;
use outside_io::Shelf;

/// The slot of the report.
pub const REPORT_SLOT: usize = 2;

/// The most bytes of a line with its line feed.
const MOST_LINE: usize = 257;

/// How many bytes are read at a time.
const PIECE: usize = 4096;

/// Room for the lines of a sample, 243 at the most, and a piece.
const ROOM: usize = 66_547;

/// The report as far as it was read and is not compared yet.
#[derive(Drop)]
pub struct Window {
    pub bytes: [u8; ROOM],
    /// What is left goes from here to `end`.
    pub at: usize,
    pub end: usize,
    /// How many lines were compared.
    pub lines: u64,
    /// The lines that are to be compared.
    pub made: MadeText,
    ghost size: { length bytes ≡ room },
    ghost within: { at ≤ end },
    ghost short: { end ≤ room },
}

impl Window {
    ghost use Rattle.std.specs.List.{count_by, list_any};
    ghost use Rattle.std.specs.Io.KnownBytes.{IsAtEnd};
    ghost use Rattle.outside_io.specs.Causes.{Rose};
    ghost use Rattle.report_text.specs.Laws.{is_feed};
    ghost use Rattle.input_files.specs.Stream.{ReadsOn};
    ghost use Rattle.input_files.specs.Whole.{most_piece};
    ghost use Rattle.cert_replay.specs.Outcome.{IfRead};
    ghost use Rattle.cert_replay.specs.Faults.{IsReportFault};
    ghost use Rattle.cert_replay.specs.Lines.{most_line, most_lines};
    ghost use Rattle.cert_replay.specs.Window.{left_in, HasUnread, ReadsAhead, TakesLines};

    /// Before the first byte of a report.
    pub fn new() -> Window
        ensures left { left_in result ≡ [] }
        ensures lines { result.lines ≡ 0 }
    {
        Window {
            bytes: [0; ROOM],
            at: 0,
            end: 0,
            lines: 0,
            made: MadeText::new(),
        }
    }

    /// What is left.
    pub fn left(&self) -> &[u8]
        ensures { result.now ≡ left_in self.now }
    {
        &self.bytes[self.at..self.end]
    }

    /// The text of the line between these places, without its line feed.
    pub fn text_between(&self, from: usize, to: usize) -> &[u8]
        requires some { from < to }
        requires within { to ≤ length (left_in self.now) }
        ensures { result.now ≡ slice_range (left_in self.now) from (to - 1) }
    {
        &self.left()[from..to - 1]
    }

    /// Takes so many lines behind those that end at `place`, and says where they end; none once no line stands there.
    pub fn take_lines<F: Shelf>(
        &mut self,
        shelf: &mut F,
        place: Option<usize>,
        n: usize,
    ) -> Result<Option<usize>, CheckFault>
        requires attached { ((F.state shelf.old).slot 2).attached ≡ true }
        requires place { IfSome place (λ from. from ≤ length (left_in self.old)) }
        requires room { IfSome place (λ from. from + most_line * n ≤ most_line * most_lines) }
        ensures ahead { OnOk result (ReadsAhead self.old (F.state shelf.old) self.new (F.state shelf.new)) }
        ensures taken { IfOk result (TakesLines n place self.old (F.state shelf.old) self.new) }
        ensures fault { IfErr result IsReportFault }
        ensures read { IfRead result (λ slot. Rose ((F.state shelf.old).slot 2).faults ((F.state shelf.new).slot 2).faults) }
        ensures kept { ReadsOn 2 (F.state shelf.old) (F.state shelf.new) }
    {
        let Some(mut at) = place else {
            return Ok(None);
        };
        for _ in 0..n {
            match self.take_line(shelf, at)? {
                Some(to) => at = to,
                None => return Ok(None),
            }
        }
        Ok(Some(at))
    }

    /// Takes the line at this place, and says where it ends behind its line feed; none where no short line stands there.
    fn take_line<F: Shelf>(
        &mut self,
        shelf: &mut F,
        from: usize,
    ) -> Result<Option<usize>, CheckFault>
        requires attached { ((F.state shelf.old).slot 2).attached ≡ true }
        requires place { from ≤ length (left_in self.old) }
        requires room { from + most_line ≤ most_line * most_lines }
        ensures ahead { OnOk result (ReadsAhead self.old (F.state shelf.old) self.new (F.state shelf.new)) }
        ensures taken { IfOk result (TakesLines 1 (Some from) self.old (F.state shelf.old) self.new) }
        ensures fault { IfErr result IsReportFault }
        ensures read { IfRead result (λ slot. Rose ((F.state shelf.old).slot 2).faults ((F.state shelf.new).slot 2).faults) }
        ensures kept { ReadsOn 2 (F.state shelf.old) (F.state shelf.new) }
    {
        loop {
            if let Some(at) = end_of_line(self.left(), from) {
                return Ok(Some(from + at + 1));
            }
            if self.left().len() - from >= MOST_LINE {
                return Ok(None);
            }
            if !self.read_more(shelf)? {
                return Ok(None);
            }
        }
    }

    /// Reads the next piece behind what is left, and says whether there was more.
    pub fn read_more<F: Shelf>(&mut self, shelf: &mut F) -> Result<bool, CheckFault>
        requires attached { ((F.state shelf.old).slot 2).attached ≡ true }
        requires room { length (left_in self.old) + most_piece ≤ room }
        ensures ahead { OnOk result (ReadsAhead self.old (F.state shelf.old) self.new (F.state shelf.new)) }
        ensures more { IfOk result (λ b. b ≡ true → length (left_in self.old) < length (left_in self.new)) }
        ensures none { IfOk result (λ b. b ≡ false → left_in self.new ≡ left_in self.old) }
        ensures at_end { IfOk result (λ b. b ≡ false → IsAtEnd ((F.state shelf.new).slot 2).rest) }
        ensures fault { IfErr result IsReportFault }
        ensures read { IfRead result (λ slot. Rose ((F.state shelf.old).slot 2).faults ((F.state shelf.new).slot 2).faults) }
        ensures kept { ReadsOn 2 (F.state shelf.old) (F.state shelf.new) }
    {
        self.make_room();
        let count = shelf.next(REPORT_SLOT, &mut self.bytes[self.end..self.end + PIECE])?;
        self.end += count;
        Ok(count > 0)
    }

    /// Whether something is unread.
    pub fn has_more<F: Shelf>(&mut self, shelf: &mut F) -> Result<bool, CheckFault>
        requires attached { ((F.state shelf.old).slot 2).attached ≡ true }
        ensures ahead { OnOk result (ReadsAhead self.old (F.state shelf.old) self.new (F.state shelf.new)) }
        ensures more { IfOk result (λ b. b ≡ true → 0 < length (left_in self.new)) }
        ensures none { IfOk result (λ b. b ≡ false → left_in self.new ≡ []) }
        ensures at_end { IfOk result (λ b. b ≡ false → IsAtEnd ((F.state shelf.new).slot 2).rest) }
        ensures fault { IfErr result IsReportFault }
        ensures read { IfRead result (λ slot. Rose ((F.state shelf.old).slot 2).faults ((F.state shelf.new).slot 2).faults) }
        ensures kept { ReadsOn 2 (F.state shelf.old) (F.state shelf.new) }
    {
        if self.at < self.end {
            return Ok(true);
        }
        self.read_more(shelf)
    }

    /// Moves what is left to the front, where there is no room for a piece behind it.
    fn make_room(&mut self)
        requires { length (left_in self.old) + most_piece ≤ room }
        ensures left { left_in self.new ≡ left_in self.old }
        ensures some { self.new.end + most_piece ≤ room }
        ensures lines { self.new.lines ≡ self.old.lines }
    {
        if ROOM - self.end < PIECE {
            self.bytes.copy_within(self.at..self.end, 0);
            self.end -= self.at;
            self.at = 0;
        }
    }
}

ghost use Rattle.std.specs.List.{list_any, position};
ghost use Rattle.report_text.specs.Laws.{is_feed};
ghost use Rattle.cert_replay.specs.Lines.{IsShortFront, most_line};

/// How far behind a place the first line feed stands, where it is among the first 257 bytes from there.
fn end_of_line(bytes: &[u8], from: usize) -> Option<usize>
    requires { from ≤ length bytes.now }
    ensures some { IfSome result (λ at. IsShortFront at (drop from bytes.now)) }
    ensures none { IfNone result (list_any is_feed (take most_line (drop from bytes.now)) ≡ false) }
{
    let rest = &bytes[from..];
    first_feed(&rest[..rest.len().min(MOST_LINE)])
}

/// The place of the first line feed.
fn first_feed(bytes: &[u8]) -> Option<usize>
    ensures { result ≡ position is_feed bytes.now }
{
    bytes.iter().position(|c| *c == b'\n')
}
