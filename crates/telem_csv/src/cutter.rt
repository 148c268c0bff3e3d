//! Cuts a stream of bytes into lines.

ghost use Rattle.std.specs.Prelude.{◌≡◌, ◌≤◌, min, ◌+◌, ◌-◌, ◌^◌, ◌<◌, ℕ, List, length, drop, take, ◌++◌, [], false};
ghost use Rattle.std.specs.Prelude.{true, not, if◌then◌else◌, IfSome, Some, None, IsTrue, MatchOption};
ghost use Rattle.std.specs.List.{list_any, position, before_first, position_or_len};
ghost use Rattle.telem_csv.specs.Lines.{is_feed, is_return, most_line, IsLineText, without_return, text_of};
ghost use Rattle.telem_csv.specs.Cutter.{Cutter, IsCutter, at_start, current, line_with, judged, taken_for};
ghost use Rattle.telem_csv.specs.Cutter.{after_answer, size_refusal, judged_last, feed_answer, feed_taken, after_feed};
ghost use Rattle.telem_csv.specs.Cutter.{finish_answer, after_finish, text_at, rows_owed, rows_after, telemetry_owed};
ghost use Rattle.telem_csv.specs.Cutter.{telemetry_after};
ghost use Rattle.telem_csv.specs.Columns.{Columns};
ghost use Rattle.telem_csv.specs.Fed.{is_refusal};
ghost use Rattle.telem_csv.specs.Telemetry.{telemetry};

use crate::fed::Fed;
use crate::marks::strip_bom;
use arrayvec::ArrayVec;
use std::marker::Model;

/// The most bytes of a line before its line feed.
const MOST_LINE: usize = 4096;

/// Cuts a stream into lines, piece by piece.
#[derive(Drop)]
pub struct LineCutter {
    bytes: ArrayVec<u8, MOST_LINE>,
    room: u64,
    number: u64,
    last: Fed,
}

impl Model for LineCutter {
    ghost use Rattle.telem_csv.specs.Cutter.{Cutter, IsCutter};

    ghost Value = { Cutter };

    ghost view = { λ s. record { room = s.room; number = s.number; bytes = s.bytes.items; last = s.last } };

    ghost invariant = { λ s. IsCutter (record { room = s.room; number = s.number; bytes = s.bytes.items; last = s.last }) };
}

impl LineCutter {
    /// Before the first byte of a stream of at most `limit` bytes.
    pub fn new(limit: u64) -> LineCutter
        requires { limit ≤ 2 ^ 62 }
        ensures value { result ≡ at_start limit }
        ensures telemetry { (inputs outputs : List (List ℕ)) (bytes : List ℕ)
            → telemetry limit inputs outputs bytes ≡ telemetry_owed inputs outputs result bytes }
    {
        LineCutter {
            bytes: ArrayVec::new(),
            room: limit,
            number: 1,
            last: Fed::More,
        }
    }

    /// The number of the line at hand, from 1.
    pub fn number(&self) -> u64
        ensures value { result ≡ self.now.number }
        ensures counted { 1 ≤ result }
    {
        self.number
    }

    /// The line that was cut, without its line feed, the carriage return at its end and, in line 1, a byte order mark at its front.
    pub fn line(&self) -> &[u8]
        requires { self.now.last ≡ Fed.Line }
        ensures value { result.now ≡ text_at self.now }
        ensures text { IsLineText result.now }
    {
        text_of(self.number, &self.bytes)
    }

    /// Takes bytes of a piece of the stream up to the end of the line at hand, and says how many.
    ///
    /// After a refusal the answer stays the same and nothing is taken.
    pub fn feed(&mut self, piece: &[u8]) -> (usize, Fed)
        ensures answer { result.1 ≡ feed_answer self.old piece.now }
        ensures taken { result.0 ≡ feed_taken self.old piece.now }
        ensures after { self.new ≡ after_feed self.old piece.now }
        ensures within { result.0 ≤ length piece.now }
        ensures more { result.1 ≡ Fed.More → result.0 ≡ length piece.now }
        ensures line { result.1 ≡ Fed.Line → 1 ≤ result.0 }
        ensures last { self.new.last ≡ result.1 }
        ensures keeps { IsCutter self.new }

        // However the stream is cut, it says before the piece what the answer and the rest of the stream say.
        ensures rows { is_refusal self.old.last ≡ false → (head : Columns) (rest : List ℕ)
            → rows_owed head self.old (piece.now ++ rest) ≡ rows_after head result.1 self.new (drop result.0 piece.now ++ rest) }
        ensures telemetry { is_refusal self.old.last ≡ false → (inputs outputs : List (List ℕ)) (rest : List ℕ)
            → telemetry_owed inputs outputs self.old (piece.now ++ rest)
            ≡ telemetry_after inputs outputs result.1 self.new (drop result.0 piece.now ++ rest) }
    {
        if self.last.is_refusal() {
            return (0, self.last);
        }
        self.go_on();
        self.add(piece)
    }

    /// The end of the stream: bytes after the last line feed are a line, which is told once.
    pub fn finish(&mut self) -> Fed
        ensures answer { result ≡ finish_answer self.old }
        ensures after { self.new ≡ after_finish self.old }
        ensures last { self.new.last ≡ result }
        ensures keeps { IsCutter self.new }

        // The stream says before its end what the answer says.
        ensures rows { is_refusal self.old.last ≡ false → (head : Columns)
            → rows_owed head self.old [] ≡ rows_after head result self.new [] }
        ensures telemetry { is_refusal self.old.last ≡ false → (inputs outputs : List (List ℕ))
            → telemetry_owed inputs outputs self.old [] ≡ telemetry_after inputs outputs result self.new [] }
    {
        if self.last.is_refusal() {
            return self.last;
        }
        self.go_on();
        self.last = self.last_line();
        self.last
    }

    /// What the end of the stream makes of the line at hand.
    fn last_line(&self) -> Fed
        ensures { result ≡ judged_last self.now self.now.bytes }
    {
        if self.bytes.is_empty() {
            Fed::Ended
        } else {
            whole_line(self.number, &self.bytes)
        }
    }

    /// Goes on to the line behind one that was cut.
    fn go_on(&mut self)
        ensures { self.new ≡ current self.old }
    {
        if self.last == Fed::Line {
            self.room = self.room.saturating_sub(self.bytes.len() as u64 + 1);
            self.number += 1;
            self.bytes.clear();
            self.last = Fed::More;
        }
    }

    /// Adds the bytes of a piece up to its first line feed.
    fn add(&mut self, piece: &[u8]) -> (usize, Fed)
        ensures answer { result.1 ≡ judged self.old (line_with self.old piece.now) }
        ensures taken { result.0 ≡ taken_for result.1 self.old (length (before_first is_feed piece.now)) }
        ensures after { self.new ≡ after_answer result.1 self.old (line_with self.old piece.now).bytes }
        ensures keeps { IsCutter self.new }
    {
        match end_of_line(piece) {
            Some(at) => self.end_line(&piece[..at]),
            None => self.extend_line(piece),
        }
    }

    /// Adds the bytes before a line feed.
    fn end_line(&mut self, part: &[u8]) -> (usize, Fed)
        requires { list_any is_feed part.now ≡ false }
        ensures answer { result.1 ≡ judged self.old (record { bytes = self.old.bytes ++ part.now; is_ended = true }) }
        ensures taken { result.0 ≡ taken_for result.1 self.old (length part.now) }
        ensures after { self.new ≡ after_answer result.1 self.old (self.old.bytes ++ part.now) }
        ensures keeps { IsCutter self.new }
    {
        if let Some(refusal) = self.refusal_with(part, 1) {
            let taken = self.left() + 1;
            self.last = refusal;
            return (taken, refusal);
        }
        self.bytes.try_extend_from_slice(part).unwrap();
        self.last = whole_line(self.number, &self.bytes);
        (part.len() + 1, self.last)
    }

    /// Adds bytes of a line that goes on.
    fn extend_line(&mut self, part: &[u8]) -> (usize, Fed)
        requires { list_any is_feed part.now ≡ false }
        ensures answer { result.1 ≡ judged self.old (record { bytes = self.old.bytes ++ part.now; is_ended = false }) }
        ensures taken { result.0 ≡ taken_for result.1 self.old (length part.now) }
        ensures after { self.new ≡ after_answer result.1 self.old (self.old.bytes ++ part.now) }
        ensures keeps { IsCutter self.new }
    {
        if let Some(refusal) = self.refusal_with(part, 0) {
            let taken = self.left() + 1;
            self.last = refusal;
            return (taken, refusal);
        }
        self.bytes.try_extend_from_slice(part).unwrap();
        self.last = Fed::More;
        (part.len(), Fed::More)
    }

    /// How many bytes more the line may have.
    fn left(&self) -> usize
        ensures { result + length self.now.bytes ≡ min self.now.room most_line }
    {
        self.room.min(MOST_LINE as u64) as usize - self.bytes.len()
    }

    /// The refusal of a line that would have these bytes more and so many line feeds.
    fn refusal_with(&self, part: &[u8], feeds: usize) -> Option<Fed>
        requires { feeds ≤ 1 }
        ensures value { result ≡ size_refusal self.now (length part.now) feeds }
        ensures refusal { IfSome result (λ f. is_refusal f ≡ true) }
    {
        let size = self.bytes.len() + part.len();
        if self.room < (size + feeds) as u64 && self.room <= MOST_LINE as u64 {
            Some(Fed::OverLimit)
        } else if size > MOST_LINE {
            Some(Fed::Long)
        } else {
            None
        }
    }
}

/// A line's text: line 1 loses a byte order mark, and each line the carriage return at its end.
fn text_of(number: u64, bytes: &[u8]) -> &[u8]
    ensures { result.now ≡ text_of number bytes.now }
{
    let text = without_return(bytes);
    if number == 1 { strip_bom(text) } else { text }
}

/// A line without a stray carriage return, or the refusal.
fn whole_line(number: u64, bytes: &[u8]) -> Fed
    ensures { result ≡ (if list_any is_return (text_of number bytes.now) then Fed.StrayCr else Fed.Line) }
{
    if has_return(text_of(number, bytes)) {
        Fed::StrayCr
    } else {
        Fed::Line
    }
}

fn without_return(bytes: &[u8]) -> &[u8]
    ensures { result.now ≡ without_return bytes.now }
{
    let [text @ .., last] = bytes else {
        return bytes;
    };
    if *last == b'\r' { text } else { bytes }
}

fn has_return(text: &[u8]) -> bool
    ensures { result ≡ list_any is_return text.now }
{
    text.iter().any(|c| *c == b'\r')
}

/// The place of the first line feed.
fn end_of_line(piece: &[u8]) -> Option<usize>
    ensures place { result ≡ position is_feed piece.now }
    ensures within { IfSome result (λ at. at < length piece.now) }
{
    piece.iter().position(|c| *c == b'\n')
}
