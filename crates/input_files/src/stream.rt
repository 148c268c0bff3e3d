//! The telemetry as a stream of lines, read from its slot in pieces.
ghost use Rattle.std.specs.Prelude.{◌≡◌, ◌≢◌, ℕ, ◌<◌, ◌≤◌, List, [], ◌++◌, length, false, true, IfOk, OnOk, IfErr};
ghost use Rattle.std.specs.List.{list_any};
ghost use Rattle.std.specs.Io.KnownBytes.{IsAtEnd};
ghost use Rattle.telem_csv.specs.Columns.{Columns};
ghost use Rattle.telem_csv.specs.Cutter.{at_start, current, rows_owed, rows_after, telemetry_owed, telemetry_after};
ghost use Rattle.telem_csv.specs.Fed.{is_refusal, cause_of};
ghost use Rattle.telem_csv.specs.Lines.{is_feed};
ghost use Rattle.telem_csv.specs.Rows.{refused_at};

use outside_io::{GetFault, Shelf};
use telem_csv::{Fed, LineCutter, TelemFault, TelemWhy};

/// Why no line came.
#[derive(Clone, Copy)]
pub enum StreamFault {
    /// The line is refused.
    Refused(TelemFault),
    /// The slot can't be read.
    Read,
    /// Memory ran out.
    Memory,
}

impl From<GetFault> for StreamFault {
    ghost use Rattle.input_files.specs.Stream.{stream_fault};

    ghost from_gives = { λ fault why. why ≡ stream_fault fault };

    fn from(fault: GetFault) -> StreamFault {
        match fault {
            GetFault::Failed => StreamFault::Read,
            GetFault::Memory => StreamFault::Memory,
        }
    }
}

/// A telemetry that is read on: the line at hand, and what was read of the next ones.
#[derive(Drop)]
pub struct Stream {
    pub cutter: LineCutter,
    /// What was read last: 4,096 bytes are read at a time.
    pub piece: [u8; 4096],
    /// What is left of it goes from here to `end`.
    pub at: usize,
    pub end: usize,
    /// Whether the slot gave no more bytes: nothing is read from then on.
    pub is_ended: bool,
    ghost within: { at ≤ end },
    ghost short: { end ≤ 4096 },
    ghost no_feed: { list_any is_feed cutter.bytes ≡ false },
}

impl Stream {
    ghost use Rattle.input_files.specs.Left.{left_of};
    ghost use Rattle.input_files.specs.Stream.{BothTold, GoesOn, OnUnread, ReadsOn, HasReadCause};
    ghost use Rattle.input_files.specs.Stream.{TellsLine, TellsEnd, TellsRefusal, IsEndedAt, FailsAtSlot};
    ghost use Rattle.input_files.specs.Ended.{CutsLine, GrowsLine, TakesLine, TakesNoLine, EndsNoLine};

    /// Before the first byte of a telemetry of at most `limit` bytes.
    pub fn new(limit: u64) -> Stream
        requires { limit ≤ 4611686018427387904 }
        ensures cutter { result.cutter ≡ at_start limit }
        ensures left { left_of result ≡ [] }
        ensures is_ended { result.is_ended ≡ false }
    {
        Stream {
            cutter: LineCutter::new(limit),
            piece: [0; 4096],
            at: 0,
            end: 0,
            is_ended: false,
        }
    }

    /// Goes on to the next line of the stream in this slot, and says whether there is one.
    pub fn next_line<F: Shelf>(&mut self, shelf: &mut F, slot: usize) -> Result<bool, StreamFault>
        requires slot { slot < 3 }
        requires attached { ((F.state shelf.old).slot slot).attached ≡ true }
        requires going { is_refusal self.old.cutter.last ≡ false }
        requires ended { IsEndedAt slot self.old (F.state shelf.old) }
        ensures line { IfOk result (λ b. b ≡ true
            → OnUnread slot self.old (F.state shelf.old) self.new (F.state shelf.new)
            (TellsLine self.old.cutter self.new.cutter)) }
        ensures cut { IfOk result (λ b. b ≡ true → self.new.cutter.last ≡ Fed.Line) }
        ensures fewer { IfOk result (λ b. b ≡ true → (current self.new.cutter).room < (current self.old.cutter).room) }

        // The line ended with the last byte that was taken, or stands at the end of the stream.
        ensures takes { IfOk result (λ b. b ≡ true
            → OnUnread slot self.old (F.state shelf.old) self.new (F.state shelf.new)
            (TakesLine self.new.is_ended self.old.cutter self.new.cutter)) }
        ensures end { IfOk result (λ b. b ≡ false
            → OnUnread slot self.old (F.state shelf.old) self.new (F.state shelf.new)
            (λ unread _. TellsEnd self.old.cutter unread)) }
        ensures no_more { IfOk result (λ b. b ≡ false
            → OnUnread slot self.old (F.state shelf.old) self.new (F.state shelf.new) (EndsNoLine self.old.cutter)) }
        ensures at_end { IfOk result (λ b. b ≡ false → IsAtEnd ((F.state shelf.new).slot slot).rest) }
        ensures refused { IfErr result (λ e. (fault : TelemFault) → e ≡ StreamFault.Refused fault
            → OnUnread slot self.old (F.state shelf.old) self.new (F.state shelf.new)
            (λ unread _. TellsRefusal self.old.cutter fault unread)) }
        ensures read { IfErr result (HasReadCause slot (F.state shelf.old) (F.state shelf.new)) }

        // Reading failed: all that was read was used, and no line ended in it.
        ensures failed { IfErr result (λ e. e ≡ StreamFault.Read → FailsAtSlot self.old self.new) }
        ensures no_line { IfErr result (λ e. e ≡ StreamFault.Read
            → OnUnread slot self.old (F.state shelf.old) self.new (F.state shelf.new) (TakesNoLine self.old.cutter)) }

        // A stream that has ended has nothing at hand, and its slot gives no more.
        ensures ended { IsEndedAt slot self.new (F.state shelf.new) }
        ensures stays { self.new.is_ended ≡ false → self.old.is_ended ≡ false }
        ensures kept { ReadsOn slot (F.state shelf.old) (F.state shelf.new) }
    {
        loop {
            if !self.has_bytes(shelf, slot)? {
                return self.finish();
            }
            match self.feed() {
                Fed::More => {}
                Fed::Line => return Ok(true),
                refusal => return Err(self.refused(refusal)),
            }
        }
    }

    /// Reads the next piece where nothing of the last one is left, and says whether there is something.
    fn has_bytes<F: Shelf>(&mut self, shelf: &mut F, slot: usize) -> Result<bool, StreamFault>
        requires slot { slot < 3 }
        requires attached { ((F.state shelf.old).slot slot).attached ≡ true }
        requires ended { IsEndedAt slot self.old (F.state shelf.old) }
        ensures cutter { self.new.cutter ≡ self.old.cutter }
        ensures bytes { OnUnread slot self.old (F.state shelf.old) self.new (F.state shelf.new) (λ before after. before ≡ after) }
        ensures some { IfOk result (λ b. b ≡ true → 0 < length (left_of self.new)) }
        ensures going { IfOk result (λ b. b ≡ true → self.new.is_ended ≡ false) }
        ensures none { IfOk result (λ b. b ≡ false
            → OnUnread slot self.old (F.state shelf.old) self.new (F.state shelf.new) (λ _ unread. unread ≡ [])) }
        ensures at_end { IfOk result (λ b. b ≡ false → IsAtEnd ((F.state shelf.new).slot slot).rest) }
        ensures read { IfErr result (HasReadCause slot (F.state shelf.old) (F.state shelf.new)) }
        ensures not_refused { IfErr result (λ e. (fault : TelemFault) → e ≢ StreamFault.Refused fault) }
        ensures failed { IfErr result (λ _. FailsAtSlot self.old self.new) }
        ensures last { IfOk result (λ b. b ≡ false → self.new.is_ended ≡ true) }
        ensures ended { IsEndedAt slot self.new (F.state shelf.new) }
        ensures stays { self.new.is_ended ≡ false → self.old.is_ended ≡ false }
        ensures kept { ReadsOn slot (F.state shelf.old) (F.state shelf.new) }
    {
        if self.at < self.end {
            return Ok(true);
        }
        if self.is_ended {
            return Ok(false);
        }
        self.fill(shelf, slot)
    }

    /// Reads the next piece, and says whether the slot had more.
    fn fill<F: Shelf>(&mut self, shelf: &mut F, slot: usize) -> Result<bool, StreamFault>
        requires slot { slot < 3 }
        requires attached { ((F.state shelf.old).slot slot).attached ≡ true }
        requires used { self.old.at ≡ self.old.end }
        requires unended { self.old.is_ended ≡ false }
        ensures cutter { self.new.cutter ≡ self.old.cutter }
        ensures bytes { BothTold ((F.state shelf.old).slot slot).rest ((F.state shelf.new).slot slot).rest
            (λ before after. before ≡ left_of self.new ++ after) }
        ensures some { IfOk result (λ b. b ≡ true → 0 < length (left_of self.new)) }
        ensures going { IfOk result (λ b. b ≡ true → self.new.is_ended ≡ false) }
        ensures none { IfOk result (λ b. b ≡ false → left_of self.new ≡ []) }
        ensures at_end { IfOk result (λ b. b ≡ false → IsAtEnd ((F.state shelf.new).slot slot).rest) }
        ensures read { IfErr result (HasReadCause slot (F.state shelf.old) (F.state shelf.new)) }
        ensures not_refused { IfErr result (λ e. (fault : TelemFault) → e ≢ StreamFault.Refused fault) }
        ensures failed { IfErr result (λ _. left_of self.new ≡ []) }
        ensures last { IfOk result (λ b. b ≡ false → self.new.is_ended ≡ true) }
        ensures ended { IsEndedAt slot self.new (F.state shelf.new) }
        ensures kept { ReadsOn slot (F.state shelf.old) (F.state shelf.new) }
    {
        let count = shelf.next(slot, &mut self.piece)?;
        self.at = 0;
        self.end = count;
        self.is_ended = count == 0;
        Ok(count > 0)
    }

    /// Gives the cutter what was read.
    fn feed(&mut self) -> Fed
        requires { is_refusal self.old.cutter.last ≡ false }
        ensures rows { (head : Columns) (rest : List ℕ)
            → rows_owed head self.old.cutter (left_of self.old ++ rest)
            ≡ rows_after head result self.new.cutter (left_of self.new ++ rest) }
        ensures telemetry { (inputs outputs : List (List ℕ)) (rest : List ℕ)
            → telemetry_owed inputs outputs self.old.cutter (left_of self.old ++ rest)
            ≡ telemetry_after inputs outputs result self.new.cutter (left_of self.new ++ rest) }
        ensures line { result ≡ Fed.Line → (current self.new.cutter).room < (current self.old.cutter).room }
        ensures cuts { result ≡ Fed.Line → (rest : List ℕ)
            → CutsLine self.old.cutter self.new.cutter (left_of self.old ++ rest) (left_of self.new ++ rest) }
        ensures grows { result ≡ Fed.More → (rest : List ℕ)
            → GrowsLine self.old.cutter self.new.cutter (left_of self.old ++ rest) (left_of self.new ++ rest) }
        ensures more { result ≡ Fed.More → GoesOn self.old.cutter self.new.cutter (left_of self.old) }
        ensures used { result ≡ Fed.More → self.new.at ≡ self.new.end }
        ensures not_ended { result ≢ Fed.Ended }
        ensures is_ended { self.new.is_ended ≡ self.old.is_ended }
        ensures last { self.new.cutter.last ≡ result }
    {
        let piece: &[u8] = &self.piece;
        let (taken, answer) = self.cutter.feed(&piece[self.at..self.end]);
        self.at += taken;
        answer
    }

    /// The line behind the last line feed, if there is one.
    fn finish(&mut self) -> Result<bool, StreamFault>
        requires { is_refusal self.old.cutter.last ≡ false }
        ensures rows { (head : Columns)
            → rows_owed head self.old.cutter [] ≡ rows_after head self.new.cutter.last self.new.cutter [] }
        ensures telemetry { (inputs outputs : List (List ℕ))
            → telemetry_owed inputs outputs self.old.cutter []
            ≡ telemetry_after inputs outputs self.new.cutter.last self.new.cutter [] }
        ensures fewer { self.new.cutter.last ≡ Fed.Line → (current self.new.cutter).room < (current self.old.cutter).room }
        ensures is_ended { self.new.is_ended ≡ self.old.is_ended }
        ensures left { left_of self.new ≡ left_of self.old }
        ensures line { IfOk result (λ b. b ≡ true → self.new.cutter.last ≡ Fed.Line) }
        ensures end { IfOk result (λ b. b ≡ false → self.new.cutter.last ≡ Fed.Ended) }
        ensures refused { IfErr result (λ e.
            e ≡ StreamFault.Refused (refused_at self.new.cutter.number (cause_of self.new.cutter.last))) }
        ensures refusal { IfErr result (λ _. is_refusal self.new.cutter.last ≡ true) }
    {
        match self.cutter.finish() {
            Fed::Line => Ok(true),
            Fed::Ended => Ok(false),
            refusal => Err(self.refused(refusal)),
        }
    }

    /// The refusal of the header or the row at hand for this cause.
    pub fn row_refused(&self, why: TelemWhy) -> StreamFault
        ensures memory { why ≡ TelemWhy.Memory → result ≡ StreamFault.Memory }
        ensures refused { why ≢ TelemWhy.Memory → result ≡ StreamFault.Refused (refused_at self.now.cutter.number why) }
    {
        if why == TelemWhy::Memory {
            return StreamFault::Memory;
        }
        StreamFault::Refused(TelemFault {
            line: self.cutter.number(),
            why,
        })
    }

    /// The refusal of the line at hand.
    fn refused(&self, refusal: Fed) -> StreamFault
        ensures { result ≡ StreamFault.Refused (refused_at self.now.cutter.number (cause_of refusal)) }
    {
        StreamFault::Refused(TelemFault {
            line: self.cutter.number(),
            why: cause_of(refusal),
        })
    }
}

/// The cause of a refused line.
fn cause_of(refusal: Fed) -> TelemWhy
    ensures { result ≡ cause_of refusal }
{
    match refusal {
        Fed::OverLimit => TelemWhy::TooLong,
        Fed::Long => TelemWhy::LongLine,
        _ => TelemWhy::StrayCr,
    }
}
