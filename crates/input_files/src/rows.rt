//! The header and the rows of a telemetry, past its blank lines.
ghost use Rattle.std.specs.Prelude.{◌≡◌, ◌<◌, ◌≤◌, length, false, true, IfOk, IfErr, IfSome, IfNone};
ghost use Rattle.std.specs.Io.KnownBytes.{IsAtEnd};
ghost use Rattle.plant_model.specs.Seen.{sample_of};
ghost use Rattle.telem_csv.specs.Columns.{AreFor};
ghost use Rattle.telem_csv.specs.Cutter.{current};
ghost use Rattle.telem_csv.specs.Fed.{is_refusal};
ghost use Rattle.telem_csv.specs.Rows.{refused_at};
ghost use Rattle.telem_csv.specs.Samples.{IsSampleFor};
ghost use Rattle.input_files.specs.Ended.{TakesHeader, EndsNoHeader, TakesNoHeader, TakesRow, EndsNoRow, TakesNoRow};
ghost use Rattle.input_files.specs.Stream.{OnUnread, ReadsOn, HasReadCause, IsEndedAt, FailsAtSlot};
ghost use Rattle.input_files.specs.Stream.{TellsHeader, RefusesHeader, TellsSample, TellsNoRow, RefusesRow};

use crate::stream::{Stream, StreamFault};
use outside_io::Shelf;
use plant_model::{Names, Sample};
use std::alloc::Global;
use telem_csv::{Header, TelemFault, TelemWhy, read_row};

/// The slot of the telemetry.
pub const TELEMETRY_SLOT: usize = 1;

/// The header of the telemetry, for columns of these names.
pub fn find_header<F: Shelf>(
    alloc: Global,
    stream: &mut Stream,
    shelf: &mut F,
    inputs: &Names,
    outputs: &Names,
) -> Result<Header, StreamFault>
    requires attached { ((F.state shelf.old).slot 1).attached ≡ true }
    requires going { is_refusal stream.old.cutter.last ≡ false }
    requires ended { IsEndedAt 1 stream.old (F.state shelf.old) }
    requires few { length inputs.now ≤ 4 }
    ensures header { IfOk result (λ head. OnUnread 1 stream.old (F.state shelf.old) stream.new (F.state shelf.new)
        (TellsHeader inputs.now outputs.now head stream.old.cutter stream.new.cutter)) }

    // The header's line ended with the last line feed that was taken, or stands at the end of the stream.
    ensures takes { IfOk result (λ head. OnUnread 1 stream.old (F.state shelf.old) stream.new (F.state shelf.new)
        (TakesHeader inputs.now outputs.now head stream.new.is_ended stream.old.cutter stream.new.cutter)) }
    ensures counts { IfOk result (AreFor inputs.now outputs.now) }
    ensures going { IfOk result (λ h. is_refusal stream.new.cutter.last ≡ false) }
    ensures room { IfOk result (λ h. (current stream.new.cutter).room ≤ (current stream.old.cutter).room) }
    ensures refused { IfErr result (λ e. (fault : TelemFault) → e ≡ StreamFault.Refused fault
        → OnUnread 1 stream.old (F.state shelf.old) stream.new (F.state shelf.new)
        (RefusesHeader inputs.now outputs.now stream.old.cutter fault)) }
    ensures read { IfErr result (HasReadCause 1 (F.state shelf.old) (F.state shelf.new)) }

    // Reading failed: all that was read was used, and no header is in it.
    ensures failed { IfErr result (λ e. e ≡ StreamFault.Read → FailsAtSlot stream.old stream.new) }
    ensures no_line { IfErr result (λ e. e ≡ StreamFault.Read
        → OnUnread 1 stream.old (F.state shelf.old) stream.new (F.state shelf.new)
        (TakesNoHeader inputs.now outputs.now stream.old.cutter)) }

    // A stream that has ended has nothing at hand, and its slot gives no more.
    ensures ended { IsEndedAt 1 stream.new (F.state shelf.new) }
    ensures stays { stream.new.is_ended ≡ false → stream.old.is_ended ≡ false }
    ensures kept { ReadsOn 1 (F.state shelf.old) (F.state shelf.new) }
{
    'lines: loop {
        if !stream.next_line(shelf, TELEMETRY_SLOT)? {
            return Err(no_header());
        }
        match Header::read(alloc, stream.cutter.line(), inputs, outputs) {
            Ok(Some(header)) => return Ok(header),
            Ok(None) => {}
            Err(why) => return Err(stream.row_refused(why)),
        }
    }
}

/// The refusal of a telemetry without a header.
fn no_header() -> StreamFault
    ensures { result ≡ StreamFault.Refused (refused_at 1 TelemWhy.NoHeader) }
{
    StreamFault::Refused(TelemFault {
        line: 1,
        why: TelemWhy::NoHeader,
    })
}

/// The next sample, if there is one.
pub fn next_row<F: Shelf>(
    alloc: Global,
    stream: &mut Stream,
    shelf: &mut F,
    head: &Header,
) -> Result<Option<Sample>, StreamFault>
    requires attached { ((F.state shelf.old).slot 1).attached ≡ true }
    requires going { is_refusal stream.old.cutter.last ≡ false }
    requires ended { IsEndedAt 1 stream.old (F.state shelf.old) }
    ensures row { IfOk result (λ o. IfSome o (λ s.
        OnUnread 1 stream.old (F.state shelf.old) stream.new (F.state shelf.new)
        (TellsSample head.now (sample_of s) stream.old.cutter stream.new.cutter))) }

    // The row's line ended with the last line feed that was taken, or stands at the end of the stream.
    ensures takes { IfOk result (λ o. IfSome o (λ s.
        OnUnread 1 stream.old (F.state shelf.old) stream.new (F.state shelf.new)
        (TakesRow head.now (sample_of s) stream.new.is_ended stream.old.cutter stream.new.cutter))) }
    ensures counts { IfOk result (λ o. IfSome o (IsSampleFor head.now)) }
    ensures going { IfOk result (λ o. IfSome o (λ s. is_refusal stream.new.cutter.last ≡ false)) }
    ensures fewer { IfOk result (λ o. IfSome o (λ s. (current stream.new.cutter).room < (current stream.old.cutter).room)) }
    ensures end { IfOk result (λ o. IfNone o (OnUnread 1 stream.old (F.state shelf.old) stream.new (F.state shelf.new)
        (TellsNoRow head.now stream.old.cutter))) }
    ensures no_more { IfOk result (λ o. IfNone o (OnUnread 1 stream.old (F.state shelf.old) stream.new (F.state shelf.new)
        (EndsNoRow head.now stream.old.cutter))) }
    ensures at_end { IfOk result (λ o. IfNone o (IsAtEnd ((F.state shelf.new).slot 1).rest)) }
    ensures refused { IfErr result (λ e. (fault : TelemFault) → e ≡ StreamFault.Refused fault
        → OnUnread 1 stream.old (F.state shelf.old) stream.new (F.state shelf.new)
        (RefusesRow head.now stream.old.cutter fault)) }
    ensures read { IfErr result (HasReadCause 1 (F.state shelf.old) (F.state shelf.new)) }

    // Reading failed: all that was read was used, and no row is in it.
    ensures failed { IfErr result (λ e. e ≡ StreamFault.Read → FailsAtSlot stream.old stream.new) }
    ensures no_line { IfErr result (λ e. e ≡ StreamFault.Read
        → OnUnread 1 stream.old (F.state shelf.old) stream.new (F.state shelf.new) (TakesNoRow head.now stream.old.cutter)) }

    // A stream that has ended has nothing at hand, and its slot gives no more.
    ensures ended { IsEndedAt 1 stream.new (F.state shelf.new) }
    ensures stays { stream.new.is_ended ≡ false → stream.old.is_ended ≡ false }
    ensures kept { ReadsOn 1 (F.state shelf.old) (F.state shelf.new) }
{
    'lines: loop {
        if !stream.next_line(shelf, TELEMETRY_SLOT)? {
            return Ok(None);
        }
        match read_row(alloc, head, stream.cutter.line()) {
            Ok(Some(sample)) => return Ok(Some(sample)),
            Ok(None) => {}
            Err(why) => return Err(stream.row_refused(why)),
        }
    }
}
