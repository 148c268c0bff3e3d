//! Puts a text that is known.
ghost use Rattle.std.specs.Prelude.{◌≡◌, ◌≢◌};
ghost use Rattle.zonomon_run.specs.Ending.{accepted_text, TellsEnding};
ghost use Rattle.zonomon_run.specs.Runs.{PutsText};

use crate::ending::{Ending, tell};
use outside_io::{PutFault, Sink, put_all};

/// What is said of a report that is accepted.
const ACCEPTED: &[u8] = b"accepted\n";

/// The line that says that a report is accepted.
pub fn accepted() -> &'static [u8]
    ensures { result.now ≡ accepted_text }
{
    ACCEPTED
}

/// Puts a text to `out`, or the line that says why not to `err`, and gives the status.
pub fn put_text<O: Sink, E: Sink>(text: &[u8], out: &mut O, err: &mut E) -> u8
    ensures puts { PutsText text.now (O.state out.old) result (O.state out.new) }
    ensures silent { result ≡ 0 → (E.state err.new).held ≡ (E.state err.old).held }
    ensures told { result ≢ 0 → TellsEnding result (E.state err.old) (E.state err.new) }
{
    match put_all(out, text) {
        Ok(()) => 0,
        Err(PutFault::Failed) => tell(err, Ending::Write),
        Err(PutFault::Memory) => tell(err, Ending::Memory),
    }
}
