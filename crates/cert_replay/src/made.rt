//! Lines that are made before they are compared.
ghost use Rattle.std.specs.Prelude.{◌≡◌, []};

use arrayvec::ArrayVec;
use outside_io::{PutFault, Sink};

/// Room for the 243 lines that a sample has at the most, each of at most 193 bytes with its line feed.
const ROOM: usize = 46_899;

/// The text of some lines: a sink that holds it.
#[derive(Drop)]
pub struct MadeText {
    pub text: ArrayVec<u8, ROOM>,
    /// How often room was wanted.
    pub wanted: u64,
}

impl MadeText {
    /// No line.
    pub fn new() -> MadeText
        ensures text { result.text.items ≡ [] }
        ensures wanted { result.wanted ≡ 0 }
    {
        MadeText {
            text: ArrayVec::new(),
            wanted: 0,
        }
    }

    /// Takes all lines away.
    pub fn clear(&mut self)
        ensures text { self.new.text.items ≡ [] }
        ensures wanted { self.new.wanted ≡ 0 }
    {
        self.text.clear();
        self.wanted = 0;
    }
}

impl Sink for MadeText {
    ghost use Rattle.outside_io.specs.Sink.{PutsSome};
    ghost use Rattle.cert_replay.specs.Made.{made_state};

    ghost state = { made_state };

    fn put(&mut self, piece: &[u8]) -> Result<usize, PutFault>
        ensures { PutsSome piece.now (made_state self.old) result (made_state self.new) }
    {
        if self.text.try_extend_from_slice(piece).is_ok() {
            return Ok(piece.len());
        }
        self.wanted = self.wanted.saturating_add(1);
        Err(PutFault::Memory)
    }
}
