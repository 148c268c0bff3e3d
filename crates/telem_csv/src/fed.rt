//! What a piece of a stream does to the line that is being cut.

ghost use Rattle.std.specs.Prelude.{◌≡◌, true};
ghost use Rattle.telem_csv.specs.Fed.{is_refusal, cause_of};

use crate::fault::TelemWhy;

/// What comes of feeding a piece.
#[derive(Clone, Copy, Debug, PartialEq, Eq)]
pub enum Fed {
    /// The whole piece was taken, and the line goes on.
    More,
    /// A line is cut.
    Line,
    /// The line has more than 4,096 bytes.
    Long,
    /// The stream goes on past its limit.
    OverLimit,
    /// A carriage return stands inside the line.
    StrayCr,
    /// The stream is at its end, and no byte stands after the last line.
    Ended,
}

impl Fed {
    /// Whether the stream is refused at the line.
    pub fn is_refusal(self) -> bool
        ensures { result ≡ is_refusal self }
    {
        matches!(self, Fed::Long | Fed::OverLimit | Fed::StrayCr)
    }

    /// The cause of a refusal.
    pub fn cause(self) -> TelemWhy
        requires { is_refusal self ≡ true }
        ensures { result ≡ cause_of self }
    {
        match self {
            Fed::OverLimit => TelemWhy::TooLong,
            Fed::Long => TelemWhy::LongLine,
            _ => TelemWhy::StrayCr,
        }
    }
}
