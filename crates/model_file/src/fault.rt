//! Why a model file is refused.

use crate::{Count, Path};
use dec_text::DecFault;
use thiserror::Error;

/// The first refusal of a model file in the written order, with its place.
#[derive(Debug, Drop, Error)]
pub enum ModelFault {
    /// The bytes are no TOML document.
    #[error("not TOML")]
    NotToml,
    /// A key that is read is absent.
    #[error("a field is missing")]
    Missing {
        path: Path,
    },
    /// A value is not of the kind that is asked.
    #[error("a value of the wrong kind")]
    Kind {
        path: Path,
    },
    /// A text is no decimal in nano-units.
    #[error("a number cannot be read")]
    Decimal {
        path: Path,
        why: DecFault,
    },
    /// An array has another length.
    #[error("an array of another length")]
    Shape {
        path: Path,
        want: usize,
        got: usize,
    },
    /// A number is outside its range.
    #[error("a number out of range")]
    Over {
        path: Path,
    },
    /// A name is not in its form, or is an earlier one.
    #[error("a bad name")]
    Name {
        path: Path,
    },
    /// There are more than may be; `at` is the model that has too many states or disturbances.
    #[error("too many")]
    TooMany {
        what: Count,
        got: u64,
        at: Option<u32>,
    },
    /// Memory ran out.
    #[error("out of memory")]
    Memory,
}
