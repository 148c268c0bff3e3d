//! Room for the readings of a sample.

use fixed_mat::Coefs;
use zono_set::Rest;

/// Room in which estimates take the readings of a sample, so that no sample makes it anew. One owner
/// lends it to all of them, and nothing in it lasts from one to the next.
#[derive(Drop)]
pub struct Room {
    /// For the coefficients of the row of a reading.
    pub(crate) row: Coefs,
    /// For what is left of a set once its gains take their shares of that row.
    pub(crate) rest: Rest,
}

impl Room {
    /// Room that holds nothing yet.
    pub fn new() -> Self {
        Room {
            row: Coefs::new(),
            rest: Rest::new(),
        }
    }
}
