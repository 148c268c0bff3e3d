//! What a set is lent while it takes a row. None of it is part of the set's value, nor of what any clause promises.

/// Room for what is left of the entries of a set once gains take their shares of a
/// row, state by state: one owner lends it for row after row.
#[derive(Drop)]
pub struct Rest {
    pub(crate) entries: [[i64; 128]; 8],
}

impl Rest {
    /// Room that holds nothing yet.
    pub fn new() -> Self {
        Rest {
            entries: [[0; 128]; 8],
        }
    }
}

/// How a set fared with the latest rows, from 0 to 7: one more for each that it refused, one less for each that it took.
#[derive(Clone, Copy, Debug)]
pub struct Refusals {
    count: u8,
}

impl Refusals {
    /// Before the first row, as after as many refused rows as taken ones.
    pub fn new() -> Self {
        Refusals { count: 4 }
    }

    /// Whether most of the latest rows were refused.
    pub(crate) fn prevail(self) -> bool {
        self.count > 3
    }

    /// A row was refused.
    pub(crate) fn add(&mut self) {
        self.count = self.count.saturating_add(1).min(7);
    }

    /// A row was taken.
    pub(crate) fn take(&mut self) {
        self.count = self.count.saturating_sub(1);
    }
}
