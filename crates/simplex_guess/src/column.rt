//! The symbols, each with what a list of multipliers leaves of it.

use crate::fixed::Fixed;
use crate::vector::Vector;

/// On which side of 0 the coefficient of a symbol counts as long as it does not pass 0.
#[derive(Clone, Copy, Debug, PartialEq, Eq)]
pub(crate) enum Standing {
    Above,
    Below,
    /// It stays at 0 until its place is given up.
    Resting,
}

/// The coefficients of a symbol in the scaled rows, and these times the multipliers and times the direction in which
/// the multipliers go.
#[derive(Clone, Copy, Debug)]
pub(crate) struct Column {
    pub(crate) scaled: Vector,
    pub(crate) left: Fixed,
    pub(crate) along: Fixed,
    pub(crate) standing: Standing,
}

impl Default for Column {
    fn default() -> Self {
        Column {
            scaled: Vector::zero(),
            left: Fixed::zero(),
            along: Fixed::zero(),
            standing: Standing::Resting,
        }
    }
}

impl Column {
    /// With these multipliers.
    pub(crate) fn new(scaled: Vector, ray: &Vector) -> Column {
        let left = ray.times(&scaled);
        Column {
            scaled,
            left,
            along: Fixed::zero(),
            standing: if left.is_negative() {
                Standing::Below
            } else {
                Standing::Above
            },
        }
    }

    /// Whether what is left goes to 0 along the direction.
    pub(crate) fn falls(&self) -> bool {
        match self.standing {
            Standing::Above => self.along.units < 0,
            Standing::Below => self.along.units > 0,
            Standing::Resting => false,
        }
    }

    /// Puts it on the other side.
    pub(crate) fn cross(&mut self) {
        self.standing = match self.standing {
            Standing::Above => Standing::Below,
            Standing::Below => Standing::Above,
            Standing::Resting => Standing::Resting,
        };
    }
}

/// A symbol whose coefficient comes to 0 along the direction.
#[derive(Clone, Copy, Debug)]
pub(crate) struct Crossing {
    pub(crate) index: usize,
    left: u64,
    along: u64,
}

impl Crossing {
    fn is_before(&self, other: &Crossing) -> bool {
        u128::from(self.left) * u128::from(other.along)
            < u128::from(other.left) * u128::from(self.along)
    }

    /// The slope after it.
    fn slope_after(&self, slope: u64) -> u64 {
        slope.saturating_sub(self.along).saturating_sub(self.along)
    }
}

/// The first crossing ahead.
fn first_crossing(columns: &[Column]) -> Option<Crossing> {
    let mut first: Option<Crossing> = None;
    for (index, column) in columns.iter().enumerate() {
        if column.falls() {
            let crossing = Crossing {
                index,
                left: column.left.size(),
                along: column.along.size(),
            };
            match first {
                Some(before) if !crossing.is_before(&before) => {}
                _ => first = Some(crossing),
            }
        }
    }
    first
}

/// Goes past the crossings for as long as the sum of the magnitudes falls, and to the one where it falls no more.
pub(crate) fn last_crossing(columns: &mut [Column], gain: u64) -> Option<usize> {
    let mut slope = gain;
    for _ in 0..columns.len() {
        let crossing = first_crossing(columns)?;
        slope = crossing.slope_after(slope);
        if slope == 0 {
            return Some(crossing.index);
        }
        if let Some(column) = columns.get_mut(crossing.index) {
            column.cross();
        }
    }
    None
}
