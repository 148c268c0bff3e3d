//! The search itself.

ghost use Rattle.std.specs.Prelude.{◌≡◌, ◌≤◌, ◌<◌, length};

use crate::column::{Column, Standing, last_crossing};
use crate::fixed::Fixed;
use crate::scale::Scales;
use crate::vector::Vector;
use arrayvec::ArrayVec;
use fixed_mat::Rows;

/// The least slope, in units, that is followed: less is what rounding makes.
const SLACK: u64 = 16;

/// How many times the right sides are enlarged beside the coefficients.
const FINENESS: u128 = 8_192;

/// A way in which the multipliers can go: they keep their right side, and 0 in the symbols that rest elsewhere.
#[derive(Clone, Copy, Debug)]
struct Direction {
    vector: Vector,
    /// The symbol that rests here, which changes by 1 along the direction.
    symbol: Option<usize>,
}

/// A direction that makes the sum of the magnitudes less, and by how much for each unit of way.
#[derive(Clone, Copy, Debug)]
struct Descent {
    place: usize,
    is_reversed: bool,
    gain: u64,
    ghost within: { place < 6 },
}

/// Multipliers of the scaled rows whose right side is 1, and the ways from there. What is sought is the least sum of
/// the magnitudes that they leave of the symbols: below 1, they refute the rows. That is a fit of the right sides by
/// least magnitudes, and the search is the simplex method in which a step passes more than one corner (Barrodale and
/// Roberts 1973).
#[derive(Drop)]
pub(crate) struct Search {
    columns: ArrayVec<Column, 128>,
    ray: Vector,
    directions: [Direction; 6],
}

impl Search {
    /// Begins with the row of the greatest right side alone.
    pub(crate) fn new(rows: &Rows, scales: &Scales) -> Search {
        let right = scales.right_sides(rows);
        let first = greatest_at(&right);
        let ray = Vector::unit(first, Fixed::one().over(right.entries[first]));
        let mut columns = ArrayVec::new();
        for t in 0..rows.width() {
            columns.push(Column::new(scales.column(rows, t), &ray));
        }
        Search {
            columns,
            ray,
            directions: first_directions(&right, &ray, first),
        }
    }

    /// The multipliers.
    pub(crate) fn ray(&self) -> &Vector {
        &self.ray
    }

    /// Whether the sum is beyond what the right sides come to under the multipliers, and by more than a sixteenth:
    /// then no rounding makes them pass.
    pub(crate) fn is_hopeless(&self, right: &Vector) -> bool {
        let reach = self.ray.times(right).size();
        u128::from(self.sum()) * 16 * FINENESS > u128::from(reach) * 17
    }

    /// The sum of the magnitudes, in units.
    fn sum(&self) -> u64 {
        self.columns.iter().fold(0, |sum: u64, column| sum.saturating_add(column.left.size()))
    }

    /// Makes the sum less for as long as a direction does, by at most 200 pivots; tells how many there were.
    pub(crate) fn descend(&mut self) -> u64
        ensures { result ≤ 200 }
    {
        for done in 0..200 {
            if !self.pivot() {
                return done;
            }
        }
        200
    }

    /// Goes along the steepest direction to where the sum is least; tells whether there is one.
    fn pivot(&mut self) -> bool {
        let Some(descent) = self.steepest() else {
            return false;
        };
        let way = self.start(descent);
        match last_crossing(&mut self.columns, descent.gain) {
            Some(index) => {
                self.exchange(descent.place, &way, index);
                true
            }
            None => false,
        }
    }

    /// The direction of the greatest gain.
    fn steepest(&self) -> Option<Descent> {
        let pull = self.pull();
        let mut best = None;
        let mut most = SLACK;
        for place in 0..6 {
            let direction = &self.directions[place];
            let slope = direction.vector.times(&pull);
            let own = match direction.symbol {
                Some(_) => Fixed::one().size(),
                None => 0,
            };
            let gain = slope.size().saturating_sub(own);
            if gain > most {
                most = gain;
                best = Some(Descent {
                    place,
                    is_reversed: !slope.is_negative(),
                    gain,
                });
            }
        }
        best
    }

    /// The columns that do not rest, each with the sign of its side, added up.
    fn pull(&self) -> Vector {
        let mut sum = Vector::zero();
        for column in self.columns.iter() {
            match column.standing {
                Standing::Above => sum = sum.plus(&column.scaled),
                Standing::Below => sum = sum.less(Fixed::one(), &column.scaled),
                Standing::Resting => {}
            }
        }
        sum
    }

    /// Wakes the symbol that rests at the descent's place, and turns all to its direction, which it gives.
    fn start(&mut self, descent: Descent) -> Vector {
        let direction = self.directions[descent.place];
        let (way, standing) = if descent.is_reversed {
            (direction.vector.negated(), Standing::Below)
        } else {
            (direction.vector, Standing::Above)
        };
        if let Some(symbol) = direction.symbol {
            if let Some(column) = self.columns.get_mut(symbol) {
                column.standing = standing;
            }
        }
        for column in self.columns.iter_mut() {
            column.along = way.times(&column.scaled);
        }
        way
    }

    /// Goes along the way to where this symbol comes to 0, and lets it rest at the place.
    fn exchange(&mut self, place: usize, way: &Vector, index: usize)
        requires { place < 6 }
    {
        let Some(column) = self.columns.get_mut(index) else {
            return;
        };
        column.standing = Standing::Resting;
        let scaled = column.scaled;
        let unit = way.over(way.times(&scaled));
        self.ray = self.ray.less(self.ray.times(&scaled), &unit);
        for direction in self.directions.iter_mut() {
            let along = direction.vector.times(&scaled);
            direction.vector = direction.vector.less(along, &unit);
        }
        self.directions[place] = Direction {
            vector: unit,
            symbol: Some(index),
        };
        for column in self.columns.iter_mut() {
            column.left = self.ray.times(&column.scaled);
        }
    }
}

/// The row of the greatest right side.
fn greatest_at(right: &Vector) -> usize
    ensures { result < 6 }
{
    let mut best = 0;
    let mut most = 0;
    for r in 0..6 {
        let size = right.entries[r].size();
        if size > most {
            best = r;
            most = size;
        }
    }
    best
}

/// At each other row a direction that takes it in, and at the first as much less as keeps the right side.
fn first_directions(right: &Vector, ray: &Vector, first: usize) -> [Direction; 6] {
    let nowhere = Direction {
        vector: Vector::zero(),
        symbol: None,
    };
    let mut directions = [nowhere; 6];
    for (r, direction) in directions.iter_mut().enumerate() {
        if r != first {
            direction.vector = Vector::unit(r, Fixed::one()).less(right.entries[r], ray);
        }
    }
    directions
}
