//! A point that meets all rows. Where there is one, no multipliers pass.

use crate::own::Own;
use crate::part::Part;
use crate::scale::Scales;
use crate::strip::Strips;
use crate::triangle::Triangle;
use crate::vector::Vector;
use fixed_mat::Rows;

/// How often a point is brought to the rows and back: mostly once is enough.
const ROUNDS: usize = 16;

/// Whether a point was found that meets all rows: 0, or one to which alternating projections (Cheney and Goldstein
/// 1959) lead from there.
pub(crate) fn has_point(rows: &Rows, scales: &Scales) -> bool {
    let own = Own::of(rows);
    own.reaches(rows) || leads_inside(rows, scales, &own)
}

/// Goes by least squares to where all rows hold, and from there back to symbols from -1 to 1, in turns. It stands
/// alone, so that who has no need of it does not pay for the room.
#[inline(never)]
fn leads_inside(rows: &Rows, scales: &Scales, own: &Own) -> bool {
    let mut strips = Strips::everywhere(rows.width());
    strips.take(rows, scales, own);
    let mut point = Point::origin(&strips.own());
    let triangle = point.triangle(&strips);
    let mut left = strips.right();
    for _ in 0..ROUNDS {
        point.go(&strips, &triangle.solved(&point.lacking(&left)));
        left = point.left(&strips);
        if strips.reach(&left) {
            return true;
        }
    }
    false
}

/// The symbols that rows share, and what each row's own symbols are to take of its right side: they count as one
/// symbol with a quarter of their reach, so that the others move first, and stop short of their end by an eighth.
#[derive(Clone, Copy, Debug)]
struct Point {
    symbols: [Part; 128],
    taken: Vector,
    most: Vector,
    weights: Vector,
}

impl Point {
    /// All symbols are 0.
    fn origin(own: &Vector) -> Point {
        Point {
            symbols: [Part::zero(); 128],
            taken: Vector::zero(),
            most: most_of(own),
            weights: weights_of(own),
        }
    }

    /// The factors of the rows, of which each has its own symbol too.
    fn triangle(&self, strips: &Strips) -> Triangle {
        Triangle::of(strips, &self.weights)
    }

    /// What the shared symbols leave of the right sides.
    fn left(&self, strips: &Strips) -> Vector {
        strips.left(&self.symbols)
    }

    /// What all symbols leave of them.
    fn lacking(&self, left: &Vector) -> Vector {
        left.minus(&self.taken)
    }

    /// Adds each row so many times, and goes back to the range.
    fn go(&mut self, strips: &Strips, times: &Vector) {
        for t in 0..strips.width() {
            self.symbols[t] = self.symbols[t].moved(strips.pull(t, times));
        }
        self.taken = self.taken_with(times);
    }

    /// What the own symbols take, once each row is added so many times.
    fn taken_with(&self, times: &Vector) -> Vector {
        let mut taken = self.taken;
        for (r, entry) in taken.entries.iter_mut().enumerate() {
            let more = self.weights.entries[r].times(times.entries[r]);
            *entry = entry.plus(more).within(self.most.entries[r]);
        }
        taken
    }
}

/// Seven eighths of the reach.
fn most_of(own: &Vector) -> Vector {
    let mut most = Vector::zero();
    for (entry, reach) in most.entries.iter_mut().zip(own.entries.iter()) {
        *entry = reach.minus(reach.parted(8));
    }
    most
}

/// The square of a quarter of the reach.
fn weights_of(own: &Vector) -> Vector {
    let mut weights = Vector::zero();
    for (entry, reach) in weights.entries.iter_mut().zip(own.entries.iter()) {
        let quarter = reach.parted(4);
        *entry = quarter.times(quarter);
    }
    weights
}
