//! The proposal.

ghost use Rattle.std.specs.Prelude.{◌≡◌, ◌+◌, ◌≤◌, ◌<◌, ◌^◌, length};
ghost use Rattle.farkas_check.specs.Certificate.{list_of};

use crate::inside::has_point;
use crate::rounding::{ones, rounded};
use crate::scale::Scales;
use crate::search::Search;
use farkas_check::Multipliers;
use fixed_mat::Rows;

/// How many pivots were made, in all.
#[derive(Clone, Copy, Debug)]
pub struct Pivots {
    pub done: u64,
}

/// Multipliers, one for each row, that may refute the rows, whose numbers are nano-units; `passes` tells whether they
/// do. Where a point is found that meets all rows, none do, and they are all 1. Else they are sought by at most 200
/// pivots of the simplex method for least magnitudes (Barrodale and Roberts 1973).
pub fn propose(rows: &Rows, pivots: &mut Pivots) -> Multipliers
    requires room { pivots.old.done ≤ 2 ^ 63 }
    requires some { 0 < length rows.now.rows }
    ensures length { length (list_of result) ≡ length rows.now.rows }
    ensures counted { pivots.old.done ≤ pivots.new.done }
    ensures few { pivots.new.done ≤ pivots.old.done + 200 }
{
    let scales = Scales::of(rows);
    if has_point(rows, &scales) {
        return ones(rows.count());
    }
    fitted(rows, &scales, pivots)
}

/// Those that the simplex method leads to. It stands alone, so that who has no need of it does not pay for its
/// columns.
#[inline(never)]
fn fitted(rows: &Rows, scales: &Scales, pivots: &mut Pivots) -> Multipliers
    requires room { pivots.old.done ≤ 2 ^ 63 }
    requires some { 0 < length rows.now.rows }
    ensures length { length (list_of result) ≡ length rows.now.rows }
    ensures counted { pivots.old.done ≤ pivots.new.done }
    ensures few { pivots.new.done ≤ pivots.old.done + 200 }
{
    let mut search = Search::new(rows, scales);
    pivots.done += search.descend();
    if search.is_hopeless(&scales.fine_right_sides(rows)) {
        return ones(rows.count());
    }
    rounded(rows, &scales.unscaled(search.ray()))
}
