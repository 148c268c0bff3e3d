//! What each row has to itself.

ghost use Rattle.std.specs.Prelude.{◌≤◌, ◌<◌, length, IfSome};
ghost use Rattle.set_rules.specs.Limits.{row_limit, most_columns};

use fixed_mat::Rows;

/// The symbols that are no row's own, and how far the others go: those of one row alone, as that of its noise mostly
/// is, reach each number up to the sum of their magnitudes there.
#[derive(Clone, Copy, Debug)]
pub(crate) struct Own {
    is_shared: [bool; 128],
    sums: [u128; 6],
}

impl Own {
    pub(crate) fn of(rows: &Rows) -> Own {
        let mut is_shared = [false; 128];
        let mut sums = [0_u128; 6];
        for t in 0..rows.width() {
            match sole_row(rows, t) {
                Some(r) => sums[r] = sums[r].saturating_add(rows.coef(r, t).unsigned_abs()),
                None => is_shared[t] = true,
            }
        }
        Own { is_shared, sums }
    }

    /// Whether symbol `t` is no row's own.
    pub(crate) fn is_shared(&self, t: usize) -> bool
        requires { t < most_columns }
    {
        self.is_shared[t]
    }

    /// How far row `r` goes by its own symbols.
    pub(crate) fn sum(&self, rows: &Rows, r: usize) -> u128
        requires row { r < length rows.now.rows }
        requires few { r < 6 }
        ensures { result ≤ row_limit }
    {
        self.sums[r].min(rows.sum(r))
    }

    /// Whether each right side is met where the symbols that rows share are 0.
    pub(crate) fn reaches(&self, rows: &Rows) -> bool {
        for r in 0..rows.count() {
            if rows.rhs(r).unsigned_abs() > self.sum(rows, r) {
                return false;
            }
        }
        true
    }
}

/// The only row that has a coefficient at symbol `t`, where there is one.
fn sole_row(rows: &Rows, t: usize) -> Option<usize>
    requires { t < rows.now.width }
    ensures row { IfSome result (λ r. r < length rows.now.rows) }
    ensures few { IfSome result (λ r. r < 6) }
{
    let mut sole = None;
    for r in 0..rows.count() {
        if rows.coef(r, t) != 0 {
            if sole.is_some() {
                return None;
            }
            sole = Some(r);
        }
    }
    sole
}
