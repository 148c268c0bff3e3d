//! The keys of columns: the sum of the magnitudes in a column less the greatest of them. Where there are rows, their coefficients count as further entries.

ghost use Rattle.std.specs.Prelude.{IsTrue, ◌≡◌, ℕ, ◌*◌, ◌<◌, ◌≤◌, length, pos, ◌+ℤ◌, ◌-ℤ◌, ◌≤ℤ◌, unsigned_abs, int_lt};
ghost use Rattle.std.specs.List.{All, sum_by, count_by};
ghost use Rattle.std.specs.Int.{int_max};
ghost use Rattle.set_rules.specs.Columns.{at, tabulate};
ghost use Rattle.set_rules.specs.Zono.{range};
ghost use Rattle.set_rules.specs.Limits.{row_limit, most_columns, most_rows, most_states};
ghost use Rattle.set_rules.specs.Reduce.{greatest, key_of, key_at};
ghost use Rattle.girard_reduce.specs.Lifted.{lifted_column, lifted_all, all_sizes, IsOrdered};

use arrayvec::ArrayVec;
use fixed_mat::{Cols, Rows, Whole};

/// Of some numbers: the sum of their magnitudes, and the greatest of these.
#[derive(Drop)]
struct Sizes<W> {
    sum: W,
    greatest: W,
}

impl<W: Whole> Sizes<W> {
    /// Of no numbers.
    fn none() -> Self
        ensures sum { W.value result.sum ≡ pos 0 }
        ensures greatest { W.value result.greatest ≡ pos 0 }
    {
        Sizes {
            sum: W::zero(),
            greatest: W::zero(),
        }
    }

    /// One more magnitude.
    fn add(&mut self, size: W)
        requires { unsigned_abs (W.value self.old.sum +ℤ W.value size) ≤ W.limit }
        ensures sum { W.value self.new.sum ≡ W.value self.old.sum +ℤ W.value size }
        ensures greatest { W.value self.new.greatest ≡ int_max (W.value self.old.greatest) (W.value size) }
    {
        self.sum = self.sum.plus(size);
        self.greatest = self.greatest.most(size);
    }

    /// The sum less the greatest.
    fn key(&self) -> W
        requires { unsigned_abs (W.value self.now.sum -ℤ W.value self.now.greatest) ≤ W.limit }
        ensures { W.value result ≡ W.value self.now.sum -ℤ W.value self.now.greatest }
    {
        self.sum.minus(self.greatest)
    }
}

/// The sizes of the entries of a column, in the width of `W`, in which their sum fits.
fn column_sizes<W: Whole>(column: &[i64]) -> Sizes<W>
    requires { sum_by unsigned_abs column.now ≤ W.limit }
    ensures sum { W.value result.sum ≡ pos (sum_by unsigned_abs column.now) }
    ensures greatest { W.value result.greatest ≡ pos (greatest column.now) }
{
    let mut sizes = Sizes::none();
    for entry in column {
        sizes.add(W::of(*entry).size());
    }
    sizes
}

/// The key of column `t`, whose coefficients in the rows count as further entries, in the width of `W`, in which their sum fits.
fn lifted_key<W: Whole, const N: usize>(cols: &Cols<N>, rows: &Rows, t: usize) -> W
    requires column { t < length cols.now }
    requires width { rows.now.width ≡ length cols.now }
    requires fits { sum_by unsigned_abs (lifted_column N cols.now rows.now.rows t) ≤ W.limit }
    ensures { W.value result ≡ pos (key_of (lifted_column N cols.now rows.now.rows t)) }
{
    let mut sizes: Sizes<W> = column_sizes(cols.column(t));
    for r in 0..rows.count() {
        sizes.add(W::of_wide(rows.coef(r, t)).size());
    }
    sizes.key()
}

/// The key of each column.
pub fn column_keys<const N: usize>(cols: &Cols<N>) -> ArrayVec<i64, 128>
    ensures { result.items ≡ tabulate (length cols.now) (key_at cols.now) }
{
    let mut keys = ArrayVec::new();
    for t in 0..cols.len() {
        keys.push(column_key(cols.column(t)));
    }
    keys
}

/// The key of a column, which has at most eight entries, so that they are added up in 64 bits.
fn column_key(column: &[i64]) -> i64
    requires short { length column.now ≤ most_states }
    requires within { All (λ z. unsigned_abs z ≤ range) column.now }
    ensures { result ≡ pos (key_of column.now) }
{
    column_sizes::<i64>(column).key()
}

/// Keys by which the columns go in the order of their keys with the coefficients of the rows.
pub fn lifted_keys<const N: usize>(cols: &Cols<N>, rows: &Rows) -> ArrayVec<i64, 128>
    requires width { rows.now.width ≡ length cols.now }
    ensures count { length result.items ≡ length cols.now }
    ensures order { IsOrdered (length cols.now) (at result.items) (key_at (lifted_all N cols.now rows.now.rows)) }
{
    if sum_of(rows) <= 1_000_000_000_000_000_000 {
        return narrow_keys(cols, rows);
    }
    places_in_order(&wide_keys(cols, rows))
}

/// The sum of the magnitudes in all rows.
fn sum_of(rows: &Rows) -> u128
    ensures value { result ≡ all_sizes rows.now.rows }
    ensures within { result ≤ most_rows * row_limit }
{
    let mut sum = 0;
    for r in 0..rows.count() {
        sum += rows.sum(r);
    }
    sum
}

/// The keys with the coefficients of the rows, in 64 bits.
fn narrow_keys<const N: usize>(cols: &Cols<N>, rows: &Rows) -> ArrayVec<i64, 128>
    requires width { rows.now.width ≡ length cols.now }
    requires small { all_sizes rows.now.rows ≤ range }
    ensures { result.items ≡ tabulate (length cols.now) (key_at (lifted_all N cols.now rows.now.rows)) }
{
    cols.tell();
    let mut keys = ArrayVec::new();
    for t in 0..cols.len() {
        keys.push(lifted_key::<i64, N>(cols, rows, t));
    }
    keys
}

/// The same in 128 bits.
fn wide_keys<const N: usize>(cols: &Cols<N>, rows: &Rows) -> ArrayVec<i128, 128>
    requires width { rows.now.width ≡ length cols.now }
    requires large { all_sizes rows.now.rows ≤ most_rows * row_limit }
    ensures { result.items ≡ tabulate (length cols.now) (key_at (lifted_all N cols.now rows.now.rows)) }
{
    cols.tell();
    let mut keys = ArrayVec::new();
    for t in 0..cols.len() {
        keys.push(lifted_key::<i128, N>(cols, rows, t));
    }
    keys
}

/// For each key how many are smaller: small numbers in the same order.
fn places_in_order(keys: &[i128]) -> ArrayVec<i64, 128>
    requires { length keys.now ≤ most_columns }
    ensures count { length result.items ≡ length keys.now }
    ensures order { IsOrdered (length keys.now) (at result.items) (at keys.now) }
{
    let mut places = ArrayVec::new();
    for key in keys {
        places.push(count_below(keys, *key) as i64);
    }
    places
}

/// How many of the keys are smaller than `bound`.
fn count_below(keys: &[i128], bound: i128) -> usize
    ensures value { result ≡ count_by (λ key. int_lt key bound) keys.now }
    ensures few { result ≤ length keys.now }
{
    let mut count = 0;
    for key in keys {
        if *key < bound {
            count += 1;
        }
    }
    count
}
