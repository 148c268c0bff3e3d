//! A row used up: each state takes a multiple of it.

ghost use Rattle.std.specs.Prelude.{◌≡◌, ℕ, ◌+◌, ◌*◌, ◌<◌, ◌≤◌, ◌^◌, ◌⊎◌, ◌&&◌, true, [], ◌∷◌, ◌++◌, length, replicate, take, ℤ};
ghost use Rattle.std.specs.Prelude.{pos, ◌+ℤ◌, ◌*ℤ◌, ◌≤ℤ◌, int_le, unsigned_abs, slice_set, is_some, IfSome, OnSome};
ghost use Rattle.set_rules.specs.Sum.{magnitude};
ghost use Rattle.set_rules.specs.Columns.{at, column_entry, row_magnitude, tabulate};
ghost use Rattle.set_rules.specs.Round.{rnd as rnd_of};
ghost use Rattle.set_rules.specs.Reduce.{diagonal_columns};
ghost use Rattle.set_rules.specs.Zono.{reach, range, zono_of};
ghost use Rattle.set_rules.specs.Gain.{substitution, substitute as substitute_of, residue_radius, in_range, spread, is_used};
ghost use Rattle.set_rules.specs.Limits.{row_limit, most_columns};
ghost use Rattle.set_rules.specs.Products.{rest_of, row_with};
ghost use Rattle.zono_set.specs.Used.{used_where};
ghost use Rattle.zono_set.specs.Holds.{HoldsRow, HoldsMore};

use crate::products::{rounded_share, take_shares};
use crate::room::{Refusals, Rest};
use crate::zono::Zono;
use arrayvec::ArrayVec;
use fixed_mat::{Coef, Coefs, Cols, Mat, Range, ceil_s};

/// Whether a set took a row that was offered to it.
#[derive(Clone, Copy, Debug, PartialEq, Eq)]
pub enum Used {
    /// Every state took its share of the row.
    Yes,
    /// The set would have reached too far or spread more, and stays as it was.
    No,
}

impl<const N: usize> Zono<N> {
    /// Takes `gain[i]` times the row `a * symbols = b` from each state `i`, where no state then
    /// reaches past `RANGE` and the sum of the radii grows no greater.
    /// A coefficient past the last column belongs to a new symbol with a zero column.
    pub fn substitute(&mut self, a: &Coefs, b: i128, gain: &Mat<N, 1, Coef>) -> Used
        requires row { (length a.now ≡ length self.old.columns) ⊎ (length a.now ≡ length self.old.columns + 1) }
        requires right { unsigned_abs b ≤ row_limit }
        requires room { length a.now + N ≤ most_columns }
        ensures value { self.new ≡ substitute_of N gain.now (row_with a.now b) self.old }
        ensures used { result ≡ used_where (is_used N self.old (substitution N gain.now (row_with a.now b) self.old)) }
        ensures keeps { (result ≡ used_where true) → HoldsRow N (row_with a.now b) self.old self.new }
    {
        let mut rest = Rest::new();
        let mut refusals = Refusals::new();
        self.substitute_in(a, b, gain, &mut rest, &mut refusals)
    }

    /// The same in room that is lent. A set that refused most rows of late looks at the unrounded shares first.
    pub fn substitute_in(
        &mut self,
        a: &Coefs,
        b: i128,
        gain: &Mat<N, 1, Coef>,
        room: &mut Rest,
        refusals: &mut Refusals,
    ) -> Used
        requires row { (length a.now ≡ length self.old.columns) ⊎ (length a.now ≡ length self.old.columns + 1) }
        requires right { unsigned_abs b ≤ row_limit }
        requires room { length a.now + N ≤ most_columns }
        ensures value { self.new ≡ substitute_of N gain.now (row_with a.now b) self.old }
        ensures used { result ≡ used_where (is_used N self.old (substitution N gain.now (row_with a.now b) self.old)) }
        ensures keeps { (result ≡ used_where true) → HoldsRow N (row_with a.now b) self.old self.new }
    {
        let before = self.spread();
        if refusals.prevail() && self.surely_spreads(before, a, gain) {
            refusals.add();
            return Used::No;
        }
        let count = self.cols.len();
        pad(&mut self.cols, a.len());
        let rest = &mut room.entries;
        let Some(ahead) = look_ahead(&self.centre, &self.cols, before, a, b, gain, rest) else {
            self.cols.truncate(count);
            refusals.add();
            return Used::No;
        };
        refusals.take();
        self.centre.replace(&ahead.centre);
        self.radii.replace(&ahead.sizes);
        take_rest(&room.entries, &mut self.cols);
        push_radii(&ahead.radii, &mut self.cols);
        Used::Yes
    }

    /// Appends a zero column, for a new symbol on which no state depends yet.
    pub fn add_symbol(&mut self)
        requires { length self.old.columns < most_columns }
        ensures value { self.new ≡ record { centre = self.old.centre; columns = self.old.columns ++ replicate N (pos 0) ∷ [] } }
        ensures keeps { HoldsMore N self.old self.new }
    {
        push_zero(&mut self.cols);
    }

    /// The sum of the radii in all states.
    fn spread(&self) -> i128
        ensures value { result ≡ spread N self.now }
        ensures low { pos 0 ≤ℤ result }
        ensures high { result ≤ℤ pos (10 ^ 20) }
    {
        let _ = self.cols.len();
        let mut sum = 0;
        for i in 0..N {
            sum += i128::from(self.radius(i));
        }
        sum
    }
}

/// What a substitution makes of all states where the set takes the row; `rest` then holds what is left of the entries, state by state.
/// It is left at the first state that reaches past `RANGE`, or with which the sum of the radii passes the one before.
fn look_ahead<const N: usize>(
    centre: &Mat<N, 1, Range>,
    cols: &Cols<N>,
    before: i128,
    a: &Coefs,
    b: i128,
    gain: &Mat<N, 1, Coef>,
    rest: &mut [[i64; 128]; 8],
) -> Option<Ahead>
    requires right { unsigned_abs b ≤ row_limit }
    requires len { length cols.now ≡ length a.now }
    requires radii { (i : ℕ) → i < N → row_magnitude cols.now i ≤ℤ pos range }
    requires before_low { pos 0 ≤ℤ before }
    requires before_high { before ≤ℤ pos (10 ^ 20) }
    ensures used { let new = substitution N gain.now (row_with a.now b) (zono_of centre.now cols.now) in
        is_some result ≡ (in_range N new && int_le (spread N new) before) }
    ensures centre { IfSome result (λ ahead. ahead.centre.items ≡ tabulate N (λ i. at centre.now i +ℤ rnd_of (at gain.now i *ℤ b))) }
    ensures radii { IfSome result (λ ahead. ahead.radii.items ≡ tabulate N (residue_radius gain.now (row_with a.now b))) }
    ensures sizes { IfSome result (λ ahead. ahead.sizes.items
        ≡ tabulate N (row_magnitude (substitution N gain.now (row_with a.now b) (zono_of centre.now cols.now)).columns)) }
    ensures rest { OnSome result ((i : ℕ) → i < N → (t : ℕ) → t < length a.now
        → column_entry rest.new t i ≡ rest_of cols.now i (at gain.now i) a.now t) }
{
    let _ = cols.len();
    let mut ahead = Ahead {
        centre: ArrayVec::new(),
        radii: ArrayVec::new(),
        sizes: ArrayVec::new(),
    };
    let mut spread = 0;
    for i in 0..N {
        let state = state_ahead(centre, cols, a, b, gain, i, &mut rest[i]);
        spread += state.size;
        if state.reach > 1_000_000_000_000_000_000 || spread > before {
            return None;
        }
        ahead.centre.push(state.centre as i64);
        ahead.radii.push(state.radius as i64);
        ahead.sizes.push(state.size as i64);
    }
    Some(ahead)
}

/// What a substitution makes of state `i`, and in `rest` what is left of its entries, unless it reaches past `RANGE`.
fn state_ahead<const N: usize>(
    centre: &Mat<N, 1, Range>,
    cols: &Cols<N>,
    a: &Coefs,
    b: i128,
    gain: &Mat<N, 1, Coef>,
    i: usize,
    rest: &mut [i64; 128],
) -> StateAhead
    requires right { unsigned_abs b ≤ row_limit }
    requires row { i < N }
    requires len { length cols.now ≡ length a.now }
    requires radius { row_magnitude cols.now i ≤ℤ pos range }
    ensures centre { result.centre ≡ at centre.now i +ℤ rnd_of (at gain.now i *ℤ b) }
    ensures centre_within { unsigned_abs result.centre ≤ 10 ^ 26 }
    ensures radius { result.radius ≡ residue_radius gain.now (row_with a.now b) i }
    ensures radius_within { unsigned_abs result.radius ≤ 10 ^ 12 }
    ensures size { result.size ≡ row_magnitude (substitution N gain.now (row_with a.now b) (zono_of centre.now cols.now)).columns i }
    ensures size_within { unsigned_abs result.size ≤ 10 ^ 29 }
    ensures reach_within { unsigned_abs result.reach ≤ 10 ^ 30 }
    ensures reach { result.reach ≡ reach (substitution N gain.now (row_with a.now b) (zono_of centre.now cols.now)) i }
    ensures parts { result.reach ≡ magnitude result.centre +ℤ result.size }
    ensures rest { result.reach ≤ℤ pos range → (t : ℕ) → t < length a.now → at rest.new t ≡ rest_of cols.now i (at gain.now i) a.now t }
{
    let gain = gain.at(i, 0);
    let of_right = rounded_share(gain, b);
    let sums = take_shares(cols, i, gain, a, rest);
    let centre = i128::from(centre.at(i, 0)) + of_right.nearest;
    let radius = ceil_s(of_right.residue + sums.left);
    let size = sums.size + radius;
    StateAhead {
        centre,
        radius,
        size,
        reach: centre.abs() + size,
    }
}

/// What a substitution makes of all states: their centres, what makes up for the rounding, and the sums of the magnitudes.
#[derive(Drop)]
struct Ahead {
    centre: ArrayVec<i64, 8>,
    radii: ArrayVec<i64, 8>,
    sizes: ArrayVec<i64, 8>,
}

/// What a substitution makes of a state: its centre, what makes up for the rounding, the sum of the magnitudes and how far it reaches.
#[derive(Drop)]
struct StateAhead {
    centre: i128,
    radius: i128,
    size: i128,
    reach: i128,
}

/// Appends a zero column.
fn push_zero<const N: usize>(cols: &mut Cols<N>)
    requires { length cols.old < most_columns }
    ensures { cols.new ≡ cols.old ++ replicate N (pos 0) ∷ [] }
{
    let _ = cols.len();
    cols.push_diagonal(0, 0);
}

/// Appends a zero column where there is one fewer than `len`.
fn pad<const N: usize>(cols: &mut Cols<N>, len: usize)
    requires row { (len ≡ length cols.old) ⊎ (len ≡ length cols.old + 1) }
    requires room { len ≤ most_columns }
    ensures len { length cols.new ≡ len }
    ensures same { (i t : ℕ) → column_entry cols.new i t ≡ column_entry cols.old i t }
    ensures radii { (i : ℕ) → row_magnitude cols.new i ≡ row_magnitude cols.old i }
    ensures begins { take (length cols.old) cols.new ≡ cols.old }
{
    if cols.len() < len {
        push_zero(cols);
    }
}

/// Puts what is left of the entries in the place of the columns.
fn take_rest<const N: usize>(rest: &[[i64; 128]; 8], cols: &mut Cols<N>)
    requires { (i : ℕ) → i < N → (t : ℕ) → t < length cols.old → unsigned_abs (column_entry rest.now t i) ≤ range }
    ensures { cols.new ≡ tabulate (length cols.old) (λ t. tabulate N (λ i. column_entry rest.now t i)) }
{
    for t in 0..cols.len() {
        take_column(rest, cols, t);
    }
}

/// Puts what is left of the entries of column `t` in its place.
fn take_column<const N: usize>(rest: &[[i64; 128]; 8], cols: &mut Cols<N>, t: usize)
    requires column { t < length cols.old }
    requires fits { (i : ℕ) → i < N → unsigned_abs (column_entry rest.now t i) ≤ range }
    ensures { cols.new ≡ slice_set cols.old t (tabulate N (λ i. column_entry rest.now t i)) }
{
    let _ = cols.len();
    let mut column: ArrayVec<i64, 8> = ArrayVec::new();
    for i in 0..N {
        column.push(rest[i][t]);
    }
    cols.replace(t, &column);
}

/// Appends the diagonal columns of these radii.
fn push_radii<const N: usize>(radii: &[i64], cols: &mut Cols<N>)
    requires states { length radii.now ≡ N }
    requires room { length cols.old + N ≤ most_columns }
    requires within { (i : ℕ) → i < N → unsigned_abs (at radii.now i) ≤ range }
    ensures { cols.new ≡ cols.old ++ diagonal_columns N (at radii.now) }
{
    for i in 0..N {
        cols.push_diagonal(i, radii[i]);
    }
}
