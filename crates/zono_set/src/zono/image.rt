//! The image of a set under one step of a plant, in place.

ghost use Rattle.std.specs.Prelude.{◌≡◌, ℕ, ◌+◌, ◌*◌, ◌<◌, ◌≤◌, ◌^◌, length, ◌++◌, ℤ, pos, ◌+ℤ◌, ◌*ℤ◌, ◌≤ℤ◌, unsigned_abs};
ghost use Rattle.std.specs.Prelude.{IsTrue, IfErr, OnOk, OnErr, slice_index_or, slice_set};
ghost use Rattle.set_rules.specs.Sum.{total, magnitude};
ghost use Rattle.set_rules.specs.Columns.{at, entry, column_entry, tabulate};
ghost use Rattle.set_rules.specs.Round.{rnd as rnd_of, residue as residue_of, ceil_s as ceil_of};
ghost use Rattle.set_rules.specs.Reduce.{diagonal_columns};
ghost use Rattle.set_rules.specs.Zono.{reach, range, InRange};
ghost use Rattle.set_rules.specs.Image.{raw_centre as raw_centre_of, image as image_of, Encloses, IsFirstPast};
ghost use Rattle.set_rules.specs.Limits.{narrow_limit, most_columns, most_states};
ghost use Rattle.set_rules.specs.Products.{product, rounded_product, rounded_size, row_residue, moved_column, moved_columns};
ghost use Rattle.fixed_mat.specs.Fits.{FitsColumn, FitsRow};
ghost use Rattle.zono_set.specs.Bound.{reach_bound as reach_bound_of};

use crate::products::{narrow_ceil, rounded_centre, row_sums};
use crate::zono::{PastRange, Zono};
use arrayvec::ArrayVec;
use fixed_mat::{
    Coef, Cols, Mat, Range, Raws, Whole, ceil_s, column_product, tell_products, times,
};

impl<const N: usize> Zono<N> {
    /// The image under `x ↦ (a x + shift) / S + e v`, rounded outwards, with every one of the `w` disturbances `v` from -1 to 1.
    /// Refused where it reaches past `RANGE`; the set then stays as it is. After Combastel 2003.
    pub fn image(
        &mut self,
        a: &Mat<N, N, Coef>,
        shift: &Raws<N>,
        e: &Mat<N, 8, Range>,
        w: usize,
    ) -> Result<(), PastRange>
        requires dists { w ≤ 8 }
        requires room { length self.old.columns + w + N ≤ most_columns }
        ensures value { OnOk result (self.new ≡ image_of N w a.now shift.now e.now self.old) }
        ensures in_range { OnOk result (InRange N (image_of N w a.now shift.now e.now self.old)) }
        ensures encloses { OnOk result (Encloses N w a.now shift.now e.now self.old self.new) }
        ensures refused { IfErr result (λ p. (p.i < N) × IsFirstPast (image_of N w a.now shift.now e.now self.old) p.i p.mag) }
        ensures unchanged { OnErr result (self.new ≡ self.old) }
    {
        self.check_image(a, shift, e, w)?;
        let narrow = self.has_narrow_rows(a);
        let of_centre = move_centre(a, shift, &mut self.centre);
        let moved = move_columns(a, &mut self.cols, narrow);
        push_noise(e, w, &mut self.cols);
        let slack = slack_of(&of_centre, &moved.left);
        push_slack(&slack, &mut self.cols);
        let radii = radii_after(&moved.sizes, e, w, &slack);
        self.radii.replace(&radii);
        Ok(())
    }

    /// Refuses an image that reaches past the range. A bound mostly decides, and else the exact reach is added up.
    fn check_image(
        &self,
        a: &Mat<N, N, Coef>,
        shift: &Raws<N>,
        e: &Mat<N, 8, Range>,
        w: usize,
    ) -> Result<(), PastRange>
        requires { w ≤ 8 }
        ensures ok { OnOk result (InRange N (image_of N w a.now shift.now e.now self.now)) }
        ensures err { IfErr result (λ p. (p.i < N) × IsFirstPast (image_of N w a.now shift.now e.now self.now) p.i p.mag) }
    {
        if self.surely_in_range(a, shift, e, w) {
            return Ok(());
        }
        for i in 0..N {
            let mag = self.reach_after(a, shift, e, w, i);
            if mag > 1_000_000_000_000_000_000 {
                return Err(PastRange { i, mag });
            }
        }
        Ok(())
    }

    /// Whether the bound on its reach keeps the image in range in every state.
    fn surely_in_range(
        &self,
        a: &Mat<N, N, Coef>,
        shift: &Raws<N>,
        e: &Mat<N, 8, Range>,
        w: usize,
    ) -> bool
        requires { w ≤ 8 }
        ensures { IsTrue result → InRange N (image_of N w a.now shift.now e.now self.now) }
    {
        let reaches = self.reaches();
        for i in 0..N {
            if self.reach_bound(a, shift, e, w, &reaches, i)
                > 1_000_000_000_000_000_000_000_000_000
            {
                return false;
            }
        }
        true
    }

    /// How far the set reaches in each state.
    fn reaches(&self) -> ArrayVec<i64, 8>
        ensures { result.items ≡ tabulate N (reach self.now) }
    {
        let mut reaches = ArrayVec::new();
        for i in 0..N {
            reaches.push(self.reach(i));
        }
        reaches
    }

    /// A bound of how far the image reaches in state `i`, in nano-units times nano-units.
    fn reach_bound(
        &self,
        a: &Mat<N, N, Coef>,
        shift: &Raws<N>,
        e: &Mat<N, 8, Range>,
        w: usize,
        reaches: &[i64],
        i: usize,
    ) -> i128
        requires dists { w ≤ 8 }
        requires reaches { reaches.now ≡ tabulate N (reach self.now) }
        requires row { i < N }
        ensures { result ≡ reach_bound_of N w a.now shift.now e.now self.now i }
    {
        let count = self.cols.len() as i128;
        let mut sum = 0;
        for l in 0..N {
            sum += times(a.at(i, l).abs(), reaches[l]);
        }
        sum + shift.at(i).abs() + 1_000_000_000 * (count + 2 + noise_reach(e, w, i))
    }

    /// How far the image reaches in state `i`.
    fn reach_after(
        &self,
        a: &Mat<N, N, Coef>,
        shift: &Raws<N>,
        e: &Mat<N, 8, Range>,
        w: usize,
        i: usize,
    ) -> i128
        requires row { i < N }
        requires dists { w ≤ 8 }
        ensures { result ≡ reach (image_of N w a.now shift.now e.now self.now) i }
    {
        let centre = rounded_centre(a, i, &self.centre, shift.at(i));
        let sums = row_sums(a, i, &self.cols, self.has_narrow_row(a, i));
        let slack = ceil_s(centre.residue + sums.left);
        centre.nearest.abs() + sums.size + noise_reach(e, w, i) + slack
    }
}

/// How far the first `w` columns of `e` reach in state `i`.
fn noise_reach<const N: usize>(e: &Mat<N, 8, Range>, w: usize, i: usize) -> i128
    requires row { i < N }
    requires dists { w ≤ 8 }
    ensures value { result ≡ total w (λ t. magnitude (entry 8 e.now i t)) }
    ensures within { unsigned_abs result ≤ 8_000_000_000_000_000_000 }
{
    let mut sum: u64 = 0;
    for t in 0..w {
        sum += e.at(i, t).unsigned_abs();
    }
    i128::from(sum)
}

/// Moves the centre, and gives what the rounding leaves in each state.
fn move_centre<const N: usize>(
    a: &Mat<N, N, Coef>,
    shift: &Raws<N>,
    centre: &mut Mat<N, 1, Range>,
) -> ArrayVec<i128, 8>
    requires small { N ≤ most_states }
    requires fits { (i : ℕ) → i < N →
        unsigned_abs (rnd_of (total N (λ l. entry N a.now i l *ℤ at centre.old l) +ℤ at shift.now i)) ≤ range }
    ensures moved { centre.new ≡ tabulate N (λ i. rnd_of (total N (λ l. entry N a.now i l *ℤ at centre.old l) +ℤ at shift.now i)) }
    ensures left { result.items ≡ tabulate N (λ i. residue_of (total N (λ l. entry N a.now i l *ℤ at centre.old l) +ℤ at shift.now i)) }
{
    let mut moved: ArrayVec<i64, 8> = ArrayVec::new();
    let mut left = ArrayVec::new();
    for i in 0..N {
        let state = rounded_centre(a, i, centre, shift.at(i));
        moved.push(state.nearest as i64);
        left.push(state.residue);
    }
    centre.replace(&moved);
    left
}

/// What was added up for each state while the columns moved: the magnitudes, and what the rounding leaves.
#[derive(Drop)]
struct Moved {
    sizes: [u64; 8],
    left: [u64; 8],
}

/// Moves the columns, in 64 bits where the products are `narrow`. Kept out of line: so its loops have the registers for themselves.
#[inline(never)]
fn move_columns<const N: usize>(a: &Mat<N, N, Coef>, cols: &mut Cols<N>, narrow: bool) -> Moved
    requires narrow { IsTrue narrow → (i : ℕ) → i < N → FitsRow narrow_limit N a.now i cols.old }
    requires fits { (i : ℕ) → i < N → rounded_size N a.now i cols.old ≤ℤ pos range }
    ensures moved { cols.new ≡ moved_columns N a.now cols.old }
    ensures sizes { (i : ℕ) → i < N → pos (slice_index_or result.sizes i 0) ≡ rounded_size N a.now i cols.old }
    ensures left { (i : ℕ) → i < N → pos (slice_index_or result.left i 0) ≡ row_residue N a.now i cols.old }
{
    tell_products(a, cols);
    if narrow {
        move_each::<i64, N>(a, cols)
    } else {
        move_each::<i128, N>(a, cols)
    }
}

/// The same in the width of `W`, in which the products fit.
fn move_each<W: Whole, const N: usize>(a: &Mat<N, N, Coef>, cols: &mut Cols<N>) -> Moved
    requires products { (i : ℕ) → i < N → FitsRow W.limit N a.now i cols.old }
    requires fits { (i : ℕ) → i < N → rounded_size N a.now i cols.old ≤ℤ pos range }
    ensures moved { cols.new ≡ moved_columns N a.now cols.old }
    ensures sizes { (i : ℕ) → i < N → pos (slice_index_or result.sizes i 0) ≡ rounded_size N a.now i cols.old }
    ensures left { (i : ℕ) → i < N → pos (slice_index_or result.left i 0) ≡ row_residue N a.now i cols.old }
{
    let mut moved = [0; 8];
    let mut sizes = [0; 8];
    let mut left = [0; 8];
    for t in 0..cols.len() {
        move_column::<W, N>(a, cols, t, &mut moved, &mut sizes, &mut left);
    }
    Moved { sizes, left }
}

/// Moves column `t`, and adds the magnitudes to `sizes` and what the rounding leaves to `left`.
#[inline(always)]
fn move_column<W: Whole, const N: usize>(
    a: &Mat<N, N, Coef>,
    cols: &mut Cols<N>,
    t: usize,
    moved: &mut [i64; 8],
    sizes: &mut [u64; 8],
    left: &mut [u64; 8],
)
    requires column { t < length cols.old }
    requires products { (i : ℕ) → i < N → FitsColumn W.limit N a.now i cols.old t }
    requires fits { (i : ℕ) → i < N → unsigned_abs (rounded_product N a.now i cols.old t) ≤ range }
    requires sizes { (i : ℕ) → i < N → slice_index_or sizes.old i 0 ≤ range }
    requires left { (i : ℕ) → i < N → slice_index_or left.old i 0 ≤ 10 ^ 12 }
    ensures moved { cols.new ≡ slice_set cols.old t (moved_column N a.now cols.old t) }
    ensures sizes { (i : ℕ) → i < N → pos (slice_index_or sizes.new i 0)
        ≡ pos (slice_index_or sizes.old i 0) +ℤ magnitude (rounded_product N a.now i cols.old t) }
    ensures left { (i : ℕ) → i < N → pos (slice_index_or left.new i 0)
        ≡ pos (slice_index_or left.old i 0) +ℤ residue_of (product N a.now i cols.old t) }
{
    let _ = cols.len();
    for i in 0..N {
        let sum: W = column_product(a, i, cols, t);
        let state = sum.rounded();
        let nearest = state.nearest.low();
        moved[i] = nearest;
        sizes[i] += nearest.unsigned_abs();
        left[i] += state.residue;
    }
    cols.replace(t, &moved[0..N]);
}

/// Appends the first `w` columns of `e`.
fn push_noise<const N: usize>(e: &Mat<N, 8, Range>, w: usize, cols: &mut Cols<N>)
    requires dists { w ≤ 8 }
    requires room { length cols.old + w ≤ most_columns }
    ensures { cols.new ≡ cols.old ++ tabulate w (λ t. tabulate N (λ i. entry 8 e.now i t)) }
{
    for t in 0..w {
        cols.push_from(e, t);
    }
}

/// What makes up for what the rounding leaves in each state.
fn slack_of(of_centre: &[i128], of_columns: &[u64; 8]) -> ArrayVec<i64, 8>
    requires states { length of_centre.now ≤ most_states }
    requires centre { (i : ℕ) → i < length of_centre.now → (pos 0 ≤ℤ at of_centre.now i) × (at of_centre.now i ≤ℤ pos (10 ^ 12)) }
    requires columns { (i : ℕ) → i < length of_centre.now → slice_index_or of_columns.now i 0 ≤ 10 ^ 12 }
    ensures { result.items ≡ tabulate (length of_centre.now)
        (λ i. ceil_of (at of_centre.now i +ℤ pos (slice_index_or of_columns.now i 0))) }
{
    let mut slack = ArrayVec::new();
    for i in 0..of_centre.len() {
        slack.push(narrow_ceil(of_centre[i] as u64 + of_columns[i]));
    }
    slack
}

/// Appends the diagonal columns that make up for what the rounding leaves in each state.
fn push_slack<const N: usize>(slack: &[i64], cols: &mut Cols<N>)
    requires states { length slack.now ≡ N }
    requires room { length cols.old + N ≤ most_columns }
    requires within { (i : ℕ) → i < N → unsigned_abs (at slack.now i) ≤ range }
    ensures { cols.new ≡ cols.old ++ diagonal_columns N (at slack.now) }
{
    for i in 0..N {
        cols.push_diagonal(i, slack[i]);
    }
}

/// The radii of the image: what was added up of the moved columns, what the noise adds and what makes up for the rounding.
fn radii_after<const N: usize>(
    sizes: &[u64; 8],
    e: &Mat<N, 8, Range>,
    w: usize,
    slack: &[i64],
) -> ArrayVec<i64, 8>
    requires dists { w ≤ 8 }
    requires small { N ≤ most_states }
    requires states { length slack.now ≡ N }
    requires within { (i : ℕ) → i < N →
        (pos (slice_index_or sizes.now i 0) +ℤ total w (λ t. magnitude (entry 8 e.now i t)) +ℤ at slack.now i) ≤ℤ pos range }
    requires low { (i : ℕ) → i < N → pos 0 ≤ℤ at slack.now i }
    ensures { result.items ≡ tabulate N
        (λ i. pos (slice_index_or sizes.now i 0) +ℤ total w (λ t. magnitude (entry 8 e.now i t)) +ℤ at slack.now i) }
{
    let mut radii = ArrayVec::new();
    for i in 0..N {
        radii.push((i128::from(sizes[i]) + noise_reach(e, w, i) + i128::from(slack[i])) as i64);
    }
    radii
}
