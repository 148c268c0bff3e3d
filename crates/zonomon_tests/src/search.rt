//! The search for multipliers, on rows that are known to be refuted by a list, and on rows that none refutes.

ghost use Rattle.std.specs.Prelude.{◌<◌, ◌≤◌};

use crate::columns::row_of;
use farkas_check::{first_candidate, passes};
use fixed_mat::{Coefs, Rows};
use simplex_guess::{Pivots, propose};
use std::test::Fail;

/// Numbers by chance, the same in each run (Marsaglia 2003).
#[derive(Drop)]
struct Draws {
    state: u64,
}

impl Draws {
    /// The next one, below `bound`.
    fn below(&mut self, bound: u64) -> u64
        requires { 0 < bound }
        ensures { result < bound }
    {
        self.state ^= self.state << 13;
        self.state ^= self.state >> 7;
        self.state ^= self.state << 17;
        self.state % bound
    }

    /// The next one within `size` of 0.
    fn within(&mut self, size: u64) -> i128
        requires { size ≤ 1_000_000_000_000_000_000 }
    {
        i128::from(self.below(2 * size + 1)) - i128::from(size)
    }

    fn sign(&mut self) -> i128 {
        if self.below(2) == 0 { 1 } else { -1 }
    }
}

/// How the rows of a set are made.
#[derive(Clone, Copy, Debug)]
enum Kind {
    /// Each coefficient is drawn, and the right sides are beyond the corner towards the multipliers.
    Dense,
    /// The columns but a few cancel under the multipliers, and the right sides are beyond by what is left.
    Cancelling,
    /// The right sides are those of a choice of symbols.
    Within,
}

/// A number for each of at most six rows.
type Column = [i128; 6];

/// The sum of the products.
fn product(a: &Column, b: &Column) -> i128 {
    let mut sum: i128 = 0;
    for (x, y) in a.iter().zip(b.iter()) {
        sum = sum.wrapping_add(x.wrapping_mul(*y));
    }
    sum
}

/// A column that cancels under the multipliers.
fn cancelling(draws: &mut Draws, by: &Column, count: u64, size: u64) -> Column
    requires low { 3 ≤ count }
    requires high { count ≤ 6 }
    requires size { size ≤ 1_000_000_000_000_000_000 }
{
    let mut column = [0; 6];
    for _ in 0..2 {
        let i = draws.below(count);
        let j = (i + 1 + draws.below(count - 1)) % count;
        let (i, j) = (i as usize, j as usize);
        let times = draws.within(size / 32 + 1);
        column[i] = times.wrapping_mul(by[j]).wrapping_add(column[i]);
        column[j] = column[j].wrapping_sub(times.wrapping_mul(by[i]));
    }
    column
}

/// A size, so many times enlarged by ten, and `10^18` at the most.
fn times_ten(size: u64, times: u64) -> u64
    ensures { result ≤ 1_000_000_000_000_000_000 }
{
    let mut enlarged = size;
    for _ in 0..times {
        enlarged = enlarged.saturating_mul(10);
    }
    enlarged.min(1_000_000_000_000_000_000)
}

/// Columns of a size from `10^2` to `10^18`, and noises from `1 / 50,000` to `1 / 50` of it.
fn columns_of(draws: &mut Draws, kind: Kind, by: &Column, count: u64, width: usize) -> [Column; 100]
    requires low { 3 ≤ count }
    requires high { count ≤ 6 }
    requires width { width ≤ 100 }
{
    let size = times_ten(100, draws.below(17));
    let noise = times_ten(size / 50_000, draws.below(4));
    let mut columns = [[0; 6]; 100];
    for t in 0..width {
        columns[t] = match kind {
            Kind::Cancelling if t < 6 => alone(draws, t, count, noise),
            Kind::Cancelling => cancelling(draws, by, count, size),
            _ => dense(draws, count, size),
        };
    }
    columns
}

/// A column of one row alone, and none where there is no such row.
fn alone(draws: &mut Draws, t: usize, count: u64, size: u64) -> Column
    requires row { t < 6 }
    requires size { size ≤ 1_000_000_000_000_000_000 }
{
    let mut column = [0; 6];
    if (t as u64) < count {
        column[t] = i128::from(draws.below(size + 1)) + 1;
    }
    column
}

fn dense(draws: &mut Draws, count: u64, size: u64) -> Column
    requires { size ≤ 1_000_000_000_000_000_000 }
{
    let mut column = [0; 6];
    for (r, entry) in column.iter_mut().enumerate() {
        if (r as u64) < count {
            *entry = draws.within(size);
        }
    }
    column
}

/// The right sides: beyond what the multipliers leave of the columns by 1 to 20 per cent, or those of some symbols.
fn right_sides(draws: &mut Draws, kind: Kind, by: &Column, columns: &[Column; 100]) -> Column {
    let beyond = 1_010 + i128::from(draws.below(190));
    let mut right = [0; 6];
    let mut left: i128 = 0;
    for column in columns.iter() {
        let product = product(by, column);
        left = left.wrapping_add(product.wrapping_mul(product.signum()));
        let symbol = match kind {
            Kind::Dense => product.signum().wrapping_mul(beyond),
            _ => draws.within(1_000),
        };
        for r in 0..6 {
            right[r] = symbol.wrapping_mul(column[r]).wrapping_add(right[r]);
        }
    }
    for r in 0..6 {
        right[r] /= 1_000;
    }
    if matches!(kind, Kind::Cancelling) {
        let missing = (left.wrapping_mul(beyond) / 1_000).wrapping_sub(product(by, &right));
        let more = missing.checked_div(by[0]).unwrap_or(0);
        right[0] = right[0].wrapping_add(more).wrapping_add(by[0].signum());
    }
    right
}

/// Rows of these columns.
fn rows_of(
    count: usize,
    width: usize,
    columns: &[Column; 100],
    right: &Column,
) -> Result<Rows, Fail>
    requires count { count ≤ 6 }
    requires width { width ≤ 100 }
{
    let mut rows = Rows::new(width);
    for r in 0..count {
        let mut a = Coefs::new();
        for column in columns.iter().take(width) {
            if a.len() == 128 {
                return Err("no room".into());
            }
            a.push(column[r])?;
        }
        push_row(&mut rows, &a, right[r])?;
    }
    Ok(rows)
}

fn push_row(rows: &mut Rows, a: &Coefs, right: i128) -> Result<(), Fail> {
    if rows.count() == 6 || a.len() != rows.width() || right.unsigned_abs() > fixed_mat::ROW {
        return Err("no row".into());
    }
    rows.push(a, right);
    Ok(())
}

/// Whether a list that passes was made for some rows, and whether one was found.
#[derive(Drop)]
struct Outcome {
    is_planted: bool,
    is_found: bool,
}

/// Three to six rows of 10 to 100 columns, and what becomes of them.
fn try_set(draws: &mut Draws, kind: Kind) -> Result<Outcome, Fail> {
    let count = 3 + draws.below(4);
    let width = 10 + draws.below(91) as usize;
    let most = match kind {
        Kind::Cancelling => 30,
        _ => 1_000,
    };
    let mut list: [i32; 6] = [0; 6];
    let mut by = [0; 6];
    for r in 0..6 {
        if r < count as usize {
            by[r] = draws.sign().wrapping_mul(1 + i128::from(draws.below(most)));
            list[r] = i32::try_from(by[r]).unwrap_or(0);
        }
    }
    let columns = columns_of(draws, kind, &by, count, width);
    let right = right_sides(draws, kind, &by, &columns);
    let rows = rows_of(count as usize, width, &columns, &right)?;
    Ok(Outcome {
        is_planted: passes(&rows, &list[..count as usize]),
        is_found: is_refuted(&rows),
    })
}

fn is_refuted(rows: &Rows) -> bool {
    if rows.count() == 0 {
        return false;
    }
    let mut pivots = Pivots { done: 0 };
    let proposal = propose(rows, &mut pivots);
    passes(rows, proposal.list()) || first_candidate(rows).is_some()
}

/// Of 250 sets of each kind in which a list was planted, at least 95 in a hundred are refuted; none of those whose right
/// sides some symbols reach.
#[test]
fn planted_lists_are_found(rt: HostRuntime) -> Result<(), Fail> {
    let mut draws = Draws {
        state: 88_172_645_463_325_252,
    };
    for (kind, least) in [
        (Kind::Dense, 240_u64),
        (Kind::Cancelling, 240),
        (Kind::Within, 0),
    ] {
        let mut planted: u64 = 0;
        let mut found: u64 = 0;
        for _ in 0..250 {
            let outcome = try_set(&mut draws, kind)?;
            planted = planted.saturating_add(u64::from(outcome.is_planted));
            found = found.saturating_add(u64::from(outcome.is_found));
        }
        assert!(rt; planted >= least, "{planted} planted of {kind:?}");
        assert!(rt; found >= least, "{found} of {planted} found of {kind:?}");
        if matches!(kind, Kind::Within) {
            assert_eq!(rt; found, 0);
        }
    }
    Ok(())
}

const ONE: i128 = 1_000_000_000;

const NOISE: i128 = 100_000_000;

/// Two states go round in three rows, so that no two rows cancel more than one of the columns; with the noises of 0.1,
/// and the right sides of 0.2 times 1, 2 and 3, the multipliers 1, 1/2 and 1/3 pass, and equal ones do not. So it is
/// with one row alone and with two.
#[test]
fn known_lists_are_found(rt: HostRuntime) -> Result<(), Fail> {
    for (times, equal) in [([1_i128, 1, 1], true), ([1, 2, 3], false)] {
        let mut rows = Rows::new(6);
        for (r, more) in times.iter().enumerate() {
            let mut a = [0; 6];
            a[r] = (*more).wrapping_mul(ONE);
            a[(r + 1) % 3] = (*more).wrapping_mul(-ONE);
            a[r + 3] = NOISE;
            push_row(&mut rows, &row_of(&a)?, (*more).wrapping_mul(2 * NOISE))?;
        }
        assert!(rt; rows.count() > 0);
        assert_eq!(rt; passes(&rows, &[1, 1, 1]), equal);
        let mut pivots = Pivots { done: 7 };
        let proposal = propose(&rows, &mut pivots);
        assert!(rt; passes(&rows, proposal.list()));
        assert!(rt; (8..=17).contains(&pivots.done));
        assert!(rt; proposal.len() == 3);
        let first = i64::from(proposal.at(0));
        for (r, more) in times.iter().enumerate() {
            assert!(rt; r < 3);
            let off = i128::from(proposal.at(r))
                .wrapping_mul(*more)
                .wrapping_sub(i128::from(first));
            assert!(rt; (-3..=3).contains(&off), "{off} off at row {r}");
        }
    }
    for (second, right) in [(0_i128, 8_i128), (3, 1)] {
        let mut rows = Rows::new(2);
        push_row(&mut rows, &row_of(&[3, -4])?, right)?;
        if second != 0 {
            push_row(&mut rows, &row_of(&[second, -4])?, -1)?;
        }
        assert!(rt; is_refuted(&rows));
    }
    Ok(())
}

/// Three rows of two states each, that go round in three, with a noise of 0.1 for each.
fn ring_of(rights: &[i128; 3]) -> Result<Rows, Fail> {
    let mut rows = Rows::new(6);
    for (r, right) in rights.iter().enumerate() {
        let mut a = [0; 6];
        a[r] = ONE;
        a[(r + 1) % 3] = -ONE;
        a[r + 3] = NOISE;
        push_row(&mut rows, &row_of(&a)?, *right)?;
    }
    Ok(rows)
}

/// Where a point meets all rows, by the noises alone or by the states too, no pivot is made.
#[test]
fn rows_that_a_point_meets_need_no_pivot(rt: HostRuntime) -> Result<(), Fail> {
    for rights in [
        [NOISE, 0, -NOISE / 2],
        [ONE, -ONE / 2, -ONE / 2],
        [2 * ONE, -2 * ONE, NOISE],
    ] {
        let rows = ring_of(&rights)?;
        assert!(rt; rows.count() > 0);
        let mut pivots = Pivots { done: 7 };
        let proposal = propose(&rows, &mut pivots);
        assert!(rt; pivots.done == 7);
        assert!(rt; !passes(&rows, proposal.list()));
    }
    Ok(())
}
