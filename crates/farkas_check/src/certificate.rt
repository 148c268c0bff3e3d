//! Why a model is excluded at a sample.
ghost use Rattle.std.specs.Prelude.{◌≡◌, ◌<◌, ◌≤◌, true, length, take, Some, None, option_map, if◌then◌else◌};
ghost use Rattle.std.specs.Prelude.{slice_index_or, pos, unsigned_abs};
ghost use Rattle.farkas_check.specs.Multipliers.{are_multipliers, are_small};

use crate::factors::Factors;

/// The most multipliers: one for each row that can be kept.
const MOST: usize = 6;

/// One to six multipliers of kept rows, in the order of the rows, each within `2^31 - 1` of 0.
#[derive(Clone, Copy, Debug)]
pub struct Multipliers {
    values: [i32; 6],
    count: usize,
    ghost some: { 1 ≤ count },
    ghost few: { count ≤ 6 },
    ghost small: { are_small (take count values) ≡ true },
}

impl Multipliers {
    ghost use Rattle.farkas_check.specs.Certificate.{list_of};
    ghost use Rattle.set_rules.specs.Farkas.{unit_list, pair_list};

    /// These multipliers, or none where their number or one of them is outside its limit.
    pub fn of(list: &[i32]) -> Option<Multipliers>
        ensures { option_map list_of result ≡ (if are_multipliers list.now then Some list.now else None) }
    {
        if !are_multipliers(list) {
            return None;
        }
        let mut values = [0; 6];
        values[..list.len()].copy_from_slice(list);
        Some(Multipliers {
            values,
            count: list.len(),
        })
    }

    /// 1 at row `r` alone of `count` rows.
    pub(crate) fn unit(count: usize, r: usize) -> Multipliers
        requires few { count ≤ 6 }
        requires row { r < count }
        ensures { list_of result ≡ unit_list count r }
    {
        let mut values = [0; 6];
        values[r] = 1;
        Multipliers { values, count }
    }

    /// Those of rows `r` and `s`, and 0 at the others of `count` rows.
    pub(crate) fn pair(count: usize, r: usize, s: usize, by: Factors) -> Multipliers
        requires few { count ≤ 6 }
        requires order { r < s }
        requires rows { s < count }
        ensures { list_of result ≡ pair_list count r s by.first by.second }
    {
        let mut values = [0; 6];
        values[r] = by.first;
        values[s] = by.second;
        Multipliers { values, count }
    }

    /// All of them, in the order of the rows.
    pub fn list(&self) -> &[i32]
        ensures value { result.now ≡ list_of self.now }
        ensures multipliers { are_multipliers result.now ≡ true }
    {
        &self.values[..self.count]
    }

    /// How many there are.
    pub fn len(&self) -> usize
        ensures value { result ≡ length (list_of self.now) }
        ensures some { 1 ≤ result }
        ensures few { result ≤ 6 }
    {
        self.count
    }

    /// The multiplier of row `r`.
    pub fn at(&self, r: usize) -> i32
        requires { r < length (list_of self.now) }
        ensures value { result ≡ slice_index_or (list_of self.now) r (pos 0) }
        ensures within { unsigned_abs result ≤ 2_147_483_647 }
    {
        self.values[r]
    }
}

fn are_multipliers(list: &[i32]) -> bool
    ensures { result ≡ are_multipliers list.now }
{
    !list.is_empty() && list.len() <= MOST && are_small(list)
}

fn are_small(list: &[i32]) -> bool
    ensures { result ≡ are_small list.now }
{
    list.iter().all(|value| *value != i32::MIN)
}

/// Why a model is excluded.
#[derive(Clone, Copy, Debug)]
pub enum Cert {
    /// The reading of this output misses its predicted interval.
    Out(u32),
    /// These multipliers of the kept rows show that no choice of symbols satisfies the rows.
    Rows(Multipliers),
}
