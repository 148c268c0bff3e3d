//! Pieces of a line: words, numbers and intervals, each after a space.
ghost use Rattle.std.specs.Prelude.{◌≡◌, ℕ, ◌+◌, ◌*◌, ◌^◌, ◌≤◌, ◌∷◌, ◌++◌, length, flat_map, unsigned_abs};
ghost use Rattle.arrayvec.specs.ArrayVec.{array_vec_len};
ghost use Rattle.farkas_check.specs.Certificate.{list_of};
ghost use Rattle.dec_text.specs.Printed.{printed};
ghost use Rattle.report_text.specs.Line.{then_word, number_word, multiplier_word, interval_text};

use dec_text::{Line, print};
use farkas_check::Multipliers;
use itoa::Buffer;

/// Appends a text.
pub fn push_text(text: &[u8], line: &mut Line)
    requires room { array_vec_len line.old + length text.now ≤ 256 }
    ensures text { line.new.items ≡ line.old.items ++ text.now }
    ensures longer { array_vec_len line.new ≡ array_vec_len line.old + length text.now }
{
    line.try_extend_from_slice(text).unwrap();
}

/// Appends a space and a word.
pub fn push_word(word: &[u8], line: &mut Line)
    requires room { array_vec_len line.old + length word.now + 1 ≤ 256 }
    ensures text { line.new.items ≡ line.old.items ++ then_word word.now }
    ensures longer { array_vec_len line.new ≡ array_vec_len line.old + length word.now + 1 }
{
    line.push(b' ');
    push_text(word, line);
}

/// Appends a space and an index.
pub fn push_index(index: u32, line: &mut Line)
    requires room { array_vec_len line.old + 11 ≤ 256 }
    ensures text { line.new.items ≡ line.old.items ++ number_word index }
    ensures longer { array_vec_len line.new ≤ array_vec_len line.old + 11 }
{
    push_word(Buffer::new().format(index).as_bytes(), line);
}

/// Appends a space and a count.
pub fn push_count(count: u64, line: &mut Line)
    requires room { array_vec_len line.old + 21 ≤ 256 }
    ensures text { line.new.items ≡ line.old.items ++ number_word count }
    ensures longer { array_vec_len line.new ≤ array_vec_len line.old + 21 }
{
    push_word(Buffer::new().format(count).as_bytes(), line);
}

/// Appends a space and each of some indices.
pub fn push_indices(indices: &[u32], line: &mut Line)
    requires few { length indices.now ≤ 16 }
    requires room { array_vec_len line.old + 176 ≤ 256 }
    ensures text { line.new.items ≡ line.old.items ++ flat_map number_word indices.now }
    ensures longer { array_vec_len line.new ≤ array_vec_len line.old + 176 }
{
    for index in indices {
        push_index(*index, line);
    }
}

/// Appends a space and a multiplier.
fn push_multiplier(multiplier: i32, line: &mut Line)
    requires room { array_vec_len line.old + 12 ≤ 256 }
    ensures text { line.new.items ≡ line.old.items ++ multiplier_word multiplier }
    ensures longer { array_vec_len line.new ≤ array_vec_len line.old + 12 }
{
    push_word(Buffer::new().format(multiplier).as_bytes(), line);
}

/// Appends a space and each multiplier.
pub fn push_multipliers(multipliers: &Multipliers, line: &mut Line)
    requires room { array_vec_len line.old + 72 ≤ 256 }
    ensures text { line.new.items ≡ line.old.items ++ flat_map multiplier_word (list_of multipliers.now) }
    ensures longer { array_vec_len line.new ≤ array_vec_len line.old + 72 }
{
    for r in 0..multipliers.len() {
        push_multiplier(multipliers.at(r), line);
    }
}

/// Appends two indices and the ends of an interval, each after a space.
pub fn push_interval(first: u32, second: u32, lo: i128, hi: i128, line: &mut Line)
    requires low { unsigned_abs lo ≤ 10 ^ 24 }
    requires high { unsigned_abs hi ≤ 10 ^ 24 }
    requires room { array_vec_len line.old + 120 ≤ 256 }
    ensures text { line.new.items ≡ line.old.items ++ interval_text first second lo hi }
    ensures longer { array_vec_len line.new ≤ array_vec_len line.old + 120 }
{
    push_index(first, line);
    push_index(second, line);
    push_number(lo, line);
    push_number(hi, line);
}

/// Appends a space and a number in nano-units, in units with nine decimals.
fn push_number(number: i128, line: &mut Line)
    requires small { unsigned_abs number ≤ 10 ^ 24 }
    requires room { array_vec_len line.old + 49 ≤ 256 }
    ensures text { line.new.items ≡ line.old.items ++ then_word (printed number) }
    ensures longer { array_vec_len line.new ≤ array_vec_len line.old + 49 }
{
    line.push(b' ');
    print(number, line);
}
