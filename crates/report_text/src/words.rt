//! The words of a line and what they can say. Nothing is refused here: a word of another form is read as some value or other.
ghost use Rattle.std.specs.Prelude.{◌≡◌, ◌<◌, ◌≤◌, min, [], length, map, true, IfSome};
ghost use Rattle.std.specs.List.{list_all, position};
ghost use Rattle.dec_text.specs.Decimal.{number, is_negative};
ghost use Rattle.report_text.specs.Names.{is_model_name, is_name_byte, has_no_outer_spaces};
ghost use Rattle.report_text.specs.Loose.{is_space, word_of, rest_of, words_of, count_of, index_of, without_minus};
ghost use Rattle.report_text.specs.Loose.{multiplier_of, end_of, name_of};

use arrayvec::{ArrayString, ArrayVec};
use dec_text::read_exact;

/// The greatest magnitude of a multiplier.
const MOST_MULTIPLIER: u64 = 2_147_483_647;

/// What stands before the first space, and behind it.
#[tactic(auto, unfolding(crate::specs::Loose::word_of, crate::specs::Loose::rest_of))]
pub fn cut(text: &[u8]) -> (&[u8], &[u8])
    ensures word { result.0.now ≡ word_of text.now }
    ensures rest { result.1.now ≡ rest_of text.now }
{
    match space_of(text) {
        Some(at) => (&text[..at], &text[at + 1..]),
        None => (text, &[]),
    }
}

fn space_of(text: &[u8]) -> Option<usize>
    ensures place { result ≡ position is_space text.now }
    ensures within { IfSome result (λ at. at < length text.now) }
{
    text.iter().position(|c| *c == b' ')
}

/// The number that a word writes, or `most` if it writes more.
fn number_of(word: &[u8], most: u64) -> u64
    ensures value { result ≡ min (number word.now) most }
    ensures capped { result ≤ most }
{
    let mut number: u64 = 0;
    for c in word {
        let digit = u64::from(c.saturating_sub(b'0'));
        number = number.saturating_mul(10).saturating_add(digit).min(most);
    }
    number
}

/// A sample number.
#[tactic(auto, unfolding(crate::specs::Loose::count_of))]
pub fn count_of(word: &[u8]) -> u64
    ensures { result ≡ count_of word.now }
{
    number_of(word, 1 << 63)
}

/// An index.
#[tactic(auto, unfolding(crate::specs::Loose::index_of))]
pub fn index_of(word: &[u8]) -> u32
    ensures { result ≡ index_of word.now }
{
    number_of(word, 16) as u32
}

/// A multiplier.
#[tactic(auto, unfolding(crate::specs::Loose::multiplier_of))]
fn multiplier_of(word: &[u8]) -> i32
    ensures { result ≡ multiplier_of word.now }
{
    let (negative, digits) = split_minus(word);
    let magnitude = number_of(digits, MOST_MULTIPLIER) as i32;
    if negative { -magnitude } else { magnitude }
}

fn split_minus(word: &[u8]) -> (bool, &[u8])
    ensures sign { result.0 ≡ is_negative word.now }
    ensures digits { result.1.now ≡ without_minus word.now }
{
    match word {
        [b'-', digits @ ..] => (true, digits),
        _ => (false, word),
    }
}

/// An end of an interval.
#[tactic(auto, unfolding(crate::specs::Loose::end_of))]
pub fn end_of(word: &[u8]) -> i128
    ensures { result ≡ end_of word.now }
{
    match read_exact(word) {
        Ok(v) => v,
        Err(_) => 0,
    }
}

/// The name of a model.
#[tactic(auto, unfolding(crate::specs::Loose::name_of))]
pub fn name_of(text: &[u8]) -> ArrayString<32>
    ensures { result.bytes ≡ name_of text.now }
{
    let mut name = ArrayString::new();
    if is_model_name(text) {
        push_bytes(text, &mut name);
    }
    name
}

/// Fills an empty name with printable bytes.
fn push_bytes(text: &[u8], name: &mut ArrayString<32>)
    requires empty { name.old.bytes ≡ [] }
    requires short { length text.now ≤ 32 }
    requires printable { list_all is_name_byte text.now ≡ true }
    ensures { name.new.bytes ≡ text.now }
{
    if let Ok(text) = str::from_utf8(text) {
        name.push_str(text);
    }
}

/// Whether a text is a name of a model.
pub fn is_model_name(text: &[u8]) -> bool
    ensures { result ≡ is_model_name text.now }
{
    !text.is_empty() && text.len() <= 32 && (has_name_bytes(text) && has_no_outer_spaces(text))
}

fn has_name_bytes(text: &[u8]) -> bool
    ensures { result ≡ list_all is_name_byte text.now }
{
    text.iter().all(|b| *b >= 32 && *b <= 126)
}

fn has_no_outer_spaces(text: &[u8]) -> bool
    ensures { result ≡ has_no_outer_spaces text.now }
{
    text.first() != Some(&b' ') && text.last() != Some(&b' ')
}

/// The first 16 words as indices.
pub fn indices_of(text: &[u8]) -> ArrayVec<u32, 16>
    ensures { result.items ≡ map index_of (words_of 16 text.now) }
{
    let mut indices: ArrayVec<u32, 16> = ArrayVec::new();
    let mut rest = text;
    while !rest.is_empty() && !indices.is_full() {
        let (word, more) = cut(rest);
        indices.push(index_of(word));
        rest = more;
    }
    indices
}

/// The first 6 words as multipliers.
pub fn multipliers_of(text: &[u8]) -> ArrayVec<i32, 6>
    ensures { result.items ≡ map multiplier_of (words_of 6 text.now) }
{
    let mut multipliers: ArrayVec<i32, 6> = ArrayVec::new();
    let mut rest = text;
    while !rest.is_empty() && !multipliers.is_full() {
        let (word, more) = cut(rest);
        multipliers.push(multiplier_of(word));
        rest = more;
    }
    multipliers
}
