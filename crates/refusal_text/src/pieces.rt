//! Pieces of a line.
ghost use Rattle.std.specs.Prelude.{◌≡◌, ◌+◌, ◌≤◌, ◌++◌, length, decimal};
ghost use Rattle.arrayvec.specs.ArrayVec.{array_vec_len};

use dec_text::Line;
use itoa::Buffer;

/// Appends a text.
pub fn push_text(text: &[u8], line: &mut Line)
    requires room { array_vec_len line.old + length text.now ≤ 256 }
    ensures text { line.new.items ≡ line.old.items ++ text.now }
    ensures longer { array_vec_len line.new ≡ array_vec_len line.old + length text.now }
{
    line.try_extend_from_slice(text).unwrap();
}

/// Appends a number in decimal.
pub fn push_number(number: u64, line: &mut Line)
    requires room { array_vec_len line.old + 20 ≤ 256 }
    ensures text { line.new.items ≡ line.old.items ++ decimal number }
    ensures longer { array_vec_len line.new ≤ array_vec_len line.old + 20 }
{
    push_text(Buffer::new().format(number).as_bytes(), line);
}

/// Appends an index in decimal.
pub fn push_index(index: u32, line: &mut Line)
    requires room { array_vec_len line.old + 10 ≤ 256 }
    ensures text { line.new.items ≡ line.old.items ++ decimal index }
    ensures longer { array_vec_len line.new ≤ array_vec_len line.old + 10 }
{
    push_text(Buffer::new().format(index).as_bytes(), line);
}
