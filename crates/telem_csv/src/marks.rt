//! Byte order marks.

ghost use Rattle.std.specs.Prelude.{◌≡◌};
ghost use Rattle.csv.specs.Reading.{strip_bom, is_bom};

/// The text without a byte order mark at its front.
pub(crate) fn strip_bom(text: &[u8]) -> &[u8]
    ensures { result.now ≡ strip_bom text.now }
{
    let [first, second, third, rest @ ..] = text else {
        return text;
    };
    if is_mark(*first, *second, *third) {
        rest
    } else {
        text
    }
}

/// Whether the bytes are a byte order mark in UTF-8.
fn is_mark(first: u8, second: u8, third: u8) -> bool
    ensures { result ≡ is_bom first second third }
{
    first == 0xEF && second == 0xBB && third == 0xBF
}
