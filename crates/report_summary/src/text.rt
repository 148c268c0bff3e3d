//! The four lines of a summary.
ghost use Rattle.std.specs.Prelude.{◌≡◌, ◌+◌, ◌≤◌, ◌++◌, length};
ghost use Rattle.arrayvec.specs.ArrayVec.{array_vec_len};
ghost use Rattle.report_text.specs.Line.{number_word};
ghost use Rattle.report_summary.specs.Text.{summary_text, outcome_text};

use crate::summary::Summary;
use dec_text::Line;
use itoa::Buffer;

impl Summary {
    /// The four lines: which demonstration it was, what became of its models `true` and `other`, and how often one was undecided.
    pub fn text(&self, seed: u32, samples: u32) -> Line
        ensures { result.items ≡ summary_text seed samples self.now.first self.now.second self.now.undecided }
    {
        let mut text = Line::new();
        push_text(b"demo", &mut text);
        push_number(u64::from(seed), &mut text);
        push_number(u64::from(samples), &mut text);
        push_text(b"\n", &mut text);
        push_outcome(b"true", self.first, &mut text);
        push_outcome(b"other", self.second, &mut text);
        push_text(b"undecided", &mut text);
        push_number(self.undecided, &mut text);
        push_text(b"\n", &mut text);
        text
    }
}

/// Appends the line of a model.
fn push_outcome(name: &[u8], excluded: Option<u64>, text: &mut Line)
    requires name { length name.now ≤ 5 }
    requires room { array_vec_len text.old + 36 ≤ 256 }
    ensures text { text.new.items ≡ text.old.items ++ outcome_text name.now excluded }
    ensures longer { array_vec_len text.new ≤ array_vec_len text.old + 36 }
{
    push_text(name, text);
    match excluded {
        None => push_text(b" possible\n", text),
        Some(k) => {
            push_text(b" excluded", text);
            push_number(k, text);
            push_text(b"\n", text);
        }
    }
}

/// Appends a space and a number.
fn push_number(number: u64, text: &mut Line)
    requires room { array_vec_len text.old + 21 ≤ 256 }
    ensures text { text.new.items ≡ text.old.items ++ number_word number }
    ensures longer { array_vec_len text.new ≤ array_vec_len text.old + 21 }
{
    push_text(b" ", text);
    push_text(Buffer::new().format(number).as_bytes(), text);
}

/// Appends bytes.
fn push_text(bytes: &[u8], text: &mut Line)
    requires room { array_vec_len text.old + length bytes.now ≤ 256 }
    ensures text { text.new.items ≡ text.old.items ++ bytes.now }
    ensures longer { array_vec_len text.new ≡ array_vec_len text.old + length bytes.now }
{
    text.try_extend_from_slice(bytes).unwrap();
}
