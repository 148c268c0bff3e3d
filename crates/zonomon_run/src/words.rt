//! What the words of the command line ask for.
ghost use Rattle.std.specs.Prelude.{◌≡◌, ℕ, ◌≤◌, true, length, nat_le, ◌&&◌, Some, None, IfSome, if◌then◌else◌};
ghost use Rattle.std.specs.List.{list_all};
ghost use Rattle.std.specs.Char.{is_ascii_digit};
ghost use Rattle.dec_text.specs.Decimal.{number};
ghost use Rattle.zonomon_run.specs.Words.{asked_by, texts, one_word, two_words, three_names, demonstration, is_number};
ghost use Rattle.zonomon_run.specs.Command.{seen};

use crate::asked::Demo;

/// What the words ask for.
#[derive(Clone, Copy)]
pub enum Command<'a> {
    /// `run MODEL TELEMETRY`
    Monitor(&'a str, &'a str),
    /// `check MODEL TELEMETRY REPORT`
    Check(&'a str, &'a str, &'a str),
    /// `demo SEED SAMPLES`
    Demonstrate(Demo),
    /// `help`
    Help,
    /// No form.
    Faulty,
}

/// The command of the words after the program's name.
pub fn command_of(words: &[String]) -> Command<'_>
    ensures { seen result ≡ asked_by (texts words.now) }
{
    match words.len() {
        1 => one_word(words[0].as_str()),
        3 => two_words(words[0].as_str(), words[1].as_str(), words[2].as_str()),
        4 => three_names(
            words[0].as_str(),
            words[1].as_str(),
            words[2].as_str(),
            words[3].as_str(),
        ),
        _ => Command::Faulty,
    }
}

fn one_word(verb: &str) -> Command<'static>
    ensures { seen result ≡ one_word verb.now }
{
    if verb == "help" {
        Command::Help
    } else {
        Command::Faulty
    }
}

fn three_names<'a>(verb: &str, first: &'a str, second: &'a str, third: &'a str) -> Command<'a>
    ensures { seen result ≡ three_names verb.now first.now second.now third.now }
{
    if verb == "check" {
        Command::Check(first, second, third)
    } else {
        Command::Faulty
    }
}

fn two_words<'a>(verb: &str, first: &'a str, second: &'a str) -> Command<'a>
    ensures { seen result ≡ two_words verb.now first.now second.now }
{
    if verb == "run" {
        return Command::Monitor(first, second);
    }
    if verb == "demo" {
        return demonstration(first.as_bytes(), second.as_bytes());
    }
    Command::Faulty
}

/// The demonstration of these numbers, if they are within their limits.
fn demonstration(seed: &[u8], samples: &[u8]) -> Command<'static>
    ensures { seen result ≡ demonstration seed.now samples.now }
{
    match number_in(10, 0, 4_294_967_295, seed) {
        None => Command::Faulty,
        Some(seed) => match number_in(5, 1, 10_000, samples) {
            None => Command::Faulty,
            Some(samples) => Command::Demonstrate(Demo { seed, samples }),
        },
    }
}

/// The number between these that a text writes in at most so many digits.
fn number_in(most: usize, low: u32, high: u32, text: &[u8]) -> Option<u32>
    requires { most ≤ 10 }
    ensures value { result ≡ (if is_number most low high text.now then Some (number text.now) else None) }
    ensures low { IfSome result (λ n. low ≤ n) }
    ensures high { IfSome result (λ n. n ≤ high) }
{
    if text.is_empty() || text.len() > most || !are_digits(text) {
        return None;
    }
    let number = number_of(text);
    if u64::from(low) <= number && number <= u64::from(high) {
        Some(number as u32)
    } else {
        None
    }
}

fn are_digits(text: &[u8]) -> bool
    ensures { result ≡ list_all is_ascii_digit text.now }
{
    text.iter().all(|c| c.is_ascii_digit())
}

/// The number that at most ten digits write.
fn number_of(text: &[u8]) -> u64
    requires few { length text.now ≤ 10 }
    requires digits { list_all is_ascii_digit text.now ≡ true }
    ensures { result ≡ number text.now }
{
    let mut number = 0;
    for c in text {
        number = number * 10 + u64::from(*c - b'0');
    }
    number
}
