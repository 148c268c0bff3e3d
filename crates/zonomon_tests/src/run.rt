mod checks;
mod demo;
mod faults;
pub mod inputs;
mod kept_rows;
mod limits;
mod one_model;
mod refusals;
pub mod several_models;
mod words;

ghost use Rattle.outside_io.specs.Shelf.{IsFresh};

use inputs::PAIR;
use outside_io::{MemShelf, MemSink, Shelf, Sink, SureShelf};
use several_models::TOLD_APART;
use std::alloc::Global;
use std::test::Fail;
use zonomon_run::run;

/// How a call of the program ended: its status, what was put to `out`, and what was put to `err`.
#[derive(Drop)]
pub struct Ran {
    pub status: u8,
    pub report: String,
    pub told: String,
}

impl Ran {
    /// The status, what was put to `out`, and what was put to `err`.
    pub fn said(&self) -> (u8, &str, &str) {
        (self.status, self.report.as_str(), self.told.as_str())
    }
}

/// The words of a call.
fn words_of(alloc: Global, texts: &[&str]) -> Result<Vec<String>, Fail> {
    let mut words = Vec::new(alloc);
    for text in texts {
        words.push(String::from_str(alloc, text)?)?;
    }
    Ok(words)
}

/// Runs the program over a model file and a telemetry in memory.
fn run_over(alloc: Global, model: &str, telemetry: &str) -> Result<Ran, Fail> {
    call_over(alloc, &["run", "m", "t"], [model, telemetry, ""])
}

/// Checks a report against a model file and a telemetry in memory.
fn check_over(alloc: Global, model: &str, telemetry: &str, report: &str) -> Result<Ran, Fail> {
    call_over(alloc, &["check", "m", "t", "r"], [model, telemetry, report])
}

/// Calls the program with these words, where `m`, `t` and `r` name these files in memory.
fn call_over(alloc: Global, texts: &[&str], files: [&str; 3]) -> Result<Ran, Fail> {
    let mut shelf = SureShelf::of(alloc);
    shelf.add("m", files[0].as_bytes())?;
    shelf.add("t", files[1].as_bytes())?;
    shelf.add("r", files[2].as_bytes())?;
    call(alloc, texts, &mut shelf, &[], &[])
}

/// Calls the program with these words, where `m` names the pair of models, `t` a telemetry of two rows and `r` their
/// report, and where these calls of the shelf and these of `out` fail.
fn call_failing(
    alloc: Global,
    texts: &[&str],
    gets: &[(usize, u64)],
    puts: &[u64],
) -> Result<Ran, Fail> {
    let mut shelf = MemShelf::of(alloc, gets)?;
    shelf.add("m", PAIR.as_bytes())?;
    shelf.add("t", b"y\n0.5\n0.2\n")?;
    shelf.add("r", TOLD_APART.as_bytes())?;
    call(alloc, texts, &mut shelf, puts, &[])
}

/// The status of the program with these words. The one call of it stands here and nothing behind it, since its contract is long
/// and costs each step of a proof that has it.
fn status_of<F: Shelf, O: Sink, E: Sink>(
    alloc: Global,
    texts: &[&str],
    shelf: &mut F,
    out: &mut O,
    err: &mut E,
) -> Result<u8, Fail>
    requires { IsFresh (F.state shelf.old) }
{
    let words = words_of(alloc, texts)?;
    Ok(run(alloc, &words, shelf, out, err))
}

/// Calls the program with these words over this shelf, where these puts to `out` and these to `err` fail.
pub fn call<F: Shelf>(
    alloc: Global,
    texts: &[&str],
    shelf: &mut F,
    out_fails: &[u64],
    err_fails: &[u64],
) -> Result<Ran, Fail>
    requires { IsFresh (F.state shelf.old) }
{
    let mut out = MemSink::of(alloc, out_fails)?;
    let mut err = MemSink::of(alloc, err_fails)?;
    Ok(Ran {
        status: status_of(alloc, texts, shelf, &mut out, &mut err)?,
        report: String::from_utf8_lossy(alloc, out.held())?,
        told: String::from_utf8_lossy(alloc, err.held())?,
    })
}
