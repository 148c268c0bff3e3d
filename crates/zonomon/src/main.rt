//! The program: real files and streams under the top call.
#![tactic(auto)]

use outside_io::{FileShelf, StdSink};
use std::env;
use std::process::ExitCode;
use zonomon_run::run;

/// The status where the words can't be read from the system.
const NO_WORDS: u8 = 13;

fn main(rt: HostRuntime) -> ExitCode {
    let words = match env::args(&rt) {
        Ok(mut words) => {
            let _ = words.next();
            words.collect(rt.alloc())
        }
        Err(_) => return ExitCode::from(NO_WORDS),
    };
    let words: Vec<String> = match words {
        Ok(words) => words,
        Err(_) => return ExitCode::from(NO_WORDS),
    };
    let mut shelf = FileShelf::new(&rt, rt.alloc());
    let mut out = StdSink::of(rt.stdout());
    let mut err = StdSink::of(rt.stderr());
    ExitCode::from(run(rt.alloc(), &words, &mut shelf, &mut out, &mut err))
}
