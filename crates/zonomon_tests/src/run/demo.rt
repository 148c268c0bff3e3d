//! Demonstrations.
use super::{Ran, call};
use outside_io::SureShelf;
use std::alloc::Global;
use std::test::Fail;

fn demonstrate(alloc: Global, seed: &str, samples: &str, puts: &[u64]) -> Result<Ran, Fail> {
    let mut shelf = SureShelf::of(alloc);
    call(alloc, &["demo", seed, samples], &mut shelf, puts, &[])
}

/// The same seed gives the same lines, and the model that made the telemetry stays possible.
#[test]
fn demonstration_is_the_same_each_time(rt: HostRuntime) -> Result<(), Fail> {
    let alloc = rt.alloc();
    let first = demonstrate(alloc, "7", "1000", &[])?;
    let second = demonstrate(alloc, "7", "1000", &[])?;
    assert_eq!(rt; first.said(), second.said());
    assert_eq!(rt; first.status, 0);
    assert!(rt;
        first
            .report
            .as_str()
            .starts_with("demo 7 1000\ntrue possible\nother ")
    );
    Ok(())
}

/// The greatest numbers.
#[test]
fn greatest_seed_is_shown(rt: HostRuntime) -> Result<(), Fail> {
    let ran = demonstrate(rt.alloc(), "4294967295", "2", &[])?;
    assert_eq!(rt; ran.status, 0);
    assert!(rt;
        ran.report
            .as_str()
            .starts_with("demo 4294967295 2\ntrue possible\n")
    );
    Ok(())
}

/// What cannot be put is a write fault.
#[test]
fn demonstration_that_is_not_taken_is_a_fault(rt: HostRuntime) -> Result<(), Fail> {
    let ran = demonstrate(rt.alloc(), "7", "1", &[1])?;
    assert_eq!(rt; ran.said(), (5, "", "write fault\n"));
    Ok(())
}
