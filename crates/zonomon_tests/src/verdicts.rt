use isolate_core::{Verdict, judge};

#[test]
fn judges_by_the_models_that_are_left(rt: HostRuntime) {
    let cases: [(&[bool], Verdict); 4] = [
        (&[false, true, true], Verdict::Fault),
        (&[true, true], Verdict::Several),
        (&[false], Verdict::None),
        (&[false, false, true], Verdict::Isolated(2)),
    ];
    for (models, verdict) in cases {
        assert!(rt; !models.is_empty() && models.len() <= 16);
        assert_eq!(rt; judge(models), verdict);
    }
}
