ghost use Rattle.std.specs.Prelude.{◌≡◌, ◌≤◌, ◌^◌, length};

use dec_text::DecFault;
use fixed_mat::Reading;
use plant_model::Names;
use std::alloc::Global;
use std::test::Fail;
use telem_csv::{Col, Fed, Header, LineCutter, TelemFault, TelemWhy, read_row};

const OUTPUT: Col = Col {
    input: false,
    index: 0,
};

const INPUT: Col = Col {
    input: true,
    index: 0,
};

/// What comes of a telemetry: how many samples, the last reading of output 0, and the refusal.
#[derive(Drop)]
struct Outcome {
    samples: u64,
    last: Option<Reading>,
    fault: Option<TelemFault>,
}

impl Outcome {
    fn refused(mut self, line: u64, why: TelemWhy) -> Outcome {
        self.fault = Some(TelemFault { line, why });
        self
    }
}

/// Reads a telemetry of at most `limit` bytes in pieces of `step` bytes, for an input `u`, if there is one, and an output `y`.
fn read_in_pieces(alloc: Global, has_input: bool, limit: u64, text: &[u8], step: usize) -> Outcome
    requires { limit ≤ 2 ^ 62 }
{
    let mut inputs = Names::new();
    if has_input {
        inputs.push("u");
    }
    let mut outputs = Names::new();
    outputs.push("y");
    let mut done = Outcome {
        samples: 0,
        last: None,
        fault: None,
    };
    let mut cutter = LineCutter::new(limit);
    let mut head: Option<Header> = None;
    let mut rest = text;
    for _ in 0..1_000_000u64 {
        let (taken, mut fed) = cutter.feed(&rest[..rest.len().min(step)]);
        rest = &rest[taken..];
        if fed == Fed::More && rest.is_empty() {
            fed = cutter.finish();
        }
        if fed.is_refusal() {
            return done.refused(cutter.number(), fed.cause());
        }
        if fed == Fed::Ended {
            return match head {
                None => done.refused(1, TelemWhy::NoHeader),
                Some(_) => done,
            };
        }
        if fed == Fed::Line {
            match &head {
                None => match Header::read(alloc, cutter.line(), &inputs, &outputs) {
                    Ok(found) => head = found,
                    Err(why) => return done.refused(cutter.number(), why),
                },
                Some(head) => match read_row(alloc, head, cutter.line()) {
                    Ok(Some(sample)) => {
                        done.samples = done.samples.saturating_add(1);
                        done.last = sample.y.first().copied();
                    }
                    Ok(None) => {}
                    Err(why) => return done.refused(cutter.number(), why),
                },
            }
        }
    }
    done
}

const fn value(v: i128) -> Option<Reading> {
    Some(Reading::Value { v, slack: 0 })
}

const fn fault(line: u64, why: TelemWhy) -> Option<TelemFault> {
    Some(TelemFault { line, why })
}

#[test]
fn rows_before_a_refused_line_are_samples(rt: HostRuntime) {
    let half = value(500_000_000);
    let lost = Some(Reading::Missing);
    let cases: [(&[u8], u64, Option<Reading>, Option<TelemFault>); 19] = [
        (b"y\n0.5\n", 1, half, None),
        (b"y\n\" 0.5 \"\n", 1, half, None),
        (b"t,y\n0,\n1,NaN\n", 2, lost, None),
        (b"y", 0, None, None),
        (b"", 0, None, fault(1, TelemWhy::NoHeader)),
        (b"\n\r\n", 0, None, fault(1, TelemWhy::NoHeader)),
        (b"t,z\n0,1\n", 0, None, fault(1, TelemWhy::NoColumn(OUTPUT))),
        (
            b"y,y\n0,1\n",
            0,
            None,
            fault(1, TelemWhy::TwiceColumn(OUTPUT)),
        ),
        (
            b"t,y\n0,0.5\n1\n",
            1,
            half,
            fault(3, TelemWhy::Ragged { want: 2, got: 1 }),
        ),
        (
            b"t,y\n0,0.5,\n",
            0,
            None,
            fault(2, TelemWhy::Ragged { want: 2, got: 3 }),
        ),
        (
            b"y\ninf\n",
            0,
            None,
            fault(
                2,
                TelemWhy::Field {
                    col: OUTPUT,
                    why: DecFault::Shape,
                },
            ),
        ),
        (b"\xEF\xBB\xBFt,y\r\n0,0.5", 1, half, None),
        (b"\n\ny\n\r\n0.5\n\n0.5\r", 2, half, None),
        (b"y\n0.5\n0\r5\n", 1, half, fault(3, TelemWhy::StrayCr)),
        (
            b"\xEF\xBB\xBF\xEF\xBB\xBFy\n\xEF\xBB\xBF\n\xEF\xBB\xBF0.5\n",
            1,
            half,
            None,
        ),
        (b"y\n  \n", 1, lost, None),
        (b"\" y\t\",\"a,\"\"b\"\n0.5,\"x\"\n", 1, half, None),
        (
            b"y,\"t\"\"\"\n0.5,\"\n\"\n",
            1,
            half,
            fault(3, TelemWhy::Ragged { want: 2, got: 1 }),
        ),
        (b"y,t\n0.5,1\r\r\n", 0, None, fault(2, TelemWhy::StrayCr)),
    ];
    for (text, samples, last, refusal) in cases {
        for step in [1, 2, 3, 1000] {
            let done = read_in_pieces(rt.alloc(), false, 1_073_741_824, text, step);
            assert_eq!(rt; done.samples, samples, "at {text:?}");
            assert_eq!(rt; done.last, last, "at {text:?}");
            assert_eq!(rt; done.fault, refusal, "at {text:?}");
        }
    }
}

#[test]
fn inputs_are_present_and_within_a_million_units(rt: HostRuntime) {
    let over = TelemWhy::Field {
        col: INPUT,
        why: DecFault::TooLarge,
    };
    let cases: [(&[u8], u64, Option<TelemFault>); 7] = [
        (b"u,y\n,1\n", 0, fault(2, TelemWhy::NoInput { index: 0 })),
        (b"y,u\n1,0\n1,-1e6\n", 2, None),
        (b"u,y\n1000000,1\n1000000.000000001,1\n", 1, fault(3, over)),
        (b"u,y\n-1000000.000000001,inf\n", 0, fault(2, over)),
        (b"u,y\n1e10,1\n", 0, fault(2, over)),
        (
            b"u,y\n0x1,1\n",
            0,
            fault(
                2,
                TelemWhy::Field {
                    col: INPUT,
                    why: DecFault::Shape,
                },
            ),
        ),
        (b"z,z\n", 0, fault(1, TelemWhy::NoColumn(INPUT))),
    ];
    for (text, samples, refusal) in cases {
        let done = read_in_pieces(rt.alloc(), true, 1_073_741_824, text, 1000);
        assert_eq!(rt; done.samples, samples, "at {text:?}");
        assert_eq!(rt; done.fault, refusal, "at {text:?}");
    }
}

#[test]
fn the_byte_past_a_limit_refuses_its_line(rt: HostRuntime) {
    let mut text = [b' '; 4099];
    text[0] = b'y';
    text[1] = b'\n';
    let cases = [
        (4099, 4099, 0, fault(2, TelemWhy::LongLine)),
        (4098, 4099, 0, fault(2, TelemWhy::TooLong)),
        (4098, 4098, 1, None),
    ];
    for (limit, length, samples, refusal) in cases {
        for step in [1, 4096, 5000] {
            let done = read_in_pieces(rt.alloc(), false, limit, &text[..length], step);
            assert_eq!(rt; (done.samples, done.fault), (samples, refusal));
        }
    }
}

/// The carriage return right before a line feed is no byte of the line, and one before that is.
#[test]
fn the_end_of_a_line_counts_for_the_file_alone(rt: HostRuntime) {
    let mut ended = [b' '; 4099];
    ended[0] = b'y';
    ended[1] = b'\n';
    ended[4097] = b'\r';
    ended[4098] = b'\n';
    let mut longer = [b' '; 4100];
    longer[0] = b'y';
    longer[1] = b'\n';
    longer[4097] = b'\r';
    longer[4098] = b'\r';
    longer[4099] = b'\n';
    let cases: [(u64, &[u8], Option<TelemFault>); 3] = [
        (4099, &ended, None),
        (4098, &ended, fault(2, TelemWhy::TooLong)),
        (5000, &longer, fault(2, TelemWhy::LongLine)),
    ];
    for (limit, text, refusal) in cases {
        let done = read_in_pieces(rt.alloc(), false, limit, text, 7);
        assert_eq!(rt; done.fault, refusal);
    }
}

#[test]
fn the_last_line_is_told_once(rt: HostRuntime) {
    let mut cutter = LineCutter::new(100);
    let (taken, fed) = cutter.feed(b"0.5\r");
    assert_eq!(rt; taken, 4);
    assert!(rt; fed == Fed::More);
    assert!(rt; cutter.finish() == Fed::Line);
    assert_eq!(rt; cutter.line(), b"0.5".as_slice());
    assert_eq!(rt; cutter.finish(), Fed::Ended);
}

const SYMBOLS: [u8; 5] = [b',', b'"', b' ', b'\t', b'1'];

#[test]
fn short_lines_of_quotes_and_gaps_want_no_memory(rt: HostRuntime) -> Result<(), Fail> {
    let mut outputs = Names::new();
    outputs.push("y");
    let mut cutter = LineCutter::new(10_000);
    let (_, fed) = cutter.feed(b"y\n");
    assert!(rt; fed == Fed::Line);
    let found = Header::read(rt.alloc(), cutter.line(), &Names::new(), &outputs);
    let head = found.ok().and_then(|head| head).ok_or("a header")?;
    let mut lines = 0u32;
    for (length, count) in [(1, 5u32), (2, 25), (3, 125), (4, 625)] {
        for code in 0..count {
            let mut line = [b'\n'; 5];
            let mut code = code;
            for byte in line[..length].iter_mut() {
                *byte = SYMBOLS[(code % 5) as usize];
                code /= 5;
            }
            let (taken, fed) = cutter.feed(&line[..=length]);
            assert_eq!(rt; taken, length + 1);
            assert!(rt; fed == Fed::Line);
            let answer = read_row(rt.alloc(), &head, cutter.line());
            assert!(rt; !matches!(answer, Err(TelemWhy::Memory)));
            lines = lines.saturating_add(1);
        }
    }
    assert_eq!(rt; lines, 780);
    Ok(())
}
