use dec_text::DecFault;
use refusal_text::telemetry_refusal;
use telem_csv::{Col, TelemFault, TelemWhy};

#[test]
fn each_cause_has_its_text(rt: HostRuntime) {
    let output = Col {
        input: false,
        index: 0,
    };
    let input = Col {
        input: true,
        index: 3,
    };
    let cases: [(TelemWhy, &[u8]); 12] = [
        (TelemWhy::NoHeader, b"telemetry refused: line 3: no header"),
        (
            TelemWhy::NoColumn(output),
            b"telemetry refused: line 3: no column for output 0",
        ),
        (
            TelemWhy::TwiceColumn(input),
            b"telemetry refused: line 3: column twice for input 3",
        ),
        (
            TelemWhy::Ragged { want: 2, got: 1 },
            b"telemetry refused: line 3: 2 fields wanted, 1 found",
        ),
        (
            TelemWhy::Field {
                col: output,
                why: DecFault::Shape,
            },
            b"telemetry refused: line 3: output 0: not a decimal",
        ),
        (
            TelemWhy::Field {
                col: input,
                why: DecFault::TooLarge,
            },
            b"telemetry refused: line 3: input 3: too large",
        ),
        (
            TelemWhy::NoInput { index: 0 },
            b"telemetry refused: line 3: input 0 is missing",
        ),
        (
            TelemWhy::LongLine,
            b"telemetry refused: line 3: line over 4096 bytes",
        ),
        (
            TelemWhy::StrayCr,
            b"telemetry refused: line 3: carriage return inside a line",
        ),
        (
            TelemWhy::TooLong,
            b"telemetry refused: line 3: file over 1073741824 bytes",
        ),
        (TelemWhy::Memory, b"out of memory"),
        (
            TelemWhy::Ragged {
                want: 4097,
                got: 10,
            },
            b"telemetry refused: line 3: 4097 fields wanted, 10 found",
        ),
    ];
    for (why, want) in cases {
        let said = telemetry_refusal(&TelemFault { line: 3, why }, 1_073_741_824);
        assert_eq!(rt; said.as_slice(), want);
    }
}
