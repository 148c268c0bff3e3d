use model_file::{Bank0, read_models};
use plant_model::AnyPlant;
use std::alloc::Global;
use std::test::Fail;

const WHEEL: &str = "version = 1
inputs = [\"torque\"]
outputs = [\"speed\", \"temp\"]
[[model]]
name = \"nominal\"
states = 2
disturbances = 1
A = [[\"0.99\", 0], [\"0.02\", \"0.9\"]]
B = [[2], [3]]
C = [[1, 4], [5, 6]]
D = [[7], [8]]
E = [[\"0.1\"], [9]]
noise = [\"0.5\", \"0.3\"]
centre = [100, -20]
radius = [1, 2]
state_max = [1000, 200]
[[model]]
name = \"dead\"
states = 1
disturbances = 0
A = [[0]]
B = [[0]]
C = [[0], [0]]
D = [[0], [0]]
noise = [0, 0]
centre = [0]
radius = [0]
state_max = [0]
";

fn bank_of(alloc: Global, text: &str) -> Result<Bank0, Fail> {
    Ok(read_models(alloc, text.as_bytes())?)
}

#[test]
fn each_name_stands_in_its_place(rt: HostRuntime) -> Result<(), Fail> {
    let bank = bank_of(rt.alloc(), WHEEL)?;
    let (inputs, outputs) = (bank.inputs(), bank.outputs());
    assert_eq!(rt; (inputs.len(), outputs.len(), bank.count()), (1, 2, 2));
    assert_eq!(rt;
        [
            inputs.at(0),
            outputs.at(0),
            outputs.at(1),
            bank.name(0),
            bank.name(1)
        ],
        ["torque", "speed", "temp", "nominal", "dead"]
    );
    Ok(())
}

/// The numbers of the wheel's first model, in nano-units: the entries that a model of two states, one input and two
/// outputs uses, with those behind them in `b` and `d`.
#[test]
fn each_number_stands_in_its_place(rt: HostRuntime) -> Result<(), Fail> {
    let bank = bank_of(rt.alloc(), WHEEL)?;
    let AnyPlant::N2(plant) = bank.plant(0) else {
        return Err(Fail::from("two states"));
    };
    assert_eq!(rt; (plant.inputs(), plant.outputs(), plant.dists()), (1, 2, 1));
    let e = plant.e();
    let cases: [(&[i64], &[i64]); 8] = [
        (
            plant.a().entries(),
            &[990_000_000, 0, 20_000_000, 900_000_000],
        ),
        (
            plant.b().entries(),
            &[2_000_000_000, 0, 0, 0, 3_000_000_000, 0, 0, 0],
        ),
        (
            &plant.c().entries()[..4],
            &[1_000_000_000, 4_000_000_000, 5_000_000_000, 6_000_000_000],
        ),
        (
            &plant.d().entries()[..8],
            &[7_000_000_000, 0, 0, 0, 8_000_000_000, 0, 0, 0],
        ),
        (
            &[e.at(0, 0), e.at(0, 1), e.at(1, 0)],
            &[100_000_000, 0, 9_000_000_000],
        ),
        (
            plant.centre().entries(),
            &[100_000_000_000, -20_000_000_000],
        ),
        (plant.radius().entries(), &[1_000_000_000, 2_000_000_000]),
        (
            plant.state_max().entries(),
            &[1_000_000_000_000, 200_000_000_000],
        ),
    ];
    for (entries, wanted) in cases {
        assert_eq!(rt; entries, wanted);
    }
    Ok(())
}

/// A model of 8 states and 8 disturbances, all of whose numbers are 1, up to its name and its rows.
const EIGHT_STATES: &str = "[[model]]
name = \"NAME\"
states = 8
disturbances = 8
A = SQUARE
C = [ROW]
E = SQUARE
noise = [1]
centre = ROW
radius = ROW
state_max = ROW
";

const SQUARE: &str = "[ROW, ROW, ROW, ROW, ROW, ROW, ROW, ROW]";

const ROW: &str = "[1, 1, 1, 1, 1, 1, 1, 1]";

/// A file of models of these names, each of 8 states and 8 disturbances.
fn large_file(alloc: Global, names: &[&str]) -> Result<String, Fail> {
    let squares = EIGHT_STATES.replace(alloc, "SQUARE", SQUARE)?;
    let model = squares.replace(alloc, "ROW", ROW)?;
    let mut text = String::from_str(alloc, "version = 1\noutputs = [\"y\"]\n")?;
    for name in names {
        text.push_str(&model.replace(alloc, "NAME", name)?)?;
    }
    Ok(text)
}

const SIXTEEN_NAMES: [&str; 16] = [
    "m0", "m1", "m2", "m3", "m4", "m5", "m6", "m7", "m8", "m9", "m10", "m11", "m12", "m13", "m14",
    "m15",
];

#[test]
fn sixteen_models_of_eight_states_are_read(rt: HostRuntime) -> Result<(), Fail> {
    let bank = bank_of(rt.alloc(), large_file(rt.alloc(), &SIXTEEN_NAMES)?.as_str())?;
    assert_eq!(rt; bank.count(), 16);
    assert_eq!(rt; bank.name(15), "m15");
    assert!(rt; matches!(bank.plant(15), AnyPlant::N8(_)));
    Ok(())
}
