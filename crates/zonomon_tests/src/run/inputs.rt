//! Model files that the tests run over.

/// One state that halves at each sample, read with noise within 0.1 units.
pub const P: &str = r#"version = 1
outputs = ["y"]

[[model]]
name = "P"
states = 1
disturbances = 0
A = [["0.5"]]
C = [[1]]
noise = ["0.1"]
centre = [0]
radius = [1]
state_max = [1000]
"#;

/// One state that halves and takes an input, with a disturbance.
pub const Q: &str = r#"version = 1
inputs = ["u"]
outputs = ["y"]

[[model]]
name = "Q"
states = 1
disturbances = 1
A = [["0.5"]]
B = [[1]]
C = [[1]]
D = [[0]]
E = [["0.2"]]
noise = ["0.1"]
centre = [0]
radius = [1]
state_max = [1000]
"#;

/// Two models that differ in the sign of the next state.
pub const PAIR: &str = r#"version = 1
outputs = ["y"]

[[model]]
name = "half"
states = 1
disturbances = 0
A = [["0.5"]]
C = [[1]]
noise = ["0.1"]
centre = [0]
radius = [1]
state_max = [1000]

[[model]]
name = "minus"
states = 1
disturbances = 0
A = [["-0.5"]]
C = [[1]]
noise = ["0.1"]
centre = [0]
radius = [1]
state_max = [1000]
"#;

/// Two models of different numbers of states: one that halves, and one whose two states are read as their sum.
pub const UNLIKE: &str = r#"version = 1
outputs = ["y"]

[[model]]
name = "one"
states = 1
disturbances = 0
A = [["0.5"]]
C = [[1]]
noise = ["0.1"]
centre = [0]
radius = [1]
state_max = [1000]

[[model]]
name = "two"
states = 2
disturbances = 0
A = [["0.5", 0], [0, 1]]
C = [[1, 1]]
noise = ["0.1"]
centre = [0, 0]
radius = [1, 2]
state_max = [1000, 1000]
"#;

/// A reaction wheel, its speed and the temperature of its bearing: as it should be, with friction, and stuck.
pub const WHEEL: &str = r#"version = 1
inputs = ["torque"]
outputs = ["speed", "temp"]

[[model]]
name = "nominal"
states = 2
disturbances = 2
A = [["0.99", 0], ["0.02", "0.9"]]
B = [[2], [0]]
C = [[1, 0], [0, 1]]
D = [[0], [0]]
E = [["0.1", 0], [0, "0.1"]]
noise = ["0.5", "0.3"]
centre = [100, 20]
radius = [1, 1]
state_max = [1000, 200]

[[model]]
name = "friction"
states = 2
disturbances = 2
A = [["0.98", 0], ["0.02", "0.9"]]
B = [[2], [0]]
C = [[1, 0], [0, 1]]
D = [[0], [0]]
E = [["0.1", 0], [0, "0.1"]]
noise = ["0.5", "0.3"]
centre = [100, 20]
radius = [1, 1]
state_max = [1000, 200]

[[model]]
name = "stuck"
states = 2
disturbances = 2
A = [[0, 0], ["0.02", "0.9"]]
B = [[0], [0]]
C = [[1, 0], [0, 1]]
D = [[0], [0]]
E = [["0.1", 0], [0, "0.1"]]
noise = ["0.5", "0.3"]
centre = [100, 20]
radius = [1, 1]
state_max = [1000, 200]
"#;

/// Twelve rows of a wheel that keeps speed 100 and temperature 20 under friction.
pub const WHEEL_ROWS: &str = "time,torque,speed,temp
0,1,100.0,20.0
1,1,100.0,20.1
2,1,,
3,1,100.1,20.0
4,1,99.9,NaN
5,1,100.2,19.9
6,1,NaN,20.0
7,1,100.0,20.0
8,1,99.8,20.2
9,1,100.0,20.0
10,1,,20.0
11,1,100.0,20.0
";

/// Two sensors on the sum of two levels.
pub const TWIN: &str = r#"version = 1
outputs = ["y0", "y1"]

[[model]]
name = "twin"
states = 2
disturbances = 0
A = [["0.5", 0], [0, "0.5"]]
C = [[1, 1], [1, 1]]
noise = ["0.1", "0.1"]
centre = [0, 0]
radius = [1, 1]
state_max = [1000, 1000]
"#;

/// Three levels, with a sensor on each difference round the ring.
pub const RING: &str = r#"version = 1
outputs = ["y0", "y1", "y2"]

[[model]]
name = "ring"
states = 3
disturbances = 0
A = [[1, 0, 0], [0, 1, 0], [0, 0, 1]]
C = [[1, -1, 0], [0, 1, -1], [-1, 0, 1]]
noise = ["0.1", "0.1", "0.1"]
centre = [0, 0, 0]
radius = [1, 1, 1]
state_max = [1000, 1000, 1000]
"#;
