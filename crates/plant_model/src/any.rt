//! A plant of any number of states.

use crate::Plant;

/// A plant of 1 to 8 states.
#[derive(Drop)]
pub enum AnyPlant {
    N1(Plant<1>),
    N2(Plant<2>),
    N3(Plant<3>),
    N4(Plant<4>),
    N5(Plant<5>),
    N6(Plant<6>),
    N7(Plant<7>),
    N8(Plant<8>),
}
