//! The tests of all crates: what no clause tells, with values that were worked out by hand. They stand in one crate
//! above the others, so that no other crate is proved twice for its tests.
#![tactic(auto)]

#[cfg(test)]
mod banks;
#[cfg(test)]
mod columns;
#[cfg(test)]
mod constrained;
#[cfg(test)]
mod decimals;
#[cfg(test)]
mod demonstrations;
#[cfg(test)]
mod edge;
#[cfg(test)]
mod estimates;
#[cfg(test)]
mod farkas;
#[cfg(test)]
mod gains;
#[cfg(test)]
mod model_files;
#[cfg(test)]
mod model_refusals;
#[cfg(test)]
mod multipliers;
#[cfg(test)]
mod numbers;
#[cfg(test)]
mod plants;
#[cfg(test)]
mod reduction;
#[cfg(test)]
mod report_lines;
#[cfg(test)]
mod run;
#[cfg(test)]
mod search;
#[cfg(test)]
mod sets;
#[cfg(test)]
mod streaming;
#[cfg(test)]
mod telemetries;
#[cfg(test)]
mod telemetry_refusals;
#[cfg(test)]
mod verdicts;
