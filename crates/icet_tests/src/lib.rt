//! The tests of all crates but those of whole runs (`icet_run_tests`): the real edges, nets, and calls that `run`
//! doesn't make. What a clause says for all values is not tried here again, and the definitions are tried on worked
//! examples by the prover (`icet_model::examples`). Tests stand together, since a crate with tests of its
//! own is proved a second time with them.
#![tactic(auto)]

#[cfg(test)]
mod bytes;
pub mod drawing;
#[cfg(test)]
mod gates;
pub mod meeting;
#[cfg(test)]
mod nets;
#[cfg(test)]
mod pieces;
#[cfg(test)]
mod samples;
#[cfg(test)]
mod shapes;
pub mod stepping;
