//! The tests of whole runs over memory. They are no part of `icet_tests`, whose tests needn't wait for the
//! proof of `icet_cli`.
#![tactic(auto)]

#[cfg(test)]
mod demonstration;
#[cfg(test)]
mod faults;
#[cfg(test)]
mod replays;
#[cfg(test)]
mod runs;
#[cfg(test)]
mod scenes;
#[cfg(test)]
mod strategies;
#[cfg(test)]
mod watching;
