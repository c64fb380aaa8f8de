//! The tests of nets that a caller steps by itself. They are no part of `icet_run_tests`, since they needn't wait for the
//! proof of `icet_cli`.
#![tactic(auto)]

#[cfg(test)]
mod closing;
#[cfg(test)]
mod opening;
#[cfg(test)]
mod scenes;
#[cfg(test)]
mod stepping;
