//! Tests of the sequential strategy's plans: how many messages each strategy sends, and how the programs look.
#![tactic(auto)]

#[cfg(test)]
mod plans;
