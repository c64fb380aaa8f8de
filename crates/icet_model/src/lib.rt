//! Pixels, brackets, plans, runs and traffic: the definitions that every contract cites stand in `specs/`.
//!
//! This crate also declares the plain types that those definitions go by cases on; the crates above
//! hand them on under their public names.
#![tactic(auto)]

pub mod bracket;
pub mod examples;
pub mod exchange;
pub mod laws;
pub mod limits;
pub mod names;
