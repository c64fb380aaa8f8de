//! Texts of lines: the lines of a text, the words of a line, decimal numerals of any length, and numbers in
//! the ranges of their fields. The formats of scenes and plans stand on it.
#![tactic(auto)]

pub mod examples;
pub mod field;
pub mod first_number;
pub mod laws;
pub mod lines;
pub mod numbers;
pub mod numeral;
pub mod words;

pub use field::{Field, Number};
