// Text for programs: the words of a line, names and values in hex, decimal numbers, and what is printed.
#![tactic(auto)]

pub mod hex;
pub mod print;
pub mod words;
