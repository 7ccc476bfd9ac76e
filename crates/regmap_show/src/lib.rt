// A witness for a person or a program: every record on a line, what is shown and hidden, a picture for Graphviz, JSON.
#![tactic(auto)]

pub mod counts;
pub mod json;
pub mod picture;
pub mod records;
