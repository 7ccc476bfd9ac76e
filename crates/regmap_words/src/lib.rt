// The words of the tool: what is said to a person, which command a line asks for, and what a line of a map holds.
#![tactic(auto)]

pub mod kinds;
pub mod line;
pub mod map;
pub mod says;
