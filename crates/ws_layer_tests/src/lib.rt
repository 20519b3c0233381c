//! What no clause, example or case of cases/ says of single layers: rows of messages between threads, nodes that have
//! their turns in any order, what a realm keeps of its promises, and the output that is held back.
#![tactic(auto)]

#[cfg(test)]
mod held;
#[cfg(test)]
mod kept;
#[cfg(test)]
mod orders;
#[cfg(test)]
mod ports;
