//! What no clause, example or case of cases/ says of the program: its calls over objects in memory and adapters that
//! fail or move little at a time, and its workers beside each other.
#![tactic(auto)]

#[cfg(test)]
mod adapters;
#[cfg(test)]
mod calls;
#[cfg(test)]
mod faults;
#[cfg(test)]
mod files;
#[cfg(test)]
mod memory;
#[cfg(test)]
mod paces;
#[cfg(test)]
mod shared;
#[cfg(test)]
mod traced;
#[cfg(test)]
mod whole;
#[cfg(test)]
mod workers;
