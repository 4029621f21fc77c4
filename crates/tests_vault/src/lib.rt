//! Tests of the vault over a disk in memory.
#![tactic(auto)]

#[cfg(test)]
mod contents;
#[cfg(test)]
mod failures;
#[cfg(test)]
mod histories;
#[cfg(test)]
mod leads;
#[cfg(test)]
mod trial;
