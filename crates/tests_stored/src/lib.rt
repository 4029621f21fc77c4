//! Tests of stored forms that are read back, over the public calls of their crates.
#![tactic(auto)]

#[cfg(test)]
mod drops;
#[cfg(test)]
mod half_reads;
#[cfg(test)]
mod log_reads;
#[cfg(test)]
mod openings;
