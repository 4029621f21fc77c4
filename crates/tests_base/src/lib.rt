//! Tests of the crates below the program, over their public calls.
#![tactic(auto)]

#[cfg(test)]
mod answer_lines;
#[cfg(test)]
mod command_lines;
#[cfg(test)]
mod contents;
#[cfg(test)]
mod crashes;
#[cfg(test)]
mod disks;
#[cfg(test)]
mod ends;
#[cfg(test)]
mod extents;
#[cfg(test)]
mod file;
#[cfg(test)]
mod hash;
#[cfg(test)]
mod key_lists;
#[cfg(test)]
mod keys;
#[cfg(test)]
mod lists;
#[cfg(test)]
mod logs;
#[cfg(test)]
mod script_lines;
#[cfg(test)]
mod shape;
#[cfg(test)]
mod space;
#[cfg(test)]
mod states;
#[cfg(test)]
mod statuses;
#[cfg(test)]
mod syncs;
#[cfg(test)]
mod tuples;
