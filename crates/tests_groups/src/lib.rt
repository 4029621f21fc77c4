//! Tests of transactions, of groups, and of what they stand on: relations, and entries with their stored form.
#![tactic(auto)]

#[cfg(test)]
mod frames;
#[cfg(test)]
mod group_places;
#[cfg(test)]
mod group_refusals;
#[cfg(test)]
mod groups;
#[cfg(test)]
mod planning;
#[cfg(test)]
mod relations;
#[cfg(test)]
mod transactions;
#[cfg(test)]
mod writes;
