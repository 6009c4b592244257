//! Tests of the keeper over SQLite, on databases in memory, alone and under a portal, and of the locations of stores. They
//! stand above all of these, so that they are proved once.
#![tactic(auto)]

#[cfg(test)]
mod keeper;
#[cfg(test)]
mod locations;
#[cfg(test)]
mod restarts;
