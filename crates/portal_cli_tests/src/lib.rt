//! Tests of the program's commands that cases can't show: devices that fail at each call, and commands over devices in
//! memory. The crate is above the libraries of the program, so that these are proved once.
#![tactic(auto)]

#[cfg(test)]
mod devices;
#[cfg(test)]
mod loading;
#[cfg(test)]
mod memory;
#[cfg(test)]
mod restarts;
#[cfg(test)]
mod serving;
