//! Tests of the general crates, of the tables and of the hosts.
#![tactic(auto)]

#[cfg(test)]
mod chunks;
#[cfg(test)]
mod hosts;
#[cfg(test)]
mod items;
#[cfg(test)]
mod tables;
#[cfg(test)]
mod walks;
