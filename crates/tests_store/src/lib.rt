//! Tests of the store of objects, and of inputs that are read as one text.
#![tactic(auto)]

#[cfg(test)]
mod chosen;
#[cfg(test)]
mod lent;
#[cfg(test)]
mod many;
#[cfg(test)]
mod reading;
#[cfg(test)]
mod stored;
#[cfg(test)]
mod texts;
