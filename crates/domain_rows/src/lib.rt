//! Code that is written once for any domain, and the least domain that it is used at. There is nothing here but tests:
//! what they show is that the contracts of the traits are enough, which no case can.
#![tactic(auto)]

#[cfg(test)]
mod chain;
#[cfg(test)]
mod generic_code;
