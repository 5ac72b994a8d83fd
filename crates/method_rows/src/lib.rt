//! What is read of code and of units, and how units run, as tables. There is nothing here but tests.
#![tactic(auto)]

#[cfg(test)]
mod code_rows;
#[cfg(test)]
mod contract_rows;
#[cfg(test)]
mod graph_rows;
#[cfg(test)]
mod machine_rows;
#[cfg(test)]
mod steps;
#[cfg(test)]
mod typing_rows;
#[cfg(test)]
mod unit_rows;
