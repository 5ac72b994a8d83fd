//! What is read of files, and the words of each fault, as tables. There is nothing here but tests.
#![tactic(auto)]

#[cfg(test)]
mod base_rows;
#[cfg(test)]
mod changes;
#[cfg(test)]
mod demo_assembly;
#[cfg(test)]
mod fault_texts;
#[cfg(test)]
mod generator_rows;
#[cfg(test)]
mod heap_rows;
#[cfg(test)]
mod inner_rows;
#[cfg(test)]
mod member_rows;
#[cfg(test)]
mod table_rows;
#[cfg(test)]
mod writer_rows;
