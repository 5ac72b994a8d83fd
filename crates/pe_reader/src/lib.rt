//! PE files (ECMA-335, Partition II, 25): an assembly's sections, and the bytes at an address.
#![tactic(auto)]

mod fault;
mod field;
mod headers;
mod image;
mod sections;

pub use fault::PeFault;
pub use image::Image;
