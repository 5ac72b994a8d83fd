//! Assemblies that were written, as they are read back.
#![tactic(auto)]

mod assembly;
mod generated;
mod image;

pub use assembly::{read_accepted, read_linked, read_written};
pub use generated::{generated_file, generated_plan};
pub use image::written_image;
