//! What is known of the items of references: for each reference the segments of its array.
#![tactic(auto)]

mod contents;
mod equality;
mod forgetting;
mod form;
mod inclusion;
mod load;
mod merging;
mod narrow;
mod reference;
mod renaming;
mod store;

pub use array_segments::Segs;
pub use contents::Contents;
pub use forgetting::Unknown;
pub use merging::Making;
pub use narrow::are_narrow;
