//! Frames of states: what a variable has, the table of references, and how the variables, references and lengths of two
//! states are paired, named and bound.
#![tactic(auto)]

mod apart_pairs;
mod binding;
mod exprs;
mod following;
mod frame;
mod merging;
mod naming;
mod pairing;
mod reference;
mod slots;
mod var;

pub use apart_pairs::{joined_apart, kept_apart};
pub use binding::{Binding, bind_frames};
pub use following::{apart_follows, nullness_follows};
pub use frame::Frame;
pub use merging::{MergedReference, merged_references};
pub use pairing::{PairedFrames, name_frame, pair_frames};
pub use reference::Reference;
pub use slots::Bound;
pub use var::Var;
