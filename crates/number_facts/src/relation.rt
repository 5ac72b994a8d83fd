//! What is known of a new symbol besides its range.

use symbolic_values::Def;

/// One thing that is known of a new symbol. The constants are exact.
#[derive(Clone, Copy)]
pub enum Relation {
    /// It is at least the symbol and a constant.
    AtLeast(u32, i128),
    /// It is at most the symbol and a constant.
    AtMost(u32, i128),
    /// It is this.
    Is(Def),
}
