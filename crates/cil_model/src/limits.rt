//! The limits of what is checked. A file or a method beyond one of them is refused.

/// The most bytes of a file, of an assembly or of a unit.
pub const MAX_FILE_BYTES: u32 = 67_108_864;

/// The most bytes of a method's code.
pub const MAX_CODE_BYTES: usize = 65_536;

/// The most instructions of a method.
pub const MAX_INSTRUCTIONS: usize = 4_096;

/// The most variables of a method: its arguments, locals and stack slots together.
pub const MAX_VARIABLES: usize = 256;

/// The most blocks of a method's body.
pub const MAX_BLOCKS: usize = 512;

/// The most bytes of a method's name in its unit, without the types of its parameters.
pub const MAX_NAME_BYTES: usize = 65_535;

/// The most clauses of a method.
pub const MAX_CLAUSES: usize = 16;

/// The most nodes of a clause's tree.
pub const MAX_NODES: usize = 4_096;

/// The most conditions on a way from the root of a clause's tree to a leaf.
pub const MAX_CONDITIONS: usize = 10;

/// The most old values in all clauses of a method together.
pub const MAX_OLD_VALUES: usize = 64;
