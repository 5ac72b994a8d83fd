//! The instructions of the profile (ECMA-335 III).

use crate::list::List;
use crate::place::Place;

/// The IL offsets that a switch may go to, in order.
pub type Targets = List<u32>;

/// One instruction in a method's code.
#[derive(Drop)]
pub struct Instr {
    /// Its IL offset.
    pub at: u32,
    /// The number of its bytes, which says how it is spelled.
    pub size: u32,
    /// What it does.
    pub op: Op,
}

/// What an instruction does, with its operand.
#[derive(Drop)]
pub enum Op {
    Nop,
    LoadArg(u16),
    StoreArg(u16),
    LoadLocal(u16),
    StoreLocal(u16),
    Null,
    Const(i32),
    Dup,
    Pop,
    /// A call of what the number names.
    Call(u32),
    Return,
    /// A branch to an IL offset where the test holds.
    Branch(Test, u32),
    Switch(Targets),
    Bin(BinOp),
    Neg,
    Not,
    ConvI4,
    /// A string of the metadata.
    Text(u32),
    NewArray(u32),
    Length,
    /// The place is that of the array.
    LoadElem(Place),
    /// The place is that of the array.
    StoreElem(Place),
    /// The address of an item of an array, whose type the number names.
    LoadAddr(u32),
    /// The item at an address. The place is that of the array.
    LoadInd(Place),
    /// The place is that of the array.
    StoreInd(Place),
}

/// When a branch is taken.
#[derive(Clone, Copy, Debug, PartialEq, Eq)]
pub enum Test {
    Always,
    True,
    False,
    Cmp(CmpOp),
}

/// The comparisons of the comparing branches.
#[derive(Clone, Copy, Debug, PartialEq, Eq)]
pub enum CmpOp {
    Eq,
    Ge,
    Gt,
    Le,
    Lt,
    NeUn,
    GeUn,
    GtUn,
    LeUn,
    LtUn,
}

/// The operators of two numbers. The last five are the comparisons.
#[derive(Clone, Copy, Debug, PartialEq, Eq)]
pub enum BinOp {
    Add,
    Sub,
    Mul,
    Div,
    DivUn,
    Rem,
    RemUn,
    And,
    Or,
    Xor,
    Shl,
    Shr,
    ShrUn,
    AddOvf,
    MulOvf,
    SubOvf,
    Ceq,
    Cgt,
    CgtUn,
    Clt,
    CltUn,
}

/// The operators of one number.
#[derive(Clone, Copy, Debug, PartialEq, Eq)]
pub enum UnOp {
    Neg,
    Not,
}
