//! The names of operators, comparisons, places and faults.

use cil_model::{BinOp, CmpOp, FaultKind, Place};

/// The operators of two numbers by their names (ECMA-335 III.3).
const OPERATORS: [(&str, BinOp); 21] = [
    ("add", BinOp::Add),
    ("sub", BinOp::Sub),
    ("mul", BinOp::Mul),
    ("div", BinOp::Div),
    ("div.un", BinOp::DivUn),
    ("rem", BinOp::Rem),
    ("rem.un", BinOp::RemUn),
    ("and", BinOp::And),
    ("or", BinOp::Or),
    ("xor", BinOp::Xor),
    ("shl", BinOp::Shl),
    ("shr", BinOp::Shr),
    ("shr.un", BinOp::ShrUn),
    ("add.ovf", BinOp::AddOvf),
    ("mul.ovf", BinOp::MulOvf),
    ("sub.ovf", BinOp::SubOvf),
    ("ceq", BinOp::Ceq),
    ("cgt", BinOp::Cgt),
    ("cgt.un", BinOp::CgtUn),
    ("clt", BinOp::Clt),
    ("clt.un", BinOp::CltUn),
];

/// The comparisons of branches, by the names of the branches without their `b`.
const COMPARISONS: [(&str, CmpOp); 10] = [
    ("eq", CmpOp::Eq),
    ("ge", CmpOp::Ge),
    ("gt", CmpOp::Gt),
    ("le", CmpOp::Le),
    ("lt", CmpOp::Lt),
    ("ne.un", CmpOp::NeUn),
    ("ge.un", CmpOp::GeUn),
    ("gt.un", CmpOp::GtUn),
    ("le.un", CmpOp::LeUn),
    ("lt.un", CmpOp::LtUn),
];

/// The types of places.
const PLACES: [(&str, Place); 5] = [
    ("void", Place::Void),
    ("bool", Place::Bool),
    ("int32", Place::Int),
    ("bool[]", Place::Bools),
    ("int32[]", Place::Ints),
];

/// The faults, but for those of clauses.
const FAULTS: [(&str, FaultKind); 9] = [
    ("assert", FaultKind::Assert),
    ("null-use", FaultKind::NullUse),
    ("lower-bound", FaultKind::Lower),
    ("upper-bound", FaultKind::Upper),
    ("division-by-zero", FaultKind::DivZero),
    ("division-overflow", FaultKind::DivOverflow),
    ("overflow", FaultKind::Overflow),
    ("shift-amount", FaultKind::Shift),
    ("array-size", FaultKind::ArraySize),
];

/// What stands beside a name in a table.
fn find<T: Copy>(table: &[(&str, T)], name: &str) -> Option<T> {
    for (known, value) in table {
        if *known == name {
            return Some(*value);
        }
    }
    None
}

/// The operator of a name, as `add.ovf` or `clt.un`.
pub fn operator(name: &str) -> Option<BinOp> {
    find(&OPERATORS, name)
}

/// The comparison of a name, as `lt.un`.
pub fn comparison(name: &str) -> Option<CmpOp> {
    find(&COMPARISONS, name)
}

/// The type of a name, as `int32[]`.
pub fn place(name: &str) -> Option<Place> {
    find(&PLACES, name)
}

/// The fault of a name, as `division-by-zero`.
pub fn fault(name: &str) -> Option<FaultKind> {
    find(&FAULTS, name)
}
