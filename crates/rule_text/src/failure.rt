//! Why a line of a case fails.

use std::alloc::{AllocError, AllocFailed};
use std::fmt;

/// Why a line of a case fails.
#[derive(Debug, Drop)]
pub enum Failure {
    /// It cannot be read: this was to stand there.
    Unread(&'static str),
    /// The rule may not be asked so: this it asks of its caller.
    Unmet(&'static str),
    /// The rule gives another answer, this one.
    Found(String),
    /// Memory ran out.
    NoMemory,
}

impl From<AllocError> for Failure {
    fn from(_error: AllocError) -> Failure {
        Failure::NoMemory
    }
}

impl<T: Drop> From<AllocFailed<T>> for Failure {
    fn from(_error: AllocFailed<T>) -> Failure {
        Failure::NoMemory
    }
}

impl fmt::Display for Failure {
    fn fmt<W: fmt::Write>(&self, f: &mut fmt::Formatter<W>) -> fmt::Result {
        match self {
            Failure::Unread(wanted) => write!(f, "not read: {wanted} was to stand here"),
            Failure::Unmet(premise) => write!(f, "may not be asked: {premise}"),
            Failure::Found(answer) => write!(f, "the answer is {answer}"),
            Failure::NoMemory => write!(f, "no memory"),
        }
    }
}
