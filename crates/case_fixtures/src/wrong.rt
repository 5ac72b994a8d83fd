//! What is wrong with a case, or with the answer to it.

use std::alloc::{AllocError, AllocFailed, Global};

/// What is wrong, and the line of the file of cases that shows it.
#[derive(Drop)]
pub struct Wrong {
    pub line: u64,
    pub text: String,
}

/// Why a case ends early.
#[derive(Drop)]
pub enum Stop {
    /// The case or the answer is wrong.
    Wrong(Wrong),
    /// Memory ran out.
    NoMemory,
}

impl From<AllocError> for Stop {
    fn from(_error: AllocError) -> Stop {
        Stop::NoMemory
    }
}

impl<T: Drop> From<AllocFailed<T>> for Stop {
    fn from(_error: AllocFailed<T>) -> Stop {
        Stop::NoMemory
    }
}

/// The stop at a line whose text says what is wrong.
pub fn stop_at(alloc: Global, line: u64, text: &str) -> Stop {
    match String::from_str(alloc, text) {
        Ok(text) => Stop::Wrong(Wrong { line, text }),
        Err(_) => Stop::NoMemory,
    }
}
