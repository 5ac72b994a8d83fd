//! Why the cases of a file are not read.

use std::fmt;

/// Why the cases of a file are not read, and the line that shows it.
#[derive(Clone, Copy, Debug, PartialEq, Eq)]
pub struct CaseFault {
    /// The number of the line, from 1. Where the file ends too soon, it is that of the line after the last.
    pub line: u64,
    /// The problem.
    pub problem: CaseProblem,
}

/// Why the cases of a file are not read.
#[derive(Clone, Copy, Debug, PartialEq, Eq)]
pub enum CaseProblem {
    /// A line stands outside of the cases and bases.
    Outside,
    /// A case or a base begins inside another one.
    Inside,
    /// The number of cases stands inside a case or a base.
    Unended,
    /// A case or a base has no name.
    NoName,
    /// Two cases, or two bases, have one name.
    SameName,
    /// The number of cases is no number, or another one than that of the cases before it.
    WrongCount,
    /// A line stands after the number of cases.
    AfterCount,
    /// The file ends before the number of cases.
    NoCount,
}

impl fmt::Display for CaseProblem {
    fn fmt<W: fmt::Write>(&self, f: &mut fmt::Formatter<W>) -> fmt::Result {
        let text = match self {
            CaseProblem::Outside => "a line outside of the cases",
            CaseProblem::Inside => "a case begins inside another one",
            CaseProblem::Unended => "the number of cases inside a case",
            CaseProblem::NoName => "a case has no name",
            CaseProblem::SameName => "two cases have one name",
            CaseProblem::WrongCount => "not the number of cases",
            CaseProblem::AfterCount => "a line after the number of cases",
            CaseProblem::NoCount => "the file ends before its number of cases",
        };
        f.write_str(text)
    }
}

impl fmt::Display for CaseFault {
    fn fmt<W: fmt::Write>(&self, f: &mut fmt::Formatter<W>) -> fmt::Result {
        write!(f, "line {}: {}", self.line, self.problem)
    }
}
