//! Cases, and the lines that they are made of.

/// A line of a case: a keyword, and what stands behind the blank after it.
#[derive(Clone, Copy, Debug)]
pub struct Field<'a> {
    /// The number of the line in its file, from 1.
    pub line: u64,
    /// The first word of the line.
    pub keyword: &'a str,
    /// The rest of the line, as it stands. It is empty where the line is the keyword alone.
    pub argument: &'a str,
}

/// A case, or a base that cases share.
#[derive(Debug, Drop)]
pub struct Case<'a> {
    /// The number of its first line in its file, from 1.
    pub line: u64,
    /// Its name. No other case of the file has it, and no other base.
    pub name: &'a str,
    /// Its lines, in order.
    pub fields: Vec<Field<'a>>,
}

/// The cases of a file.
#[derive(Debug, Drop)]
pub struct CaseFile<'a> {
    /// What the cases share, in order.
    pub bases: Vec<Case<'a>>,
    /// The cases, in order.
    pub cases: Vec<Case<'a>>,
}
