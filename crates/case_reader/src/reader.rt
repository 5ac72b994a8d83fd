//! Reading the cases of a file.

use crate::case::{Case, CaseFile, Field};
use crate::fault::{CaseFault, CaseProblem};
use cc_base::Refusal;
use std::alloc::{AllocError, Global};
use std::collections::BTreeSet;

/// Which list an open section is to be put into.
#[derive(Clone, Copy, PartialEq, Eq)]
enum Section {
    Base,
    Case,
}

/// What was read of a file so far.
#[derive(Drop)]
struct Reader<'a> {
    alloc: Global,
    file: CaseFile<'a>,
    open: Option<(Section, Case<'a>)>,
    base_names: BTreeSet<&'a str>,
    case_names: BTreeSet<&'a str>,
    has_count: bool,
}

/// The cases of a file with this text, or its first fault.
///
/// Cost: linear in the text, and one look-up by name for each case.
pub fn read_cases<'a>(alloc: Global, text: &'a str) -> Result<CaseFile<'a>, Refusal<CaseFault>> {
    let mut reader = Reader {
        alloc,
        file: CaseFile {
            bases: Vec::new(alloc),
            cases: Vec::new(alloc),
        },
        open: None,
        base_names: BTreeSet::new(alloc),
        case_names: BTreeSet::new(alloc),
        has_count: false,
    };
    let mut line = 0u64;
    for text in text.lines() {
        line = line.saturating_add(1);
        if text.is_empty() || text.starts_with('#') {
            continue;
        }
        let (keyword, argument) = text.split_once(' ').unwrap_or((text, ""));
        reader.take(Field {
            line,
            keyword,
            argument,
        })?;
    }
    if !reader.has_count {
        return Err(fault(line.saturating_add(1), CaseProblem::NoCount));
    }
    Ok(reader.file)
}

/// The refusal of a line.
fn fault(line: u64, problem: CaseProblem) -> Refusal<CaseFault> {
    Refusal::Bad(CaseFault { line, problem })
}

impl<'a> Reader<'a> {
    /// Takes one more line.
    fn take(&mut self, field: Field<'a>) -> Result<(), Refusal<CaseFault>> {
        if self.has_count {
            return Err(fault(field.line, CaseProblem::AfterCount));
        }
        match field.keyword {
            "base" => self.begin(Section::Base, field),
            "case" => self.begin(Section::Case, field),
            "end" => self.end(field.line),
            "cases" => self.count(field),
            _ => self.add(field),
        }
    }

    /// Begins a section of this kind.
    fn begin(&mut self, section: Section, field: Field<'a>) -> Result<(), Refusal<CaseFault>> {
        if self.open.is_some() {
            return Err(fault(field.line, CaseProblem::Inside));
        }
        if field.argument.is_empty() {
            return Err(fault(field.line, CaseProblem::NoName));
        }
        if !self.is_new(section, field.argument)? {
            return Err(fault(field.line, CaseProblem::SameName));
        }
        let case = Case {
            line: field.line,
            name: field.argument,
            fields: Vec::new(self.alloc),
        };
        self.open = Some((section, case));
        Ok(())
    }

    /// Notes the name, and answers whether no earlier section of the kind has it.
    fn is_new(&mut self, section: Section, name: &'a str) -> Result<bool, AllocError> {
        Ok(match section {
            Section::Base => self.base_names.insert(name)?,
            Section::Case => self.case_names.insert(name)?,
        })
    }

    /// Adds a line to the open section.
    fn add(&mut self, field: Field<'a>) -> Result<(), Refusal<CaseFault>> {
        match &mut self.open {
            None => Err(fault(field.line, CaseProblem::Outside)),
            Some((_, case)) => {
                case.fields.push(field)?;
                Ok(())
            }
        }
    }

    /// Ends the open section.
    fn end(&mut self, line: u64) -> Result<(), Refusal<CaseFault>> {
        match self.open.take() {
            None => Err(fault(line, CaseProblem::Outside)),
            Some((Section::Base, base)) => {
                self.file.bases.push(base)?;
                Ok(())
            }
            Some((Section::Case, case)) => {
                self.file.cases.push(case)?;
                Ok(())
            }
        }
    }

    /// Notes the number of cases, the last line of a file.
    fn count(&mut self, field: Field<'a>) -> Result<(), Refusal<CaseFault>> {
        if self.open.is_some() {
            return Err(fault(field.line, CaseProblem::Unended));
        }
        match field.argument.parse::<usize>() {
            Ok(count) if count == self.file.cases.len() => {
                self.has_count = true;
                Ok(())
            }
            _ => Err(fault(field.line, CaseProblem::WrongCount)),
        }
    }
}
