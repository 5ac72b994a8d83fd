//! The files that a case gives.

use crate::arguments::{append_line, bytes_of, name_and_rest, number_of, two_parts, word_of};
use crate::devices::CaseFiles;
use crate::plan::OpenPlan;
use crate::wrong::{Stop, stop_at};
use case_reader::{Case, Field};
use std::alloc::Global;

/// The files that a case gives, as far as its lines were read.
#[derive(Drop)]
pub struct Given {
    /// The files whose lines are read whole.
    pub files: CaseFiles,
    plan: Option<OpenPlan>,
}

impl Given {
    /// Creates a given world without files.
    pub fn new(alloc: Global) -> Given {
        Given {
            files: CaseFiles::new(alloc),
            plan: None,
        }
    }

    /// Takes a line that makes or changes a file. Answers whether it is one.
    pub fn take(&mut self, alloc: Global, field: Field<'_>) -> Result<bool, Stop> {
        if OpenPlan::takes(field.keyword) {
            self.add_to_plan(alloc, field)?;
            return Ok(true);
        }
        self.close(alloc)?;
        match field.keyword {
            "assembly" => self.plan = Some(OpenPlan::begun(alloc, field, false)?),
            "wide_assembly" => self.plan = Some(OpenPlan::begun(alloc, field, true)?),
            "file" => self.hold(alloc, field)?,
            "text" => self.add_line(alloc, field)?,
            "append" => self.append(alloc, field)?,
            "cut" => self.cut(alloc, field)?,
            "patch" => self.patch(alloc, field)?,
            _ => return Ok(false),
        }
        Ok(true)
    }

    /// Writes the assembly whose methods were the last lines, where there is one.
    pub fn close(&mut self, alloc: Global) -> Result<(), Stop> {
        match self.plan.take() {
            None => Ok(()),
            Some(plan) => {
                let bytes = plan.written(alloc)?;
                self.files.files.hold(alloc, plan.name.as_str(), &bytes)?;
                Ok(())
            }
        }
    }

    /// Adds what a line says to the assembly that is planned.
    fn add_to_plan(&mut self, alloc: Global, field: Field<'_>) -> Result<(), Stop> {
        match &mut self.plan {
            Some(plan) => plan.add(alloc, field),
            None => Err(stop_at(alloc, field.line, "a line of no assembly")),
        }
    }

    /// `file NAME HEX`: the file of these bytes.
    fn hold(&mut self, alloc: Global, field: Field<'_>) -> Result<(), Stop> {
        let (name, hex) = name_and_rest(field);
        let name = word_of(alloc, field.line, name)?;
        let bytes = bytes_of(alloc, field.line, hex)?;
        self.files.files.hold(alloc, name.as_str(), &bytes)?;
        Ok(())
    }

    /// `copy NAME BASE`: the file of the bytes that a base has under its own name.
    pub fn copy(
        &mut self,
        alloc: Global,
        bases: &[Case<'_>],
        field: Field<'_>,
    ) -> Result<(), Stop> {
        self.close(alloc)?;
        let (name, base) = two_parts(alloc, field)?;
        let Some(case) = bases.iter().find(|it| it.name == base) else {
            return Err(stop_at(alloc, field.line, "no base has this name"));
        };
        let made = made_by_base(alloc, case)?;
        let Some(bytes) = made.files.files.get(base) else {
            return Err(stop_at(alloc, case.line, "the base makes no file of its name"));
        };
        let name = word_of(alloc, field.line, name)?;
        self.files.files.hold(alloc, name.as_str(), bytes)?;
        Ok(())
    }

    /// `text NAME TEXT`: one more line of the file, which is empty before its first.
    fn add_line(&mut self, alloc: Global, field: Field<'_>) -> Result<(), Stop> {
        let (name, text) = name_and_rest(field);
        let name = word_of(alloc, field.line, name)?;
        let mut bytes = match self.files.files.get(name.as_str()) {
            Some(bytes) => Vec::from_slice(alloc, bytes)?,
            None => Vec::new(alloc),
        };
        append_line(alloc, &mut bytes, field.line, text)?;
        self.files.files.hold(alloc, name.as_str(), &bytes)?;
        Ok(())
    }

    /// `append NAME HEX`: these bytes after those of the file.
    fn append(&mut self, alloc: Global, field: Field<'_>) -> Result<(), Stop> {
        let (name, hex) = two_parts(alloc, field)?;
        let mut bytes = self.bytes_of_file(alloc, field.line, name)?;
        let more = bytes_of(alloc, field.line, hex)?;
        bytes.extend_from_slice(&more)?;
        self.put_back(alloc, field.line, name, &bytes)
    }

    /// `cut NAME LENGTH`: the first bytes of the file, so many.
    fn cut(&mut self, alloc: Global, field: Field<'_>) -> Result<(), Stop> {
        let (name, length) = two_parts(alloc, field)?;
        let bytes = self.bytes_of_file(alloc, field.line, name)?;
        let length = number_of(alloc, field.line, length)?;
        if length > bytes.len() {
            return Err(stop_at(alloc, field.line, "the file is shorter"));
        }
        self.put_back(alloc, field.line, name, &bytes[..length])
    }

    /// `patch NAME OFFSET HEX`: these bytes in place of those at an offset of the file, in decimal.
    fn patch(&mut self, alloc: Global, field: Field<'_>) -> Result<(), Stop> {
        let (name, rest) = two_parts(alloc, field)?;
        let Some((offset, hex)) = rest.split_once(' ') else {
            return Err(stop_at(alloc, field.line, "not NAME OFFSET HEX"));
        };
        let mut bytes = self.bytes_of_file(alloc, field.line, name)?;
        let offset = number_of(alloc, field.line, offset)?;
        let patch = bytes_of(alloc, field.line, hex)?;
        if offset > bytes.len() || patch.len() > bytes.len() - offset {
            return Err(stop_at(alloc, field.line, "the file ends before the patch does"));
        }
        bytes[offset..offset + patch.len()].copy_from_slice(&patch);
        self.put_back(alloc, field.line, name, &bytes)
    }

    /// A copy of the bytes of a file that was given.
    fn bytes_of_file(&self, alloc: Global, line: u64, name: &str) -> Result<Vec<u8>, Stop> {
        let name = word_of(alloc, line, name)?;
        match self.files.files.get(name.as_str()) {
            Some(bytes) => Ok(Vec::from_slice(alloc, bytes)?),
            None => Err(stop_at(alloc, line, "no file has this name")),
        }
    }

    /// Holds these bytes under a name, in place of what was there.
    fn put_back(&mut self, alloc: Global, line: u64, name: &str, bytes: &[u8]) -> Result<(), Stop> {
        let name = word_of(alloc, line, name)?;
        self.files.files.hold(alloc, name.as_str(), bytes)?;
        Ok(())
    }
}

/// The files that the lines of a base make.
fn made_by_base(alloc: Global, base: &Case<'_>) -> Result<Given, Stop> {
    let mut given = Given::new(alloc);
    for field in &base.fields {
        if !given.take(alloc, *field)? {
            return Err(stop_at(alloc, field.line, "no line of a base"));
        }
    }
    given.close(alloc)?;
    Ok(given)
}
