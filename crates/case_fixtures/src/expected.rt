//! What the program must answer.

use crate::arguments::{
    append_line, bytes_of, name_and_rest, number_of, small_number_of, text_of, two_parts, word_of,
};
use crate::wrong::{Stop, stop_at};
use case_reader::Field;
use cc_base::NamedFile;
use std::alloc::Global;

/// What a call must answer, as far as its lines were read.
#[derive(Drop)]
pub struct Expected {
    /// The status and the line that has it.
    pub status: Option<(u64, u8)>,
    /// What is written to the output.
    pub out: Vec<u8>,
    /// What is written to the errors.
    pub err: Vec<u8>,
    /// The bytes of the units that the finder is asked for, in order, where the case tells them.
    pub asked: Option<Vec<Vec<u8>>>,
    /// The number of edges that the finder computes, where the case tells it.
    pub edges: Option<u64>,
    /// The line that asks whether `report` gives what was printed, where there is one.
    pub report: Option<u64>,
    /// Files that are replaced, or were to be: what each holds after the call.
    pub after: Vec<NamedFile>,
    /// Names under which nothing is held after the call, though a file was to be put there.
    pub after_none: Vec<String>,
}

impl Expected {
    /// Expects no text, and no status yet.
    pub fn new(alloc: Global) -> Expected {
        Expected {
            status: None,
            out: Vec::new(alloc),
            err: Vec::new(alloc),
            asked: None,
            edges: None,
            report: None,
            after: Vec::new(alloc),
            after_none: Vec::new(alloc),
        }
    }

    /// Takes a line that says what the answer is. Answers whether it is one.
    pub fn take(&mut self, alloc: Global, field: Field<'_>) -> Result<bool, Stop> {
        let line = field.line;
        match field.keyword {
            "status" => self.take_status(alloc, field)?,
            "out" => append_line(alloc, &mut self.out, line, field.argument)?,
            "err" => append_line(alloc, &mut self.err, line, field.argument)?,
            "out_part" => self
                .out
                .extend_from_slice(&text_of(alloc, line, field.argument)?)?,
            "err_part" => self
                .err
                .extend_from_slice(&text_of(alloc, line, field.argument)?)?,
            "out_nops" => append_nops(alloc, &mut self.out, field)?,
            "asks_none" => self.asked = Some(Vec::new(alloc)),
            "asks" => self.take_asked(alloc, bytes_of(alloc, line, field.argument)?)?,
            "edges" => self.edges = Some(number_of(alloc, line, field.argument)? as u64),
            "report" => self.report = Some(line),
            "after" => self.take_after(alloc, field)?,
            "after_text" => self.take_after_line(alloc, field)?,
            "after_none" => self.after_none.push(word_of(alloc, line, field.argument)?)?,
            _ => return Ok(false),
        }
        Ok(true)
    }

    /// `status N`: the status of the call.
    fn take_status(&mut self, alloc: Global, field: Field<'_>) -> Result<(), Stop> {
        if self.status.is_some() {
            return Err(stop_at(alloc, field.line, "a second status"));
        }
        let status = small_number_of(alloc, field.line, field.argument)?;
        self.status = Some((field.line, status));
        Ok(())
    }

    /// One more unit that the finder is asked for.
    fn take_asked(&mut self, alloc: Global, unit: Vec<u8>) -> Result<(), Stop> {
        match &mut self.asked {
            Some(units) => units.push(unit)?,
            None => self.asked = Some(vec![in alloc; unit]?),
        }
        Ok(())
    }

    /// `after NAME HEX`: what the file holds after the call.
    fn take_after(&mut self, alloc: Global, field: Field<'_>) -> Result<(), Stop> {
        let (name, hex) = two_parts(alloc, field)?;
        let name = word_of(alloc, field.line, name)?;
        let bytes = bytes_of(alloc, field.line, hex)?;
        self.after.push(NamedFile { name, bytes })?;
        Ok(())
    }

    /// `after_text NAME TEXT`: one more line of what the file holds after the call.
    fn take_after_line(&mut self, alloc: Global, field: Field<'_>) -> Result<(), Stop> {
        let (name, text) = name_and_rest(field);
        let name = word_of(alloc, field.line, name)?;
        for file in self.after.iter_mut() {
            if file.name == name {
                return append_line(alloc, &mut file.bytes, field.line, text);
            }
        }
        let mut bytes = Vec::new(alloc);
        append_line(alloc, &mut bytes, field.line, text)?;
        self.after.push(NamedFile { name, bytes })?;
        Ok(())
    }
}

/// Appends the lines of so many instructions of one byte that do nothing, from the start of a method on.
fn append_nops(alloc: Global, bytes: &mut Vec<u8>, field: Field<'_>) -> Result<(), Stop> {
    for at in 0..number_of(alloc, field.line, field.argument)? {
        let line = format!(in alloc; "IL_{at:04x} nop\n")?;
        bytes.extend_from_slice(line.as_bytes())?;
    }
    Ok(())
}
