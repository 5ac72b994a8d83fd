//! The lines of reports, each made in memory.

ghost use Rattle.std.specs.Prelude.{◌≡◌, ◌<◌, ◌^◌, ◌++◌, IfOk, OnOk};
ghost use Rattle.answer_lines.specs.Counting.{AreBelow, counts_plus, no_counts};
ghost use Rattle.std.specs.Fmt.{decimal};
ghost use Rattle.answer_lines.specs.Lines.{obligation_line, proved_text, summary_line, unit_line};

use crate::signatures::append_signature;
use cc_base::{put_hex, put_number};
use cil_model::Unit;
use std::alloc::{AllocError, Global};

/// The words of a verdict.
pub fn proved_text(proved: bool) -> &'static [u8]
    ensures { result.now ≡ proved_text proved }
{
    if proved { b"proved" } else { b"unproved" }
}

/// The first line of a unit's report.
pub fn unit_line(alloc: Global, unit: &Unit, proved: bool) -> Result<Vec<u8>, AllocError>
    ensures { IfOk result (λ line. line.items ≡ unit_line unit.now proved) }
{
    let mut line = Vec::from_slice(alloc, b"unit ")?;
    append_signature(alloc, &mut line, unit.name.as_slice(), unit.args.as_slice())?;
    line.extend_from_slice(b": ")?;
    line.extend_from_slice(proved_text(proved))?;
    line.extend_from_slice(b"\n")?;
    Ok(line)
}

/// The line of an obligation: its IL offset, what may go wrong there, and whether it is proved.
pub fn obligation_line(
    alloc: Global,
    at: u32,
    kind: &[u8],
    proved: bool,
) -> Result<Vec<u8>, AllocError>
    requires { at < 65536 }
    ensures { IfOk result (λ line. line.items ≡ obligation_line at kind.now proved) }
{
    let mut line = Vec::from_slice(alloc, b"  IL_")?;
    put_hex(alloc, &mut line, at, 4)?;
    line.extend_from_slice(b" ")?;
    line.extend_from_slice(kind)?;
    line.extend_from_slice(b": ")?;
    line.extend_from_slice(proved_text(proved))?;
    line.extend_from_slice(b"\n")?;
    Ok(line)
}

/// Appends a number and what it counts.
fn append_count(
    alloc: Global,
    line: &mut Vec<u8>,
    count: u64,
    what: &[u8],
) -> Result<(), AllocError>
    requires { count < 2 ^ 63 }
    ensures { OnOk result (line.new.items ≡ line.old.items ++ decimal count ++ what.now) }
{
    put_number(alloc, line, count as i64)?;
    line.extend_from_slice(what)
}

/// The number of methods and obligations that a report has, and how they were found.
#[derive(Clone, Copy)]
pub struct Counts {
    /// All methods.
    pub methods: u64,
    /// Methods of which every obligation is proved.
    pub proved: u64,
    /// Methods of which an obligation is not proved.
    pub unproved: u64,
    /// Methods that were not analysed.
    pub skipped: u64,
    /// The obligations of all methods that were analysed.
    pub obligations: u64,
    /// Those of them that are proved.
    pub proved_obligations: u64,
}

impl Counts {
    /// Those of no method.
    pub fn none() -> Counts
        ensures { result ≡ no_counts }
    {
        Counts {
            methods: 0,
            proved: 0,
            unproved: 0,
            skipped: 0,
            obligations: 0,
            proved_obligations: 0,
        }
    }

    /// Those of these methods together.
    pub fn plus(self, other: Counts) -> Counts
        requires first { AreBelow (2 ^ 62) self }
        requires second { AreBelow (2 ^ 62) other }
        ensures { result ≡ counts_plus self other }
    {
        Counts {
            methods: self.methods + other.methods,
            proved: self.proved + other.proved,
            unproved: self.unproved + other.unproved,
            skipped: self.skipped + other.skipped,
            obligations: self.obligations + other.obligations,
            proved_obligations: self.proved_obligations + other.proved_obligations,
        }
    }
}

/// The last line of a report.
pub fn summary_line(alloc: Global, counts: Counts) -> Result<Vec<u8>, AllocError>
    requires { AreBelow (2 ^ 63) counts }
    ensures { IfOk result (λ line. line.items ≡ summary_line counts) }
{
    let mut line = Vec::from_slice(alloc, b"summary: ")?;
    append_count(alloc, &mut line, counts.methods, b" methods, ")?;
    append_count(alloc, &mut line, counts.proved, b" proved, ")?;
    append_count(alloc, &mut line, counts.unproved, b" unproved, ")?;
    append_count(alloc, &mut line, counts.skipped, b" not analysed, ")?;
    append_count(alloc, &mut line, counts.obligations, b" obligations, ")?;
    append_count(alloc, &mut line, counts.proved_obligations, b" proved\n")?;
    Ok(line)
}
