//! The lines on the sink of errors.

ghost use Rattle.std.specs.Prelude.{◌≡◌, IfOk};
ghost use Rattle.answer_lines.specs.Answers.{cache_line, misfit_line, missing_line, unread_line, refused_line};

use cc_base::{append_escaped, put_hex};
use std::alloc::{AllocError, Global};

/// The usage of the program.
pub const USAGE: &[u8] =
    b"cccheck: usage: check FILE.. [--cache F] [--show] [--proof F] [--ref FILE].. [--infer] | verify FILE F | run FILE METHOD ARG.. [--steps N] | list FILE | il FILE METHOD | unit FILE | gen SEED COUNT | refute FILE METHOD [--runs N]\n";

/// What is written where a sink refused.
pub const UNWRITTEN: &[u8] = b"cccheck: cannot write\n";

/// The line that reports that memory ran out.
pub const NO_MEMORY: &[u8] = b"cccheck: no memory\n";

/// The line of a file that is not there.
pub fn missing_line(alloc: Global, name: &[u8]) -> Result<Vec<u8>, AllocError>
    ensures { IfOk result (λ line. line.items ≡ missing_line name.now) }
{
    let mut line = Vec::from_slice(alloc, b"cccheck: missing file ")?;
    append_escaped(alloc, &mut line, name)?;
    line.extend_from_slice(b"\n")?;
    Ok(line)
}

/// The line of a file that a device did not give.
pub fn unread_line(alloc: Global, name: &[u8]) -> Result<Vec<u8>, AllocError>
    ensures { IfOk result (λ line. line.items ≡ unread_line name.now) }
{
    let mut line = Vec::from_slice(alloc, b"cccheck: cannot read ")?;
    append_escaped(alloc, &mut line, name)?;
    line.extend_from_slice(b"\n")?;
    Ok(line)
}

/// The line of a cache that is refused, with the words of its fault.
pub fn cache_line(alloc: Global, name: &[u8], fault: &[u8]) -> Result<Vec<u8>, AllocError>
    ensures { IfOk result (λ line. line.items ≡ cache_line name.now fault.now) }
{
    let mut line = Vec::from_slice(alloc, b"cccheck: cache ")?;
    append_escaped(alloc, &mut line, name)?;
    line.extend_from_slice(b": ")?;
    line.extend_from_slice(fault)?;
    line.extend_from_slice(b"\n")?;
    Ok(line)
}

/// The line that reports why the words name no method that can be shown.
pub fn misfit_line(alloc: Global, reason: &[u8]) -> Result<Vec<u8>, AllocError>
    ensures { IfOk result (λ line. line.items ≡ misfit_line reason.now) }
{
    let mut line = Vec::from_slice(alloc, b"cccheck: does not fit: ")?;
    line.extend_from_slice(reason)?;
    line.extend_from_slice(b"\n")?;
    Ok(line)
}

/// The line of a file that is refused, with the fault and its offset in the file.
pub fn refused_line(
    alloc: Global,
    name: &[u8],
    fault: &[u8],
    at: u32,
) -> Result<Vec<u8>, AllocError>
    ensures { IfOk result (λ line. line.items ≡ refused_line name.now fault.now at) }
{
    let mut line = Vec::from_slice(alloc, b"cccheck: refused ")?;
    append_escaped(alloc, &mut line, name)?;
    line.extend_from_slice(b": ")?;
    line.extend_from_slice(fault)?;
    line.extend_from_slice(b" at ")?;
    put_hex(alloc, &mut line, at, 8)?;
    line.extend_from_slice(b"\n")?;
    Ok(line)
}
