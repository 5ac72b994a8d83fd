//! A text, taken apart into its lines.

ghost use Rattle.std.specs.Prelude.{◌≡◌, ◌==◌, ◌++◌, ◌<◌, ◌≤◌, OnOk, length, position, take};
ghost use Rattle.answer_lines.specs.LineCounts.{AreLines, EndsLine, line_count};
ghost use Rattle.answer_lines.specs.Writing.{joined};

use std::alloc::{AllocError, Global};

/// Where the first line feed of a text stands.
fn first_feed(text: &[u8]) -> Option<usize>
    ensures { result ≡ position (λ byte. byte == 10) text.now }
{
    text.iter().position(|byte| *byte == b'\n')
}

/// How many bytes the first line of a text has, with its line feed. A text without a line feed is one line.
fn first_line(text: &[u8]) -> usize
    ensures some { 0 < length text.now → 0 < result }
    ensures within { result ≤ length text.now }
    ensures line { EndsLine text.now → 0 < length text.now → line_count (take result text.now) ≡ 1 }
{
    match first_feed(text) {
        Some(index) => index + 1,
        None => text.len(),
    }
}

/// Appends the lines of a text of whole lines.
pub fn append_lines(alloc: Global, lines: &mut Vec<Vec<u8>>, text: &[u8]) -> Result<(), AllocError>
    requires whole { EndsLine text.now }
    requires lines { AreLines lines.old.items }
    ensures text { OnOk result (joined lines.new.items ≡ joined lines.old.items ++ text.now) }
    ensures lines { OnOk result (AreLines lines.new.items) }
{
    let mut rest = text;
    while !rest.is_empty() {
        let (line, behind) = rest.split_at(first_line(rest));
        lines.push(Vec::from_slice(alloc, line)?)?;
        rest = behind;
    }
    Ok(())
}
