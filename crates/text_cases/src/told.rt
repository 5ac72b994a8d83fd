//! The text that a case tells.

use std::alloc::{AllocError, Global};

/// What stands between the lines.
const BETWEEN: &str = " | ";

/// Appends a line as it is printed: that of a block two spaces in, all others four.
fn append_line(text: &mut String, line: &str) -> Result<(), AllocError> {
    text.push_str(if line.starts_with("block ") {
        "  "
    } else {
        "    "
    })?;
    text.push_str(line)?;
    text.push('\n')
}

/// The text whose lines are told, without the spaces before them.
pub fn told_text(alloc: Global, lines: &str) -> Result<String, AllocError> {
    let mut text = String::new(alloc);
    for line in lines.split(BETWEEN) {
        append_line(&mut text, line)?;
    }
    Ok(text)
}
