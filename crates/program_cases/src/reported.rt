//! The report of a file as a call of its own.

use asm_image::Assembly;
use case_fixtures::{Stop, Wrong, difference, stop_at};
use check_driver::report;
use std::alloc::Global;
use widening_engine::Dirty;

/// The word that asks for invariants.
const SHOW: &str = "--show";

/// The file whose report the words of a `check` of one file ask for, and whether it shows invariants.
pub fn asked_report(words: &[String]) -> Option<(&str, bool)> {
    match words {
        [_, file] => Some((file.as_str(), false)),
        [_, show, file] if show.as_str() == SHOW => Some((file.as_str(), true)),
        [_, file, show] if show.as_str() == SHOW => Some((file.as_str(), true)),
        _ => None,
    }
}

/// Compares the report of a file with what `check` printed of it.
pub fn compare_report(
    alloc: Global,
    line: u64,
    name: &str,
    show: bool,
    file: Option<&[u8]>,
    printed: &[u8],
) -> Result<(), Stop> {
    let Some(bytes) = file else {
        return Err(stop_at(alloc, line, "the file is not there"));
    };
    let Ok(assembly) = Assembly::read(alloc, bytes) else {
        return Err(stop_at(alloc, line, "the file is no assembly"));
    };
    let text = report(alloc, name, &assembly, show, &mut Dirty::new(alloc))?;
    if text.as_slice() != printed {
        let text = difference(alloc, "report", &text, printed)?;
        return Err(Stop::Wrong(Wrong { line, text }));
    }
    Ok(())
}
