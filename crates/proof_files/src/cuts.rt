//! Where the first line `end` cuts a text.

ghost use Rattle.std.specs.Prelude.{◌≡◌, codes};
ghost use Rattle.std.specs.Str.{bytes_eq};
ghost use Rattle.proof_files.specs.Steps.{IsCutAt};

/// Returns whether a line is `end` alone.
fn is_end(line: &[u8]) -> bool
    ensures { result ≡ bytes_eq line.now (codes "end") }
{
    line == b"end".as_slice()
}

/// Where the first line `end` of a text begins. None where no line of it is `end` alone; what wants its line feed is no
/// line.
///
/// Cost: one pass up to that line.
pub(crate) fn find_end(text: &[u8]) -> Option<usize>
    ensures { IsCutAt text.now result }
{
    let mut start = 0;
    for place in 0..text.len() {
        if text[place] == b'\n' {
            if is_end(&text[start..place]) {
                return Some(start);
            }
            start = place + 1;
        }
    }
    None
}
