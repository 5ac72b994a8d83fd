//! Fields that stand one after another up to an end.

ghost use Rattle.std.specs.Prelude.{◌≡◌, ◌+◌, ◌*◌, ◌^◌, ◌<◌, ◌≤◌, ⊤, sum, replicate, IfOk, IfErr};
ghost use Rattle.cc_base.specs.Tests.{first_of, Judges};
ghost use Rattle.metadata_tables.specs.Tests.{fields, offset_of};

use crate::fault::TableFault;

/// The place after fields of these widths, or that of the first field that passes the end.
pub(crate) fn after_fields(start: usize, widths: &[u8], end: usize) -> Result<usize, TableFault>
    requires start { start ≤ end }
    requires end { end < 2 ^ 31 }
    ensures judged { Judges result (first_of (fields end (λ at. TableFault.Short at) start widths.now)) (λ _. ⊤) }
    ensures place { IfOk result (λ after. after ≡ start + sum widths.now) }
    ensures within { IfOk result (λ after. after ≤ end) }
    ensures fault_within { IfErr result (λ fault. offset_of fault ≤ end) }
{
    let mut at = start;
    for width in widths {
        let width = usize::from(*width);
        if end - at < width {
            return Err(TableFault::Short(at as u32));
        }
        at += width;
    }
    Ok(at)
}

/// The place after this many fields of one width, or that of the first field that passes the end.
pub(crate) fn after_run(
    start: usize,
    count: u32,
    width: u32,
    end: usize,
) -> Result<usize, TableFault>
    requires start { start ≤ end }
    requires end { end < 2 ^ 31 }
    ensures judged { Judges result
        (first_of (fields end (λ at. TableFault.Short at) start (replicate count width))) (λ _. ⊤) }
    ensures place { IfOk result (λ after. after ≡ start + count * width) }
    ensures within { IfOk result (λ after. after ≤ end) }
    ensures fault_within { IfErr result (λ fault. offset_of fault ≤ end) }
{
    let room = end - start;
    let width = width as usize;
    let needed = count as usize * width;
    if needed > room {
        return Err(TableFault::Short((start + room / width * width) as u32));
    }
    Ok(start + needed)
}
