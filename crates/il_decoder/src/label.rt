//! IL offsets as text.

ghost use Rattle.std.specs.Prelude.{◌≡◌, ◌<◌, ◌≤◌, ◌^◌, ◌++◌, OnOk, OnErr};
ghost use Rattle.il_decoder.specs.Labels.{label_digits, label};

use cc_base::{NoMemory, put_hex};
use std::alloc::Global;

/// Returns how many digits an offset is printed with.
fn label_digits(at: u32) -> u8
    ensures digits { result ≡ label_digits at }
    ensures some { 1 ≤ result }
    ensures no_more { result ≤ 8 }
    ensures none_lost { at < 16 ^ result }
{
    if at < 0x1_0000 {
        4
    } else if at < 0x10_0000 {
        5
    } else if at < 0x100_0000 {
        6
    } else if at < 0x1000_0000 {
        7
    } else {
        8
    }
}

/// Appends the label of an IL offset: `IL_`, and at least four digits in base sixteen. Where memory runs out,
/// nothing is appended.
#[tactic(auto, unfolding(crate::specs::Labels::label))]
pub fn put_label(alloc: Global, out: &mut Vec<u8>, at: u32) -> Result<(), NoMemory>
    ensures ok { OnOk result (out.new.items ≡ out.old.items ++ label at) }
    ensures err { OnErr result (out.new.items ≡ out.old.items) }
{
    let mut label = Vec::from_slice(alloc, b"IL_")?;
    put_hex(alloc, &mut label, at, label_digits(at))?;
    out.extend_from_slice(&label)
}
