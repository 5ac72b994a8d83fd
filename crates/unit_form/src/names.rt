//! Names of methods.

ghost use Rattle.std.specs.Prelude.{◌≡◌, ◌+◌, ◌≤◌, ◌<◌, ◌^◌, ⊤, length};
ghost use Rattle.cc_base.specs.Tests.{first_of, Judges};
ghost use Rattle.unit_form.specs.Fields.{graphic_tests, is_graphic, name_field};
ghost use Rattle.unit_form.specs.Parses.{IsRead};

use crate::numbers::{bytes_field, u16_field};
use crate::unit_fault::UnitFault;

/// Returns whether a byte may stand in a name: a graphic character of ASCII.
fn is_graphic(byte: u8) -> bool
    ensures { result ≡ is_graphic byte }
{
    byte >= 0x21 && byte <= 0x7e
}

/// Tests that every byte of a text, which begins at this offset, may stand in a name.
#[tactic(auto, unfolding(cc_base::specs::Tests::first_of, crate::specs::Fields::graphic_tests))]
fn check_graphic(at: u32, text: &[u8]) -> Result<(), UnitFault>
    requires { at + length text.now < 2 ^ 32 }
    ensures { Judges result (first_of (graphic_tests at text.now)) (λ _. ⊤) }
{
    for (i, byte) in text.iter().enumerate() {
        if !is_graphic(*byte) {
            return Err(UnitFault::Form(at + i as u32));
        }
    }
    Ok(())
}

/// A name, after its length, and the offset after it.
#[tactic(auto, using(cc_base::proofs::TestLemmas::appended), unfolding(crate::specs::Fields::name_field))]
pub fn read_name(bytes: &[u8], at: u32) -> Result<(&[u8], u32), UnitFault>
    requires short { length bytes.now ≤ 2147483647 }
    ensures { Judges result (first_of (name_field bytes.now at).tests)
        (λ read. IsRead bytes.now (name_field bytes.now at) read.0.now read.1) }
{
    let count = u32::from(u16_field(bytes, at)?);
    let start = at + 2;
    let text = bytes_field(bytes, start, count)?;
    check_graphic(start, text)?;
    Ok((text, start + count))
}
