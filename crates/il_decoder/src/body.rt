//! A method's body: its header, and its code after it (II.25.4).
//!
//! Header and code are looked up together at the header's address: empty code after a header at a section's last byte
//! is whole.

ghost use Rattle.std.specs.Prelude.{◌≡◌, ◌<◌, ◌==◌, IfErr, IfOk, None, Some, length};
ghost use Rattle.std.specs.Int.{bit_at};
ghost use Rattle.cc_base.specs.Slices.{IsShort};
ghost use Rattle.cc_base.specs.Tests.{Judges};
ghost use Rattle.il_decoder.specs.Body.{tiny_header, fat_header, header_at, body_code, body_fault, IsBody};

use crate::fault::IlFault;
use cc_base::{u16_at, u32_at};
use pe_reader::Image;

/// The body of a method.
#[derive(Clone, Copy)]
pub struct Body<'a> {
    /// The number of slots that its stack may have (MaxStack).
    pub max_stack: u16,
    /// True where each local is 0 or null at first (InitLocals).
    pub init_locals: bool,
    /// True where tables of exceptions follow the code (MoreSects).
    pub more_sections: bool,
    /// The token of the locals' signature (LocalVarSigTok): 0 where there are no locals.
    pub local_token: u32,
    /// The bytes of its instructions.
    pub code: &'a [u8],
}

/// What the header of a body says.
#[derive(Clone, Copy)]
pub struct Header {
    /// Its own length in bytes.
    pub len: u32,
    /// The length of the code in bytes (CodeSize).
    pub code_len: u32,
    /// The number of slots that the stack may have (MaxStack).
    pub max_stack: u16,
    /// True where each local is 0 or null at first (InitLocals).
    pub init_locals: bool,
    /// True where tables of exceptions follow the code (MoreSects).
    pub more_sections: bool,
    /// The token of the locals' signature (LocalVarSigTok): 0 where there are no locals.
    pub local_token: u32,
}

/// The length of a fat header in bytes.
const FAT_LEN: u32 = 12;

/// A fat header's length, as it stands in the header: in units of four bytes.
const FAT_LEN_FIELD: u16 = 3;

/// The bit of the flags that says that more sections follow.
const MORE_SECTS: u8 = 3;

/// The bit of the flags that says that locals are 0 or null at first.
const INIT_LOCALS: u8 = 4;

/// Returns whether a bit is set.
fn has_bit(flags: u16, bit: u8) -> bool
    requires { bit < 16 }
    ensures { result ≡ (bit_at flags bit == 1) }
{
    (flags >> bit) & 1 == 1
}

/// The header of one byte (II.25.4.2).
#[tactic(auto, unfolding(crate::specs::Body::tiny_header))]
fn tiny_header(first: u8) -> Header
    ensures { result ≡ tiny_header first }
{
    Header {
        len: 1,
        code_len: u32::from(first >> 2),
        max_stack: 8,
        init_locals: false,
        more_sections: false,
        local_token: 0,
    }
}

/// Returns the header of twelve bytes (II.25.4.3). None where it gives another length of itself.
#[tactic(auto, unfolding(crate::specs::Body::fat_header))]
fn fat_header(bytes: &[u8]) -> Option<Header>
    requires { length bytes.now ≡ 12 }
    ensures { result ≡ fat_header bytes.now }
{
    let flags = u16_at(bytes, 0);
    if flags >> 12 != FAT_LEN_FIELD {
        return None;
    }
    Some(Header {
        len: FAT_LEN,
        code_len: u32_at(bytes, 4),
        max_stack: u16_at(bytes, 2),
        init_locals: has_bit(flags, INIT_LOCALS),
        more_sections: has_bit(flags, MORE_SECTS),
        local_token: u32_at(bytes, 8),
    })
}

/// The header at an address (RVA). None where none stands there whole. The code after it may be cut.
#[tactic(auto, unfolding(crate::specs::Body::header_at))]
pub fn header_at(image: &Image, rva: u32) -> Option<Header>
    ensures { result ≡ header_at image.now rva }
{
    let first = image.at(rva, 1)?[0];
    match first & 3 {
        2 => Some(tiny_header(first)),
        3 => fat_header(image.at(rva, FAT_LEN)?),
        _ => None,
    }
}

/// The body at an address (RVA). Nothing is copied, and no alignment is tested.
///
/// It refuses by `Header(0)` bytes that begin no header or end inside one, and by `Short(0)` code that ends before
/// its length: the section that has the header has to have all of the code.
#[tactic(auto, using(crate::proofs::Lookup::longer_none), unfolding(crate::specs::Body::body_code, crate::specs::Body::body_fault, crate::specs::Body::code_at))]
pub fn body_at<'a>(image: &Image<'a>, rva: u32) -> Result<Body<'a>, IlFault>
    ensures body { Judges result (body_fault image.now rva) (IsBody image.now rva) }
    ensures code { IfOk result (λ body. body_code image.now rva ≡ Some body.code.now) }
    ensures no_code { IfErr result (λ _. body_code image.now rva ≡ None) }
    ensures short { IfOk result (λ body. IsShort body.code.now) }
{
    let header = header_at(image, rva).ok_or(IlFault::Header(0))?;
    let len = header.len.saturating_add(header.code_len);
    let bytes = image.at(rva, len).ok_or(IlFault::Short(0))?;
    Ok(Body {
        max_stack: header.max_stack,
        init_locals: header.init_locals,
        more_sections: header.more_sections,
        local_token: header.local_token,
        code: &bytes[header.len as usize..],
    })
}
