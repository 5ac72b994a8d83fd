//! What no command shows of code: an instruction that is asked for where the code has ended, and IL offsets of more
//! than four digits as they are printed.

use il_decoder::{IlFault, IlRefusal, decode_one, put_label};
use std::test::Fail;

/// Codes and offsets at their end and behind it.
const ENDS: [(&[u8], u32); 3] = [(b"", 0), (b"\x00", 1), (b"\x00", 7)];

const LABELS: [(u32, &[u8]); 9] = [
    (0x1_0000, b"IL_10000"),
    (0xf_ffff, b"IL_fffff"),
    (0x10_0000, b"IL_100000"),
    (0xff_ffff, b"IL_ffffff"),
    (0x100_0000, b"IL_1000000"),
    (0xfff_ffff, b"IL_fffffff"),
    (0x1000_0000, b"IL_10000000"),
    (0x1234_5678, b"IL_12345678"),
    (0xffff_ffff, b"IL_ffffffff"),
];

#[test]
fn no_instruction_stands_behind_the_code(rt: HostRuntime) -> Result<(), Fail> {
    let alloc = rt.alloc();
    for (code, at) in ENDS {
        assert!(rt; code.len() <= 100);
        let found = decode_one(alloc, code, at).err();
        assert_eq!(rt; found, Some(IlRefusal::Bad(IlFault::Short(at))), "at {at}");
    }
    Ok(())
}

#[test]
fn labels_have_more_than_four_digits(rt: HostRuntime) -> Result<(), Fail> {
    let alloc = rt.alloc();
    for (at, text) in LABELS {
        let mut label = Vec::new(alloc);
        put_label(alloc, &mut label, at)?;
        assert_eq!(rt; label.as_slice(), text);
    }
    Ok(())
}
