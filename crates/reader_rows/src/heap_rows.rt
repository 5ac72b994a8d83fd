//! Heaps made by hand: user strings, which no command reads, and texts that none compares (ECMA-335 II.24.2.3 and
//! II.24.2.4).

use crate::changes::{Change, change, zeros_with};
use metadata_tables::Tables;
use std::process::Abort;
use std::test::Fail;

/// Metadata with each of four streams twice. The first `#~` has one row of Module, the second has no table.
const METADATA: [Change; 17] = [
    (0, b"BSJB\x01\0\x01\0\0\0\0\0\x04\0\0\0v4.0\0\0\x08\0"),
    (0x18, b"\x90\0\0\0\x26\0\0\0#~\0\0"),
    (0x24, b"\xd0\0\0\0\x08\0\0\0#Strings\0\0\0\0"),
    (0x38, b"\xdc\0\0\0\x16\0\0\0#Blob\0\0\0"),
    (0x48, b"\xf5\0\0\0\x07\0\0\0#US\0"),
    (0x54, b"\xb8\0\0\0\x18\0\0\0#~\0\0"),
    (0x60, b"\xd8\0\0\0\x04\0\0\0#Strings\0\0\0\0"),
    (0x74, b"\xf2\0\0\0\x03\0\0\0#Blob\0\0\0"),
    (0x84, b"\xfc\0\0\0\x04\0\0\0#US\0"),
    (0x98, b"\x01"),
    (0xa8, b"\x01"),
    (0xd0, b"\0ab\0c\0de"),
    (0xd8, b"\0xy\0"),
    (
        0xdc,
        b"\0\x02xy\x80\x01z\xc0\0\0\x01w\xe0\0\0\0\xef\0\xff\x03\x01\x80",
    ),
    (0xf2, b"\0\x01q"),
    (0xf5, b"\0\x03h\0\0\xe0\x01"),
    (0xfc, b"\0\x01k\0"),
];

const LENGTH: usize = 0x100;

/// Indexes into `#Strings`, texts that no command compares, and whether each is the text there.
const COMPARED: [(u32, &[u8], bool); 5] = [
    (1, b"ab\0", false),
    (1, b"", false),
    (3, b"", true),
    (8, b"", false),
    (0xffff_ffff, b"", false),
];

/// Indexes into `#US`, whose items are read as those of `#Blob`.
const USER_STRINGS: [(u32, Option<&[u8]>); 6] = [
    (0, Some(b"")),
    (1, Some(b"h\0\0")),
    (3, Some(b"")),
    (5, None),
    (6, None),
    (7, None),
];

/// Reads the metadata, with these changes, and asserts what stands in its heap `#US`.
fn assert_user_strings(
    rt: &impl Abort,
    md: &[u8],
    rows: &[(u32, Option<&[u8]>)],
) -> Result<(), Fail> {
    assert!(rt; md.len() == LENGTH);
    let tables = Tables::read(md)?;
    for (index, item) in rows {
        assert!(rt; tables.user_string_at(*index) == *item, "at {index}");
    }
    Ok(())
}

#[test]
fn texts_are_compared(rt: HostRuntime) -> Result<(), Fail> {
    let md = zeros_with(&rt, rt.alloc(), LENGTH, &METADATA)?;
    assert!(rt; md.len() == LENGTH);
    let tables = Tables::read(&md)?;
    for (index, text, is_there) in COMPARED {
        assert!(rt; tables.string_is(index, text) == is_there, "at {index}");
    }
    Ok(())
}

#[test]
fn user_strings_stand_at_their_indexes(rt: HostRuntime) -> Result<(), Fail> {
    let mut md = zeros_with(&rt, rt.alloc(), LENGTH, &METADATA)?;
    assert_user_strings(&rt, &md, &USER_STRINGS)?;
    // The first heap has another name, and then the second too: without `#US` there is no item.
    change(&rt, &mut md, &[(0x50, b"#us")]);
    assert_user_strings(&rt, &md, &[(1, Some(b"k"))])?;
    change(&rt, &mut md, &[(0x8c, b"#us")]);
    assert_user_strings(&rt, &md, &[(0, None), (1, None)])
}
