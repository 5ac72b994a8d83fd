//! Numbers, printed numbers and tokens, as far as no command shows them, and files and sinks in memory.

use cc_base::{
    Files, MapFiles, Offset, PutRefusal, ReadRefusal, ReplaceRefusal, Sink, Token, VecSink,
    little_endian_law, put_hex, put_number, u16_at, u32_at, u64_at, wrap32,
};
use std::alloc::{AllocError, Global};
use std::test::Fail;

/// Numbers of 64 bits that no operation gives, and the int32 of the same low 32 bits.
const WRAPPED: [(i64, i32); 2] = [(i64::MAX, -1), (i64::MIN, 0)];

/// Numbers in decimal that no command prints.
const DECIMALS: [(i64, &[u8]); 2] = [
    (i64::MAX, b"9223372036854775807"),
    (i64::MIN, b"-9223372036854775808"),
];

/// Tokens, each with its table and its row. They are in order.
const TOKENS: [(u32, u8, u32); 5] = [
    (0, 0, 0),
    (0x0600_0002, 0x06, 2),
    (0x06ff_ffff, 0x06, 0x00ff_ffff),
    (0x0a00_0001, 0x0a, 1),
    (0xffff_ffff, 0xff, 0x00ff_ffff),
];

#[test]
fn the_lowest_byte_comes_first(rt: HostRuntime) {
    let bytes = [0x01, 0x02, 0x03, 0x04, 0x05, 0x06, 0x07, 0x08, 0xff];
    assert_eq!(rt; u16_at(&bytes, 0), 0x0201);
    assert_eq!(rt; u16_at(&bytes, 7), 0xff08);
    assert_eq!(rt; u32_at(&bytes, 1), 0x0504_0302);
    assert_eq!(rt; u32_at(&bytes, 5), 0xff08_0706);
    assert_eq!(rt; u64_at(&bytes, 0), 0x0807_0605_0403_0201);
    assert_eq!(rt; u64_at(&bytes, 1), 0xff08_0706_0504_0302);
    little_endian_law();
}

#[test]
fn numbers_wrap_as_twos_complement(rt: HostRuntime) {
    for (number, want) in WRAPPED {
        assert_eq!(rt; wrap32(number), want, "at {number}");
    }
}

/// Returns whether a number is appended as this text.
fn is_appended(alloc: Global, number: i64, text: &[u8]) -> Result<bool, AllocError> {
    let mut line = Vec::from_slice(alloc, b"n=")?;
    put_number(alloc, &mut line, number)?;
    Ok(line.strip_prefix(b"n=") == Some(text))
}

#[test]
fn numbers_are_appended_as_text(rt: HostRuntime) -> Result<(), Fail> {
    for (number, text) in DECIMALS {
        assert!(rt; is_appended(rt.alloc(), number, text)?, "{number}");
    }
    Ok(())
}

#[test]
fn numbers_are_appended_in_hexadecimal(rt: HostRuntime) -> Result<(), Fail> {
    let alloc = rt.alloc();
    let mut line = Vec::new(alloc);
    put_hex(alloc, &mut line, 0x2a, 2)?;
    put_hex(alloc, &mut line, 9, 4)?;
    put_hex(alloc, &mut line, 0xdead_beef, 8)?;
    put_hex(alloc, &mut line, 0xf, 1)?;
    assert!(rt; line.as_slice() == b"2a0009deadbeeff".as_slice());
    Ok(())
}

#[test]
fn a_token_is_a_table_and_a_row(rt: HostRuntime) {
    let mut before = None;
    for (number, table, row) in TOKENS {
        let token = Token(number);
        assert_eq!(rt; (token.table(), token.row()), (table, row));
        assert!(rt; row < 0x0100_0000);
        assert_eq!(rt; Token::new(table, row), token);
        assert!(rt; before < Some(token));
        before = Some(token);
    }
    assert!(rt; Offset(2) < Offset(0x100));
}

/// A call of files, with its answer.
enum Call {
    Read(&'static str, Result<&'static [u8], ReadRefusal>),
    Replace(&'static str, &'static [u8], Result<(), ReplaceRefusal>),
}

use Call::{Read, Replace};

/// Calls of files that hold `a.dll`, of which the second and the third read fail, and the first replacement.
const CALLS: [Call; 8] = [
    Read("a.dll", Ok(&[1, 2])),
    Read("a.dll", Err(ReadRefusal::Failed)),
    // It fails as it lacks the file: only a file that is held can be refused.
    Read("b.dll", Err(ReadRefusal::Missing)),
    Replace("a.dll", &[3], Err(ReplaceRefusal::Failed)),
    Replace("b.dll", &[3], Ok(())),
    Replace("a.dll", &[4], Ok(())),
    Read("b.dll", Ok(&[3])),
    Read("a.dll", Ok(&[4])),
];

/// Files that hold `a.dll`, with the calls that fail.
fn given_files(alloc: Global) -> Result<MapFiles, AllocError> {
    let mut files = MapFiles::new(alloc);
    files.hold(alloc, "a.dll", &[1, 2])?;
    files.fail_reads.push(2)?;
    files.fail_reads.push(3)?;
    files.fail_replaces.push(1)?;
    Ok(files)
}

/// Returns whether a read has this answer.
fn reads_so(
    alloc: Global,
    files: &mut MapFiles,
    name: &str,
    told: Result<&[u8], ReadRefusal>,
) -> bool {
    match files.read(alloc, name) {
        Ok(found) => told == Ok(found.as_slice()),
        Err(refusal) => told == Err(refusal),
    }
}

/// Returns whether a call has its answer. A replacement that failed leaves what `a.dll` held at first.
fn answers(alloc: Global, files: &mut MapFiles, call: &Call) -> bool {
    match call {
        Call::Read(name, told) => reads_so(alloc, files, name, *told),
        Call::Replace(name, bytes, told) => {
            files.replace(alloc, name, bytes) == *told
                && (told.is_ok() || files.get("a.dll") == Some(&[1, 2]))
        }
    }
}

#[test]
fn files_are_read_and_replaced(rt: HostRuntime) -> Result<(), Fail> {
    let mut files = given_files(rt.alloc())?;
    for (call, number) in CALLS.iter().zip(1..) {
        assert!(rt; answers(rt.alloc(), &mut files, call), "call {number}");
    }
    assert!(rt; files.reads == 5 && files.replaces == 3);
    assert!(rt; files.missed == 1 && files.faults == 2);
    Ok(())
}

#[test]
fn a_sink_keeps_what_was_put(rt: HostRuntime) -> Result<(), Fail> {
    let alloc = rt.alloc();
    let mut sink = VecSink::new(alloc);
    sink.fail_puts.push(2)?;
    sink.put(alloc, b"one")?;
    assert_eq!(rt; sink.put(alloc, b"two"), Err(PutRefusal::Failed));
    sink.put(alloc, b"three")?;
    assert_eq!(rt; sink.bytes.as_slice(), b"onethree".as_slice());
    assert_eq!(rt; (sink.puts, sink.faults), (3, 1));
    Ok(())
}
