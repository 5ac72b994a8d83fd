//! Names as text.

ghost use Rattle.std.specs.Prelude.{◌≡◌, ◌++◌, OnOk, OnErr};
ghost use Rattle.cc_base.specs.Escapes.{is_plain, escaped_byte, escaped};
ghost use Rattle.cc_base.specs.Sink.{IsPrefix};

use crate::digits::put_hex;
use std::alloc::{AllocError, Global};

/// Returns whether a byte of a name is printed as it is.
fn is_plain(byte: u8) -> bool
    ensures { result ≡ is_plain byte }
{
    byte >= 0x21 && byte <= 0x7e && byte != b'\\'
}

/// Appends a byte of a name. An error may leave a part of its escape.
fn append_escaped_byte(alloc: Global, line: &mut Vec<u8>, byte: u8) -> Result<(), AllocError>
    ensures ok { OnOk result (line.new.items ≡ line.old.items ++ escaped_byte byte) }
    ensures prefix { IsPrefix line.old.items line.new.items }
{
    if is_plain(byte) {
        line.push(byte)?;
        return Ok(());
    }
    line.push(b'\\')?;
    put_hex(alloc, line, u32::from(byte), 2)
}

/// Appends the bytes of a name. An error may leave some of them.
fn append_escaped_bytes(alloc: Global, line: &mut Vec<u8>, name: &[u8]) -> Result<(), AllocError>
    ensures ok { OnOk result (line.new.items ≡ line.old.items ++ escaped name.now) }
    ensures prefix { IsPrefix line.old.items line.new.items }
{
    for byte in name {
        append_escaped_byte(alloc, line, *byte)?;
    }
    Ok(())
}

/// Appends a name, with a backslash and two hexadecimal digits in place of each byte that is no
/// graphic character of ASCII or is a backslash. Where memory runs out, nothing is appended.
pub fn append_escaped(alloc: Global, line: &mut Vec<u8>, name: &[u8]) -> Result<(), AllocError>
    ensures ok { OnOk result (line.new.items ≡ line.old.items ++ escaped name.now) }
    ensures err { OnErr result (line.new.items ≡ line.old.items) }
{
    let start = line.len();
    let appended = append_escaped_bytes(alloc, line, name);
    if appended.is_err() {
        line.truncate(start);
    }
    appended
}
