//! The words for the faults of a cache.

ghost use Rattle.std.specs.Prelude.{◌≡◌, ◌++◌, IfOk};
ghost use Rattle.answer_lines.specs.LineCounts.{line_count};
ghost use Rattle.cc_base.specs.Digits.{hex};
ghost use Rattle.check_driver.specs.CacheText.{cache_fault_text};

use cc_base::put_hex;
use result_cache::CacheFault;
use std::alloc::{AllocError, Global};

/// Words, and an offset after them.
fn text_at(alloc: Global, words: &[u8], at: u32) -> Result<Vec<u8>, AllocError>
    ensures { IfOk result (λ text. text.items ≡ words.now ++ hex 8 at) }
{
    let mut text = Vec::from_slice(alloc, words)?;
    put_hex(alloc, &mut text, at, 8)?;
    Ok(text)
}

/// The words for a fault of a cache, with its offset where it has one.
fn fault_text(alloc: Global, fault: CacheFault) -> Result<Vec<u8>, AllocError>
    ensures { IfOk result (λ text. text.items ≡ cache_fault_text fault) }
{
    match fault {
        CacheFault::Version => Vec::from_slice(alloc, b"version"),
        CacheFault::Short(at) => text_at(alloc, b"short at ", at),
        CacheFault::Form(at) => text_at(alloc, b"form at ", at),
        CacheFault::Large => Vec::from_slice(alloc, b"too large"),
    }
}

/// The same, which is no line.
pub fn cache_fault_text(alloc: Global, fault: CacheFault) -> Result<Vec<u8>, AllocError>
    ensures text { IfOk result (λ text. text.items ≡ cache_fault_text fault) }
    ensures plain { IfOk result (λ text. line_count text.items ≡ 0) }
{
    fault_text(alloc, fault)
}
