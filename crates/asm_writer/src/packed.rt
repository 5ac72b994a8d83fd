//! Items one after another, and where each begins.

ghost use Rattle.std.specs.Prelude.{◌≡◌, ◌<◌, ◌^◌, [], ◌∷◌, nat_le, length, slice_index, OnOk};
ghost use Rattle.asm_writer.specs.Packing.{begun, pushed, filled, packed};

use crate::padding::pad;
use std::alloc::{AllocError, Global};
use std::marker::Model;

/// Items one after another: their bytes, and the offset at which each begins.
#[derive(Drop)]
pub struct Packed {
    pub bytes: Vec<u8>,
    offsets: Vec<u64>,
}

impl Model for Packed {
    ghost use Rattle.asm_writer.specs.Packing.{Packing};

    ghost Value = { Packing };

    ghost view = { λ p. record { bytes = p.bytes.items; offsets = p.offsets.items } };

    ghost use Rattle.std.specs.Prelude.{◌<◌, ◌^◌, All};

    ghost invariant = { λ p. All (λ offset. offset < 2 ^ 63) p.offsets.items };
}

impl Packed {
    /// No items.
    #[tactic(auto, unfolding(crate::specs::Packing::packed, crate::specs::Packing::pushed_all))]
    pub fn new(alloc: Global) -> Packed
        ensures { result ≡ packed [] }
    {
        Packed {
            bytes: Vec::new(alloc),
            offsets: Vec::new(alloc),
        }
    }

    /// Begins an item, whose bytes are then appended.
    pub fn begin(&mut self) -> Result<(), AllocError>
        ensures { OnOk result (self.new ≡ begun self.old) }
    {
        self.offsets.push(self.bytes.len() as u64)?;
        Ok(())
    }

    /// Appends an item.
    pub fn push(&mut self, item: &[u8]) -> Result<(), AllocError>
        ensures { OnOk result (self.new ≡ pushed self.old item.now) }
    {
        self.begin()?;
        self.bytes.extend_from_slice(item)
    }

    /// Fills the bytes up to a multiple of four.
    pub fn fill(&mut self) -> Result<(), AllocError>
        ensures { OnOk result (self.new ≡ filled self.old) }
    {
        pad(&mut self.bytes, 4)
    }

    /// The offset of the item of this index, 0 where there is none.
    pub fn offset(&self, index: usize) -> u64
        ensures is { result ≡ slice_index self.now.offsets index }
        ensures bound { result < 2 ^ 63 }
    {
        self.offsets.get(index).copied().unwrap_or(0)
    }

    /// Returns whether an offset has four bytes in a column, in place of two (II.24.2.6).
    pub fn is_wide(&self) -> bool
        ensures { result ≡ nat_le (2 ^ 16) (length self.now.bytes) }
    {
        self.bytes.len() >= 65_536
    }
}
