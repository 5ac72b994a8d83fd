//! The section headers (II.25.3), and the place of an address in the file.

ghost use Rattle.std.specs.Prelude.{◌≡◌, ℕ, ◌+◌, ◌*◌, ◌^◌, ◌<◌, ◌≤◌, IsTrue, IfSome};
ghost use Rattle.std.specs.Option.{option_copied};
ghost use Rattle.cc_base.specs.Slices.{IsShort};
ghost use Rattle.cc_base.specs.Tests.{first_of, Judges};
ghost use Rattle.pe_reader.specs.Addresses.{covers, section_contains, section_of, place_in, place_of, rest_in, rest_at};
ghost use Rattle.pe_reader.specs.Faults.{section_tests, sections_tests};
ghost use Rattle.pe_reader.specs.Places.{section_count};
ghost use Rattle.pe_reader.specs.Reading.{AreSections, IsSection};

use crate::fault::PeFault;
use crate::field::skip_field;
use cc_base::u32_at;

/// The section headers of a file.
#[derive(Clone, Copy)]
pub struct Sections {
    /// Where in the file the first of them stands.
    pub at: u32,
    /// How many there are.
    pub count: u16,
}

/// What a section header says of its section.
#[derive(Clone, Copy)]
struct Section {
    /// The address of its first byte.
    address: u32,
    /// The number of its bytes that the file holds.
    len: u32,
    /// Where in the file they begin.
    place: u32,
}

impl Sections {
    /// Tests that the fields of each header lie in the file.
    #[tactic(auto, using(crate::proofs::Lookup::each_section))]
    pub fn test(self, bytes: &[u8]) -> Result<(), PeFault>
        requires sections { AreSections bytes.now self }
        requires room { self.at + 40 * self.count < 2 ^ 32 }
        ensures { Judges result (first_of (sections_tests bytes.now (section_count bytes.now))) (λ _. Unit {0}) }
    {
        for index in 0..self.count {
            self.test_header(bytes, index)?;
        }
        Ok(())
    }

    #[tactic(auto, using(cc_base::proofs::TestLemmas::first_tests), unfolding(crate::specs::Faults::section_tests, crate::specs::Places::section_at))]
    fn test_header(self, bytes: &[u8], index: u16) -> Result<(), PeFault>
        requires sections { AreSections bytes.now self }
        requires within { index < self.count }
        requires room { self.at + 40 * self.count < 2 ^ 32 }
        ensures { Judges result (first_of (section_tests bytes.now index)) (λ _. Unit {0}) }
    {
        let at = self.at + 40 * u32::from(index);
        skip_field(bytes, at, 8)?;
        skip_field(bytes, at + 8, 4)?;
        skip_field(bytes, at + 12, 4)?;
        skip_field(bytes, at + 16, 4)?;
        skip_field(bytes, at + 20, 4)
    }

    /// Which section is the first that contains an address.
    #[tactic(auto, using(crate::proofs::Lookup::lookup), unfolding(crate::specs::Addresses::section_contains, crate::specs::Addresses::section_of))]
    fn find(self, bytes: &[u8], rva: u32) -> Option<u16>
        requires sections { AreSections bytes.now self }
        requires whole { first_of (sections_tests bytes.now (section_count bytes.now)) ≡ None }
        ensures first { result ≡ section_of bytes.now rva }
        ensures within { IfSome result (λ index. index < self.count) }
        ensures inside { IfSome result (λ index. IsTrue (section_contains bytes.now rva index)) }
    {
        for index in 0..self.count {
            if self.section(bytes, index).contains(rva) {
                return Some(index);
            }
        }
        None
    }

    /// Finds bytes at an address, and answers their place in the file. All of them have to stand in one
    /// section, which is the first to hold the address, and before the file's end.
    #[tactic(auto, unfolding(crate::specs::Addresses::section_contains, crate::specs::Addresses::place_of))]
    pub fn place_of(self, bytes: &[u8], rva: u32, len: u32) -> Option<u32>
        requires sections { AreSections bytes.now self }
        requires whole { first_of (sections_tests bytes.now (section_count bytes.now)) ≡ None }
        requires small { IsShort bytes.now }
        ensures { result ≡ place_of bytes.now rva len }
    {
        let index = self.find(bytes, rva)?;
        self.section(bytes, index).place_of(bytes, rva, len)
    }

    /// The bytes from an address on, up to the end of its section or of the file, whichever comes first.
    #[tactic(auto, unfolding(crate::specs::Addresses::section_contains, crate::specs::Addresses::rest_at))]
    pub fn rest_at(self, bytes: &[u8], rva: u32) -> Option<&[u8]>
        requires sections { AreSections bytes.now self }
        requires whole { first_of (sections_tests bytes.now (section_count bytes.now)) ≡ None }
        ensures { option_copied result ≡ rest_at bytes.now rva }
    {
        let index = self.find(bytes, rva)?;
        self.section(bytes, index).rest_at(bytes, rva)
    }

    #[tactic(auto, using(crate::proofs::Lookup::section_lies), unfolding(crate::specs::Places::section_at, crate::specs::Places::virtual_address, crate::specs::Places::raw_size, crate::specs::Places::raw_at))]
    fn section(self, bytes: &[u8], index: u16) -> Section
        requires sections { AreSections bytes.now self }
        requires within { index < self.count }
        requires whole { first_of (sections_tests bytes.now (section_count bytes.now)) ≡ None }
        ensures { IsSection bytes.now index result }
    {
        let at = self.at as usize + 40 * usize::from(index);
        Section {
            address: u32_at(bytes, at + 12),
            len: u32_at(bytes, at + 16),
            place: u32_at(bytes, at + 20),
        }
    }
}

impl Section {
    /// Returns whether the address lies in the section.
    fn contains(self, rva: u32) -> bool
        ensures { result ≡ covers self.address self.len rva }
    {
        self.address <= rva && rva - self.address < self.len
    }

    /// The place in the file of bytes at an address of this section, if they end in it and in the file.
    #[tactic(auto, unfolding(crate::specs::Addresses::place_in))]
    fn place_of(self, bytes: &[u8], rva: u32, len: u32) -> Option<u32>
        requires inside { IsTrue (covers self.address self.len rva) }
        requires small { IsShort bytes.now }
        ensures { (i : ℕ) → IsSection bytes.now i self → result ≡ place_in bytes.now rva len i }
    {
        let offset = rva - self.address;
        if len > self.len - offset {
            return None;
        }
        let place = self.place as usize + offset as usize;
        if place + len as usize > bytes.len() {
            return None;
        }
        Some(place as u32)
    }

    /// The bytes at an address of this section, up to its end or the file's.
    #[tactic(auto, unfolding(crate::specs::Addresses::rest_in))]
    fn rest_at(self, bytes: &[u8], rva: u32) -> Option<&[u8]>
        requires { IsTrue (covers self.address self.len rva) }
        ensures { (i : ℕ) → IsSection bytes.now i self → option_copied result ≡ rest_in bytes.now rva i }
    {
        let offset = rva - self.address;
        let start = self.place as usize + offset as usize;
        if start > bytes.len() {
            return None;
        }
        let len = bytes.len() - start;
        Some(&bytes[start..start + len.min((self.len - offset) as usize)])
    }
}
