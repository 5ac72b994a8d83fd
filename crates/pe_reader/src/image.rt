//! A PE file that was read: the bytes at its addresses, and its metadata.

ghost use Rattle.std.specs.Prelude.{◌≡◌, ℕ, ◌↔◌, ◌+◌, ◌≤◌, length, IsOk, IfOk, IfErr, IfSome, OnSome};
ghost use Rattle.std.specs.Option.{option_copied};
ghost use Rattle.cc_base.specs.Slices.{IsShort};
ghost use Rattle.cc_base.specs.Tests.{first_of, Judges};
ghost use Rattle.pe_reader.specs.Addresses.{bytes_at, rest_at, first_bytes, metadata, metadata_at, metadata_place, metadata_size};
ghost use Rattle.pe_reader.specs.Faults.{header_tests, sections_tests, cli_tests, first_pe_fault};
ghost use Rattle.pe_reader.specs.Places.{section_count, cli_rva};
ghost use Rattle.pe_reader.specs.Reading.{AreSections};

use crate::fault::PeFault;
use crate::headers::{cli_address, file_header, file_header_place};
use crate::sections::Sections;
use cc_base::u32_at;
use std::marker::Model;

/// A PE file without a fault. Contracts see it as the file's bytes.
#[derive(Drop)]
pub struct Image<'a> {
    bytes: &'a [u8],
    sections: Sections,
    metadata_at: u32,
    metadata_len: u32,
}

impl<'a> Model for Image<'a> {
    ghost use Rattle.std.specs.Prelude.{List, ℕ};

    ghost Value = { List ℕ };

    ghost view = { λ image. image.bytes.now };

    ghost use Rattle.pe_reader.specs.Images.{IsImage};

    ghost invariant = { IsImage };
}

impl<'a> Image<'a> {
    /// Reads the headers of a PE file and finds its metadata. Nothing is copied.
    #[tactic(auto, using(cc_base::proofs::TestLemmas::appended, crate::proofs::Found::whole), unfolding(crate::specs::Faults::first_pe_fault, crate::specs::Faults::pe_tests))]
    pub fn read(bytes: &'a [u8]) -> Result<Image<'a>, PeFault>
        requires { IsShort bytes.now }
        ensures value { IfOk result (λ image. image ≡ bytes.now) }
        ensures accepted { IsOk result ↔ (first_pe_fault bytes.now ≡ None) }
        ensures refused { IfErr result (λ fault. first_pe_fault bytes.now ≡ Some fault) }
    {
        let headers = read_headers(bytes)?;
        let metadata = find_metadata(bytes, headers)?;
        Ok(Image {
            bytes,
            sections: headers.sections,
            metadata_at: metadata.at,
            metadata_len: metadata.len,
        })
    }

    /// The bytes at an address (RVA). All of them have to stand in one section, which is the first to
    /// hold the address, and before the file's end.
    #[tactic(auto, using(crate::proofs::Found::whole, crate::proofs::Found::place_lies), unfolding(crate::specs::Addresses::bytes_at))]
    pub fn at(&self, rva: u32, len: u32) -> Option<&'a [u8]>
        ensures bytes { option_copied result ≡ bytes_at self.now rva len }
        ensures len { IfSome result (λ found. length found.now ≡ len) }
        ensures small { OnSome result (len ≤ 2147483647) }
    {
        let place = self.sections.place_of(self.bytes, rva, len)? as usize;
        Some(&self.bytes[place..place + len as usize])
    }

    /// The bytes from an address (RVA) on, up to the end of its section or of the file, whichever comes
    /// first. None where no section contains the address, or its place lies beyond the file's end.
    #[tactic(auto, using(crate::proofs::Found::whole, crate::proofs::Rest::any_length))]
    pub fn rest_at(&self, rva: u32) -> Option<&'a [u8]>
        ensures bytes { option_copied result ≡ rest_at self.now rva }
        // So many bytes at the address are the first of these.
        ensures any_length { (len : ℕ) → bytes_at self.now rva len ≡ first_bytes len (rest_at self.now rva) }
    {
        self.sections.rest_at(self.bytes, rva)
    }

    /// The metadata (II.24.2).
    #[tactic(auto, using(crate::proofs::Found::place_lies), unfolding(crate::specs::Addresses::metadata, crate::specs::Addresses::metadata_at, crate::specs::Addresses::metadata_place))]
    pub fn metadata(&self) -> &'a [u8]
        ensures bytes { result.now ≡ metadata self.now }
        ensures len { length result.now ≡ metadata_size self.now }
        ensures accepted { first_pe_fault self.now ≡ None }
    {
        let start = self.metadata_at as usize;
        &self.bytes[start..start + self.metadata_len as usize]
    }

    /// Where in the file the metadata begins.
    #[tactic(auto, using(crate::proofs::Found::place_lies), unfolding(crate::specs::Addresses::metadata_at, crate::specs::Addresses::metadata_place))]
    pub fn metadata_at(&self) -> u32
        ensures place { result ≡ metadata_at self.now }
        ensures found { metadata_place self.now ≡ Some result }
        ensures within { result + metadata_size self.now ≤ length self.now }
        ensures small { IsShort self.now }
    {
        self.metadata_at
    }
}

/// What the headers say of the rest of the file.
#[derive(Clone, Copy)]
struct Headers {
    sections: Sections,
    /// The address of the CLI header.
    cli_rva: u32,
}

/// Reads the headers up to the last section's.
#[tactic(auto, using(cc_base::proofs::TestLemmas::appended), unfolding(crate::specs::Faults::header_tests, crate::specs::Places::optional_at, crate::specs::Places::sections_at))]
fn read_headers(bytes: &[u8]) -> Result<Headers, PeFault>
    requires { IsShort bytes.now }
    ensures { Judges result (first_of (header_tests bytes.now))
        (λ headers. AreSections bytes.now headers.sections × (headers.cli_rva ≡ cli_rva bytes.now)) }
{
    let at = file_header_place(bytes)?;
    let header = file_header(bytes, at)?;
    let optional_at = at + 20;
    let cli_rva = cli_address(bytes, optional_at, header.optional_len)?;
    let sections = Sections {
        at: optional_at + u32::from(header.optional_len),
        count: header.sections,
    };
    sections.test(bytes)?;
    Ok(Headers { sections, cli_rva })
}

/// Where in the file the metadata stands.
#[derive(Clone, Copy)]
struct Metadata {
    at: u32,
    len: u32,
}

/// Finds the CLI header (II.25.3.3), and by it the metadata.
#[tactic(auto, using(cc_base::proofs::TestLemmas::first_tests, crate::proofs::Found::place_lies), unfolding(crate::specs::Faults::cli_tests, crate::specs::Addresses::cli_place, crate::specs::Addresses::cli_header_at, crate::specs::Addresses::metadata_rva, crate::specs::Addresses::metadata_size, crate::specs::Addresses::metadata_place))]
fn find_metadata(bytes: &[u8], headers: Headers) -> Result<Metadata, PeFault>
    requires sections { AreSections bytes.now headers.sections }
    requires address { headers.cli_rva ≡ cli_rva bytes.now }
    requires whole { first_of (sections_tests bytes.now (section_count bytes.now)) ≡ None }
    requires small { IsShort bytes.now }
    ensures { Judges result (first_of (cli_tests bytes.now))
        (λ found. (metadata_place bytes.now ≡ Some found.at) × (found.len ≡ metadata_size bytes.now)) }
{
    let Headers { sections, cli_rva } = headers;
    let Some(header) = sections.place_of(bytes, cli_rva, 24) else {
        return Err(PeFault::RvaOutside(cli_rva));
    };
    let header = header as usize;
    let rva = u32_at(bytes, header + 8);
    let len = u32_at(bytes, header + 12);
    match sections.place_of(bytes, rva, len) {
        Some(at) => Ok(Metadata { at, len }),
        None => Err(PeFault::RvaOutside(rva)),
    }
}
