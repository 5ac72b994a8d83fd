//! The headers of a file that was written.

ghost use Rattle.std.specs.Prelude.{◌≡◌, None, IsTrue, codes};
ghost use Rattle.cc_base.specs.Tests.{first_of};
ghost use Rattle.metadata_tables.specs.Root.{streams_tests, heap};
ghost use Rattle.pe_reader.specs.Addresses.{metadata};
ghost use Rattle.asm_writer.specs.Assembly.{assembly_bytes};
ghost use Rattle.asm_writer.specs.Sizes.{fits};
ghost use Rattle.written_assemblies.specs.Written.{written_metadata, written_strings, written_blobs};

use asm_writer::AsmPlan;
use pe_reader::Image;

/// The file that was written for a plan, as its headers are read. They have no fault.
#[tactic(auto, using(crate::proofs::AloneLemmas::is_short, crate::proofs::AloneLemmas::plan_passes, crate::proofs::AloneLemmas::plan_metadata, crate::proofs::AloneLemmas::plan_streams, crate::proofs::AloneLemmas::plan_strings, crate::proofs::AloneLemmas::plan_blobs))]
pub fn written_image<'a>(plan: &AsmPlan, bytes: &'a [u8]) -> Image<'a>
    requires written { bytes.now ≡ assembly_bytes plan.now }
    requires fits { IsTrue (fits plan.now) }
    ensures file { result ≡ bytes.now }
    // The metadata is found where it was written, and its root and streams have no fault.
    ensures metadata { metadata bytes.now ≡ written_metadata plan.now }
    ensures streams { first_of (streams_tests (written_metadata plan.now)) ≡ None }
    // The heaps are those that were written.
    ensures strings { heap (written_metadata plan.now) (codes "#Strings") ≡ written_strings plan.now }
    ensures blobs { heap (written_metadata plan.now) (codes "#Blob") ≡ written_blobs plan.now }
{
    match Image::read(bytes) {
        Ok(image) => image,
        Err(_) => unreachable!(),
    }
}
