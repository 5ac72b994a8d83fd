//! References and their segments, written.

ghost use Rattle.std.specs.Prelude.{◌≡◌, ◌++◌, All, length, map, OnOk};
ghost use Rattle.array_segments.specs.Segments.{lists_of};
ghost use Rattle.invariant_codec.specs.Segments.{nullness_number};
ghost use Rattle.invariant_codec.specs.Spelling.{each_reference_bytes, reference_bytes, segment_bytes, segments_bytes};
ghost use Rattle.invariant_codec.specs.Written.{AreSegmentsOf, IsWritten};
ghost use Rattle.number_spans.specs.Stored.{IsNarrow};

use crate::put_numbers::{put_bound, put_byte, put_expr, put_flag, put_range};
use alias_facts::Nullness;
use array_contents::{Contents, Segs};
use domain_api::{Expr, NoMemory};
use frame_names::Reference;
use interval_domain::Range;

/// Appends a segment and the bound where it ends.
#[tactic(auto, unfolding(crate::specs::Spelling::segment_bytes))]
fn put_segment(
    out: &mut Vec<u8>,
    content: &Range,
    may_be_empty: bool,
    end: &[Expr],
) -> Result<(), NoMemory>
    requires narrow { IsNarrow content.now }
    ensures { OnOk result (out.new.items ≡ out.old.items ++ segment_bytes content.now may_be_empty end.now) }
{
    put_range(out, content)?;
    put_flag(out, may_be_empty)?;
    put_bound(out, end)
}

/// Appends the segments of a reference, after their count.
#[tactic(auto, unfolding(crate::specs::Spelling::segments_bytes))]
fn put_segments(out: &mut Vec<u8>, segs: &Segs<Range>) -> Result<(), NoMemory>
    requires written { IsWritten (lists_of segs.now) }
    ensures { OnOk result (out.new.items ≡ out.old.items ++ segments_bytes (lists_of segs.now)) }
{
    put_byte(out, segs.contents.len() as u64)?;
    put_bound(out, &segs.bounds[0])?;
    for i in 0..segs.contents.len() {
        put_segment(out, &segs.contents[i], segs.marks[i], &segs.bounds[i + 1])?;
    }
    Ok(())
}

/// The number of what is known of a reference being null.
fn nullness_number(nullness: Nullness) -> u64
    ensures { result ≡ nullness_number nullness }
{
    match nullness {
        Nullness::May => 0,
        Nullness::NotNull => 1,
        Nullness::Null => 2,
    }
}

/// Appends what is known of a reference.
#[tactic(auto, unfolding(crate::specs::Spelling::reference_bytes))]
fn put_reference(out: &mut Vec<u8>, reference: &Reference) -> Result<(), NoMemory>
    ensures { OnOk result (out.new.items ≡ out.old.items ++ reference_bytes reference.now) }
{
    put_byte(out, u64::from(reference.place.number()))?;
    put_byte(out, nullness_number(reference.nullness))?;
    put_expr(out, reference.length)
}

/// Appends a reference with its segments.
fn put_array(out: &mut Vec<u8>, reference: &Reference, segs: &Segs<Range>) -> Result<(), NoMemory>
    requires written { IsWritten (lists_of segs.now) }
    ensures { OnOk result (out.new.items ≡ out.old.items ++ (reference_bytes reference.now ++ segments_bytes (lists_of segs.now))) }
{
    put_reference(out, reference)?;
    put_segments(out, segs)
}

/// Appends references, each with its segments.
fn put_each_reference(
    out: &mut Vec<u8>,
    references: &[Reference],
    segments: &[Segs<Range>],
) -> Result<(), NoMemory>
    requires each { length segments.now ≡ length references.now }
    requires written { All (λ segs. IsWritten (lists_of segs)) segments.now }
    ensures { OnOk result (out.new.items ≡ out.old.items ++ each_reference_bytes references.now (map lists_of segments.now)) }
{
    for i in 0..references.len() {
        put_array(out, &references[i], &segments[i])?;
    }
    Ok(())
}

/// Appends references with what is known of their items.
pub(crate) fn put_references(
    out: &mut Vec<u8>,
    references: &[Reference],
    contents: &Contents,
) -> Result<(), NoMemory>
    requires written { AreSegmentsOf references.now contents.now }
    ensures { OnOk result (out.new.items ≡ out.old.items ++ each_reference_bytes references.now contents.now) }
{
    put_each_reference(out, references, contents.segments.as_slice())
}
