// The OpenType codec over the two formats.
ghost use Rattle.std.specs.Prelude.{◌≡◌, ℕ, List, MatchOption, Some};
ghost use Rattle.coverage.specs.Glyphs.{GlyphList};
ghost use Rattle.coverage.specs.Meaning.{Sized, Written, written_as};
ghost use Rattle.coverage_list.specs.Format1.{array_meaning};
ghost use Rattle.coverage_opentype.specs.Format2.{meant};
ghost use Rattle.coverage_opentype.specs.OpenType.{open_type_meaning, open_type_bytes, open_type_span, RunsAreUnbroken};
ghost use Rattle.coverage_opentype.specs.Tables.{ranges_in};
ghost use Rattle.coverage_opentype.specs.Planning.{Planned};
ghost use Rattle.coverage_opentype.specs.Choosing;
ghost use Rattle.coverage.proofs.Lists.{list_parts};
ghost use Rattle.std.proofs.Common.{rules};

use crate::ranges::{RangeTable, run_count, write_ranges};
use coverage::codec::CoverageCodec;
use coverage_list::{ListCodec, write_array};
use refusals::CodecFault;

/// Coverage formats 1 and 2; writes the shorter, and format 1 where they tie.
#[derive(Clone, Copy, Debug, Default, PartialEq, Eq)]
pub struct OpenTypeCodec;

// The ranges of a format 2 table. Other bytes mean what they mean in format 1: the calls below match on this, each with
// another call of the two.
fn ranges_of(bytes: &[u8]) -> Option<RangeTable<'_>>
    ensures { MatchOption result (open_type_meaning bytes.now ≡ array_meaning bytes.now) (λ table. open_type_meaning bytes.now ≡ Some (meant (ranges_in table))) }
{
    RangeTable::read(bytes).ok()
}

/// The two formats as a list is laid out in them.
// Not an `Option` of the count: `None` would have to mean format 1.
#[derive(Clone, Copy, Debug, PartialEq, Eq)]
pub enum Layout {
    /// Format 1.
    Array,
    /// Format 2, with so many ranges.
    Ranges { count: usize },
}

/// How a glyph list is to be written: the format, and the bytes that it takes.
#[derive(Clone, Copy, Debug, PartialEq, Eq)]
pub struct Plan {
    pub layout: Layout,
    pub size: usize,
}

/// The shorter format for a glyph list.
pub fn shorter_plan(glyphs: &[u16]) -> Result<Plan, CodecFault>
    ensures { Planned glyphs.now result }
{
    let count = run_count(glyphs).ok_or(CodecFault::NotAdmitted)?;
    if 6 * count < 2 * glyphs.len() {
        Ok(Plan {
            layout: Layout::Ranges { count },
            size: 4 + 6 * count,
        })
    } else {
        Ok(Plan {
            layout: Layout::Array,
            size: 4 + 2 * glyphs.len(),
        })
    }
}

impl CoverageCodec for OpenTypeCodec {
    ghost admits = { λ _. GlyphList };

    ghost meaning = { λ _. open_type_meaning };

    ghost span = { λ _. open_type_span };

    ghost front = { λ c. Choosing.front };

    ghost within = { λ c. Choosing.within };

    ghost even = { λ c. Choosing.even };

    ghost short = { λ c. Choosing.short };

    ghost sound = { λ c. Choosing.sound };

    ghost listed = { Prim.search rules };

    ghost parts = { λ c. list_parts };

    ghost spans = { λ c gs h. Choosing.spans gs };

    fn count(&self, bytes: &[u8]) -> Result<usize, CodecFault> {
        match ranges_of(bytes) {
            Some(table) => Ok(table.count()),
            None => ListCodec.count(bytes),
        }
    }

    fn end(&self, bytes: &[u8]) -> Result<usize, CodecFault> {
        match ranges_of(bytes) {
            Some(table) => Ok(table.end()),
            None => ListCodec.end(bytes),
        }
    }

    fn glyph(&self, bytes: &[u8], n: usize) -> Result<u16, CodecFault> {
        match ranges_of(bytes) {
            Some(table) => table.glyph(n),
            None => ListCodec.glyph(bytes, n),
        }
    }

    fn size(&self, glyphs: &[u16]) -> Result<usize, CodecFault> {
        let plan = shorter_plan(glyphs)?;
        Ok(plan.size)
    }

    fn write(&self, glyphs: &[u16], out: &mut [u8]) -> Result<usize, CodecFault>
        ensures meant { Written (GlyphList glyphs.now) (open_type_span glyphs.now) open_type_meaning glyphs.now out.old out.new result }
        ensures fixed { (result, out.new) ≡ written_as glyphs.now (open_type_bytes glyphs.now) out.old }
    {
        let plan = shorter_plan(glyphs)?;
        if out.len() < plan.size {
            return Err(CodecFault::NoSpace);
        }
        match plan.layout {
            Layout::Ranges { count } => write_ranges(glyphs, count, out),
            Layout::Array => write_array(glyphs, out),
        }
        Ok(plan.size)
    }

    fn glyphs_into(&self, bytes: &[u8], out: &mut [u16]) -> Result<usize, CodecFault> {
        match ranges_of(bytes) {
            Some(table) => table.copy_to(out),
            None => ListCodec.glyphs_into(bytes, out),
        }
    }

    fn index_of(&self, bytes: &[u8], glyph: u16) -> Result<Option<usize>, CodecFault> {
        match ranges_of(bytes) {
            Some(table) => Ok(table.index_of(glyph)),
            None => ListCodec.index_of(bytes, glyph),
        }
    }
}

/// A theorem: the ranges that are written are the unbroken runs, and no other ranges are.
pub fn runs_are_unbroken()
    ensures { RunsAreUnbroken }
{}
