// Coverage format 2: ranges of glyphs.
ghost use Rattle.std.specs.Prelude.{◌≡◌, ℕ, suc, ◌==◌, ◌+◌, ◌-◌, ◌*◌, ◌<◌, ◌≤◌, true, List, ◌++◌, Some, map, length, take, drop};
ghost use Rattle.std.specs.List.{range_with_len};
ghost use Rattle.coverage.specs.Glyphs.{GlyphList, index_in};
ghost use Rattle.coverage.specs.Meaning.{counted, ended, glyph_at, indexed, copied};
ghost use Rattle.coverage_opentype.specs.Format2.{range_of, record_bytes, covers, covered, in_order, meant, range_meaning, runs, range_bytes, range_span};
ghost use Rattle.coverage_opentype.specs.Checked.{Totalled, RunsCounted};

use data_bytes::{put_word, word_at};
use refusals::CodecFault;
use std::cmp::Ordering;

/// A range record: the glyphs from `start` to `end`, the first of them at the coverage index `index`.
#[derive(Clone, Copy, Debug, PartialEq, Eq)]
pub struct GlyphRange {
    pub start: u16,
    pub end: u16,
    pub index: u16,
}

impl From<[u8; 6]> for GlyphRange {
    ghost from_gives = { λ bytes range. range ≡ range_of bytes };

    fn from(bytes: [u8; 6]) -> GlyphRange {
        GlyphRange {
            start: u16::from_be_bytes([bytes[0], bytes[1]]),
            end: u16::from_be_bytes([bytes[2], bytes[3]]),
            index: u16::from_be_bytes([bytes[4], bytes[5]]),
        }
    }
}

impl From<GlyphRange> for [u8; 6] {
    ghost from_gives = { λ range bytes. bytes ≡ record_bytes range };

    fn from(range: GlyphRange) -> [u8; 6] {
        let start = range.start.to_be_bytes();
        let end = range.end.to_be_bytes();
        let index = range.index.to_be_bytes();
        [start[0], start[1], end[0], end[1], index[0], index[1]]
    }
}

impl GlyphRange {
    // Copies its glyphs to the place that its index tells.
    fn copy_to(self, out: &mut [u16])
        requires { (self.start ≤ self.end) × (self.index + (self.end + 1 - self.start) ≤ length out.old) }
        ensures { out.new ≡ take self.index out.old ++ (covers self ++ drop (self.index + length (covers self)) out.old) }
    {
        let at = self.index as usize;
        let count = self.end as usize + 1 - self.start as usize;
        count_up(self.start, &mut out[at..at + count]);
    }
}

// Fills a slice with the numbers from `start` on.
fn count_up(start: u16, slots: &mut [u16])
    requires { start + length slots.old ≤ 65536 }
    ensures { slots.new ≡ range_with_len start (length slots.old) }
{
    for (offset, slot) in slots.iter_mut().enumerate() {
        *slot = start + offset as u16;
    }
}

/// The ranges of a format 2 table that means something, each as its six bytes.
// In order; `glyphs` counts what they cover, no more than a coverage may.
#[derive(Clone, Copy, Debug, PartialEq, Eq)]
pub struct RangeTable<'a> {
    records: &'a [[u8; 6]],
    glyphs: usize,
    ghost order: { in_order (map range_of records.now) ≡ true },
    ghost total: { glyphs ≡ length (covered (map range_of records.now)) },
    ghost few: { glyphs ≤ 65535 },
}

// How many glyphs ranges cover, if they are in order.
fn covered_count(records: &[[u8; 6]]) -> Option<usize>
    ensures { Totalled (map range_of records.now) result }
{
    let mut low: usize = 0;
    let mut total: usize = 0;
    for record in records {
        let range = GlyphRange::from(*record);
        let start = range.start as usize;
        let end = range.end as usize;
        if start < low || end < start || range.index as usize != total {
            return None;
        }
        low = end + 1;
        total += low - start;
    }
    Some(total)
}

impl<'a> RangeTable<'a> {
    // Not imported at the top of the file: they name the table, so that would be circular.
    ghost use Rattle.coverage_opentype.specs.Tables.{ranges_in, TableRead};

    /// The table at the front of some bytes, if they mean anything in format 2.
    pub fn read(bytes: &'a [u8]) -> Result<RangeTable<'a>, CodecFault>
        ensures { TableRead bytes.now result }
    {
        if bytes.len() < 4 || word_at(bytes, 0) != 2 {
            return Err(CodecFault::NoMeaning);
        }
        let ranges = word_at(bytes, 2) as usize;
        let (records, _) = bytes[4..].as_chunks::<6>();
        let records = records.get(..ranges).ok_or(CodecFault::NoMeaning)?;
        let glyphs = covered_count(records).ok_or(CodecFault::NoMeaning)?;
        if glyphs == 0 || glyphs > 65535 {
            return Err(CodecFault::NoMeaning);
        }
        Ok(RangeTable { records, glyphs })
    }

    /// How many glyphs it covers.
    pub fn count(&self) -> usize
        ensures { result ≡ length (covered (ranges_in self.now)) }
    {
        self.glyphs
    }

    /// Where it ends.
    pub fn end(&self) -> usize
        ensures { result ≡ 4 + 6 * length (ranges_in self.now) }
    {
        4 + 6 * self.records.len()
    }

    /// The n-th glyph that it covers, from 0.
    pub fn glyph(&self, n: usize) -> Result<u16, CodecFault>
        ensures { result ≡ glyph_at (Some (meant (ranges_in self.now))) n }
    {
        // From the front, as `read` went over all records already.
        for record in self.records {
            let range = GlyphRange::from(*record);
            let on = n - range.index as usize;
            if on <= (range.end - range.start) as usize {
                return Ok(range.start + on as u16);
            }
        }
        Err(CodecFault::PastEnd)
    }

    /// Where a glyph stands among those that it covers, by binary search.
    pub fn index_of(&self, glyph: u16) -> Option<usize>
        ensures { result ≡ index_in glyph (covered (ranges_in self.now)) }
    {
        let side = |record: &[u8; 6]| {
            let range = GlyphRange::from(*record);
            if range.end < glyph {
                Ordering::Less
            } else if glyph < range.start {
                Ordering::Greater
            } else {
                Ordering::Equal
            }
        };
        let place = self.records.binary_search_by(side).ok()?;
        let range = GlyphRange::from(self.records[place]);
        Some(range.index as usize + (glyph - range.start) as usize)
    }

    /// Copies all glyphs that it covers to the front of a slice, and tells how many they are.
    pub fn copy_to(&self, out: &mut [u16]) -> Result<usize, CodecFault>
        ensures { (result, out.new) ≡ copied (Some (meant (ranges_in self.now))) out.old }
    {
        if self.glyphs > out.len() {
            return Err(CodecFault::NoSpace);
        }
        for record in self.records {
            GlyphRange::from(*record).copy_to(out);
        }
        Ok(self.glyphs)
    }
}

/// How many glyphs a format 2 table covers.
pub fn range_count(bytes: &[u8]) -> Result<usize, CodecFault>
    ensures { result ≡ counted (range_meaning bytes.now) }
{
    Ok(RangeTable::read(bytes)?.count())
}

/// Where a format 2 table ends.
pub fn range_end(bytes: &[u8]) -> Result<usize, CodecFault>
    ensures { result ≡ ended (range_meaning bytes.now) }
{
    Ok(RangeTable::read(bytes)?.end())
}

/// The n-th glyph of a format 2 table.
pub fn range_glyph(bytes: &[u8], n: usize) -> Result<u16, CodecFault>
    ensures { result ≡ glyph_at (range_meaning bytes.now) n }
{
    RangeTable::read(bytes)?.glyph(n)
}

/// Where a glyph stands in a format 2 table.
pub fn range_index(bytes: &[u8], glyph: u16) -> Result<Option<usize>, CodecFault>
    ensures { result ≡ indexed (range_meaning bytes.now) glyph }
{
    Ok(RangeTable::read(bytes)?.index_of(glyph))
}

/// Copies all glyphs of a format 2 table to the front of a slice.
pub fn ranges_into(bytes: &[u8], out: &mut [u16]) -> Result<usize, CodecFault>
    ensures { (result, out.new) ≡ copied (range_meaning bytes.now) out.old }
{
    RangeTable::read(bytes)?.copy_to(out)
}

/// Whether a glyph is the next one behind another.
pub fn follows(glyph: &u16, next: &u16) -> bool
    ensures { result ≡ (next.now == suc glyph.now) }
{
    *glyph as usize + 1 == *next as usize
}

/// How many unbroken runs a glyph list has; none of what is no glyph list.
pub fn run_count(glyphs: &[u16]) -> Option<usize>
    ensures { RunsCounted glyphs.now result }
{
    if !(1..=65535).contains(&glyphs.len()) {
        return None;
    }
    let mut last = glyphs[0];
    let mut count = 1;
    // The order is tested on the way, so that the list is gone over once.
    for &glyph in &glyphs[1..] {
        if glyph <= last {
            return None;
        }
        if glyph - last > 1 {
            count += 1;
        }
        last = glyph;
    }
    Some(count)
}

// Writes a range record behind k others.
fn put_range(out: &mut [u8], k: usize, range: GlyphRange)
    requires { 10 + 6 * k ≤ length out.old }
    ensures { out.new ≡ take (4 + 6 * k) out.old ++ (record_bytes range ++ drop (10 + 6 * k) out.old) }
{
    let at = 4 + 6 * k;
    out[at..at + 6].copy_from_slice(&<[u8; 6]>::from(range));
}

/// Writes a glyph list in format 2, a range for each unbroken run, to the front of a slice that is long enough.
// The number of ranges is known already from the plan, so they are not counted twice.
pub(crate) fn write_ranges(glyphs: &[u16], ranges: usize, out: &mut [u8])
    requires list { GlyphList glyphs.now }
    requires ranges { ranges ≡ length (runs glyphs.now) }
    requires room { range_span glyphs.now ≤ length out.old }
    ensures { out.new ≡ range_bytes glyphs.now ++ drop (range_span glyphs.now) out.old }
{
    put_word(out, 0, 2);
    put_word(out, 2, ranges as u16);
    let mut index: usize = 0;
    // By place: nothing is said of a slice once `as_chunks_mut` of it is over.
    for (done, run) in glyphs.chunk_by(follows).enumerate() {
        let range = GlyphRange {
            start: run[0],
            end: run[run.len() - 1],
            index: index as u16,
        };
        put_range(out, done, range);
        index += run.len();
    }
}
