// The list codec: coverage format 1 alone, an array of glyphs.
#![tactic(auto)]

ghost use Rattle.std.specs.Prelude.{◌≡◌, ℕ, ◌+◌, ◌*◌, ◌≤◌, List, ◌++◌, length, drop, MatchResult};
ghost use Rattle.data_bytes.specs.BigEndian.{word16};
ghost use Rattle.coverage.specs.Glyphs.{GlyphList};
ghost use Rattle.coverage.specs.Meaning.{Sized, Written, written_as};
ghost use Rattle.coverage_list.specs.Format1.{pair_glyphs, array_meaning, array_bytes, array_span};
ghost use Rattle.coverage_list.specs.Arrays;
ghost use Rattle.coverage.proofs.Lists.{list_parts};
ghost use Rattle.std.proofs.Common.{rules};

use coverage::codec::CoverageCodec;
use coverage::glyphs::is_glyph_list;
use data_bytes::{put_word, word_at};
use refusals::CodecFault;

/// Coverage format 1 and nothing else.
#[derive(Clone, Copy, Default, PartialEq, Eq, Debug)]
pub struct ListCodec;

// The glyph that two bytes spell.
fn pair_glyph(pair: &[u8; 2]) -> u16
    ensures { result ≡ word16 pair.now 0 }
{
    u16::from_be_bytes(*pair)
}

// The glyphs that the bytes mean, two bytes each; everything is tested here.
fn array_pairs(bytes: &[u8]) -> Result<&[[u8; 2]], CodecFault>
    ensures { MatchResult result (λ pairs. array_meaning bytes.now ≡ Some (pair_glyphs pairs.now, 4 + 2 * length pairs.now)) (λ fault. (fault ≡ CodecFault.NoMeaning) × (array_meaning bytes.now ≡ None)) }
{
    if bytes.len() < 4 || word_at(bytes, 0) != 1 {
        return Err(CodecFault::NoMeaning);
    }
    let end = 4 + 2 * word_at(bytes, 2) as usize;
    let glyphs = bytes.get(4..end).ok_or(CodecFault::NoMeaning)?;
    let (pairs, _) = glyphs.as_chunks::<2>();
    // By `map`, so that no glyph is decoded twice.
    if pairs.is_empty() || !pairs.iter().map(pair_glyph).is_sorted_by(|a, b| a < b) {
        return Err(CodecFault::NoMeaning);
    }
    Ok(pairs)
}

/// Writes a glyph list in format 1 to the front of a slice that is long enough. For codecs that have tested both.
pub fn write_array(glyphs: &[u16], out: &mut [u8])
    requires { (length glyphs.now ≤ 65535) × (array_span glyphs.now ≤ length out.old) }
    ensures { out.new ≡ array_bytes glyphs.now ++ drop (array_span glyphs.now) out.old }
{
    put_word(out, 0, 1);
    put_word(out, 2, glyphs.len() as u16);
    // By place: nothing is said of a slice once `as_chunks_mut` of it is over.
    for (i, glyph) in glyphs.iter().enumerate() {
        put_word(out, 4 + 2 * i, *glyph);
    }
}

impl CoverageCodec for ListCodec {
    ghost admits = { λ _. GlyphList };

    ghost meaning = { λ _. array_meaning };

    ghost span = { λ _. array_span };

    ghost front = { λ c. Arrays.front };

    ghost within = { λ c. Arrays.within };

    ghost even = { λ c. Arrays.even };

    ghost short = { λ c. Arrays.short };

    ghost sound = { λ c. Arrays.sound };

    ghost listed = { Prim.search rules };

    ghost parts = { λ c. list_parts };

    ghost spans = { λ c gs h. Arrays.spans gs };

    fn count(&self, bytes: &[u8]) -> Result<usize, CodecFault> {
        Ok(array_pairs(bytes)?.len())
    }

    fn end(&self, bytes: &[u8]) -> Result<usize, CodecFault> {
        Ok(4 + 2 * array_pairs(bytes)?.len())
    }

    fn glyph(&self, bytes: &[u8], n: usize) -> Result<u16, CodecFault> {
        let pairs = array_pairs(bytes)?;
        pairs.get(n).map(pair_glyph).ok_or(CodecFault::PastEnd)
    }

    fn size(&self, glyphs: &[u16]) -> Result<usize, CodecFault> {
        if is_glyph_list(glyphs) {
            Ok(4 + 2 * glyphs.len())
        } else {
            Err(CodecFault::NotAdmitted)
        }
    }

    fn write(&self, glyphs: &[u16], out: &mut [u8]) -> Result<usize, CodecFault>
        ensures meant { Written (GlyphList glyphs.now) (array_span glyphs.now) array_meaning glyphs.now out.old out.new result }
        ensures fixed { (result, out.new) ≡ written_as glyphs.now (array_bytes glyphs.now) out.old }
    {
        let size = self.size(glyphs)?;
        if out.len() < size {
            return Err(CodecFault::NoSpace);
        }
        write_array(glyphs, out);
        Ok(size)
    }

    fn glyphs_into(&self, bytes: &[u8], out: &mut [u16]) -> Result<usize, CodecFault> {
        let pairs = array_pairs(bytes)?;
        let count = pairs.len();
        if count > out.len() {
            return Err(CodecFault::NoSpace);
        }
        // By place: after a zip with `iter_mut` a proof knows no element, and `iter_mut().enumerate()` would only index `pairs` in place of `out`.
        for (i, pair) in pairs.iter().enumerate() {
            out[i] = pair_glyph(pair);
        }
        Ok(count)
    }

    fn index_of(&self, bytes: &[u8], glyph: u16) -> Result<Option<usize>, CodecFault> {
        let pairs = array_pairs(bytes)?;
        Ok(pairs.binary_search_by_key(&glyph, pair_glyph).ok())
    }
}
