// What a coverage codec is: what bytes mean to it, the laws of that, and its calls.
ghost use Rattle.std.specs.Prelude.{◌≡◌, ℕ, ◌+◌, ◌*◌, ◌%◌, ◌<◌, ◌≤◌, List, ◌++◌, length, take, Some, Option};
ghost use Rattle.coverage.specs.Glyphs.{GlyphList};
ghost use Rattle.coverage.specs.Meaning.{counted, ended, glyph_at, indexed, copied, Sized, Written};

use crate::halving::halve;
use refusals::CodecFault;

/// Reads and writes coverage tables: glyph lists as bytes.
///
/// What an implementation means by bytes is its own affair within the laws. Nothing is said of the
/// bytes that a write leaves behind the size, nor of the slice where it refuses.
pub trait CoverageCodec {
    // The glyph lists that it writes.
    ghost admits: { Self → List ℕ → Type 0 };

    // The glyphs that the front of some bytes means, and where that front ends; or nothing.
    ghost meaning: { Self → List ℕ → Option (List ℕ × ℕ) };

    // How many bytes it writes for a list.
    ghost span: { Self → List ℕ → ℕ };

    /// How many glyphs the bytes mean.
    fn count(&self, bytes: &[u8]) -> Result<usize, CodecFault>
        ensures { result ≡ counted (meaning self.now bytes.now) };

    /// Where the bytes that mean them end.
    fn end(&self, bytes: &[u8]) -> Result<usize, CodecFault>
        ensures { result ≡ ended (meaning self.now bytes.now) };

    /// The n-th glyph, from 0. Each call looks at all the bytes: see `glyphs_into` for a loop.
    fn glyph(&self, bytes: &[u8], n: usize) -> Result<u16, CodecFault>
        ensures { result ≡ glyph_at (meaning self.now bytes.now) n };

    /// How many bytes a write of these glyphs takes.
    fn size(&self, glyphs: &[u16]) -> Result<usize, CodecFault>
        ensures { Sized (admits self.now glyphs.now) (span self.now glyphs.now) result };

    /// Writes the glyphs to the front of a slice, and tells how many bytes that took.
    fn write(&self, glyphs: &[u16], out: &mut [u8]) -> Result<usize, CodecFault>
        ensures { Written (admits self.now glyphs.now) (span self.now glyphs.now) (meaning self.now) glyphs.now out.old out.new result };

    /// Copies all glyphs to the front of a slice, and tells how many they are.
    fn glyphs_into(&self, bytes: &[u8], out: &mut [u16]) -> Result<usize, CodecFault>
        ensures { (result, out.new) ≡ copied (meaning self.now bytes.now) out.old }
    {
        let count = self.count(bytes)?;
        if count > out.len() {
            return Err(CodecFault::NoSpace);
        }
        for (i, place) in out[..count].iter_mut().enumerate() {
            *place = self.glyph(bytes, i)?;
        }
        Ok(count)
    }

    /// The index of a glyph among those that the bytes mean.
    fn index_of(&self, bytes: &[u8], glyph: u16) -> Result<Option<usize>, CodecFault>
        ensures { result ≡ indexed (meaning self.now bytes.now) glyph }
    {
        let count = self.count(bytes)?;
        halve(count, |n| Ok(self.glyph(bytes, n)?.cmp(&glyph)))
    }

    // Bytes behind the end don't matter.
    ghost front: { (c : Self) (bs gs more : List ℕ) (e : ℕ) → meaning c bs ≡ Some (gs, e) → meaning c (take e bs ++ more) ≡ Some (gs, e) };

    ghost within: { (c : Self) (bs gs : List ℕ) (e : ℕ) → meaning c bs ≡ Some (gs, e) → e ≤ length bs };

    ghost even: { (c : Self) (bs gs : List ℕ) (e : ℕ) → meaning c bs ≡ Some (gs, e) → e % 2 ≡ 0 };

    ghost short: { (c : Self) (bs gs : List ℕ) (e : ℕ) → meaning c bs ≡ Some (gs, e) → e ≤ 4 + 6 * length gs };

    // What bytes mean is admitted.
    ghost sound: { (c : Self) (bs gs : List ℕ) (e : ℕ) → meaning c bs ≡ Some (gs, e) → admits c gs };

    // What is admitted rises strictly, and has 1 to 65,535 glyphs.
    ghost listed: { (c : Self) (gs : List ℕ) → admits c gs → GlyphList gs };

    // Each contiguous part of an admitted list that is not empty is admitted.
    ghost parts: { (c : Self) (xs ys zs : List ℕ) → 0 < length ys → admits c (xs ++ (ys ++ zs)) → admits c ys };

    // The size of an admitted list is, like every end, even and at most 4 + 6 × glyphs.
    ghost spans: { (c : Self) (gs : List ℕ) → admits c gs → (span c gs % 2 ≡ 0) × (span c gs ≤ 4 + 6 * length gs) };
}
