// Short coverage tables: what the codecs read from them, whole and cut off at every length.
ghost use Rattle.coverage.specs.Glyphs.{GlyphList};
ghost use Rattle.coverage.proofs.Lists.{list_parts};
ghost use Rattle.coverage_list.specs.Format1.{array_meaning, array_span};
ghost use Rattle.coverage_list.specs.Arrays;
ghost use Rattle.std.proofs.Common.{rules};

use crate::laid::{is_laid, is_laid_in};
use coverage::codec::CoverageCodec;
use coverage_list::ListCodec;
use coverage_opentype::opentype::OpenTypeCodec;
use refusals::CodecFault;

struct Covering {
    name: &'static str,
    bytes: &'static [u8],
    glyphs: &'static [u16],
    end: usize,
    // A glyph that it does not cover.
    absent: u16,
}

struct Broken {
    name: &'static str,
    bytes: &'static [u8],
}

// More room than any table here needs, and what stands in it before: no table here covers this glyph.
const ROOM: usize = 12;

const SPARE: u16 = 0x7777;

// Format 1 tables, which both codecs read. The first is in the manner of the OpenType specification's example
// of the format, a list of high base glyphs; the others are made for the rule that their name says.
// Glyphs, end and absent glyph are worked by hand from the rules of the format.
const ARRAYS: [Covering; 9] = [
    Covering {
        name: "five high base glyphs",
        bytes: &[0, 1, 0, 5, 0, 0x38, 0, 0x3b, 0, 0x41, 0, 0x42, 0, 0x4a],
        glyphs: &[56, 59, 65, 66, 74],
        end: 14,
        absent: 57,
    },
    Covering {
        name: "one glyph",
        bytes: &[0, 1, 0, 1, 0, 0x0a],
        glyphs: &[10],
        end: 6,
        absent: 9,
    },
    Covering {
        name: "the first glyph of all",
        bytes: &[0, 1, 0, 1, 0, 0],
        glyphs: &[0],
        end: 6,
        absent: 1,
    },
    Covering {
        name: "the last glyph of all",
        bytes: &[0, 1, 0, 1, 0xff, 0xff],
        glyphs: &[65535],
        end: 6,
        absent: 65534,
    },
    Covering {
        name: "first and last",
        bytes: &[0, 1, 0, 2, 0, 0, 0xff, 0xff],
        glyphs: &[0, 65535],
        end: 8,
        absent: 1,
    },
    Covering {
        name: "the high byte counts",
        bytes: &[0, 1, 0, 3, 0, 0xff, 1, 0, 1, 1],
        glyphs: &[255, 256, 257],
        end: 10,
        absent: 1,
    },
    Covering {
        name: "three bytes behind the end",
        bytes: &[0, 1, 0, 1, 0, 0x0a, 0xff, 0xff, 0xff],
        glyphs: &[10],
        end: 6,
        absent: 65535,
    },
    Covering {
        name: "a glyph behind the end",
        bytes: &[0, 1, 0, 2, 0, 0x0a, 0, 0x14, 0, 0x1e],
        glyphs: &[10, 20],
        end: 8,
        absent: 30,
    },
    Covering {
        name: "a lower glyph behind the end",
        bytes: &[0, 1, 0, 2, 0, 0x0a, 0, 0x14, 0, 1],
        glyphs: &[10, 20],
        end: 8,
        absent: 1,
    },
];

// Format 2 tables, which the OpenType codec alone reads. The first is in the manner of the OpenType specification's
// example of the format, a range of numerals; the others are made for the rule that their name says.
// Glyphs, end and absent glyph are worked by hand from the rules of the format.
const RANGES: [Covering; 11] = [
    Covering {
        name: "ten numerals",
        bytes: &[0, 2, 0, 1, 0, 0x4e, 0, 0x57, 0, 0],
        glyphs: &[78, 79, 80, 81, 82, 83, 84, 85, 86, 87],
        end: 10,
        absent: 88,
    },
    Covering {
        name: "a range of one glyph",
        bytes: &[0, 2, 0, 1, 0, 0x0a, 0, 0x0a, 0, 0],
        glyphs: &[10],
        end: 10,
        absent: 11,
    },
    Covering {
        name: "a range of four",
        bytes: &[0, 2, 0, 1, 0, 0x0a, 0, 0x0d, 0, 0],
        glyphs: &[10, 11, 12, 13],
        end: 10,
        absent: 14,
    },
    Covering {
        name: "from the first glyph of all",
        bytes: &[0, 2, 0, 1, 0, 0, 0, 1, 0, 0],
        glyphs: &[0, 1],
        end: 10,
        absent: 2,
    },
    Covering {
        name: "to the last glyph of all",
        bytes: &[0, 2, 0, 1, 0xff, 0xfe, 0xff, 0xff, 0, 0],
        glyphs: &[65534, 65535],
        end: 10,
        absent: 65533,
    },
    Covering {
        name: "touching ranges",
        bytes: &[0, 2, 0, 2, 0, 0x0a, 0, 0x0b, 0, 0, 0, 0x0c, 0, 0x0f, 0, 2],
        glyphs: &[10, 11, 12, 13, 14, 15],
        end: 16,
        absent: 16,
    },
    Covering {
        name: "ranges apart",
        bytes: &[0, 2, 0, 2, 0, 0x0a, 0, 0x0b, 0, 0, 0, 0x14, 0, 0x15, 0, 2],
        glyphs: &[10, 11, 20, 21],
        end: 16,
        absent: 15,
    },
    Covering {
        name: "touching at the last glyph of all",
        bytes: &[
            0, 2, 0, 2, 0xff, 0xfd, 0xff, 0xfe, 0, 0, 0xff, 0xff, 0xff, 0xff, 0, 2,
        ],
        glyphs: &[65533, 65534, 65535],
        end: 16,
        absent: 65532,
    },
    Covering {
        name: "three ranges",
        bytes: &[
            0, 2, 0, 3, 0, 5, 0, 7, 0, 0, 0, 9, 0, 9, 0, 3, 1, 0, 1, 1, 0, 4,
        ],
        glyphs: &[5, 6, 7, 9, 256, 257],
        end: 22,
        absent: 8,
    },
    Covering {
        name: "a range behind the end",
        bytes: &[0, 2, 0, 1, 0, 0x0a, 0, 0x0b, 0, 0, 0, 0x0c, 0, 0x0d, 0, 2],
        glyphs: &[10, 11],
        end: 10,
        absent: 12,
    },
    Covering {
        name: "three bytes behind the end",
        bytes: &[0, 2, 0, 1, 0, 0x0a, 0, 0x0a, 0, 0, 0xff, 0xff, 0xff],
        glyphs: &[10],
        end: 10,
        absent: 65535,
    },
];

// Tables that mean nothing to either codec, each made by hand to break the one rule that its name says.
const MEANINGLESS: [Broken; 34] = [
    Broken {
        name: "no bytes",
        bytes: &[],
    },
    Broken {
        name: "format 0",
        bytes: &[0, 0, 0, 1, 0, 0x0a],
    },
    Broken {
        name: "format 3",
        bytes: &[0, 3, 0, 1, 0, 0x0a],
    },
    Broken {
        name: "format 3, with a range",
        bytes: &[0, 3, 0, 1, 0, 0x0a, 0, 0x0d, 0, 0],
    },
    Broken {
        name: "format 257",
        bytes: &[1, 1, 0, 1, 0, 0x0a],
    },
    Broken {
        name: "format 258, with a range",
        bytes: &[1, 2, 0, 1, 0, 0x0a, 0, 0x0d, 0, 0],
    },
    Broken {
        name: "low bytes first",
        bytes: &[1, 0, 1, 0, 0x0a, 0],
    },
    Broken {
        name: "format 1, no glyphs",
        bytes: &[0, 1, 0, 0],
    },
    Broken {
        name: "format 1, no glyphs and a glyph behind",
        bytes: &[0, 1, 0, 0, 0, 0x0a],
    },
    Broken {
        name: "format 2, no ranges",
        bytes: &[0, 2, 0, 0],
    },
    Broken {
        name: "format 2, no ranges and a range behind",
        bytes: &[0, 2, 0, 0, 0, 0x0a, 0, 0x0d, 0, 0],
    },
    Broken {
        name: "a glyph twice",
        bytes: &[0, 1, 0, 2, 0, 0x0a, 0, 0x0a],
    },
    Broken {
        name: "the last glyph twice",
        bytes: &[0, 1, 0, 3, 0, 0x0a, 0, 0x14, 0, 0x14],
    },
    Broken {
        name: "falling",
        bytes: &[0, 1, 0, 2, 0, 0x14, 0, 0x0a],
    },
    Broken {
        name: "falling at first",
        bytes: &[0, 1, 0, 3, 0, 0x14, 0, 0x0a, 0, 0x1e],
    },
    Broken {
        name: "falling at last",
        bytes: &[0, 1, 0, 3, 0, 0x0a, 0, 0x14, 0, 0x13],
    },
    Broken {
        name: "falling in the high byte",
        bytes: &[0, 1, 0, 2, 1, 0, 0, 0xff],
    },
    Broken {
        name: "more glyphs than bytes",
        bytes: &[0, 1, 0xff, 0xff, 0, 0x0a],
    },
    Broken {
        name: "more ranges than bytes",
        bytes: &[0, 2, 0xff, 0xff, 0, 0x0a, 0, 0x0d, 0, 0],
    },
    Broken {
        name: "a range ends before it starts",
        bytes: &[0, 2, 0, 1, 0, 0x0d, 0, 0x0a, 0, 0],
    },
    Broken {
        name: "a range ends just before it starts",
        bytes: &[0, 2, 0, 1, 0, 0x0b, 0, 0x0a, 0, 0],
    },
    Broken {
        name: "the second range ends before it starts",
        bytes: &[0, 2, 0, 2, 0, 0x0a, 0, 0x0b, 0, 0, 0, 0x15, 0, 0x14, 0, 2],
    },
    Broken {
        name: "overlapping in one glyph",
        bytes: &[0, 2, 0, 2, 0, 0x0a, 0, 0x0c, 0, 0, 0, 0x0c, 0, 0x0f, 0, 3],
    },
    Broken {
        name: "one range in the other",
        bytes: &[
            0, 2, 0, 2, 0, 0x0a, 0, 0x14, 0, 0, 0, 0x0c, 0, 0x0d, 0, 0x0b,
        ],
    },
    Broken {
        name: "a range twice",
        bytes: &[0, 2, 0, 2, 0, 0x0a, 0, 0x0b, 0, 0, 0, 0x0a, 0, 0x0b, 0, 2],
    },
    Broken {
        name: "ranges fall",
        bytes: &[0, 2, 0, 2, 0, 0x14, 0, 0x15, 0, 0, 0, 0x0a, 0, 0x0b, 0, 2],
    },
    Broken {
        name: "a range behind the last glyph of all",
        bytes: &[0, 2, 0, 2, 0xff, 0xfe, 0xff, 0xff, 0, 0, 0, 0, 0, 1, 0, 2],
    },
    Broken {
        name: "the first start index is 1",
        bytes: &[0, 2, 0, 1, 0, 0x0a, 0, 0x0d, 0, 1],
    },
    Broken {
        name: "the second start index is too high",
        bytes: &[0, 2, 0, 2, 0, 0x0a, 0, 0x0b, 0, 0, 0, 0x14, 0, 0x15, 0, 3],
    },
    Broken {
        name: "the second start index is too low",
        bytes: &[0, 2, 0, 2, 0, 0x0a, 0, 0x0b, 0, 0, 0, 0x14, 0, 0x15, 0, 1],
    },
    Broken {
        name: "the second start index is 0",
        bytes: &[0, 2, 0, 2, 0, 0x0a, 0, 0x0b, 0, 0, 0, 0x14, 0, 0x15, 0, 0],
    },
    Broken {
        name: "65,536 glyphs in one range",
        bytes: &[0, 2, 0, 1, 0, 0, 0xff, 0xff, 0, 0],
    },
    Broken {
        name: "65,536 glyphs in two ranges",
        bytes: &[
            0, 2, 0, 2, 0, 0, 0x7f, 0xff, 0, 0, 0x80, 0, 0xff, 0xff, 0x80, 0,
        ],
    },
    Broken {
        name: "65,536 glyphs, the last alone",
        bytes: &[
            0, 2, 0, 2, 0, 0, 0xff, 0xfe, 0, 0, 0xff, 0xff, 0xff, 0xff, 0xff, 0xff,
        ],
    },
];

// The list codec again, with the bodies that the trait brings for `glyphs_into` and `index_of`.
struct ByGlyph;

impl CoverageCodec for ByGlyph {
    ghost admits = { λ _. GlyphList };

    ghost meaning = { λ _. array_meaning };

    ghost span = { λ _. array_span };

    ghost front = { λ c. Arrays.front };

    ghost within = { λ c. Arrays.within };

    ghost even = { λ c. Arrays.even };

    ghost short = { λ c. Arrays.short };

    ghost sound = { λ c. Arrays.sound };

    ghost listed = { Prim.search rules };

    ghost parts = { λ c. list_parts };

    ghost spans = { λ c gs h. Arrays.spans gs };

    fn count(&self, bytes: &[u8]) -> Result<usize, CodecFault> {
        ListCodec.count(bytes)
    }

    fn end(&self, bytes: &[u8]) -> Result<usize, CodecFault> {
        ListCodec.end(bytes)
    }

    fn glyph(&self, bytes: &[u8], n: usize) -> Result<u16, CodecFault> {
        ListCodec.glyph(bytes, n)
    }

    fn size(&self, glyphs: &[u16]) -> Result<usize, CodecFault> {
        ListCodec.size(glyphs)
    }

    fn write(&self, glyphs: &[u16], out: &mut [u8]) -> Result<usize, CodecFault> {
        ListCodec.write(glyphs, out)
    }
}

/// Whether each call refuses the bytes, and none changes the slice.
pub(crate) fn means_nothing<C: CoverageCodec>(codec: &C, bytes: &[u8], out: &mut [u16]) -> bool {
    out.fill(SPARE);
    codec.count(bytes) == Err(CodecFault::NoMeaning)
        && codec.end(bytes) == Err(CodecFault::NoMeaning)
        && codec.glyph(bytes, 0) == Err(CodecFault::NoMeaning)
        && codec.index_of(bytes, 10) == Err(CodecFault::NoMeaning)
        && codec.glyphs_into(bytes, out) == Err(CodecFault::NoMeaning)
        && is_laid(out, &[], SPARE)
}

// Whether the glyphs are copied into so much room where they fit, and nothing is where they don't.
fn copies<C: CoverageCodec>(
    codec: &C,
    bytes: &[u8],
    glyphs: &[u16],
    out: &mut [u16],
    room: usize,
) -> bool {
    if room > out.len() {
        return false;
    }
    out.fill(SPARE);
    let answer = codec.glyphs_into(bytes, &mut out[..room]);
    is_laid_in(answer, out, glyphs, SPARE, room)
}

// Whether the n-th glyph is at n, and the other way about.
fn has_glyph<C: CoverageCodec>(codec: &C, bytes: &[u8], n: usize, glyph: u16) -> bool {
    codec.glyph(bytes, n) == Ok(glyph) && codec.index_of(bytes, glyph) == Ok(Some(n))
}

// Whether it is the end, and no glyph is behind the last.
fn ends<C: CoverageCodec>(codec: &C, bytes: &[u8], count: usize, end: usize) -> bool {
    codec.count(bytes) == Ok(count)
        && codec.end(bytes) == Ok(end)
        && codec.glyph(bytes, count) == Err(CodecFault::PastEnd)
        && codec.glyph(bytes, usize::MAX) == Err(CodecFault::PastEnd)
}

/// Whether the bytes mean these glyphs and not the absent one, by every call. The slice has room for one glyph more.
/// Of long lists not every glyph is asked for, but the first and the last are.
pub(crate) fn means<C: CoverageCodec>(
    codec: &C,
    bytes: &[u8],
    glyphs: &[u16],
    end: usize,
    absent: u16,
    out: &mut [u16],
) -> bool {
    let count = glyphs.len();
    for (n, glyph) in glyphs.iter().enumerate() {
        let is_asked = n < 64 || n % 4096 == 0 || count - n < 3;
        if is_asked && !has_glyph(codec, bytes, n, *glyph) {
            return false;
        }
    }
    count > 0
        && count < out.len()
        && ends(codec, bytes, count, end)
        && codec.index_of(bytes, absent) == Ok(None)
        && copies(codec, bytes, glyphs, out, count - 1)
        && copies(codec, bytes, glyphs, out, count)
        && copies(codec, bytes, glyphs, out, count + 1)
}

// Cut off before its end a table means nothing; bytes behind its end do not matter.
fn reads<C: CoverageCodec>(codec: &C, case: &Covering, out: &mut [u16]) -> bool {
    // Not `all`, as below: of a closure with two calls that write `out` the check finds no proof.
    for n in 0..=case.bytes.len() {
        let front = &case.bytes[..n];
        let is_read = if n < case.end {
            means_nothing(codec, front, out)
        } else {
            means(codec, front, case.glyphs, case.end, case.absent, out)
        };
        if !is_read {
            return false;
        }
    }
    true
}

// Nor does any front of bytes that mean nothing mean something.
fn reads_nothing<C: CoverageCodec>(codec: &C, bytes: &[u8], out: &mut [u16]) -> bool {
    (0..=bytes.len()).all(|n| means_nothing(codec, &bytes[..n], out))
}

#[test]
fn arrays_are_read(rt: HostRuntime) {
    for case in ARRAYS.iter() {
        let mut out = [SPARE; ROOM];
        let is_right = reads(&ListCodec, case, &mut out)
            && reads(&ByGlyph, case, &mut out)
            && reads(&OpenTypeCodec, case, &mut out);
        assert!(rt; is_right, "{}", case.name);
    }
}

#[test]
fn ranges_are_read(rt: HostRuntime) {
    for case in RANGES.iter() {
        let mut out = [SPARE; ROOM];
        let is_right = reads_nothing(&ListCodec, case.bytes, &mut out)
            && reads(&OpenTypeCodec, case, &mut out);
        assert!(rt; is_right, "{}", case.name);
    }
}

#[test]
fn broken_tables_mean_nothing(rt: HostRuntime) {
    for case in MEANINGLESS.iter() {
        let mut out = [SPARE; ROOM];
        let is_right = reads_nothing(&ListCodec, case.bytes, &mut out)
            && reads_nothing(&OpenTypeCodec, case.bytes, &mut out);
        assert!(rt; is_right, "{}", case.name);
    }
}
