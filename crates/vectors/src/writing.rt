// Short glyph lists: what the codecs write for them, into too little room, just enough, and more.
use crate::laid::{is_laid, is_laid_in};
use coverage::codec::CoverageCodec;
use coverage_list::ListCodec;
use coverage_opentype::opentype::OpenTypeCodec;
use refusals::CodecFault;

struct Writing {
    name: &'static str,
    glyphs: &'static [u16],
    // What the list codec writes.
    array: &'static [u8],
    // What the OpenType codec writes.
    opentype: &'static [u8],
}

struct Unadmitted {
    name: &'static str,
    glyphs: &'static [u16],
}

// More room than any list here needs, and what stands in it before: no table here has this byte.
const ROOM: usize = 28;

const SPARE: u8 = 0xee;

// What the codecs write, worked by hand: the list codec format 1 always; the OpenType codec format 2 with a range for
// each unbroken run where 6 bytes a run are fewer than 2 bytes a glyph, as the name compares, and format 1 elsewhere.
const WRITTEN: [Writing; 18] = [
    Writing {
        name: "one glyph",
        glyphs: &[10],
        array: &[0, 1, 0, 1, 0, 0x0a],
        opentype: &[0, 1, 0, 1, 0, 0x0a],
    },
    Writing {
        name: "the first glyph of all",
        glyphs: &[0],
        array: &[0, 1, 0, 1, 0, 0],
        opentype: &[0, 1, 0, 1, 0, 0],
    },
    Writing {
        name: "the last glyph of all",
        glyphs: &[65535],
        array: &[0, 1, 0, 1, 0xff, 0xff],
        opentype: &[0, 1, 0, 1, 0xff, 0xff],
    },
    Writing {
        name: "two glyphs",
        glyphs: &[10, 20],
        array: &[0, 1, 0, 2, 0, 0x0a, 0, 0x14],
        opentype: &[0, 1, 0, 2, 0, 0x0a, 0, 0x14],
    },
    Writing {
        name: "first and last",
        glyphs: &[0, 65535],
        array: &[0, 1, 0, 2, 0, 0, 0xff, 0xff],
        opentype: &[0, 1, 0, 2, 0, 0, 0xff, 0xff],
    },
    Writing {
        name: "one run, 6 < 4: no",
        glyphs: &[65534, 65535],
        array: &[0, 1, 0, 2, 0xff, 0xfe, 0xff, 0xff],
        opentype: &[0, 1, 0, 2, 0xff, 0xfe, 0xff, 0xff],
    },
    Writing {
        name: "one run, 6 < 6: no",
        glyphs: &[10, 11, 12],
        array: &[0, 1, 0, 3, 0, 0x0a, 0, 0x0b, 0, 0x0c],
        opentype: &[0, 1, 0, 3, 0, 0x0a, 0, 0x0b, 0, 0x0c],
    },
    Writing {
        name: "one run, 6 < 8",
        glyphs: &[10, 11, 12, 13],
        array: &[0, 1, 0, 4, 0, 0x0a, 0, 0x0b, 0, 0x0c, 0, 0x0d],
        opentype: &[0, 2, 0, 1, 0, 0x0a, 0, 0x0d, 0, 0],
    },
    Writing {
        name: "one run to the last glyph of all, 6 < 8",
        glyphs: &[65532, 65533, 65534, 65535],
        array: &[0, 1, 0, 4, 0xff, 0xfc, 0xff, 0xfd, 0xff, 0xfe, 0xff, 0xff],
        opentype: &[0, 2, 0, 1, 0xff, 0xfc, 0xff, 0xff, 0, 0],
    },
    Writing {
        name: "one run over a high byte, 6 < 8",
        glyphs: &[254, 255, 256, 257],
        array: &[0, 1, 0, 4, 0, 0xfe, 0, 0xff, 1, 0, 1, 1],
        opentype: &[0, 2, 0, 1, 0, 0xfe, 1, 1, 0, 0],
    },
    Writing {
        name: "two runs, 12 < 10: no",
        glyphs: &[10, 11, 12, 13, 20],
        array: &[0, 1, 0, 5, 0, 0x0a, 0, 0x0b, 0, 0x0c, 0, 0x0d, 0, 0x14],
        opentype: &[0, 1, 0, 5, 0, 0x0a, 0, 0x0b, 0, 0x0c, 0, 0x0d, 0, 0x14],
    },
    Writing {
        name: "two runs, 12 < 12: no",
        glyphs: &[10, 11, 12, 20, 21, 22],
        array: &[
            0, 1, 0, 6, 0, 0x0a, 0, 0x0b, 0, 0x0c, 0, 0x14, 0, 0x15, 0, 0x16,
        ],
        opentype: &[
            0, 1, 0, 6, 0, 0x0a, 0, 0x0b, 0, 0x0c, 0, 0x14, 0, 0x15, 0, 0x16,
        ],
    },
    Writing {
        name: "two runs, 12 < 14",
        glyphs: &[10, 11, 12, 13, 20, 21, 22],
        array: &[
            0, 1, 0, 7, 0, 0x0a, 0, 0x0b, 0, 0x0c, 0, 0x0d, 0, 0x14, 0, 0x15, 0, 0x16,
        ],
        opentype: &[0, 2, 0, 2, 0, 0x0a, 0, 0x0d, 0, 0, 0, 0x14, 0, 0x16, 0, 4],
    },
    Writing {
        name: "two runs, the last of one glyph, 12 < 16",
        glyphs: &[10, 11, 12, 13, 14, 15, 16, 20],
        array: &[
            0, 1, 0, 8, 0, 0x0a, 0, 0x0b, 0, 0x0c, 0, 0x0d, 0, 0x0e, 0, 0x0f, 0, 0x10, 0, 0x14,
        ],
        opentype: &[0, 2, 0, 2, 0, 0x0a, 0, 0x10, 0, 0, 0, 0x14, 0, 0x14, 0, 7],
    },
    Writing {
        name: "three runs, 18 < 18: no",
        glyphs: &[1, 2, 3, 4, 9, 20, 21, 22, 23],
        array: &[
            0, 1, 0, 9, 0, 1, 0, 2, 0, 3, 0, 4, 0, 9, 0, 0x14, 0, 0x15, 0, 0x16, 0, 0x17,
        ],
        opentype: &[
            0, 1, 0, 9, 0, 1, 0, 2, 0, 3, 0, 4, 0, 9, 0, 0x14, 0, 0x15, 0, 0x16, 0, 0x17,
        ],
    },
    Writing {
        name: "three runs, 18 < 20",
        glyphs: &[1, 2, 3, 4, 5, 9, 20, 21, 22, 23],
        array: &[
            0, 1, 0, 0x0a, 0, 1, 0, 2, 0, 3, 0, 4, 0, 5, 0, 9, 0, 0x14, 0, 0x15, 0, 0x16, 0, 0x17,
        ],
        opentype: &[
            0, 2, 0, 3, 0, 1, 0, 5, 0, 0, 0, 9, 0, 9, 0, 5, 0, 0x14, 0, 0x17, 0, 6,
        ],
    },
    Writing {
        name: "five high base glyphs",
        glyphs: &[56, 59, 65, 66, 74],
        array: &[0, 1, 0, 5, 0, 0x38, 0, 0x3b, 0, 0x41, 0, 0x42, 0, 0x4a],
        opentype: &[0, 1, 0, 5, 0, 0x38, 0, 0x3b, 0, 0x41, 0, 0x42, 0, 0x4a],
    },
    Writing {
        name: "ten numerals",
        glyphs: &[78, 79, 80, 81, 82, 83, 84, 85, 86, 87],
        array: &[
            0, 1, 0, 0x0a, 0, 0x4e, 0, 0x4f, 0, 0x50, 0, 0x51, 0, 0x52, 0, 0x53, 0, 0x54, 0, 0x55,
            0, 0x56, 0, 0x57,
        ],
        opentype: &[0, 2, 0, 1, 0, 0x4e, 0, 0x57, 0, 0],
    },
];

// Lists that neither codec admits, made by hand: a coverage is not empty, and rises strictly.
const UNADMITTED: [Unadmitted; 9] = [
    Unadmitted {
        name: "empty",
        glyphs: &[],
    },
    Unadmitted {
        name: "a glyph twice",
        glyphs: &[10, 10],
    },
    Unadmitted {
        name: "glyph 0 twice",
        glyphs: &[0, 0],
    },
    Unadmitted {
        name: "the last glyph of all twice",
        glyphs: &[65535, 65535],
    },
    Unadmitted {
        name: "falling",
        glyphs: &[20, 10],
    },
    Unadmitted {
        name: "falling from the last glyph of all",
        glyphs: &[65535, 0],
    },
    Unadmitted {
        name: "falling at first",
        glyphs: &[20, 10, 30],
    },
    Unadmitted {
        name: "falling at last",
        glyphs: &[10, 20, 19],
    },
    Unadmitted {
        name: "the last glyph twice",
        glyphs: &[10, 11, 12, 13, 13],
    },
];

// Whether the bytes are written into so much room where they fit, and nothing is where they don't.
fn writes<C: CoverageCodec>(
    codec: &C,
    glyphs: &[u16],
    bytes: &[u8],
    out: &mut [u8],
    room: usize,
) -> bool {
    if room > out.len() {
        return false;
    }
    out.fill(SPARE);
    let answer = codec.write(glyphs, &mut out[..room]);
    is_laid_in(answer, out, bytes, SPARE, room)
}

/// Whether these bytes are written for the glyphs. The slice has room for one byte more.
pub(crate) fn is_written<C: CoverageCodec>(
    codec: &C,
    glyphs: &[u16],
    bytes: &[u8],
    out: &mut [u8],
) -> bool {
    let size = bytes.len();
    size > 0
        && size < out.len()
        && codec.size(glyphs) == Ok(size)
        && writes(codec, glyphs, bytes, out, 0)
        && writes(codec, glyphs, bytes, out, size - 1)
        && writes(codec, glyphs, bytes, out, size)
        && writes(codec, glyphs, bytes, out, size + 1)
}

/// Whether the codec refuses the glyphs, in any room, and leaves the slice.
pub(crate) fn admits_not<C: CoverageCodec>(codec: &C, glyphs: &[u16], out: &mut [u8]) -> bool {
    out.fill(SPARE);
    codec.size(glyphs) == Err(CodecFault::NotAdmitted)
        && codec.write(glyphs, &mut []) == Err(CodecFault::NotAdmitted)
        && codec.write(glyphs, out) == Err(CodecFault::NotAdmitted)
        && is_laid(out, &[], SPARE)
}

#[test]
fn lists_are_written(rt: HostRuntime) {
    for case in WRITTEN.iter() {
        let mut out = [SPARE; ROOM];
        let is_right = is_written(&ListCodec, case.glyphs, case.array, &mut out)
            && is_written(&OpenTypeCodec, case.glyphs, case.opentype, &mut out);
        assert!(rt; is_right, "{}", case.name);
    }
}

#[test]
fn other_lists_are_refused(rt: HostRuntime) {
    for case in UNADMITTED.iter() {
        let mut out = [SPARE; ROOM];
        let is_right = admits_not(&ListCodec, case.glyphs, &mut out)
            && admits_not(&OpenTypeCodec, case.glyphs, &mut out);
        assert!(rt; is_right, "{}", case.name);
    }
}
