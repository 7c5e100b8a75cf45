// What the text of a coverage table says, or that there is none, and a codec's faults in words. Worked by hand from docs/COVDUMP.md.
use cover_text::coverage_text;
use refusals::CodecFault;
use std::test::Fail;

struct Told {
    bytes: &'static [u8],
    text: &'static str,
}

const TOLD: [Told; 6] = [
    // two glyphs apart
    Told {
        bytes: &[0, 1, 0, 2, 0, 10, 0, 20],
        text: "format 1, 8 of 8 bytes\nglyphs 10 20\nlist codec: 2 glyphs, 8 bytes\nOpenType codec writes 00010002000a0014\nlist codec writes 00010002000a0014\n",
    },
    // a run as a list, and two bytes behind it
    Told {
        bytes: &[0, 1, 0, 3, 0, 3, 0, 4, 0, 5, 255, 255],
        text: "format 1, 10 of 12 bytes\nglyphs 3-5\nlist codec: 3 glyphs, 10 bytes\nOpenType codec writes 00010003000300040005\nlist codec writes 00010003000300040005\n",
    },
    // a range
    Told {
        bytes: &[0, 2, 0, 1, 0, 3, 0, 6, 0, 0],
        text: "format 2, 10 of 10 bytes\nglyphs 3-6\nlist codec: the bytes mean no glyph list\nOpenType codec writes 00020001000300060000\nlist codec writes 000100040003000400050006\n",
    },
    // the last glyph, alone
    Told {
        bytes: &[0, 1, 0, 1, 255, 255],
        text: "format 1, 6 of 6 bytes\nglyphs 65535\nlist codec: 1 glyphs, 6 bytes\nOpenType codec writes 00010001ffff\nlist codec writes 00010001ffff\n",
    },
    // no bytes, and a format that is none
    Told {
        bytes: &[],
        text: "no coverage: the bytes mean no glyph list\n",
    },
    Told {
        bytes: &[0, 3, 0, 1, 0, 7],
        text: "no coverage: the bytes mean no glyph list\n",
    },
];

#[test]
fn tables_are_told(rt: HostRuntime) -> Result<(), Fail> {
    for case in &TOLD {
        let text = coverage_text(rt.alloc(), case.bytes)?;
        assert_eq!(rt; text.as_str(), case.text);
    }
    Ok(())
}

const WORDS: [(CodecFault, &str); 4] = [
    (CodecFault::NoMeaning, "the bytes mean no glyph list"),
    (CodecFault::PastEnd, "there is no glyph at that index"),
    (CodecFault::NotAdmitted, "the codec does not admit the list"),
    (CodecFault::NoSpace, "the slice is too short"),
];

#[test]
fn faults_are_told(rt: HostRuntime) -> Result<(), Fail> {
    for (fault, words) in &WORDS {
        let text = fault.to_string(rt.alloc())?;
        assert_eq!(rt; text.as_str(), *words);
    }
    Ok(())
}
