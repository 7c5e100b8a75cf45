// The longest coverages, of 65,535 glyphs, in every shape, and one glyph too many.
use crate::reading::{means, means_nothing};
use crate::writing::{admits_not, is_written};
use coverage_list::ListCodec;
use coverage_opentype::opentype::OpenTypeCodec;
use std::test::Fail;

// All glyphs but one.
struct Run {
    first: u16,
    absent: u16,
    // One range.
    range: &'static [u8],
}

// Worked by hand: format 2, 1 range, first and last glyph, index 0.
const RUNS: [Run; 2] = [
    Run {
        first: 0,
        absent: 65535,
        range: &[0, 2, 0, 1, 0, 0, 0xff, 0xfe, 0, 0],
    },
    Run {
        first: 1,
        absent: 0,
        range: &[0, 2, 0, 1, 0, 1, 0xff, 0xff, 0, 0],
    },
];

// Worked by hand: 4 bytes in front, then 2 for each glyph of an array, or 6 for each range.
const ARRAY_END: usize = 131074;

const RANGES_END: usize = 393214;

// The glyph that is `index` behind the first, and 0 behind 65,535.
fn counted(first: u16, index: usize) -> u16 {
    ((first as usize + index % 65536) % 65536) as u16
}

// Fills the slice with the glyphs from `first` on.
fn count_up(glyphs: &mut [u16], first: u16) {
    for (i, glyph) in glyphs.iter_mut().enumerate() {
        *glyph = counted(first, i);
    }
}

// The value that stands at `at`, in values of 16 bits, in a format 1 table of 65,535 glyphs from `first` on.
fn array_value(at: usize, first: u16) -> u16 {
    match at {
        0 => 1,
        1 => 65535,
        _ => counted(first, at - 2),
    }
}

// The same in a format 2 table that has a range for each of these glyphs: start, end, index. Each touches the next.
fn ranges_value(at: usize, first: u16) -> u16 {
    match at {
        0 => 2,
        1 => 65535,
        _ if at % 3 == 1 => counted(0, (at - 2) / 3),
        _ => counted(first, (at - 2) / 3),
    }
}

// Fills the slice with values of 16 bits, by the place of each.
fn lay<F: Fn(usize) -> u16>(bytes: &mut [u8], value: F)
    requires { F.IsAlwaysCallable value }
{
    let (pairs, _) = bytes.as_chunks_mut::<2>();
    for (i, pair) in pairs.iter_mut().enumerate() {
        *pair = value(i).to_be_bytes();
    }
}

// A format 1 table: both codecs read it, and the list codec writes it. The slice `bytes` is as long as it.
fn in_an_array(
    run: &Run,
    glyphs: &[u16],
    bytes: &mut [u8],
    out: &mut [u16],
    written: &mut [u8],
) -> bool {
    lay(bytes, |at| array_value(at, run.first));
    means(&ListCodec, bytes, glyphs, ARRAY_END, run.absent, out)
        && means(&OpenTypeCodec, bytes, glyphs, ARRAY_END, run.absent, out)
        && is_written(&ListCodec, glyphs, bytes, written)
}

// Format 2 tables, of one range, which the OpenType codec writes, and of as many as there can be.
fn in_ranges(
    run: &Run,
    glyphs: &[u16],
    bytes: &mut [u8],
    out: &mut [u16],
    written: &mut [u8],
) -> bool {
    lay(bytes, |at| ranges_value(at, run.first));
    means(&OpenTypeCodec, bytes, glyphs, RANGES_END, run.absent, out)
        && means_nothing(&ListCodec, bytes, out)
        && means(&OpenTypeCodec, run.range, glyphs, 10, run.absent, out)
        && is_written(&OpenTypeCodec, glyphs, run.range, written)
}

// The slices are as long as a list and a table of each format, and have room for one glyph or byte more.
fn all_runs(
    glyphs: &mut [u16],
    array: &mut [u8],
    ranges: &mut [u8],
    out: &mut [u16],
    written: &mut [u8],
) -> bool {
    for run in RUNS.iter() {
        count_up(glyphs, run.first);
        if !(in_an_array(run, glyphs, array, out, written)
            && in_ranges(run, glyphs, ranges, out, written))
        {
            return false;
        }
    }
    // One glyph more: all that there are.
    count_up(out, 0);
    admits_not(&ListCodec, out, written) && admits_not(&OpenTypeCodec, out, written)
}

#[test]
fn longest_coverages(rt: HostRuntime) -> Result<(), Fail> {
    let mut glyphs = vec![in rt.alloc(); 0u16; 65535]?;
    let mut array = vec![in rt.alloc(); 0u8; ARRAY_END]?;
    let mut ranges = vec![in rt.alloc(); 0u8; RANGES_END]?;
    let mut out = vec![in rt.alloc(); 0u16; 65536]?;
    let mut written = vec![in rt.alloc(); 0u8; ARRAY_END + 1]?;
    assert!(rt;
        all_runs(
            glyphs.as_mut_slice(),
            array.as_mut_slice(),
            ranges.as_mut_slice(),
            out.as_mut_slice(),
            written.as_mut_slice(),
        )
    );
    Ok(())
}
