// The text of a coverage table: what it covers, and how the codecs write that.
//
// It is for a tool, so it allocates; the codecs that it calls work in lent memory.
#![tactic(auto)]

ghost use Rattle.std.specs.Prelude.{◌≡◌, ℕ, ◌*◌, ◌<◌, ◌≤◌, ◌⊎◌, List, length, IfOk, Some, Ok, string_bytes};
ghost use Rattle.data_bytes.specs.BigEndian.{word16};
ghost use Rattle.coverage.specs.Meaning.{glyphs_meant, counted, written_as};
ghost use Rattle.coverage_list.specs.Arrays.{length-array_bytes};
ghost use Rattle.coverage_list.specs.Format1.{array_meaning, array_bytes};
ghost use Rattle.coverage_opentype.specs.Choosing.{length-open_type_bytes};
ghost use Rattle.coverage_opentype.specs.OpenType.{open_type_meaning, open_type_bytes};
ghost use Rattle.cover_text.specs.Text.{fault_words_of, runs_text, hex_digit_of, hex_text, reading, reading_text_of, lines_of, coverage_text_of};

use coverage::codec::CoverageCodec;
use coverage_list::ListCodec;
use coverage_opentype::opentype::OpenTypeCodec;
use coverage_opentype::ranges::follows;
use data_bytes::word_at;
use refusals::CodecFault;
use std::alloc::{AllocError, Global};
use std::{fmt, str};

/// A codec's fault in words.
pub fn fault_words(fault: CodecFault) -> &'static str
    ensures { result.now ≡ fault_words_of fault }
{
    fault.words()
}

// The unbroken runs of a list, each behind a space: `12-15`, or `10` if it is one.
// Not a `Display`: in a `fmt`, which is generic, a loop over `chunk_by` gets no proof.
fn runs(heap: Global, glyphs: &[u16]) -> Result<String, AllocError>
    ensures { IfOk result (λ t. string_bytes t ≡ runs_text glyphs.now) }
{
    let mut text = String::new(heap);
    for run in glyphs.chunk_by(follows) {
        match run {
            [glyph] => write!(text, " {glyph}")?,
            [start, .., last] => write!(text, " {start}-{last}")?,
            [] => (),
        }
    }
    Ok(text)
}

// A digit of base 16, in lower case.
fn hex_digit(digit: u8) -> u8
    requires { digit < 16 }
    ensures value { result ≡ hex_digit_of digit }
    ensures ascii { result < 128 }
{
    if digit < 10 {
        b'0' + digit
    } else {
        b'a' - 10 + digit
    }
}

// Bytes in hex, written into a buffer.
fn hex_piece<'a>(bytes: &[u8], buffer: &'a mut [u8]) -> &'a str
    requires { 2 * length bytes.now ≤ length buffer.old }
    ensures { result.now ≡ hex_text bytes.now }
{
    for (i, &byte) in bytes.iter().enumerate() {
        buffer[2 * i] = hex_digit(byte / 16);
        buffer[2 * i + 1] = hex_digit(byte % 16);
    }
    str::from_utf8(&buffer[..2 * bytes.len()]).unwrap()
}

// Bytes in hex, two digits each. Only printed, so it needs no equality.
#[derive(Clone, Copy)]
struct Hex<'a>(&'a [u8]);

impl fmt::Display for Hex<'_> {
    ghost output = { λ h. Some (hex_text h.0.now) };

    fn fmt<W: fmt::Write>(&self, f: &mut fmt::Formatter<W>) -> fmt::Result {
        // A call of the writer costs more than a byte's digits, so it gets many at a time.
        let mut buffer = [0u8; 64];
        for bytes in self.0.chunks(buffer.len() / 2) {
            f.write_str(hex_piece(bytes, &mut buffer))?;
        }
        Ok(())
    }
}

// What the list codec reads: how many glyphs and where they end, or why nothing. Only printed, too.
#[derive(Clone, Copy)]
struct ListReading<'a>(&'a [u8]);

impl fmt::Display for ListReading<'_> {
    ghost output = { λ r. Some (reading_text_of (reading (array_meaning r.0.now))) };

    fn fmt<W: fmt::Write>(&self, f: &mut fmt::Formatter<W>) -> fmt::Result {
        match ListCodec.count(self.0) {
            Ok(count) => {
                let end = ListCodec.end(self.0).unwrap();
                write!(f, "{count} glyphs, {end} bytes")
            }
            Err(fault) => f.write_str(fault_words(fault)),
        }
    }
}

// A codec of which it is known what it writes; `CoverageCodec` leaves that open.
trait FixedCodec: CoverageCodec {
    // The bytes that it writes for a list.
    ghost bytes: { List ℕ → List ℕ };

    // `write`, with its bytes stated.
    fn write_fixed(&self, glyphs: &[u16], out: &mut [u8]) -> Result<usize, CodecFault>
        ensures { (result, out.new) ≡ written_as glyphs.now (bytes glyphs.now) out.old };

    // They are as many as the size that it tells.
    ghost spans_bytes: { (c : Self) (gs : List ℕ) → length (bytes gs) ≡ Self.span c gs };
}

impl FixedCodec for OpenTypeCodec {
    ghost bytes = { open_type_bytes };

    ghost spans_bytes = { λ c. length-open_type_bytes };

    fn write_fixed(&self, glyphs: &[u16], out: &mut [u8]) -> Result<usize, CodecFault> {
        self.write(glyphs, out)
    }
}

impl FixedCodec for ListCodec {
    ghost bytes = { array_bytes };

    ghost spans_bytes = { λ c. length-array_bytes };

    fn write_fixed(&self, glyphs: &[u16], out: &mut [u8]) -> Result<usize, CodecFault> {
        self.write(glyphs, out)
    }
}

// The bytes that a codec writes for a list. It refuses no list that it admits, nor a slice of the size it told.
fn table<C: FixedCodec>(heap: Global, codec: &C, glyphs: &[u16]) -> Result<Vec<u8>, AllocError>
    requires { C.admits codec.now glyphs.now }
    ensures { IfOk result (λ v. v.items ≡ C.bytes glyphs.now) }
{
    let size = codec.size(glyphs).unwrap();
    let mut out = vec![in heap; 0u8; size]?;
    codec.write_fixed(glyphs, &mut out).unwrap();
    Ok(out)
}

// All glyphs that the bytes mean. Their number is known already from the codec, so they are not counted twice.
fn glyphs_of(heap: Global, bytes: &[u8], count: usize) -> Result<Vec<u16>, AllocError>
    requires { Ok count ≡ counted (open_type_meaning bytes.now) }
    ensures { IfOk result (λ v. v.items ≡ glyphs_meant (open_type_meaning bytes.now)) }
{
    let mut glyphs = vec![in heap; 0u16; count]?;
    OpenTypeCodec.glyphs_into(bytes, &mut glyphs).unwrap();
    Ok(glyphs)
}

// The lines on bytes that mean these glyphs.
#[tactic(auto, using(crate::proofs::Meant::long, coverage_opentype::specs::Choosing::sound))]
fn lines(heap: Global, bytes: &[u8], glyphs: &[u16], end: usize) -> Result<String, AllocError>
    requires { open_type_meaning bytes.now ≡ Some (glyphs.now, end) }
    ensures { IfOk result (λ t. string_bytes t ≡ lines_of bytes.now (Some (glyphs.now, end))) }
{
    let format = word_at(bytes, 0);
    let len = bytes.len();
    let mut text = String::new(heap);
    writeln!(text, "format {format}, {end} of {len} bytes")?;
    writeln!(text, "glyphs{}", runs(heap, glyphs)?)?;
    writeln!(text, "list codec: {}", ListReading(bytes))?;
    let opentype = table(heap, &OpenTypeCodec, glyphs)?;
    writeln!(text, "OpenType codec writes {}", Hex(&opentype))?;
    let list = table(heap, &ListCodec, glyphs)?;
    writeln!(text, "list codec writes {}", Hex(&list))?;
    Ok(text)
}

/// What a coverage table covers and how it is written, in five lines; or, in one line, why it covers nothing.
#[tactic(auto, using(crate::proofs::Meant::meant, coverage::proofs::Answering::counted_fault), unfolding(crate::specs::Text::coverage_text_of, crate::specs::Text::fault_line_of))]
pub fn coverage_text(heap: Global, bytes: &[u8]) -> Result<String, AllocError>
    ensures { IfOk result (λ t. string_bytes t ≡ coverage_text_of bytes.now) }
{
    match OpenTypeCodec.count(bytes) {
        Ok(count) => {
            let end = OpenTypeCodec.end(bytes).unwrap();
            let glyphs = glyphs_of(heap, bytes, count)?;
            lines(heap, bytes, &glyphs, end)
        }
        Err(fault) => format!(in heap; "no coverage: {}\n", fault_words(fault)),
    }
}

/// A theorem: bytes that mean something begin with the value 1 or 2, so that is the format told.
#[tactic(auto, using(crate::proofs::Meant::known_format))]
pub fn formats_known()
    ensures { (bs gs : List ℕ) (e : ℕ) → open_type_meaning bs ≡ Some (gs, e) → (word16 bs 0 ≡ 1) ⊎ (word16 bs 0 ≡ 2) }
{}
