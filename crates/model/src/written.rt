// The laws of written lookups, each on the contract of a function that does nothing.
ghost use Rattle.std.specs.Prelude.{◌^◌};
ghost use Rattle.model.specs.WrittenLaws.{ReadingGivesWhatWasWritten, ReadingGivesWhatTheModelShapes, WrittenBelow, NoOffsetOverflows, WritingAsksForRoom, SampleWritten, sample_bytes};

use crate::law::codecs_are_lawful;
use coverage::codec::CoverageCodec;

/// What a write of a well-formed lookup puts out is bytes, as many as told and fewer than 2 to the 32, and reading them gives
/// its rules: for every string and place they shape as the lookup does, and are never refused as unreadable. So it is of the
/// lookups of a well-formed model: an accepted write stays within the buffer, and its bytes shape as the model did.
pub fn reading_gives_what_was_written<C: CoverageCodec>(codec: &C)
    ensures lookups { ReadingGivesWhatWasWritten (C.CoverageCodec.meaning codec.now) }
    ensures short { WrittenBelow (C.CoverageCodec.meaning codec.now) (2 ^ 32) }
    ensures models { ReadingGivesWhatTheModelShapes (C.CoverageCodec.meaning codec.now) }
{
    codecs_are_lawful(codec);
}

/// In a well-formed lookup of type 7 none of whose subtables is larger than 65,535 bytes, its coverage apart, no two-byte
/// offset overflows. So a write of it is refused for want of room or not at all.
pub fn no_offset_overflows_behind_extension_tables<C: CoverageCodec>(codec: &C)
    ensures lookups { NoOffsetOverflows (C.CoverageCodec.meaning codec.now) 65535 }
    ensures models { WritingAsksForRoom (C.CoverageCodec.meaning codec.now) 65535 }
{}

/// A small lookup, well-formed under the list codec, and its bytes.
pub fn a_small_lookup_as_written()
    ensures { SampleWritten (sample_bytes 38) }
{}
