// The law on models: no glyph string is shaped otherwise after any line of calls than the rule book says.
ghost use Rattle.model.specs.Splitting.{Capacities};
ghost use Rattle.model.specs.Sound.{Lawful};
ghost use Rattle.model.specs.Law.{EveryAnswerAgrees, EveryLineBehindALoadAgrees, CallsKeepModelsWellFormed};

use coverage::codec::CoverageCodec;

/// What every codec keeps, as one fact about what it admits, means and tells as sizes.
pub(crate) fn codecs_are_lawful<C: CoverageCodec>(codec: &C)
    ensures { Lawful (C.CoverageCodec.admits codec.now) (C.CoverageCodec.meaning codec.now) (C.CoverageCodec.span codec.now) }
{}

/// Behind every accepted load, and from every well-formed model, whatever the capacities, for every line of calls of any
/// length, refused ones included, and whatever a lawful codec writes in it: shaping answers what the rule book does; rule
/// questions are answered exactly where the book has the rule, with its glyphs, the first one answered and those in the
/// bytes of the vertex answered; reading what an accepted write of the line put out answers as the book did at that
/// write; no subtable is larger than its lookup's ceiling in the book; and writing a lookup with a ceiling and type 7 in
/// the book is never refused for an offset. That the calls accept and refuse as they should is in the machine's answers.
pub fn every_answer_agrees_with_the_book<C: CoverageCodec>(codec: &C)
    ensures loads { (caps : Capacities) → EveryLineBehindALoadAgrees caps (C.CoverageCodec.meaning codec.now) (C.CoverageCodec.span codec.now) }
    ensures models { (caps : Capacities) → EveryAnswerAgrees caps (C.CoverageCodec.meaning codec.now) (C.CoverageCodec.span codec.now) }
{
    codecs_are_lawful(codec);
}

/// Every call, accepted or refused, leaves a well-formed model well-formed.
pub fn calls_keep_models_well_formed<C: CoverageCodec>(codec: &C)
    ensures { (caps : Capacities) → CallsKeepModelsWellFormed caps (C.CoverageCodec.meaning codec.now) (C.CoverageCodec.span codec.now) }
{
    codecs_are_lawful(codec);
}
