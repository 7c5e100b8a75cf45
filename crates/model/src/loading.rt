// Theorems about load's outcome.
ghost use Rattle.model.specs.LoadingLaws.{ModelsLoad, OutcomesStand, OutcomesUnique, ReadingsLoad, SmallRefused};

use crate::law::codecs_are_lawful;
use coverage::codec::CoverageCodec;

/// Every well-formed model that has room is loaded from the words of its tables, with as many bytes taken as these have.
pub fn well_formed_models_load<C: CoverageCodec>(codec: &C)
    ensures { ModelsLoad (C.CoverageCodec.meaning codec.now) }
{
    codecs_are_lawful(codec);
}

/// Every list of words has an outcome.
pub fn outcomes_stand<C: CoverageCodec>(codec: &C)
    ensures { OutcomesStand (C.CoverageCodec.meaning codec.now) }
{}

/// A list of words has at most one outcome: one refusal, or one model.
pub fn outcomes_are_unique<C: CoverageCodec>(codec: &C)
    ensures { OutcomesUnique (C.CoverageCodec.meaning codec.now) }
{
    codecs_are_lawful(codec);
}

/// Good lookups at the roots, all of whose tables are the stream's, are the model that the stream says, room apart, if no root is entered and no vertex is entered twice, named twice or reached from no root.
pub fn readings_load<C: CoverageCodec>(codec: &C)
    ensures { ReadingsLoad (C.CoverageCodec.meaning codec.now) }
{}

/// An empty table is refused: as a root for its shape, else as reached from no root; and one with a link to nowhere for that.
pub fn small_streams_are_refused<C: CoverageCodec>(codec: &C)
    ensures { SmallRefused (C.CoverageCodec.meaning codec.now) }
{}
