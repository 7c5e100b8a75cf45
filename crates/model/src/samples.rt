// Worked cases, computed through the definitions.
ghost use Rattle.std.specs.Prelude.{Ok};
ghost use Rattle.words.specs.Grammar.{spelled};
ghost use Rattle.words.specs.Samples.{sample_words};
ghost use Rattle.coverage_list.specs.Format1.{array_meaning, array_span, array_bytes};
ghost use Rattle.coverage_opentype.specs.OpenType.{open_type_meaning, open_type_span, open_type_bytes};
ghost use Rattle.model.specs.Law.{WritesAlong};
ghost use Rattle.model.specs.Samples.{Worked, model_s, ample, wrote_s, line_s, desk_s};
ghost use Rattle.model.specs.Sound.{Good};
ghost use Rattle.model.specs.SecondSample.{model_t, WorkedT, open_type_before, list_before};
ghost use Rattle.model.specs.Loading.{stream_of, tidy, Loads};

use crate::loading::well_formed_models_load;
use coverage_list::ListCodec;
use coverage_opentype::opentype::OpenTypeCodec;

/// The worked cases on sample S: cuts, sizes, bills and refusals at five ceilings, two shaping answers, and a set of three at 18.
#[tactic(auto, unfolding(crate::specs::Cutting::run_size))]
pub fn sample_s_stands()
    ensures { Worked }
{}

/// The second worked case under both codecs: two lookups, extension tables, a mark filtering set, a set cut twice.
#[tactic(auto, unfolding(crate::specs::Cutting::run_size, crate::specs::Writing::written, coverage::specs::Glyphs::is_glyph_list_of, coverage_list::specs::Format1::is_array, coverage_list::specs::Format1::array_meaning, coverage_opentype::specs::Format2::in_order, coverage_opentype::specs::Format2::is_ranges, coverage_opentype::specs::Format2::range_meaning, coverage_opentype::specs::OpenType::open_type_meaning))]
pub fn second_sample_stands()
    ensures open_type { WorkedT open_type_bytes open_type_meaning open_type_before }
    ensures list { WorkedT array_bytes array_meaning list_before }
{}

/// The worked cases meet the premises of the theorems: their models are well-formed under both codecs, and what the
/// codecs write is lawful along a line of calls that has refused and accepted splits.
pub fn samples_meet_the_premises()
    ensures open_type { Good open_type_meaning model_s × Good open_type_meaning (model_t open_type_bytes) }
    ensures list { Good array_meaning model_s × Good array_meaning (model_t array_bytes) }
    ensures open_type_line { WritesAlong ample open_type_meaning open_type_span (wrote_s open_type_bytes) 0 desk_s line_s }
    ensures list_line { WritesAlong ample array_meaning array_span (wrote_s array_bytes) 0 desk_s line_s }
{}

/// Both models load from their words, under both codecs, with as many bytes taken as their tables have.
pub fn samples_load()
    ensures open_type { Loads open_type_meaning ample sample_words (Ok model_s) × Loads open_type_meaning ample (spelled (stream_of (model_t open_type_bytes))) (Ok (tidy (model_t open_type_bytes))) }
    ensures list { Loads array_meaning ample sample_words (Ok model_s) × Loads array_meaning ample (spelled (stream_of (model_t array_bytes))) (Ok (tidy (model_t array_bytes))) }
{
    well_formed_models_load(&OpenTypeCodec);
    well_formed_models_load(&ListCodec);
}
