// Coverage tables: what a codec for them is, and glyph lists.
#![tactic(auto)]

pub mod codec;
pub mod glyphs;
pub mod halving;
