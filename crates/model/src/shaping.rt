// What shaping gives, and where rules stand.
ghost use Rattle.model.specs.ShapingLaws.{FirstRuleShapes, RulesStandWhereTold};

/// Shaping gives the ligature glyph and the number of glyphs of the first rule, in order, with whose glyphs the string begins; and 0, 0 where it begins with those of none. At a place inside a string it is the rest from there that is shaped.
pub fn shaping_is_by_the_first_rule()
    ensures { FirstRuleShapes }
{}

/// The answer to a rule question names a ligature that stands in the subtable with the index answered, under the rule's first glyph.
pub fn rules_stand_where_told()
    ensures { RulesStandWhereTold }
{}
