//! What holds of every object that has the call frame information of rows.

ghost use Rattle.eh_frame.specs.Laws.{NoRuleBehind, RowsAreReadBack, RuleIsOfLastRow};

/// At every place of a section of an object with the call frame information of some rows, the rule is that of the last row at or
/// below it in its section.
pub fn rule_is_of_last_row()
    ensures { RuleIsOfLastRow }
{}

/// From a section's size on there is no rule.
pub fn no_rule_behind()
    ensures { NoRuleBehind }
{}

/// What `decode` reads of such an object is exactly the rules of the rows.
pub fn rows_are_read_back()
    ensures { RowsAreReadBack }
{}
