//! What holds of the rule `table`. The law is a call without a body: its caller knows the law.
ghost use Rattle.grind_truth_tables.specs.Laws.{TablesStay};

/// What the rule allows it allows where terms are appended to the others, too.
pub fn tables_stay()
    ensures { TablesStay }
{}
