//! The law of profiles, the contract of a function that does nothing.

ghost use Rattle.law_program.specs.reports.Laws.{OwnLinesAddUp};

/// For a supported script over a prelude the lines of each name of its profile add up to the total,
/// both up to the greatest u64.
pub fn own_lines_of_a_profile_add_up()
    ensures { OwnLinesAddUp }
{}
