ghost use Rattle.std.specs.Prelude.{◌≡◌, ℕ, List, sum_by};
ghost use Rattle.pt_cover.specs.Counts.{lines_begun, own_lines};
ghost use Rattle.pt_cover.specs.Given.{first_given};
ghost use Rattle.law_reports.specs.Named.{AreNamed};
ghost use Rattle.law_reports.specs.Profiles.{ProfilesAddUp};

/// Where the blocks that begin lines have these names, the own lines of all names are all lines.
pub fn own_lines_add_up()
    ensures { (names : List (List ℕ)) (events : List (List ℕ)) → AreNamed names events
        → sum_by (λ n. own_lines n events) (first_given names) ≡ lines_begun events }
{}

/// So the total of a profile is the sum of the own lines of its rows, both up to the greatest u64.
pub fn profiles_add_up()
    ensures { ProfilesAddUp }
{}
