ghost use Rattle.std.specs.Prelude.{◌≡◌};
ghost use Rattle.pt_cover.specs.Tallies.{one_call_more, one_line_more, one_own_more};
ghost use Rattle.pt_cover.specs.Tallies.{one_span_less, one_within_more};

use pt_base::{Line, Text};

/// How often a line was begun.
#[derive(Clone, Copy, Debug, PartialEq, Eq)]
pub struct LineCount {
    pub line: Line,
    pub count: u64,
}

/// What is counted of a name.
#[derive(Debug, Drop)]
pub struct NameCount {
    pub name: Text,
    /// Its calls.
    pub calls: u64,
    /// The lines that blocks of this name began.
    pub own: u64,
    /// The lines that were begun within a span of it.
    pub all: u64,
    /// Its spans that are open.
    pub spans: u64,
}

/// The line was begun once more.
pub fn begun_again(row: LineCount) -> LineCount
    ensures { result ≡ one_line_more row }
{
    LineCount {
        line: row.line,
        count: row.count.saturating_add(1),
    }
}

/// Counts a call of the name.
pub fn add_call(row: &mut NameCount, has_span: bool)
    ensures { row.new ≡ one_call_more has_span row.old }
{
    row.calls = row.calls.saturating_add(1);
    if has_span {
        row.spans = row.spans.saturating_add(1);
    }
}

/// Counts a line of a block of the name.
pub fn add_own(row: &mut NameCount)
    ensures { row.new ≡ one_own_more row.old }
{
    row.own = row.own.saturating_add(1);
}

/// Counts a line, where a span of the name is open.
pub fn add_within(row: &mut NameCount)
    ensures { row.new ≡ one_within_more row.old }
{
    if row.spans > 0 {
        row.all = row.all.saturating_add(1);
    }
}

/// Closes a span of the name.
pub fn remove_span(row: &mut NameCount)
    ensures { row.new ≡ one_span_less row.old }
{
    row.spans = row.spans.saturating_sub(1);
}
