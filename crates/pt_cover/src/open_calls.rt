ghost use Rattle.std.specs.Prelude.{◌≡◌, [], IfOk};
ghost use Rattle.pt_cover.specs.Tallies.{open_more, close_last, closed_place, has_room};

use pt_base::Memory;
use std::alloc::Global;
use std::marker::Model;

/// How many calls have a span at once.
const SPANS: usize = 1000;

/// The calls that are open: the places of their names, of those with a span, the outermost first,
/// and how many are open within these.
#[derive(Debug, Drop)]
pub struct OpenCalls {
    spans: Vec<usize>,
    deeper: u64,
}

impl Model for OpenCalls {
    ghost use Rattle.std.specs.Prelude.{◌≤◌, vec_capacity};
    ghost use Rattle.pt_cover.specs.Tallies.{Open};

    ghost Value = { Open };

    ghost view = { λ o. record { spans = o.spans.items; deeper = o.deeper } };

    ghost invariant = { λ o. 1000 ≤ vec_capacity o.spans };
}

impl OpenCalls {
    /// None are open, and there is room for all that have a span.
    pub fn new(alloc: Global) -> Result<OpenCalls, Memory>
        ensures { IfOk result (λ o. o ≡ record { spans = []; deeper = 0 }) }
    {
        Ok(OpenCalls {
            spans: Vec::with_capacity(alloc, SPANS)?,
            deeper: 0,
        })
    }

    /// Whether another call has a span.
    pub fn has_room(&self) -> bool
        ensures { result ≡ has_room self.now }
    {
        self.spans.len() < SPANS
    }

    /// Opens a call of the name at this place.
    pub fn add(&mut self, place: usize)
        ensures { self.new ≡ open_more self.old place }
    {
        if self.has_room() {
            let _ = self.spans.push(place);
        } else {
            self.deeper = self.deeper.saturating_add(1);
        }
    }

    /// Closes the last call that is open, and answers the place of its name, if it had a span.
    pub fn remove(&mut self) -> Option<usize>
        ensures place { result ≡ closed_place self.old }
        ensures calls { self.new ≡ close_last self.old }
    {
        if self.deeper > 0 {
            self.deeper -= 1;
            None
        } else {
            self.spans.pop()
        }
    }
}
