ghost use Rattle.std.specs.Prelude.{◌≡◌};
ghost use Rattle.pt_refine_expr.specs.Targets.{alone as alone_at, behind_item, opened as opened_at};
ghost use Rattle.pt_wide.specs.Fold.{exp_of};

use pt_wide::{WideExpr, WideNode};

/// Where stars may stand in a target's place (Language Reference 7.2).
#[derive(Clone, Copy, Debug, PartialEq, Eq)]
pub enum Stars {
    /// Neither here nor in what stands here.
    Never,
    /// In a tuple or list that stands here, and not here.
    Inside,
    /// Here too.
    Here,
}

impl Stars {
    /// In what stands at this place alone: behind a star, in parentheses.
    pub fn alone(self) -> Stars
        ensures { result ≡ alone_at self }
    {
        match self {
            Stars::Never => Stars::Never,
            Stars::Inside => Stars::Inside,
            Stars::Here => Stars::Inside,
        }
    }

    /// Among the items of a tuple or list that stands at this place.
    pub fn opened(self) -> Stars
        ensures { result ≡ opened_at self }
    {
        match self {
            Stars::Never => Stars::Never,
            Stars::Inside => Stars::Here,
            Stars::Here => Stars::Here,
        }
    }

    /// Behind an item of a list of targets, which has one star at most.
    pub fn behind(self, item: &WideExpr) -> Stars
        ensures { result ≡ behind_item self (exp_of item.now) }
    {
        match item.node {
            WideNode::Starred(_) => self.alone(),
            _ => self,
        }
    }
}
