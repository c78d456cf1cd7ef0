ghost use Rattle.std.specs.Prelude.{◌≡◌, false, OnOk};
ghost use Rattle.pt_block_shapes.specs.outliner.Outline.{a_block, a_comprehension, behind, listed, numbered};

use crate::outliner::outliner::Outliner;
use pt_base::{Memory, Shared, Text};

/// What is evaluated for each item of a comprehension: its first target is bound, and the clauses behind
/// follow.
#[derive(Drop)]
pub struct Turn {
    pub target: Outliner,
    pub clauses: Outliner,
}

impl Turn {
    /// A comprehension, of which the first iterable and what it makes stand aside.
    pub fn comprehension(
        self,
        o: &mut Outliner,
        evaluated: bool,
        iterable: Outliner,
        made: Outliner,
    ) -> Result<(), Memory>
        ensures { OnOk result (o.new ≡ numbered (listed (listed (listed (listed
            (behind o.old (a_comprehension evaluated iterable.act)) made) self.target) iterable)
            self.clauses) made.act) }
    {
        o.open_comprehension(evaluated, iterable.act())?;
        let end = made.act();
        self.list(o, iterable, made)?;
        o.number_from(end);
        Ok(())
    }

    /// A generator expression, of which the first iterable and what it makes stand aside.
    pub fn generator(
        self,
        o: &mut Outliner,
        class: &Shared<Text>,
        iterable: Outliner,
        made: Outliner,
    ) -> Result<(), Memory>
        ensures { OnOk result (o.new ≡ numbered (listed (listed (listed (listed
            (behind o.old (a_block (record { class = class.now; is_function = false }))) made)
            self.target) iterable) self.clauses) iterable.act) }
    {
        o.open_block(class, false)?;
        let end = iterable.act();
        self.list(o, iterable, made)?;
        o.number_from(end);
        Ok(())
    }

    /// The parts in the order in which they stand.
    fn list(self, o: &mut Outliner, iterable: Outliner, made: Outliner) -> Result<(), Memory>
        ensures { OnOk result (o.new ≡ listed (listed (listed (listed o.old made) self.target)
            iterable) self.clauses) }
    {
        let Turn { target, clauses } = self;
        o.list(made)?;
        o.list(target)?;
        o.list(iterable)?;
        o.list(clauses)
    }
}
