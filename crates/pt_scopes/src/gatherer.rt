ghost use Rattle.std.specs.Prelude.{◌≡◌, [], length, IfOk, OnOk};
ghost use Rattle.pt_scopes.specs.declared.region.Kind.TheVariants.{Function, Class};
ghost use Rattle.pt_scopes.specs.Behind.{behind};
ghost use Rattle.pt_scopes.specs.Places.{mention, misplaced, block, comprehension, function_context, generator_context, class_context, comprehension_context, only_module};
ghost use Rattle.pt_scopes.specs.Mentions.{tells, gives, turns};

use crate::names;
use crate::region::{Context, Kind, Mention, Region, Role};
use pt_base::{Line, Memory, Seq, Text};
use std::alloc::Global;
use std::marker::Model;

/// The regions and mentions that have been met.
#[derive(Debug, Drop)]
pub struct Gatherer {
    alloc: Global,
    regions: Seq<Region>,
    blocks: Seq<usize>,
    mentions: Seq<Mention>,
}

impl Model for Gatherer {
    ghost use Rattle.pt_scopes.specs.Places.{Places};

    ghost Value = { Places };

    ghost view = { λ g. record { regions = g.regions; blocks = g.blocks; mentions = g.mentions } };
}

impl Gatherer {
    /// The module, of which nothing has been met.
    pub fn new(alloc: Global) -> Result<Gatherer, Memory>
        ensures { IfOk result (λ g. g ≡ only_module) }
    {
        let mut regions = Seq::new(alloc);
        regions.push(Region {
            kind: Kind::Module,
            around: 0,
            home: 0,
        })?;
        let mut blocks = Seq::new(alloc);
        blocks.push(0)?;
        Ok(Gatherer {
            alloc,
            regions,
            blocks,
            mentions: Seq::new(alloc),
        })
    }

    #[tactic(auto, using(crate::proofs::Behind::steps))]
    fn mention(&mut self, role: Role, at: Context, name: Text, line: Line) -> Result<(), Memory>
        ensures { OnOk result (self.new ≡ behind self.old (mention role at name line.0)) }
    {
        self.mentions.push(Mention {
            role,
            region: at.region,
            name,
            line,
        })
    }

    /// A name in the body of a class.
    pub fn tell(
        &mut self,
        role: Role,
        at: Context,
        class: &str,
        name: &str,
        line: Line,
    ) -> Result<(), Memory>
        ensures { OnOk result
            (self.new ≡ behind self.old (tells role at class.now name.now line.0)) }
    {
        let name = names::read_in(self.alloc, class, name)?;
        self.mention(role, at, name, line)
    }

    fn misplace(&mut self, at: Context, line: Line) -> Result<(), Memory>
        ensures { OnOk result (self.new ≡ behind self.old (misplaced at line.0)) }
    {
        self.mention(Role::Misplaced, at, Text::new(self.alloc), line)
    }

    /// A `return` or `yield`.
    #[tactic(auto, using(crate::proofs::Behind::parts))]
    pub fn gives(&mut self, at: Context, line: Line) -> Result<(), Memory>
        ensures { OnOk result (self.new ≡ behind self.old (gives at line.0)) }
    {
        if at.may_give {
            Ok(())
        } else {
            self.misplace(at, line)
        }
    }

    /// A `break` or `continue`.
    #[tactic(auto, using(crate::proofs::Behind::parts))]
    pub fn turns(&mut self, at: Context, line: Line) -> Result<(), Memory>
        ensures { OnOk result (self.new ≡ behind self.old (turns at line.0)) }
    {
        if at.in_loop {
            Ok(())
        } else {
            self.misplace(at, line)
        }
    }

    /// The number of a new block.
    #[tactic(auto, using(crate::proofs::Behind::steps))]
    fn open_block(&mut self, kind: Kind, at: Context) -> Result<usize, Memory>
        ensures { IfOk result
            (λ n. (n ≡ length self.old.regions) × (self.new ≡ behind self.old (block kind at))) }
    {
        let number = self.regions.len();
        self.blocks.push(number)?;
        self.regions.push(Region {
            kind,
            around: at.region,
            home: number,
        })?;
        Ok(number)
    }

    pub fn open_function(&mut self, at: Context) -> Result<Context, Memory>
        ensures { IfOk result
            (λ b. (b ≡ function_context (length self.old.regions))
            × (self.new ≡ behind self.old (block Function at))) }
    {
        let number = self.open_block(Kind::Function, at)?;
        Ok(Context {
            region: number,
            home: number,
            may_give: true,
            in_loop: false,
        })
    }

    pub fn open_generator(&mut self, at: Context) -> Result<Context, Memory>
        ensures { IfOk result
            (λ b. (b ≡ generator_context (length self.old.regions))
            × (self.new ≡ behind self.old (block Function at))) }
    {
        let number = self.open_block(Kind::Function, at)?;
        Ok(Context {
            region: number,
            home: number,
            may_give: false,
            in_loop: false,
        })
    }

    pub fn open_class(&mut self, at: Context) -> Result<Context, Memory>
        ensures { IfOk result
            (λ b. (b ≡ class_context (length self.old.regions))
            × (self.new ≡ behind self.old (block Class at))) }
    {
        let number = self.open_block(Kind::Class, at)?;
        Ok(Context {
            region: number,
            home: number,
            may_give: false,
            in_loop: false,
        })
    }

    #[tactic(auto, using(crate::proofs::Behind::steps))]
    pub fn open_comprehension(&mut self, at: Context) -> Result<Context, Memory>
        ensures { IfOk result
            (λ b. (b ≡ comprehension_context at (length self.old.regions))
            × (self.new ≡ behind self.old (comprehension at))) }
    {
        let number = self.regions.len();
        self.regions.push(Region {
            kind: Kind::Comprehension,
            around: at.region,
            home: at.home,
        })?;
        Ok(Context {
            region: number,
            home: at.home,
            may_give: false,
            in_loop: false,
        })
    }

    /// The regions, the region of each block, and the mentions.
    pub fn into_parts(self) -> (Seq<Region>, Seq<usize>, Seq<Mention>)
        ensures { (result.0 ≡ self.regions) × (result.1 ≡ self.blocks)
            × (result.2 ≡ self.mentions) }
    {
        let Gatherer {
            regions,
            blocks,
            mentions,
            ..
        } = self;
        (regions, blocks, mentions)
    }
}
