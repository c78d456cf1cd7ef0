//! How the blocks of a script name their variables: what they share.

ghost use Rattle.std.specs.Prelude.{◌≡◌, ◌++◌, [], ◌∷◌, map, slice_get, None, IfOk, OnOk};
ghost use Rattle.std.specs.Option.{option_copied};
ghost use Rattle.pt_symbols.specs.sem_names.Around.{captured_in};
ghost use Rattle.pt_symbols.specs.sem_names.BlockNames.{class_if, class_name, class_variable, distinct_behind, formal_names, free_names, is_cell, is_local, makes_class, named, named_at, names_in, param_names, taken_along, variables_of, with_name};
ghost use Rattle.pt_symbols.specs.sem_names.Naming.{as_control, cell_or_local as cell_or_local_of, comprehension_in, own, owned, scope_or_global, seen, seen_if, variable};
ghost use Rattle.pt_symbols.specs.sem_names.Script.{functions_of, spelled_in};
ghost use Rattle.pt_scopes.specs.Mentions.{places_script};
ghost use Rattle.pt_scopes.specs.Refusals.{fault_of};
ghost use Rattle.pt_scopes.specs.Scope.{scope_of};
ghost use Rattle.pt_tree.specs.Fold.{chained, formal_of};
ghost use Rattle.pt_tree.specs.StatementFold.{script_of};
ghost use Rattle.pt_tree.specs.Syntax.{no_formals};
ghost use Rattle.pt_symbols.specs.Tables.{mention_if};
ghost use Rattle.pt_block_names.specs.Named.{lists_of, names_with, params_of, variable_of};

use crate::lists::NameLists;
use crate::tables::{Tables, scopes_of};
use crate::variable::Variable;
use pt_base::{ActNo, BlockId, Dup, Memory, Seq, Text};
use pt_scopes::{Kind, Mention, Region, Scope, read_in};
use pt_symbols::{BlockShape, NameList, PlaceTable, dotted_name};
use pt_tree::{NamedParameter, Parameter, Parameters, Script};
use std::alloc::Global;
use std::marker::Model;

/// The name of the variable in whose cell the class of a block's functions is; no script has such a
/// name.
const CLASS: &str = ".class";

/// The names of a script. They are found by sorted trees and by regions from inside outwards, so that no
/// choice of names makes a look-up take more than the depth of its region and a logarithm.
#[derive(Drop)]
pub struct ScriptNames {
    pub alloc: Global,
    places: PlaceTable,
    blocks: Seq<BlockShape>,
    next_acts: Seq<Option<u32>>,
    tables: Tables,
}

impl Model for ScriptNames {
    ghost use Rattle.pt_symbols.specs.sem_names.Script.{Naming};
    ghost use Rattle.pt_block_names.specs.Tells.{Tells};

    ghost Value = { Naming };

    ghost view = { λ s. record { places = s.places; blocks = s.blocks; nexts = s.next_acts } };

    ghost invariant = { λ s. Tells
        (record { places = s.places; blocks = s.blocks; nexts = s.next_acts }) s.tables };
}

impl ScriptNames {
    /// The names of a script without faults in its declarations, from the shapes of its blocks and from the
    /// numbers of first Nexts by region.
    pub fn new(
        alloc: Global,
        script: &Script,
        blocks: Seq<BlockShape>,
        next_acts: Seq<Option<u32>>,
    ) -> Result<ScriptNames, Memory>
        requires { fault_of (places_script (script_of script.now)) ≡ None }
        ensures { IfOk result (λ s. s ≡ record {
          places = places_script (script_of script.now);
          blocks = blocks;
          nexts = next_acts;
        }) }
    {
        let places = PlaceTable::new(alloc, script)?;
        let scopes = scopes_of(alloc, script)?;
        let tables = Tables::new(alloc, &places, &blocks, &next_acts, scopes)?;
        Ok(ScriptNames {
            alloc,
            places,
            blocks,
            next_acts,
            tables,
        })
    }

    /// How a name is spelled in a block.
    pub fn spelled(&self, block: BlockId, name: &str) -> Result<Text, Memory>
        ensures { IfOk result (λ t. t ≡ spelled_in self.now block.0 name.now) }
    {
        match self.blocks.get(block.0 as usize) {
            Some(shape) => read_in(self.alloc, shape.class.get().as_str(), name),
            None => read_in(self.alloc, "", name),
        }
    }

    /// The variable that a name is in a block itself, outside of its comprehensions.
    pub fn own(&self, block: BlockId, name: Text) -> Variable
        ensures { variable_of result ≡ own self.now.places block.0 name }
    {
        let scope = self.scope(block, name.as_str());
        Variable { scope, name }
    }

    fn scope(&self, block: BlockId, name: &str) -> Scope
        ensures { as_control result
            ≡ scope_or_global (scope_of self.now.places block.0 name.now) }
    {
        match self.tables.scopes.of(block, name) {
            Some(scope) => scope,
            None => Scope::Global,
        }
    }

    /// The variable that a name is within a comprehension of a block.
    pub fn within(&self, block: BlockId, next: ActNo, name: Text) -> Result<Variable, Memory>
        ensures { IfOk result (λ v. variable_of v
            ≡ seen_if self.now.places
            (comprehension_in self.now (slice_get self.now.places.blocks block.0) next.0) name) }
    {
        match self.comprehension(block, next) {
            Some(region) => self.seen(region, name),
            None => Ok(Variable {
                scope: Scope::Global,
                name,
            }),
        }
    }

    /// The comprehension of a block that has a number, and else the block.
    fn comprehension(&self, block: BlockId, next: ActNo) -> Option<usize>
        ensures { result
            ≡ comprehension_in self.now (slice_get self.now.places.blocks block.0) next.0 }
    {
        let home = self.places.block(block)?;
        match self.tables.nexts.get(home, next.0) {
            Some(region) => Some(region),
            None => Some(home),
        }
    }

    /// The variable that a name is from a region on outwards.
    fn seen(&self, region: usize, name: Text) -> Result<Variable, Memory>
        ensures { IfOk result (λ v. variable_of v ≡ seen self.now.places region name) }
    {
        match self.places.owner(region, name.as_str()) {
            Some(owner) => {
                if self.places.home(owner) == self.places.home(region) {
                    self.owned(owner, name.as_str())
                } else {
                    Ok(Variable {
                        scope: Scope::Free,
                        name,
                    })
                }
            }
            None => Ok(Variable {
                scope: Scope::Global,
                name,
            }),
        }
    }

    /// A name that a function or a comprehension has.
    fn owned(&self, owner: usize, name: &str) -> Result<Variable, Memory>
        ensures { IfOk result (λ v. variable_of v ≡ owned self.now.places owner name.now) }
    {
        Ok(Variable {
            scope: cell_or_local(self.tables.captured.has(owner, name)),
            name: dotted_name(self.alloc, &self.places, owner, name)?,
        })
    }

    /// The variables whose cells a block takes along.
    pub fn captured(&self, block: BlockId) -> Result<Seq<Variable>, Memory>
        ensures { IfOk result (λ vs. map variable_of vs ≡ captured_in self.now block.0) }
    {
        let region = match self.places.block(block) {
            Some(region) => region,
            None => return Ok(Seq::new(self.alloc)),
        };
        match self.places.region(region) {
            Some(here) => self.taken_along(region, here),
            None => Ok(Seq::new(self.alloc)),
        }
    }

    fn taken_along(&self, region: usize, here: Region) -> Result<Seq<Variable>, Memory>
        ensures { IfOk result (λ vs. map variable_of vs
            ≡ taken_along self.now.places (functions_of self.now) region (Some here)) }
    {
        let variables = self.seen_from(here.around, self.tables.frees.of(region))?;
        if self.tables.classes.has(region) {
            with_class(self.alloc, variables, here.kind)
        } else {
            Ok(variables)
        }
    }

    /// The names that a block has in code. A block that takes no arguments has no parameters.
    pub fn lists(
        &self,
        block: BlockId,
        parameters: Option<&Parameters>,
    ) -> Result<NameLists, Memory>
        ensures { IfOk result (λ n. lists_of n
            ≡ names_with self.now block.0 (params_of (option_copied parameters.entry))) }
    {
        let region = match self.places.block(block) {
            Some(region) => region,
            None => return Ok(NameLists::new(self.alloc)),
        };
        let mut locals = NameList::new(self.alloc);
        let mut cells = NameList::new(self.alloc);
        self.add_parameters(block, parameters, &mut locals)?;
        self.add_variables(block, region, &mut locals, &mut cells)?;
        Ok(NameLists {
            locals: locals.into_names(),
            cells: self.cells(region, cells)?,
            frees: self.frees(region)?,
        })
    }

    /// The cells of a block, with that of the class that it makes.
    fn cells(&self, region: usize, names: NameList) -> Result<Seq<Text>, Memory>
        ensures { IfOk result (λ ns. ns
            ≡ names ++ class_if (makes_class self.now.places (functions_of self.now) region)) }
    {
        if self.tables.class_makers.has(region) {
            with_class_name(self.alloc, names.into_names())
        } else {
            Ok(names.into_names())
        }
    }

    fn frees(&self, region: usize) -> Result<Seq<Text>, Memory>
        ensures { IfOk result (λ ns. ns
            ≡ free_names self.now.places (functions_of self.now) region) }
    {
        let frees = copies(self.alloc, self.tables.frees.of(region))?;
        if self.tables.classes.has(region) {
            with_class_name(self.alloc, frees)
        } else {
            Ok(frees)
        }
    }

    fn add_spelled(&self, block: BlockId, name: &str, names: &mut NameList) -> Result<(), Memory>
        ensures { OnOk result
            (names.new ≡ with_name names.old (spelled_in self.now block.0 name.now)) }
    {
        let name = self.spelled(block, name)?;
        names.add(self.alloc, name.as_str())
    }

    #[tactic(auto, using(pt_tree::proofs::Folds::expressions))]
    fn add_formals(
        &self,
        block: BlockId,
        parameters: &[Parameter],
        names: &mut NameList,
    ) -> Result<(), Memory>
        ensures { OnOk result (names.new ≡ distinct_behind names.old
            (map (spelled_in self.now block.0)
            (formal_names (chained no_formals (map formal_of parameters.now))))) }
    {
        for parameter in parameters {
            self.add_spelled(block, parameter.name.as_str(), names)?;
        }
        Ok(())
    }

    fn add_named(
        &self,
        block: BlockId,
        parameter: &Option<NamedParameter>,
        names: &mut NameList,
    ) -> Result<(), Memory>
        ensures { OnOk result (names.new ≡ distinct_behind names.old
            (map (spelled_in self.now block.0) (named parameter.now))) }
    {
        match parameter {
            None => Ok(()),
            Some(parameter) => self.add_spelled(block, parameter.name.as_str(), names),
        }
    }

    #[tactic(auto, using(pt_tree::proofs::Folds::expressions, crate::proofs::ListLemmas::lists))]
    fn add_parameters(
        &self,
        block: BlockId,
        parameters: Option<&Parameters>,
        names: &mut NameList,
    ) -> Result<(), Memory>
        ensures { OnOk result (names.new ≡ distinct_behind names.old
            (map (spelled_in self.now block.0)
            (param_names (params_of (option_copied parameters.entry))))) }
    {
        match parameters {
            None => Ok(()),
            Some(parameters) => {
                self.add_formals(block, parameters.positional.as_slice(), names)?;
                self.add_formals(block, parameters.keyword_only.as_slice(), names)?;
                self.add_named(block, &parameters.star, names)?;
                self.add_named(block, &parameters.double_star, names)
            }
        }
    }

    /// What is named in a block, in source order.
    fn add_variables(
        &self,
        block: BlockId,
        region: usize,
        locals: &mut NameList,
        cells: &mut NameList,
    ) -> Result<(), Memory>
        ensures locals { OnOk result (locals.new ≡ distinct_behind locals.old
            (names_in is_local (variables_of self.now.places block.0 region))) }
        ensures cells { OnOk result (cells.new ≡ distinct_behind cells.old
            (names_in is_cell (variables_of self.now.places block.0 region))) }
    {
        let mentions = self.tables.mentions.of(region);
        for place in mentions {
            self.add_mention(block, region, *place, locals, cells)?;
        }
        Ok(())
    }

    fn add_mention(
        &self,
        block: BlockId,
        region: usize,
        place: usize,
        locals: &mut NameList,
        cells: &mut NameList,
    ) -> Result<(), Memory>
        ensures locals { OnOk result (locals.new ≡ distinct_behind locals.old (names_in is_local
            (map (named_at self.now.places block.0 region)
            (mention_if (slice_get self.now.places.mentions place))))) }
        ensures cells { OnOk result (cells.new ≡ distinct_behind cells.old (names_in is_cell
            (map (named_at self.now.places block.0 region)
            (mention_if (slice_get self.now.places.mentions place))))) }
    {
        match self.places.mentions().get(place) {
            Some(m) => {
                let variable = self.named_at(block, region, m)?;
                add_variable(self.alloc, &variable, locals, cells)
            }
            None => Ok(()),
        }
    }

    /// What is named at a place of a block: in the block itself, or within a comprehension of it.
    fn named_at(&self, block: BlockId, region: usize, m: &Mention) -> Result<Variable, Memory>
        ensures { IfOk result (λ v. variable_of v
            ≡ named_at self.now.places block.0 region m.now) }
    {
        let name = Text::from_str(self.alloc, m.name.as_str())?;
        if m.region == region {
            Ok(self.own(block, name))
        } else {
            self.seen(m.region, name)
        }
    }

    fn seen_from(&self, region: usize, names: &[Text]) -> Result<Seq<Variable>, Memory>
        ensures { IfOk result (λ vs. map variable_of vs
            ≡ map (seen self.now.places region) names.now) }
    {
        let mut variables = Seq::new(self.alloc);
        for name in names {
            let name = Text::from_str(self.alloc, name.as_str())?;
            variables.push(self.seen(region, name)?)?;
        }
        Ok(variables)
    }
}

fn cell_or_local(captured: bool) -> Scope
    ensures { as_control result ≡ cell_or_local_of captured }
{
    if captured { Scope::Cell } else { Scope::Local }
}

/// The scope of the class of a block's functions for the block that makes it: in its own cell for a class,
/// and else one that it has.
fn class_scope(kind: Kind) -> Scope
    ensures { variable (as_control result) class_name ≡ class_variable kind }
{
    match kind {
        Kind::Module => Scope::Free,
        Kind::Function => Scope::Free,
        Kind::Class => Scope::Cell,
        Kind::Comprehension => Scope::Free,
    }
}

/// Variables, and behind them the one with the class of a block's functions.
fn with_class(alloc: Global, variables: Seq<Variable>, kind: Kind) -> Result<Seq<Variable>, Memory>
    ensures { IfOk result (λ vs. map variable_of vs
        ≡ map variable_of variables ++ class_variable kind ∷ []) }
{
    let mut variables = variables;
    variables.push(Variable {
        scope: class_scope(kind),
        name: Text::from_str(alloc, CLASS)?,
    })?;
    Ok(variables)
}

/// Names, and behind them that of the class of a block's functions.
fn with_class_name(alloc: Global, names: Seq<Text>) -> Result<Seq<Text>, Memory>
    ensures { IfOk result (λ ns. ns ≡ names ++ class_name ∷ []) }
{
    let mut names = names;
    names.push(Text::from_str(alloc, CLASS)?)?;
    Ok(names)
}

/// Puts a variable behind the local names or those in cells, if it is one of them.
fn add_variable(
    alloc: Global,
    variable: &Variable,
    locals: &mut NameList,
    cells: &mut NameList,
) -> Result<(), Memory>
    ensures locals { OnOk result (locals.new ≡ distinct_behind locals.old
        (names_in is_local (variable_of variable.now ∷ []))) }
    ensures cells { OnOk result (cells.new ≡ distinct_behind cells.old
        (names_in is_cell (variable_of variable.now ∷ []))) }
{
    match variable.scope {
        Scope::Local => locals.add(alloc, variable.name.as_str()),
        Scope::Cell => cells.add(alloc, variable.name.as_str()),
        Scope::Free => Ok(()),
        Scope::Global => Ok(()),
        Scope::Class => Ok(()),
    }
}

fn copies(alloc: Global, names: &[Text]) -> Result<Seq<Text>, Memory>
    ensures { IfOk result (λ ns. ns ≡ names.now) }
{
    let mut copies = Seq::new(alloc);
    for name in names {
        copies.push(name.dup(alloc)?)?;
    }
    Ok(copies)
}
