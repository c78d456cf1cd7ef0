//! Laws of the definitions, each the contract of a function that does nothing.

ghost use Rattle.std.specs.Prelude.{◌<◌, length};
ghost use Rattle.std.specs.List.{AllByRecursion};
ghost use Rattle.pt_tree.specs.Blocks.{blocks_script};
ghost use Rattle.pt_tree.specs.Syntax.{Stms};
ghost use Rattle.sem_control.specs.numbering.Numbered.{IsNumbered, numbers_stms};

/// Where blocks have their numbers, each number in the tree is that of a block of the script.
pub fn numbers_are_those_of_blocks()
    ensures { (ss : Stms) → IsNumbered ss
        → AllByRecursion (λ b. b < length (blocks_script ss)) (numbers_stms ss) }
{}
