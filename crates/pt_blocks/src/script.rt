ghost use Rattle.std.specs.Prelude.{◌≡◌, OnOk};
ghost use Rattle.pt_tree.specs.Blocks.{blocks_script};
ghost use Rattle.pt_tree.specs.StatementFold.{script_of};
ghost use Rattle.pt_blocks.specs.Visits.{behind_blocks};

use crate::statements::visit_statements;
use crate::visitor::BlockVisitor;
use pt_base::Memory;
use pt_tree::Script;

/// Visits the blocks of a script in the order in which their nodes start, the module first: so each
/// comes at its number (Language Reference 4.1). Beside the visits it takes time in proportion to
/// the tree.
pub fn visit<V: BlockVisitor>(visitor: &mut V, script: &Script) -> Result<(), Memory>
    ensures { OnOk result
        (visitor.new ≡ behind_blocks V.behind (blocks_script (script_of script.now)) visitor.old) }
{
    let body = script.body.as_slice();
    visitor.module(body)?;
    visit_statements(visitor, body)
}
