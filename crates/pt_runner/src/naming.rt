use pt_base::BlockId;
use pt_machine::CodeTables;
use pt_tracebacks::BlockNames;

/// The names of the blocks that tables have.
#[derive(Clone, Copy)]
pub(crate) struct TableNames<'a> {
    pub tables: &'a CodeTables,
}

impl BlockNames for TableNames<'_> {
    ghost use Rattle.pt_runner.specs.Ends.{table_name};

    ghost name = { λ names. table_name names.tables.now };

    fn name(&self, block: BlockId) -> &str {
        self.tables.blocks.at(block, false).name.as_str()
    }
}
