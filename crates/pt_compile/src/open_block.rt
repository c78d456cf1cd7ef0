use pt_assembler::Writer;
use pt_block_names::BlockNames;
use pt_instr::TextNo;

/// A block whose names are entered, and the number of its own name.
#[derive(Drop)]
pub struct OpenBlock {
    pub writer: Writer,
    pub names: BlockNames,
    pub name: TextNo,
}
