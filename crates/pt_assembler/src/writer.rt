ghost use Rattle.std.specs.Prelude.{◌≡◌, [], ◌∷◌, ◌++◌, ◌+◌, ◌<◌, length, OnOk, IfOk};
ghost use Rattle.pt_assembler.specs.PieceAt.{target};
ghost use Rattle.pt_assembler.specs.Layout.{Written, at, with_text, number_of_text, with_local, local_no, with_cell, cell_no, with_free, free_no, with_constant, with_constant_text, const_for, constant_no, with_list, list_no, with_texts, list_for, put, put_act, act_of, put_row, put_start, new_label, next_label, bind, placed, numbered_from, begun, label_at, instr_in, image_with, image_on, no_image, block_of};

use crate::constants::Constants;
use crate::image::{Heading, Image, instr_of_free, instr_to};
use crate::lists::Lists;
use crate::names::Names;
use crate::texts::Texts;
use crate::width::width_of;
use crate::{Act, Label, Operation, Place, Placed, Target};
use pt_base::{ActNo, Line, Memory, Pc, Seq, Text};
use pt_code::{CodeBlock, Const, Start};
use pt_instr::{ConstNo, Instr, ListNo, SlotNo, TextNo, encode};
use pt_ranges::{ActMark, Handler};
use pt_tree::Constant;
use std::alloc::Global;
use std::marker::Model;

/// The tables of a code.
#[derive(Drop)]
pub struct Tables {
    pub texts: Texts,
    pub constants: Constants,
    pub lists: Lists,
}

/// The tables of a code, and a block of it that is being written.
#[derive(Drop)]
pub struct Writer {
    alloc: Global,
    tables: Tables,
    locals: Names,
    cells: Names,
    free: Names,
    instrs: Seq<Placed>,
    rows: Seq<Handler>,
    starts: Seq<Start>,
    labels: Seq<Target>,
    act: u32,
    place: Place,
    at: u32,
}

impl Model for Writer {
    ghost use Rattle.std.specs.Prelude.{◌≡◌};
    ghost use Rattle.pt_assembler.specs.PieceAt.{target};
    ghost use Rattle.pt_assembler.specs.Layout.{Written, wide, AllFitWell};

    ghost Value = { Written };

    ghost view = { λ w. record {
      texts = w.tables.texts;
      constants = w.tables.constants;
      lists = w.tables.lists;
      locals = w.locals;
      cells = w.cells;
      free = w.free;
      instrs = w.instrs;
      rows = w.rows;
      starts = w.starts;
      labels = w.labels;
      act = w.act;
      place = w.place;
    } };

    ghost invariant = { λ w. (w.at ≡ wide w.instrs) × AllFitWell w.instrs };
}

impl Tables {
    /// No texts, constants or lists.
    pub fn new(alloc: Global) -> Tables
        ensures { (result.texts ≡ []) × (result.constants ≡ []) × (result.lists ≡ []) }
    {
        Tables {
            texts: Texts::new(alloc),
            constants: Constants::new(alloc),
            lists: Lists::new(alloc),
        }
    }
}

impl Writer {
    /// A block begins, over so many slots. Label 0 is its start.
    pub fn begin(alloc: Global, tables: Tables, depth: u32) -> Result<Writer, Memory>
        ensures { IfOk result
            (λ w. w ≡ begun tables.texts tables.constants tables.lists [] [] [] depth) }
    {
        let mut labels = Seq::new(alloc);
        labels.push(Target {
            pc: Pc(0),
            depth: 0,
        })?;
        Ok(Writer {
            alloc,
            tables,
            locals: Names::new(alloc),
            cells: Names::new(alloc),
            free: Names::new(alloc),
            instrs: Seq::new(alloc),
            rows: Seq::new(alloc),
            starts: Seq::new(alloc),
            labels,
            act: 0,
            place: Place {
                around: None,
                depth,
            },
            at: 0,
        })
    }

    /// The number of a text.
    #[tactic(auto, unfolding(crate::specs::Layout::with_text))]
    pub fn text(&mut self, text: &str) -> Result<TextNo, Memory>
        ensures { IfOk result (λ t. (t ≡ number_of_text text.now self.old)
            × (self.new ≡ with_text text.now self.old) × (self.new.act ≡ self.old.act)) }
    {
        let number = self.tables.texts.number(self.alloc, text)?;
        Ok(TextNo(number))
    }

    /// The number of a local name.
    #[tactic(auto, unfolding(crate::specs::Layout::with_text, crate::specs::Layout::keep_local))]
    pub fn local(&mut self, name: &str) -> Result<SlotNo, Memory>
        ensures { IfOk result (λ s. (s.0 ≡ local_no name.now self.old)
            × (self.new ≡ with_local name.now self.old) × (self.new.act ≡ self.old.act)) }
    {
        let text = self.text(name)?;
        let number = self.locals.number(text)?;
        Ok(SlotNo(number))
    }

    /// The number of a cell name.
    #[tactic(auto, unfolding(crate::specs::Layout::with_text, crate::specs::Layout::keep_cell))]
    pub fn cell(&mut self, name: &str) -> Result<SlotNo, Memory>
        ensures { IfOk result (λ s. (s.0 ≡ cell_no name.now self.old)
            × (self.new ≡ with_cell name.now self.old) × (self.new.act ≡ self.old.act)) }
    {
        let text = self.text(name)?;
        let number = self.cells.number(text)?;
        Ok(SlotNo(number))
    }

    /// The number of a free name, among the free names.
    #[tactic(auto, unfolding(crate::specs::Layout::with_text, crate::specs::Layout::keep_free))]
    pub fn free(&mut self, name: &str) -> Result<SlotNo, Memory>
        ensures { IfOk result (λ s. (s.0 ≡ free_no name.now self.old)
            × (self.new ≡ with_free name.now self.old) × (self.new.act ≡ self.old.act)) }
    {
        let text = self.text(name)?;
        let number = self.free.number(text)?;
        Ok(SlotNo(number))
    }

    /// The number of a constant.
    #[tactic(auto, unfolding(crate::specs::Layout::with_text, crate::specs::Layout::keep_constant))]
    pub fn constant(&mut self, constant: &Constant) -> Result<ConstNo, Memory>
        ensures { IfOk result (λ c. (c.0 ≡ constant_no constant.now self.old)
            × (self.new ≡ with_constant constant.now self.old) × (self.new.act ≡ self.old.act)) }
    {
        let constant = self.const_for(constant)?;
        let number = self.tables.constants.number(constant)?;
        Ok(ConstNo(number))
    }

    fn const_for(&mut self, constant: &Constant) -> Result<Const, Memory>
        ensures { IfOk result (λ c. (c ≡ const_for constant.now self.old)
            × (self.new ≡ with_constant_text constant.now self.old)) }
    {
        match constant {
            Constant::None => Ok(Const::None),
            Constant::Bool(true) => Ok(Const::True),
            Constant::Bool(false) => Ok(Const::False),
            Constant::Ellipsis => Ok(Const::Ellipsis),
            Constant::Int(n) => Ok(Const::Int(*n)),
            Constant::Str(text) => {
                let text = self.text(text.as_str())?;
                Ok(Const::Text(text))
            }
        }
    }

    /// The number of a list of texts.
    #[tactic(auto, unfolding(crate::specs::Layout::keep_list))]
    pub fn list(&mut self, names: &[Text]) -> Result<ListNo, Memory>
        ensures { IfOk result (λ l. (l.0 ≡ list_no names.now self.old)
            × (self.new ≡ with_list names.now self.old) × (self.new.act ≡ self.old.act)) }
    {
        let numbers = self.texts(names)?;
        let number = self.tables.lists.number(self.alloc, numbers.as_slice())?;
        Ok(ListNo(number))
    }

    #[tactic(auto, unfolding(crate::specs::Layout::with_text))]
    fn texts(&mut self, names: &[Text]) -> Result<Seq<u32>, Memory>
        ensures { IfOk result (λ ts. (ts ≡ list_for names.now self.old)
            × (self.new ≡ with_texts names.now self.old) × (self.new.lists ≡ self.old.lists)
            × (self.new.act ≡ self.old.act)) }
    {
        let mut numbers = Seq::new(self.alloc);
        for name in names {
            let text = self.text(name.as_str())?;
            numbers.push(text.0)?;
        }
        Ok(numbers)
    }

    /// An instruction with which an act begins.
    #[tactic(auto, unfolding(crate::specs::Layout::put_act))]
    pub fn act(&mut self, operation: Operation, line: Line, again: bool) -> Result<(), Memory>
        ensures is { OnOk result
            (self.new ≡ put_act operation (act_of self.old.act line.0 again) self.old) }
        ensures act { OnOk result (self.new.act ≡ self.old.act + 1) }
    {
        let next = self.act.checked_add(1).ok_or(Memory)?;
        let act = Act {
            number: ActNo(self.act),
            line,
            again,
        };
        self.push(operation, Some(act))?;
        self.act = next;
        Ok(())
    }

    /// An instruction without an act.
    #[tactic(auto, unfolding(crate::specs::Layout::put))]
    pub fn step(&mut self, operation: Operation) -> Result<(), Memory>
        ensures is { OnOk result (self.new ≡ put operation self.old) }
        ensures act { OnOk result (self.new.act ≡ self.old.act) }
    {
        self.push(operation, None)
    }

    #[tactic(auto, using(crate::proofs::Shown::wide_end, crate::proofs::FitLemmas::fit_end))]
    fn push(&mut self, operation: Operation, act: Option<Act>) -> Result<(), Memory>
        ensures { OnOk result
            (self.new ≡ record self.old {
              instrs = self.old.instrs ++ record { operation = operation; act = act } ∷ [];
            }) }
    {
        let end = self.at.checked_add(width_of(&operation)).ok_or(Memory)?;
        self.instrs.push(Placed { operation, act })?;
        self.at = end;
        Ok(())
    }

    /// A label of this place.
    #[tactic(auto, unfolding(crate::specs::Layout::new_label))]
    pub fn label(&mut self) -> Result<Label, Memory>
        ensures { IfOk result (λ k. (k ≡ next_label self.old) × (self.new ≡ new_label self.old)
            × (self.new.act ≡ self.old.act)) }
    {
        let number = u32::try_from(self.labels.len()).map_err(|_| Memory)?;
        let target = self.target();
        self.labels.push(target)?;
        Ok(Label(number))
    }

    fn target(&self) -> Target
        ensures { result ≡ target (at self.now) self.now.place.depth }
    {
        Target {
            pc: Pc(self.at),
            depth: self.place.depth,
        }
    }

    /// The label is that of this place.
    #[tactic(auto, unfolding(crate::specs::Layout::bind))]
    pub fn bind(&mut self, label: Label)
        ensures is { self.new ≡ bind label self.old }
        ensures act { self.new.act ≡ self.old.act }
    {
        let target = self.target();
        let number = label.0 as usize;
        if number < self.labels.len() {
            self.labels.set(number, target);
        }
    }

    /// How many bytes the instructions take.
    pub fn at(&self) -> u32
        ensures { result ≡ at self.now }
    {
        self.at
    }

    /// The number of the next act.
    pub fn next_act(&self) -> u32
        ensures { result ≡ self.now.act }
    {
        self.act
    }

    /// Acts are numbered from here.
    #[tactic(auto, unfolding(crate::specs::Layout::numbered_from))]
    pub fn number_from(&mut self, number: u32)
        ensures is { self.new ≡ numbered_from number self.old }
        ensures act { self.new.act ≡ number }
    {
        self.act = number;
    }

    /// Where the next statement stands.
    pub fn place(&self) -> Place
        ensures { result ≡ self.now.place }
    {
        self.place
    }

    #[tactic(auto, unfolding(crate::specs::Layout::placed))]
    pub fn set_place(&mut self, place: Place)
        ensures is { self.new ≡ placed place self.old }
        ensures act { self.new.act ≡ self.old.act }
    {
        self.place = place;
    }

    /// A handler row.
    #[tactic(auto, unfolding(crate::specs::Layout::put_row))]
    pub fn row(&mut self, row: Handler) -> Result<(), Memory>
        ensures is { OnOk result (self.new ≡ put_row row self.old) }
        ensures act { OnOk result (self.new.act ≡ self.old.act) }
    {
        self.rows.push(row)
    }

    /// A statement starts here.
    #[tactic(auto, unfolding(crate::specs::Layout::put_start))]
    pub fn start(&mut self, line: Line) -> Result<(), Memory>
        ensures is { OnOk result (self.new ≡ put_start line.0 self.old) }
        ensures act { OnOk result (self.new.act ≡ self.old.act) }
    {
        let pc = Pc(self.at);
        self.starts.push(Start { pc, line })
    }

    /// The place of a label, or the start where there is none.
    fn label_at(&self, label: Label) -> Pc
        ensures { result ≡ (label_at self.now label).pc }
    {
        let number = label.0 as usize;
        let labels = self.labels.as_slice();
        if number < labels.len() {
            labels[number].pc
        } else {
            Pc(0)
        }
    }

    /// An instruction, with the place of its label or the number of its slot.
    fn instr_in(&self, operation: Operation) -> Result<Instr, Memory>
        ensures { IfOk result (λ i. i ≡ instr_in self.now operation) }
    {
        match operation {
            Operation::Plain(instr) => Ok(instr),
            Operation::To(jump, label) => Ok(instr_to(jump, self.label_at(label))),
            Operation::Free(use_of, slot) => {
                let cells = u32::try_from(self.cells.len()).map_err(|_| Memory)?;
                let number = cells.checked_add(slot.0).ok_or(Memory)?;
                Ok(instr_of_free(use_of, SlotNo(number)))
            }
        }
    }

    fn put_in(&self, placed: &Placed, image: &mut Image) -> Result<(), Memory>
        ensures { OnOk result (image.new ≡ image_with self.now image.old placed.now) }
    {
        let instr = self.instr_in(placed.operation)?;
        if let Some(act) = placed.act {
            let pc = u32::try_from(image.instructions.len()).map_err(|_| Memory)?;
            image.marks.push(ActMark {
                pc: Pc(pc),
                act: act.number,
                line: act.line,
                again: act.again,
            })?;
        }
        encode(&instr, &mut image.instructions)
    }

    /// The instructions as bytes, and where acts begin in them. It takes linear time.
    fn image(&self) -> Result<Image, Memory>
        ensures { IfOk result
            (λ im. im ≡ image_on self.now self.now.instrs no_image) }
    {
        let mut image = Image {
            instructions: Seq::new(self.alloc),
            marks: Seq::new(self.alloc),
        };
        for placed in self.instrs.as_slice() {
            self.put_in(placed, &mut image)?;
        }
        Ok(image)
    }

    /// The block is whole, and the tables go on to the next.
    #[tactic(auto, using(crate::proofs::ImageLemmas::image_is))]
    pub fn finish(self, heading: Heading) -> Result<(Tables, CodeBlock), Memory>
        ensures { IfOk result (λ p. (p.0.texts ≡ self.texts) × (p.0.constants ≡ self.constants)
            × (p.0.lists ≡ self.lists) × (p.1 ≡ block_of heading self)) }
    {
        let image = self.image()?;
        let block = CodeBlock {
            name: heading.name,
            kind: heading.kind,
            first_line: heading.first_line,
            parameters: heading.parameters,
            rest: heading.rest,
            keyword_only: heading.keyword_only,
            locals: self.locals.into_items(),
            cells: self.cells.into_items(),
            free: self.free.into_items(),
            instructions: image.instructions,
            marks: image.marks,
            handlers: self.rows,
            starts: self.starts,
        };
        Ok((self.tables, block))
    }
}
