use crate::heap::INSTANCES;
use crate::no_row::NoRow;
use pt_base::{ObjId, Seq, Text};
use pt_content::{Content, NewObject, PrimAns, add, apply};
use pt_heap::{Heap, Object, Str, Value};
use std::alloc::Global;

/// The objects of a row, and those of them that its steps have made.
#[derive(Drop)]
pub struct World {
    pub heap: Heap,
    pub made: Seq<ObjId>,
}

impl World {
    /// The value of a word.
    fn value_of(&mut self, alloc: Global, word: &str) -> Result<Value, NoRow> {
        match word {
            "n" => return Ok(Value::None),
            "t" => return Ok(Value::Bool(true)),
            "f" => return Ok(Value::Bool(false)),
            "e" => return Ok(Value::Ellipsis),
            "N" => return Ok(Value::NotImplemented),
            _ => {}
        }
        for row in &INSTANCES {
            if row.0 == word {
                return Ok(Value::Obj(ObjId(row.1)));
            }
        }
        self.longer(alloc, word)
    }

    /// The value of a word that begins with `i`, `s` or `#`.
    fn longer(&mut self, alloc: Global, word: &str) -> Result<Value, NoRow> {
        match word.split_at_checked(1) {
            Some(("i", digits)) => match digits.parse::<i128>() {
                Ok(number) => Ok(Value::Int(number)),
                Err(_) => Err(NoRow),
            },
            Some(("s", spelling)) => {
                let text = Text::from_str(alloc, spelling)?;
                Ok(Value::Obj(self.heap.add(Object::Str(Str::new(text)))?))
            }
            Some(("#", digits)) => {
                let Ok(number) = digits.parse::<u32>() else {
                    return Err(NoRow);
                };
                match self.made.as_slice().get(number as usize) {
                    Some(id) => Ok(Value::Obj(*id)),
                    None => Err(NoRow),
                }
            }
            _ => Err(NoRow),
        }
    }

    /// The values of words.
    pub fn operands(&mut self, alloc: Global, words: &str) -> Result<Seq<Value>, NoRow> {
        let mut operands = Seq::new(alloc);
        if words.is_empty() {
            return Ok(operands);
        }
        for word in words.split(" ") {
            operands.push(self.value_of(alloc, word)?)?;
        }
        Ok(operands)
    }
}

/// What an operation answers once its content stands in the heap.
pub fn settled(alloc: Global, content: Content, heap: &mut Heap) -> Result<PrimAns, NoRow> {
    match content {
        Content::Value(value) => Ok(PrimAns::Value(value)),
        Content::New(new) => match add(heap, new)? {
            Some(value) => Ok(PrimAns::Value(value)),
            None => Err(NoRow),
        },
        Content::Raise { class, text } => Ok(PrimAns::Raise {
            class,
            arg: add(heap, NewObject::Text(text))?,
        }),
        Content::Help { helper, inverted } => Ok(PrimAns::Help {
            helper,
            operands: Seq::new(alloc),
            inverted,
        }),
        Content::Outside(what) => Ok(PrimAns::Outside { what }),
        Content::Changed { change, answer } => {
            if !apply(alloc, change, heap)? {
                return Err(NoRow);
            }
            Ok(answer)
        }
        _ => Err(NoRow),
    }
}
