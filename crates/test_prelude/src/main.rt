//! What the prelude is: a script that is built, whose code fits, and whose functions stand where
//! they are said to, with the defaults that are said.
#![tactic(auto)]

use pt_base::{Failure, Memory};
use pt_code::Code;
use pt_compile::compile;
use pt_front::front;
use pt_prelude::{Preset, block, helper, presets};
use pt_supported::first_unbuilt;
use pt_tree::{Constant, Expr, ExprNode, Parameter, Parameters, Script, StmtNode};
use pt_verify::verify;
use std::alloc::Global;
use std::process::ExitCode;

/// The most bytes of a text that is read.
const TEXT_LIMIT: usize = 1_048_576;

fn preset_word(preset: Preset) -> &'static str {
    match preset {
        Preset::None => " None",
        Preset::False => " False",
        Preset::Zero => " 0",
        Preset::Empty => " ()",
    }
}

fn default_word(default: &Expr) -> &'static str {
    match &default.node {
        ExprNode::Constant(Constant::None) => " None",
        ExprNode::Constant(Constant::Bool(false)) => " False",
        ExprNode::Constant(Constant::Int(0)) => " 0",
        ExprNode::Tuple(items) => { if items.is_empty() { " ()" } else { " a tuple" } }
        _ => " another",
    }
}

fn write_defaults(out: &mut String, parameters: &[Parameter]) -> Result<(), Memory> {
    for parameter in parameters {
        if let Some(default) = &parameter.default {
            out.push_str(default_word(default.get()))?;
        }
    }
    Ok(())
}

/// The parameters of the function of a name, which stands in the module.
fn function<'a>(script: &'a Script, name: &str) -> Option<&'a Parameters> {
    for statement in script.body.as_slice() {
        if let StmtNode::Def {
            name: its_name,
            parameters,
            ..
        } = &statement.node
        {
            if its_name.is(name) {
                return Some(parameters);
            }
        }
    }
    None
}

/// The name of a block.
fn block_name(code: &Code, number: u32) -> &str {
    match code.blocks.get(number as usize) {
        Some(block) => match code.texts.get(block.name.0 as usize) {
            Some(name) => name.as_str(),
            None => "no name",
        },
        None => "no block",
    }
}

/// Writes the block and the defaults of a function of the whole prelude, which the prelude may lack,
/// and where the text has it otherwise, also how.
fn write_function(
    out: &mut String,
    alloc: Global,
    script: &Script,
    code: &Code,
    name: &str,
) -> Result<(), Memory> {
    let Some(asked) = helper(name) else {
        write!(out, "{name} isn't known\n")?;
        return Ok(());
    };
    let mut said = String::new(alloc);
    for preset in presets(asked) {
        said.push_str(preset_word(*preset))?;
    }
    let mut written = String::new(alloc);
    let parameters = function(script, name);
    if let Some(parameters) = parameters {
        write_defaults(&mut written, parameters.positional.as_slice())?;
        write_defaults(&mut written, parameters.keyword_only.as_slice())?;
    }
    match block(asked) {
        Some(number) => {
            write!(out, "{} {name}{said}", number.0)?;
            let stands = block_name(code, number.0);
            if stands != name {
                write!(out, ", there stands {stands}")?;
            }
            if written.as_str() != said.as_str() {
                write!(out, ", the text has{written}")?;
            }
        }
        None => {
            write!(out, "- {name}")?;
            if parameters.is_some() {
                out.push_str(", the text has it")?;
            }
        }
    }
    out.push_str("\n")?;
    Ok(())
}

/// Writes what the prelude is, a line for each function.
fn write_prelude(out: &mut String, alloc: Global) -> Result<(), Memory> {
    let text = pt_prelude::text().as_bytes();
    if text.len() > TEXT_LIMIT {
        return Err(Memory);
    }
    let script = match front(alloc, text) {
        Ok((script, _)) => script,
        Err(Failure::Refused(error)) => {
            write!(out, "refused {} at {}\n", error.number(), error.place())?;
            return Ok(());
        }
        Err(Failure::Memory) => return Err(Memory),
    };
    out.push_str("a script\n")?;
    match first_unbuilt(&script) {
        Some(line) => write!(out, "not built at line {}\n", line.0)?,
        None => out.push_str("built\n")?,
    }
    let code = match verify(alloc, compile(alloc, &script)?) {
        Ok(verified) => verified.into_code(),
        Err(error) => {
            let (number, place) = error.refusal().ok_or(Memory)?;
            write!(out, "misfit {number} at {place}\n")?;
            return Ok(());
        }
    };
    write!(
        out,
        "code of {} blocks, all of which fit\n",
        code.blocks.len()
    )?;
    for line in pt_prelude::whole_text().lines() {
        if let Some(head) = line.strip_prefix("def ") {
            let (name, _) = head.split_once("(").unwrap_or((head, ""));
            write_function(out, alloc, &script, &code, name)?;
        }
    }
    Ok(())
}

fn main(rt: HostRuntime) -> ExitCode {
    let mut out = String::new(rt.alloc());
    if write_prelude(&mut out, rt.alloc()).is_err() {
        return ExitCode::from(1);
    }
    match print!(rt; "{out}") {
        Ok(()) => ExitCode::from(0),
        Err(_) => ExitCode::from(1),
    }
}
