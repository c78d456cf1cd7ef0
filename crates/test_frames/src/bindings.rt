//! A row of a binding is the parameters, `|`, and the arguments: `a` and `b=1` are parameters, `.c`
//! and `.d=2` such that a name alone fills, `*` and `**` the starred ones; `5` is an argument, and
//! `c:6` one with a name. The answer is `ok` with the values, what `*` takes and what `**` takes,
//! or a refusal.

use crate::no_row::NoRow;
use pt_base::{Memory, Seq, Text};
use pt_bind::{Args, BindErr, Locals, Params, bind};
use pt_heap::{Binding, Value};
use std::alloc::Global;

fn number(word: &str) -> Result<Value, NoRow> {
    match word.parse::<i128>() {
        Ok(number) => Ok(Value::Int(number)),
        Err(_) => Err(NoRow),
    }
}

fn binding(alloc: Global, name: &str, value: &str) -> Result<Binding, NoRow> {
    let value = number(value)?;
    let name = Text::from_str(alloc, name)?;
    Ok(Binding { name, value })
}

/// Adds a parameter, with its default if it has one.
fn parameter(
    alloc: Global,
    word: &str,
    names: &mut Seq<Text>,
    defaults: &mut Seq<Binding>,
) -> Result<(), NoRow> {
    match word.split_once("=") {
        Some((name, value)) => {
            let default = binding(alloc, name, value)?;
            defaults.push(default)?;
            names.push(Text::from_str(alloc, name)?)?;
        }
        None => names.push(Text::from_str(alloc, word)?)?,
    }
    Ok(())
}

fn params(alloc: Global, words: &str) -> Result<Params, NoRow> {
    let mut params = Params {
        plain: Seq::new(alloc),
        only: Seq::new(alloc),
        star: false,
        stars: false,
        defaults: Seq::new(alloc),
    };
    for word in words.split_whitespace() {
        if word == "*" {
            params.star = true;
        } else if word == "**" {
            params.stars = true;
        } else if let Some(rest) = word.strip_prefix(".") {
            parameter(alloc, rest, &mut params.only, &mut params.defaults)?;
        } else {
            parameter(alloc, word, &mut params.plain, &mut params.defaults)?;
        }
    }
    Ok(params)
}

fn args(alloc: Global, words: &str) -> Result<Args, NoRow> {
    let mut args = Args {
        plain: Seq::new(alloc),
        named: Seq::new(alloc),
    };
    for word in words.split_whitespace() {
        match word.split_once(":") {
            Some((name, value)) => {
                let named = binding(alloc, name, value)?;
                args.named.push(named)?;
            }
            None => args.plain.push(number(word)?)?,
        }
    }
    Ok(args)
}

fn show(line: &mut String, alloc: Global, value: Value) -> Result<(), NoRow> {
    match value {
        Value::Int(number) => {
            let digits = format!(in alloc; "{number}")?;
            line.push_str(digits.as_str())?;
            Ok(())
        }
        _ => Err(NoRow),
    }
}

fn show_locals(line: &mut String, alloc: Global, locals: &Locals) -> Result<(), NoRow> {
    line.push_str("ok")?;
    for value in locals.values.as_slice() {
        line.push_str(" ")?;
        match value {
            Some(value) => show(line, alloc, *value)?,
            None => line.push_str("-")?,
        }
    }
    line.push_str(" |")?;
    for value in locals.star.as_slice() {
        line.push_str(" ")?;
        show(line, alloc, *value)?;
    }
    line.push_str(" |")?;
    for binding in locals.stars.as_slice() {
        line.push_str(" ")?;
        line.push_str(binding.name.as_str())?;
        line.push_str(":")?;
        show(line, alloc, binding.value)?;
    }
    Ok(())
}

fn show_name(line: &mut String, kind: &str, name: &Text) -> Result<(), NoRow> {
    line.push_str(kind)?;
    line.push_str(name.as_str())?;
    Ok(())
}

fn show_error(line: &mut String, alloc: Global, error: &BindErr) -> Result<(), NoRow> {
    match error {
        BindErr::TooMany { given } => {
            let text = format!(in alloc; "TooMany {given}")?;
            line.push_str(text.as_str())?;
            Ok(())
        }
        BindErr::Double { name } => show_name(line, "Double ", name),
        BindErr::Unexpected { name } => show_name(line, "Unexpected ", name),
        BindErr::Missing { name } => show_name(line, "Missing ", name),
        BindErr::Memory => Err(NoRow),
    }
}

pub fn answers(line: &mut String, alloc: Global, row: &str) -> Result<(), NoRow> {
    let Some((left, right)) = row.split_once("|") else {
        return Err(NoRow);
    };
    let params = params(alloc, left)?;
    let args = args(alloc, right)?;
    match bind(alloc, &params, &args) {
        Ok(locals) => show_locals(line, alloc, &locals),
        Err(error) => show_error(line, alloc, &error),
    }
}
