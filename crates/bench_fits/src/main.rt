//! What the benchmark of a verifier times: of each block of a code file the first row of its tables
//! that fails, the sizes of its places, its limits, and how it fails by kinds.
#![tactic(auto)]

use pt_base::Memory;
use pt_block_kinds::kinds_up_to;
use pt_block_limits::{Cycles, is_too_deep, lost_leave, silent_loops};
use pt_block_tables::first_bad_row;
use pt_code::{Code, CodeBlock, read};
use pt_kind_failures::{kind_failures, least_cut};
use pt_places::Places;
use pt_standing::Defaults;
use pt_verify_depths::{Sizes, sizes};
use std::alloc::Global;
use std::process::ExitCode;
use std::{env, fs};

fn limits(
    alloc: Global,
    block: &CodeBlock,
    places: &Places,
    table: &[Option<u64>],
) -> Result<&'static str, Memory> {
    if lost_leave(places, table)?.is_some() {
        return Ok("lost");
    }
    if is_too_deep(table) {
        return Ok("deep");
    }
    match silent_loops(alloc, block, places, table, Vec::new(alloc), &[])? {
        Cycles::Ranks(_) => Ok("ranks"),
        Cycles::Least(_) => Ok("loop"),
    }
}

fn kinds(
    alloc: Global,
    code: &Code,
    defaults: &Defaults,
    block: &CodeBlock,
    places: &Places,
    table: &[Option<u64>],
) -> Result<&'static str, Memory> {
    let limit = block.instructions.len();
    if table.len() < limit {
        return Err(Memory);
    }
    let kinds = kinds_up_to(alloc, code, block, places, table, limit)?;
    if least_cut(block, table, &kinds)?.is_some() {
        return Ok("row");
    }
    let told = kind_failures(code, defaults, block, places, table, limit, kinds)?;
    if told.clash {
        Ok("clash")
    } else if told.strays {
        Ok("strays")
    } else {
        Ok("agree")
    }
}

/// What is told of a block, by the name of a piece.
fn told(
    alloc: Global,
    code: &Code,
    defaults: &Defaults,
    block: &CodeBlock,
    piece: &str,
) -> Result<&'static str, Memory> {
    if piece == "read" {
        return Ok("read");
    }
    if piece == "sizes" {
        return match sizes(alloc, code, block)? {
            Sizes::Agree(_) => Ok("agree"),
            Sizes::Meet(_) => Ok("meet"),
            Sizes::TooDeep(_, _) => Ok("too deep"),
            Sizes::TooFew(_) => Ok("too few"),
        };
    }
    let places = Places::make(alloc, block)?;
    if piece == "tables" {
        return match first_bad_row(&places, block)? {
            None => Ok("hold"),
            Some(_) => Ok("row"),
        };
    }
    match sizes(alloc, code, block)? {
        Sizes::Agree(table) if piece == "kinds" => {
            kinds(alloc, code, defaults, block, &places, &table)
        }
        Sizes::Agree(table) => limits(alloc, block, &places, &table),
        _ => Ok("disagree"),
    }
}

/// What is told of the last block of a code file, behind all others.
fn told_of_all(alloc: Global, code: &Code, piece: &str) -> Result<&'static str, Memory> {
    let defaults = Defaults::make(alloc, code)?;
    let mut answer = "none";
    for block in code.blocks.as_slice() {
        answer = told(alloc, code, &defaults, block, piece)?;
    }
    Ok(answer)
}

fn told_of_file(rt: &HostRuntime, piece: &str, name: &str) -> Option<&'static str> {
    let bytes = fs::read(rt, name).ok()?;
    let code = read(rt.alloc(), bytes.as_slice()).ok()?;
    told_of_all(rt.alloc(), &code, piece).ok()
}

/// The words are a piece and a code file; without any nothing is done.
fn main(rt: HostRuntime) -> ExitCode {
    let Ok(args) = env::args(&rt) else {
        return ExitCode::from(1);
    };
    let mut words = args.skip(1);
    let (Some(piece), Some(name)) = (words.next(), words.next()) else {
        return ExitCode::from(0);
    };
    match told_of_file(&rt, piece.as_str(), name.as_str()) {
        None => ExitCode::from(1),
        Some(answer) => match println!(rt; "{answer}") {
            Ok(_) => ExitCode::from(0),
            Err(_) => ExitCode::from(1),
        },
    }
}
