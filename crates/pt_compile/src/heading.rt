//! What a block has beside its instructions and names.

ghost use Rattle.std.specs.Prelude.{◌≡◌, slice_get, IfOk, if◌then◌else◌};
ghost use Rattle.std.specs.List.{list_any};
ghost use Rattle.std.specs.Option.{option_copied};
ghost use Rattle.pt_tree.specs.Blocks as B;
ghost use Rattle.pt_tree.specs.Fold.{exp_of};
ghost use Rattle.pt_tree.specs.StatementFold.{stms_of};
ghost use Rattle.pt_code.specs.declared.BlockKind.TheVariants as kind;
ghost use Rattle.law_files.specs.sem_compile.compile.ScriptCode.{keyword_only_count, kind_of, plain_count, rest_of};
ghost use Rattle.pt_compile.specs.PartialCode.{gives_at, gives_value};
ghost use Rattle.pt_block_names.specs.Named.{params_of};

use pt_acts::BlockActs;
use pt_assembler::Heading;
use pt_base::{ActNo, Line, Memory};
use pt_code::{BlockKind, Rest};
use pt_instr::TextNo;
use pt_tree::{ActKind, Expr, Parameters, Stmt};
use std::alloc::Global;

/// The heading of a block. Parameters that can't be counted are want of memory.
#[tactic(auto, using(pt_tree::proofs::Folds::expressions, crate::proofs::Counts::counts))]
pub fn heading_of(
    name: TextNo,
    kind: BlockKind,
    first_line: Line,
    parameters: Option<&Parameters>,
) -> Result<Heading, Memory>
    ensures { IfOk result (λ h. h ≡ record {
      name = name;
      kind = kind;
      first_line = first_line;
      parameters = plain_count (params_of (option_copied parameters.entry));
      rest = rest_of (params_of (option_copied parameters.entry));
      keyword_only = keyword_only_count (params_of (option_copied parameters.entry));
    }) }
{
    match parameters {
        None => Ok(Heading {
            name,
            kind,
            first_line,
            parameters: 0,
            rest: Rest {
                positional: false,
                named: false,
            },
            keyword_only: 0,
        }),
        Some(some) => {
            let parameters = count(some.positional.len())?;
            let keyword_only = count(some.keyword_only.len())?;
            Ok(Heading {
                name,
                kind,
                first_line,
                parameters,
                rest: Rest {
                    positional: some.star.is_some(),
                    named: some.double_star.is_some(),
                },
                keyword_only,
            })
        }
    }
}

fn count(len: usize) -> Result<u32, Memory>
    ensures { IfOk result (λ n. n ≡ len) }
{
    u32::try_from(len).map_err(|_| Memory)
}

/// The kind of a function with statements: one that gives values on makes a generator
/// (Language Reference 6.2.9).
#[tactic(auto, using(crate::proofs::Yields::kinds))]
pub fn function_kind(alloc: Global, body: &[Stmt]) -> Result<BlockKind, Memory>
    ensures { IfOk result (λ k. k ≡ kind_of (B.of_function (stms_of body.now))) }
{
    let acts = BlockActs::of_function(alloc, body)?;
    Ok(kind_by(&acts))
}

/// The kind of a lambda, likewise.
#[tactic(auto, using(crate::proofs::Yields::kinds))]
pub fn lambda_kind(alloc: Global, line: Line, body: &Expr) -> Result<BlockKind, Memory>
    ensures { IfOk result (λ k. k ≡ kind_of (B.of_lambda line.0 (exp_of body.now))) }
{
    let acts = BlockActs::of_lambda(alloc, line, body)?;
    Ok(kind_by(&acts))
}

/// The kind of what takes arguments, by its acts.
fn kind_by(acts: &BlockActs) -> BlockKind
    ensures { result
        ≡ (if list_any (λ r. gives_value r.kind) acts.now then kind.Generator else kind.Function) }
{
    if give_values(acts) {
        BlockKind::Generator
    } else {
        BlockKind::Function
    }
}

/// Some act gives a value on.
#[tactic(auto, using(crate::proofs::Yields::rows))]
fn give_values(acts: &BlockActs) -> bool
    ensures { result ≡ list_any (λ r. gives_value r.kind) acts.now }
{
    for number in 0..acts.count() {
        if gives_value_at(acts, ActNo(number)) {
            return true;
        }
    }
    false
}

fn gives_value_at(acts: &BlockActs, act: ActNo) -> bool
    ensures { result ≡ gives_at (slice_get acts.now act.0) }
{
    match acts.get(act) {
        Some(row) => matches!(row.kind, ActKind::Yield | ActKind::Delegate),
        None => false,
    }
}
