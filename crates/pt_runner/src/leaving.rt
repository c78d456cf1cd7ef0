ghost use Rattle.std.specs.Prelude.{◌≡◌, [], ◌∷◌, slice_get, IfOk};
ghost use Rattle.std.specs.Option.{option_copied};
ghost use Rattle.sem_rows.specs.pt_host.Leaving.{error_at, exits_with, exits_with_object};
ghost use Rattle.sem_rows.specs.pt_host.Leaving.{leaves_by, status_of};
ghost use Rattle.pt_runner.specs.Ends.{end_by, table_name};
ghost use Rattle.pt_tracebacks.specs.Summaries.{summaries};

use crate::ending::RunEnd;
use crate::naming::TableNames;
use pt_base::{Dup, Line, Memory, ObjId, What};
use pt_dicts::object_at;
use pt_heap::{Error, Heap, Object, Value};
use pt_machine::CodeTables;
use pt_tracebacks::summaries;
use sem_rows::{SYSTEM_EXIT, derives};
use std::alloc::Global;

/// The exception that a value is, if it is one.
fn error_at(heap: &Heap, value: Value) -> Option<&Error>
    ensures { option_copied result ≡ error_at heap.now value }
{
    let Value::Obj(id) = value else {
        return None;
    };
    match object_at(heap, id) {
        Some(Object::Error(error)) => Some(error),
        _ => None,
    }
}

/// An integer modulo 256, as an exit status.
fn status(number: i128) -> u8
    ensures { result ≡ status_of number }
{
    number.rem_euclid(256) as u8
}

/// An exit with an object: a text is told, and the status is 1.
fn exit_with_object(alloc: Global, heap: &Heap, id: ObjId, line: Line) -> Result<RunEnd, Memory>
    ensures { IfOk result (λ end. (told : _)
        → end ≡ end_by line told (exits_with_object (slice_get heap.now id.0))) }
{
    match object_at(heap, id) {
        Some(Object::Str(text)) => Ok(RunEnd::Exited {
            status: 1,
            text: Some(text.text().dup(alloc)?),
        }),
        _ => Ok(RunEnd::Outside {
            what: What::Exit,
            line,
        }),
    }
}

/// An exit with one argument of a SystemExit.
fn exit_with_value(alloc: Global, heap: &Heap, value: Value, line: Line) -> Result<RunEnd, Memory>
    ensures { IfOk result (λ end. (told : _)
        → end ≡ end_by line told (exits_with heap.now (value ∷ []))) }
{
    match value {
        Value::None => Ok(RunEnd::Exited {
            status: 0,
            text: None,
        }),
        Value::Bool(truth) => Ok(RunEnd::Exited {
            status: truth as u8,
            text: None,
        }),
        Value::Int(number) => Ok(RunEnd::Exited {
            status: status(number),
            text: None,
        }),
        Value::Obj(id) => exit_with_object(alloc, heap, id, line),
        Value::Ellipsis | Value::NotImplemented => Ok(RunEnd::Outside {
            what: What::Exit,
            line,
        }),
    }
}

/// An exit by a SystemExit with these arguments (Library Reference, `sys.exit`,
/// "Built-in Exceptions").
fn exit_with(alloc: Global, heap: &Heap, args: &[Value], line: Line) -> Result<RunEnd, Memory>
    ensures { IfOk result (λ end. (told : _)
        → end ≡ end_by line told (exits_with heap.now args.now)) }
{
    match args.len() {
        0 => Ok(RunEnd::Exited {
            status: 0,
            text: None,
        }),
        1 => exit_with_value(alloc, heap, args[0], line),
        _ => Ok(RunEnd::Outside {
            what: What::Exit,
            line,
        }),
    }
}

/// An end by an exception that leaves the module and is no SystemExit.
fn raised(
    alloc: Global,
    heap: &Heap,
    tables: &CodeTables,
    exception: Value,
) -> Result<RunEnd, Memory>
    ensures { IfOk result
        (λ end. end ≡ RunEnd.Raised (summaries (table_name tables.now) heap.now exception)) }
{
    let exceptions = summaries(alloc, heap, &TableNames { tables }, exception)?;
    Ok(RunEnd::Raised { exceptions })
}

/// What becomes of an exception that leaves the module, in whose frame this line stands.
pub(crate) fn leaving(
    alloc: Global,
    heap: &Heap,
    tables: &CodeTables,
    exception: Value,
    line: Line,
) -> Result<RunEnd, Memory>
    ensures { IfOk result
        (λ end. end ≡ end_by line (summaries (table_name tables.now) heap.now exception)
        (leaves_by heap.now (error_at heap.now exception))) }
{
    match error_at(heap, exception) {
        Some(error) => {
            if derives(heap, SYSTEM_EXIT, error.class) {
                exit_with(alloc, heap, error.args.as_slice(), line)
            } else {
                raised(alloc, heap, tables, exception)
            }
        }
        None => raised(alloc, heap, tables, exception),
    }
}
