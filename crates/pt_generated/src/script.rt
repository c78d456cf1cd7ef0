//! A script of any length, to try the program on.

ghost use Rattle.std.specs.Prelude.{◌≡◌, ◌++◌, IfOk, OnOk, string_bytes};
ghost use Rattle.pt_generated.specs.Script.{function_lines, script_of};

use pt_base::Memory;
use std::alloc::Global;

/// Puts the ten lines of a number behind a text: a function of that number, and its call.
fn push_function(text: &mut String, number: u32) -> Result<(), Memory>
    ensures { OnOk result
        (string_bytes text.new ≡ string_bytes text.old ++ function_lines number) }
{
    write!(
        text,
        "def f{number}(x):
    try:
        if x % 2 == 0:
            return x + {number}
        for j in range(3):
            x += j
    finally:
        k = x
    return x * 2
total += f{number}({number})
"
    )?;
    Ok(())
}

/// The script of a count: for each number below it a function of its own, which is called, and at
/// the end the sum of what they give is printed.
pub fn script_of(alloc: Global, count: u32) -> Result<Vec<u8>, Memory>
    ensures { IfOk result (λ text. text.items ≡ script_of count) }
{
    let mut text = String::from_str(alloc, "total = 0\n")?;
    for number in 0..count {
        push_function(&mut text, number)?;
    }
    text.push_str("print(total)\n")?;
    Ok(text.into_bytes())
}
