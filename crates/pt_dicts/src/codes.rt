ghost use Rattle.std.specs.Prelude.{◌≡◌, ◌++◌, ◌∷◌, [], pos, IfOk, OnOk};
ghost use Rattle.std.specs.Fmt.{signed_decimal};
ghost use Rattle.pt_dicts.specs.Codes.{bytes_codes, codes_of, escaped, IsShort};
ghost use Rattle.pt_dicts.specs.Keys.{name_codes};

use pt_base::{Memory, Seq};
use pt_heap::Key;
use std::alloc::Global;

/// What ends a text and a tuple.
pub const END: u8 = 255;

/// What stands before a byte that could be taken for an end.
const ESCAPE: u8 = 254;

/// Writes a byte of a text.
fn push_byte(codes: &mut Seq<u8>, byte: u8) -> Result<(), Memory>
    ensures { OnOk result (codes.new ≡ codes.old ++ escaped byte) }
{
    if byte < ESCAPE {
        return codes.push(byte);
    }
    codes.push(ESCAPE)?;
    codes.push(byte - ESCAPE)
}

/// Writes the bytes of a text and its end.
pub fn push_bytes(codes: &mut Seq<u8>, bytes: &[u8]) -> Result<(), Memory>
    ensures { OnOk result (codes.new ≡ codes.old ++ bytes_codes bytes.now) }
{
    for byte in bytes {
        push_byte(codes, *byte)?;
    }
    codes.push(END)
}

/// Writes a number as its decimal digits.
pub fn push_number(alloc: Global, codes: &mut Seq<u8>, number: i128) -> Result<(), Memory>
    ensures ok { OnOk result (codes.new ≡ codes.old ++ bytes_codes (signed_decimal number)) }
    ensures short { IsShort number }
{
    let digits = format!(in alloc; "{number}")?;
    push_bytes(codes, digits.as_bytes())
}

/// The key of a name.
pub fn name_key(alloc: Global, name: &str) -> Result<Key, Memory>
    ensures { IfOk result (λ key. key ≡ name_codes name.now) }
{
    let mut codes = Seq::new(alloc);
    codes.push(4)?;
    push_bytes(&mut codes, name.as_bytes())?;
    Ok(Key::new(codes))
}
