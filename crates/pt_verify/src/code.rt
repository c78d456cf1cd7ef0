//! Code that fits.
ghost use Rattle.std.specs.Prelude.{◌≡◌, IfErr, IfOk, OnOk};
ghost use Rattle.sem_fits.specs.fits.Fits.{AllFit};
ghost use Rattle.pt_verify.specs.Verdict.{IsRefused};

use crate::block::block_refusal;
use crate::error::{VerifyErr, error_of};
use pt_base::Memory;
use pt_budget::Budget;
use pt_code::Code;
use pt_standing::Defaults;
use std::alloc::Global;
use std::marker::Model;

/// The steps that the held Leaves of all blocks may take together. Those of a script take no more: a
/// completion gets a slot by a `finally` part or a handler that binds what it catches, and two by an
/// item of a `with`; one instruction takes such a slot, and it holds Leaves for two places at most,
/// the start and the end of the loop around. Each of these takes two steps, and each `break` and
/// `continue` one, so that is 4 steps at most for each of the 2^20 bytes that a script may have.
const MOST_WAYS: u64 = 0x0040_0000;

/// Code that fits.
#[derive(Debug)]
pub struct Verified {
    code: Code,
}

impl Drop for Verified {
    fn drop(self) {
        let Verified { code: _ } = self;
    }
}

impl Model for Verified {
    ghost use Rattle.pt_code.specs.declared.Code.{Code};

    ghost Value = { Code };

    ghost view = { λ v. v.code };
}

impl Verified {
    ghost use Rattle.std.specs.Prelude.{◌≡◌};

    pub fn code(&self) -> &Code
        ensures { result.now ≡ self.now }
    {
        &self.code
    }

    pub fn into_code(self) -> Code
        ensures { result ≡ self }
    {
        let Verified { code } = self;
        code
    }
}

/// That all blocks fit, or why the first is refused that doesn't.
fn check(alloc: Global, code: &Code) -> Result<(), VerifyErr>
    ensures fits { OnOk result (AllFit code.now) }
    ensures refused { IfErr result (λ e. IsRefused code.now e) }
{
    let Ok(defaults) = Defaults::make(alloc, code) else {
        return Err(VerifyErr::Memory);
    };
    let mut budget = Budget::new(MOST_WAYS);
    let blocks = code.blocks.as_slice();
    for number in 0..blocks.len() {
        match block_refusal(alloc, code, &defaults, &blocks[number], &mut budget) {
            Ok(None) => {}
            Ok(Some(refusal)) => return Err(error_of(number, refusal)),
            Err(Memory) => return Err(VerifyErr::Memory),
        }
    }
    Ok(())
}

/// Verifies code: each of its blocks fits, so that it is never stuck (FITS.md), or its first block is
/// refused that doesn't. The code is dropped at a refusal. Code that was read is verified exactly
/// where it fits, want of memory aside (`code_that_fits_is_verified`). Of a block whose bytes are no
/// instructions, as none is of code that was read, nothing is told.
///
/// # Errors
///
/// Why the first block is refused that doesn't fit, and where. `Memory` for want of it, where held
/// Leaves take more than 2^22 steps, those of all blocks together, or more than 2^25 names are
/// looked at for pairs of a block and a list, as a code file may have (FITS.md), and where a number
/// passes 2^32, as in none.
pub fn verify(alloc: Global, code: Code) -> Result<Verified, VerifyErr>
    ensures fits { IfOk result (λ v. (v ≡ code) × AllFit code) }
    ensures refused { IfErr result (λ e. IsRefused code e) }
{
    check(alloc, &code)?;
    Ok(Verified { code })
}
