//! The laws of supported scripts, each the contract of a function that does nothing.

ghost use Rattle.pt_supported.specs.Laws.{BuiltBlocksGiveNothingOn};

/// No block of a supported script gives a value on (Language Reference 6.2.9).
pub fn blocks_of_supported_scripts_give_nothing_on()
    ensures { BuiltBlocksGiveNothingOn }
{}
