//! The numbers of commands.
ghost use Rattle.std.specs.Prelude.{◌≡◌};
ghost use Rattle.pt_commands.specs.Numbers.{number_of};

/// The number that decimal digits write, of at most 32 bits.
pub fn number(text: &str) -> Option<u32>
    ensures { result ≡ number_of 32 text.now }
{
    if text.starts_with('+') {
        return None;
    }
    text.parse::<u32>().ok()
}

/// The number that decimal digits write, of at most 64 bits.
pub fn count(text: &str) -> Option<u64>
    ensures { result ≡ number_of 64 text.now }
{
    if text.starts_with('+') {
        return None;
    }
    text.parse::<u64>().ok()
}
