//! The tokens of objects (OFX 1.6, "Data Synchronization").

ghost use Rattle.std.specs.Prelude.{◌≡◌, IfOk};
ghost use Rattle.std.specs.Fmt.{decimal};
ghost use Rattle.bank_model.specs.Sync as rules;

use ofx_types::{OutOfMemory, Text};
use ofx_values::{print_number, read_number};
use std::alloc::Global;

/// The most digits of a token.
const MAX_DIGITS: usize = 10;

/// The most bytes of a token.
const MAX_TOKEN: u32 = 64;

/// The number that a token is, where it has 1 to 10 digits.
pub fn token_of(text: &Text) -> Option<u64>
    ensures { result ≡ rules.token_of text.now }
{
    read_number(text.as_bytes(), MAX_DIGITS)
}

/// The digits of a token.
pub fn number_text(alloc: Global, number: u64) -> Result<Text, OutOfMemory>
    ensures { IfOk result (λ text. text ≡ decimal number) }
{
    let mut digits = Vec::new(alloc);
    print_number(number, &mut digits)?;
    match Text::new(alloc, &digits, MAX_TOKEN) {
        Ok(text) => Ok(text),
        Err(_) => Err(OutOfMemory),
    }
}
