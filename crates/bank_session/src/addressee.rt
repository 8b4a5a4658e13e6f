//! Whom a letter is for, and the number of the next entry.

ghost use Rattle.bank_session.specs.Letters.{IsAddressed};

use bank_desk::Desk;
use bank_opening::LetterFault;
use ofx_types::{Text, UserId};

/// The user of that name, and the number of the next entry. The user is looked for first. Takes no memory.
pub fn addressee(desk: &Desk, name: &Text) -> Result<(UserId, u64), LetterFault>
    ensures { IsAddressed desk.now name.now result }
{
    match desk.setup().user(name) {
        None => Err(LetterFault::NoUser),
        Some(user) => match desk.next_number() {
            Some(number) => Ok((user, number)),
            None => Err(LetterFault::Full),
        },
    }
}
