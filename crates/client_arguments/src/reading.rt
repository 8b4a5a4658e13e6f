//! All arguments of a command line, read once.

ghost use Rattle.std.specs.Prelude.{◌↔◌, IsTrue};
ghost use Rattle.bank_model.specs.Sound.{IsTextWithin};
ghost use Rattle.client_saved.specs.Bounds.{IsName};
ghost use Rattle.client_arguments.specs.Arguments.{AreArguments, IsOrdered};
ghost use Rattle.client_arguments.specs.Reading.{Reads};

use crate::account::is_within;
use crate::command::wish_of;
use crate::fault::ArgumentsFault;
use crate::number::port_of;
use crate::order::Order;
use client_saved::is_name;
use ofx_types::{Duplicate, Text};

/// The most bytes of a user's name and of a bank's id.
pub(crate) const MAX_NAME: usize = 32;

/// The most bytes of a password.
pub(crate) const MAX_PASS: usize = 64;

/// What the arguments say: PORT, STORE, CLIENT, USER, PASS, BANK and a command. `Usage` where they have another form.
///
/// ```rust
/// use client_arguments::{ArgumentsFault, order_of};
/// use client_core::Wish;
/// use ofx_types::Text;
///
/// let mut arguments = Vec::new(rt.alloc());
/// for word in "8080 alice.store c1 alice secret 121099999 show".split(' ') {
///     let word = Text::new(rt.alloc(), word.as_bytes(), 64).expect(&rt, "a word");
///     arguments.push(word).expect(&rt, "room");
/// }
/// let order = order_of(&arguments).expect(&rt, "an order");
/// let Wish::Show = order.wish else {
///     panic!(rt; "the command show");
/// };
/// assert_eq!(rt; order.port, 8080);
/// // The first word alone orders nothing.
/// assert!(rt; order_of(&arguments[..1]).err() == Some(ArgumentsFault::Usage));
/// ```
pub fn order_of(arguments: &[Text]) -> Result<Order, ArgumentsFault>
    ensures { Reads (AreArguments arguments.now) result }
{
    match arguments {
        [port, _store, name, user, pass, bank, command @ ..] => {
            ordered(port, name, user, pass, bank, command)
        }
        _ => Err(ArgumentsFault::Usage),
    }
}

/// What the single words order.
#[tactic(auto, using(crate::proofs::Bounds::wished_in))]
fn ordered(
    port: &Text,
    name: &Text,
    user: &Text,
    pass: &Text,
    bank: &Text,
    command: &[Text],
) -> Result<Order, ArgumentsFault>
    ensures { Reads (IsOrdered port.now name.now user.now pass.now bank.now command.now) result }
{
    if !are_parties(name, user, pass) || !is_within(bank, MAX_NAME) {
        return Err(ArgumentsFault::Usage);
    }
    let port = port_of(port)?;
    let wish = wish_of(bank, command)?;
    Ok(Order {
        port,
        name: name.copy()?,
        user: user.copy()?,
        pass: pass.copy()?,
        wish,
    })
}

/// Whether three arguments are a client's name, a user's name and a password.
fn are_parties(name: &Text, user: &Text, pass: &Text) -> bool
    ensures { IsTrue result ↔ (IsName name.now × (IsTextWithin 32 user.now × IsTextWithin 64 pass.now)) }
{
    is_name(name) && is_within(user, MAX_NAME) && is_within(pass, MAX_PASS)
}
