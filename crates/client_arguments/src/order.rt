//! What the arguments of a command line order.

ghost use Rattle.bank_model.specs.Sound.{IsTextWithin};
ghost use Rattle.client_saved.specs.Bounds.{IsName};
ghost use Rattle.client_arguments.specs.Reading.{IsInBounds};
ghost use Rattle.client_arguments.specs.Kept.{in_bounds_prop};

use client_core::Wish;
use ofx_types::Text;

/// What the arguments of a command line order.
#[derive(Drop)]
pub struct Order {
    /// The port of this machine at which the bank answers.
    pub port: u16,
    /// The client's name, 1 to 12 letters and digits of ASCII.
    pub name: Text,
    /// The user for whom it acts, 1 to 32 bytes.
    pub user: Text,
    /// The user's password, 1 to 64 bytes.
    pub pass: Text,
    /// What the user wishes: a wish of which a sound file can be made, or one that needs no file.
    pub wish: Wish,
    pub ghost named: { IsName name },
    pub ghost acts: { IsTextWithin 32 user },
    pub ghost bounded: { IsInBounds wish } by { in_bounds_prop wish },
}
