//! Whether a client may make the file of a wish: all its values are within their bounds.

ghost use Rattle.std.specs.Prelude.{◌↔◌, ◌≤◌, IsTrue, unsigned_abs};
ghost use Rattle.ofx_types.specs.Calendar.{IsDay};
ghost use Rattle.bank_model.specs.Sound as bounds;
ghost use Rattle.client_core.specs.Wishes.{IsSoundWish};

use bank_sound::{
    is_id, is_sound_account, is_sound_amount, is_sound_info, is_sound_letter, is_sound_recur,
};
use client_core::Wish;
use ofx_types::{AcctName, Cents, Day};

/// Whether a file is made for the wish, and its texts and numbers are within the bounds of that file.
pub(crate) fn is_sound_wish(wish: &Wish) -> bool
    ensures { IsTrue result ↔ IsSoundWish wish.now }
{
    match wish {
        Wish::Sync(account) => is_sound_account(account),
        Wish::Transfer(info) => is_sound_info(info),
        Wish::Modify(id, to, amount, due) => is_change(*id, to, *amount, *due),
        Wish::Cancel(id) | Wish::Stop(id) => is_id(*id),
        Wish::Repeat(recur, info) => is_sound_recur(*recur) && is_sound_info(info),
        Wish::Mail(subject, body) => is_sound_letter(subject, body),
        Wish::Check(_) | Wish::Show => false,
    }
}

/// Whether the change of a transfer has its values within their bounds.
fn is_change(id: u64, to: &AcctName, amount: Cents, due: Day) -> bool
    ensures { IsTrue result ↔ (bounds.IsId id × (bounds.IsSoundAccount to.now
        × ((unsigned_abs amount.0 ≤ 9999999999999) × IsDay due.0))) }
{
    is_id(id) && is_sound_account(to) && is_sound_amount(amount) && due.is_in_calendar()
}
