//! What the user of a client wishes in a rehearsal.

ghost use Rattle.std.specs.Prelude.{◌≡◌, ◌<◌, Some, None, IfOk};
ghost use Rattle.ofx_types.specs.Calendar.{IsMoment};
ghost use Rattle.ofx_world.specs.Chance as chances;
ghost use Rattle.ofx_world.specs.Rehearsal as rules;

use crate::rehearsal::bank::{account, text};
use crate::rehearsal::chance::Chance;
use client_core::Wish;
use ofx_types::{AcctName, Cents, Day, Freq, Moment, OutOfMemory, Recur, XferInfo};
use ofx_values::day_of;
use std::alloc::Global;

/// The number of the account that belongs to all users.
const SHARED: u32 = 3;

/// How many transfers a recurring one makes.
const COUNT: u32 = 3;

/// What the user of a client wishes.
pub(crate) fn wish(
    alloc: Global,
    chance: &mut Chance,
    client: u32,
    now: Moment,
) -> Result<Wish, OutOfMemory>
    requires client { client < 3 }
    requires moment { IsMoment now.0 }
    ensures { IfOk result (λ wish. rules.wish_drawn client now chance.old.state ≡ record { wish = wish; state = chance.new.state }) }
{
    let own = own_or_shared(chance, client);
    let kind = chance.draw(5);
    let to = chance.draw(4);
    wish_of(
        kind,
        account(alloc, own)?,
        account(alloc, to)?,
        alloc,
        chance,
        now,
    )
}

/// The number of the account of a client's user, or of the one that belongs to all.
fn own_or_shared(chance: &mut Chance, client: u32) -> u32
    requires { client < 3 }
    ensures account { rules.account result ≡ rules.from_drawn client chance.old.state }
    ensures below { result < 4 }
    ensures state { chance.new.state ≡ chances.next chance.old.state }
{
    if chance.draw(2) == 0 { client } else { SHARED }
}

/// The wish of a kind from 0 to 4.
fn wish_of(
    kind: u32,
    from: AcctName,
    to: AcctName,
    alloc: Global,
    chance: &mut Chance,
    now: Moment,
) -> Result<Wish, OutOfMemory>
    requires { IsMoment now.0 }
    ensures { IfOk result (λ wish. rules.wished_as from to now kind chance.old.state ≡ record { wish = wish; state = chance.new.state }) }
{
    match kind {
        0 => Ok(Wish::Sync(from)),
        1 => Ok(Wish::Transfer(transfer(from, to, chance))),
        2 => Ok(Wish::Transfer(later_transfer(from, to, chance, 30_000, now))),
        3 => Ok(Wish::Repeat(weekly(), later_transfer(from, to, chance, 5_000, now))),
        _ => Ok(Wish::Mail(text(alloc, b"s")?, text(alloc, b"b")?)),
    }
}

/// Three transfers, a week apart.
fn weekly() -> Recur
    ensures { result ≡ rules.weekly }
{
    Recur {
        count: Some(COUNT),
        freq: Freq::Weekly,
    }
}

/// A transfer on the business day.
fn transfer(from: AcctName, to: AcctName, chance: &mut Chance) -> XferInfo
    ensures info { result ≡ rules.transfer from to (rules.cents_drawn 30000 chance.old.state) None }
    ensures state { chance.new.state ≡ chances.next chance.old.state }
{
    XferInfo {
        from,
        to,
        amount: amount(chance, 30_000),
        due: None,
    }
}

/// A transfer on one of the next five days.
fn later_transfer(
    from: AcctName,
    to: AcctName,
    chance: &mut Chance,
    most: u32,
    now: Moment,
) -> XferInfo
    requires most { 0 < most }
    requires moment { IsMoment now.0 }
    ensures info { result ≡ rules.transfer from to (rules.cents_drawn most chance.old.state)
        (Some (rules.day_drawn now (chances.next chance.old.state))) }
    ensures state { chance.new.state ≡ chances.next (chances.next chance.old.state) }
{
    let amount = amount(chance, most);
    let due = Some(day(chance, now));
    XferInfo {
        from,
        to,
        amount,
        due,
    }
}

/// An amount from one cent up.
fn amount(chance: &mut Chance, most: u32) -> Cents
    requires { 0 < most }
    ensures amount { result ≡ rules.cents_drawn most chance.old.state }
    ensures state { chance.new.state ≡ chances.next chance.old.state }
{
    Cents(1 + i64::from(chance.draw(most)))
}

/// One of the next five days.
fn day(chance: &mut Chance, now: Moment) -> Day
    requires { IsMoment now.0 }
    ensures day { result ≡ rules.day_drawn now chance.old.state }
    ensures state { chance.new.state ≡ chances.next chance.old.state }
{
    let ahead = 1 + chance.draw(5) as i32;
    Day(day_of(now).0 + ahead)
}
