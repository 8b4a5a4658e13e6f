//! One turn of a rehearsal: an hour goes by, and a step is drawn and made.

ghost use Rattle.std.specs.Prelude.{◌≡◌, ◌↔◌, ◌<◌, length, IfOk, IsTrue, OnOk, slice_get};
ghost use Rattle.ofx_types.specs.Calendar.{IsMoment};
ghost use Rattle.ofx_world.specs.Chance as chances;
ghost use Rattle.ofx_world.specs.Rehearsal as rules;
ghost use Rattle.ofx_world.specs.Rehearsal.{hour_of};
ghost use Rattle.ofx_world.specs.World.{AreSteps};

use crate::rehearsal::chance::Chance;
use crate::rehearsal::wish::wish;
use crate::step::Step;
use crate::world::World;
use ofx_types::{Moment, OutOfMemory, Sequence};
use std::alloc::Global;

/// 1 January 2024, 00:00:00.
const BEGINNING: i64 = 1_704_067_200;

const HOUR: i64 = 3_600;

/// An hour goes by, and then what is drawn happens.
pub(crate) fn run_turn(
    alloc: Global,
    world: &mut World,
    chance: &mut Chance,
    turn: u32,
) -> Result<(), OutOfMemory>
    requires { turn < 2000 }
    ensures steps { OnOk result (AreSteps world.old (rules.turn_steps world.old turn chance.old.state) world.new) }
    ensures state { OnOk result (chance.new.state ≡ (rules.turn_drawn world.old (hour_of turn) chance.old.state).state) }
{
    let now = hour(turn);
    world.run(&[Step::Clock(now)])?;
    match drawn(alloc, world, chance, now)? {
        Some(step) => world.run(&[step]),
        None => Ok(()),
    }
}

/// The moment of a turn.
fn hour(turn: u32) -> Moment
    requires { turn < 2000 }
    ensures hour { result ≡ hour_of turn }
    ensures moment { IsMoment result.0 }
{
    Moment(BEGINNING + HOUR * (i64::from(turn) + 1))
}

/// The step that is drawn for a moment. None where it would have nothing to be done with.
#[tactic(auto, unfolding(crate::specs::Rehearsal::turn_drawn))]
fn drawn(
    alloc: Global,
    world: &World,
    chance: &mut Chance,
    now: Moment,
) -> Result<Option<Step>, OutOfMemory>
    requires { IsMoment now.0 }
    ensures { IfOk result (λ step. rules.turn_drawn world.now now chance.old.state
        ≡ record { step = step; state = chance.new.state }) }
{
    let client = chance.draw(3);
    let kind = chance.draw(10);
    step_of(alloc, world, chance, now, client, kind)
}

/// The step of a client and a kind from 0 to 9.
#[tactic(auto, unfolding(crate::specs::Rehearsal::kind_drawn))]
fn step_of(
    alloc: Global,
    world: &World,
    chance: &mut Chance,
    now: Moment,
    client: u32,
    kind: u32,
) -> Result<Option<Step>, OutOfMemory>
    requires client { client < 3 }
    requires kind { kind < 10 }
    requires moment { IsMoment now.0 }
    ensures { IfOk result (λ step. rules.kind_drawn world.now now client kind chance.old.state
        ≡ record { step = step; state = chance.new.state }) }
{
    if kind < 3 {
        return making(alloc, world, chance, client, now);
    }
    if kind == 3 {
        return Ok(Some(Step::SendAgain(client)));
    }
    if kind < 6 {
        return delivery(world, chance);
    }
    if kind < 8 {
        return reply_delivery(world, chance, client);
    }
    if kind == 8 {
        return Ok(Some(Step::Due));
    }
    Ok(Some(trouble(chance, client)))
}

/// A file is made where the client has nothing outstanding.
fn making(
    alloc: Global,
    world: &World,
    chance: &mut Chance,
    client: u32,
    now: Moment,
) -> Result<Option<Step>, OutOfMemory>
    requires client { client < 3 }
    requires moment { IsMoment now.0 }
    ensures { IfOk result (λ step. rules.making_drawn client now chance.old.state (slice_get world.now.customers client)
        ≡ record { step = step; state = chance.new.state }) }
{
    if !may_make(world, client) {
        return Ok(None);
    }
    let wish = wish(alloc, chance, client, now)?;
    Ok(Some(Step::Make(client, wish)))
}

/// Whether there is such a client, and it has nothing outstanding.
fn may_make(world: &World, client: u32) -> bool
    ensures { IsTrue result ↔ rules.IsFree (slice_get world.now.customers client) }
{
    match world.client(client) {
        Some(known) => known.outstanding().is_none(),
        None => false,
    }
}

/// How many files there are. More than a step can name are more than memory holds.
fn count_of(files: &[Sequence<u8>]) -> Result<u32, OutOfMemory>
    ensures { IfOk result (λ count. count ≡ length files.now) }
{
    match u32::try_from(files.len()) {
        Ok(count) => Ok(count),
        Err(_) => Err(OutOfMemory),
    }
}

/// A request arrives at the server, where there is one.
fn delivery(world: &World, chance: &mut Chance) -> Result<Option<Step>, OutOfMemory>
    ensures { IfOk result (λ step. rules.delivery_drawn (length world.now.requests) chance.old.state
        ≡ record { step = step; state = chance.new.state }) }
{
    match count_of(world.requests())? {
        0 => Ok(None),
        count => Ok(Some(Step::Deliver(chance.draw(count)))),
    }
}

/// A reply arrives at the client, where there is one.
fn reply_delivery(
    world: &World,
    chance: &mut Chance,
    client: u32,
) -> Result<Option<Step>, OutOfMemory>
    ensures { IfOk result (λ step. rules.reply_drawn client (length world.now.replies) chance.old.state
        ≡ record { step = step; state = chance.new.state }) }
{
    match count_of(world.replies())? {
        0 => Ok(None),
        count => Ok(Some(Step::DeliverReply(client, chance.draw(count)))),
    }
}

/// An append will fail, or one half starts anew.
fn trouble(chance: &mut Chance, client: u32) -> Step
    ensures step { result ≡ rules.trouble client (chances.draw 4 chance.old.state) }
    ensures state { chance.new.state ≡ chances.next chance.old.state }
{
    match chance.draw(4) {
        0 => Step::Fault(false),
        1 => Step::Fault(true),
        2 => Step::RestartServer,
        _ => Step::RestartClient(client),
    }
}
