//! Steps of the world, one after another, and what comes of them. Two clients of alice make transfers of 10.00 and mails.

ghost use Rattle.std.specs.Prelude.{◌≡◌, ◌∷◌, [], codes, IfOk};
ghost use Rattle.ofx_types.specs.TextRules.{trimmed};
ghost use Rattle.client_core.specs.ClientForm.{new_client};
ghost use Rattle.ofx_world.specs.Kept.{HasLawfulClock};

use bank_core::Book;
use bank_model::{Printer, Setup};
use bank_samples::keys::keys;
use bank_samples::sample::SETUP;
use client_core::{Client, Wish};
use ofx_types::{
    AcctKind, AcctName, Cents, Day, Moment, OutOfMemory, Sequence, Text, UserId, XferInfo,
};
use ofx_world::{Step, World};
use std::alloc::Global;
use std::test::Fail;

/// 31 January 2024, 12:00:00.
const NOON: Moment = Moment(1_706_702_400);

/// It as replies tell it.
const NOON_REPORTED: &[u8] = b"<DTSERVER>20240131120000";

/// An hour later.
const LATER: Moment = Moment(1_706_706_000);

/// A day later.
const NEXT_DAY: Moment = Moment(1_706_788_800);

/// Its day.
const TOMORROW: Day = Day(19_754);

/// The number of a client that isn't there.
const NOBODY: u32 = 2;

/// A step, in short. Where it doesn't say otherwise it is the first client's.
#[derive(Clone, Copy, Debug)]
enum Do {
    /// A transfer on the business day.
    Make,
    /// A transfer on the next day.
    MakeDated,
    Mail,
    OtherMakes,
    NobodyMakes,
    Again,
    NobodyAgain,
    ClientAnew,
    NobodyAnew,
    Deliver(u32),
    Reply(u32),
    ReplyToOther(u32),
    ReplyToNobody(u32),
    Due,
    Letter,
    LetterToNobody,
    Fault(bool),
    ServerAnew,
    Later,
    NextDay,
}

use Do::{
    Again, ClientAnew, Deliver, Due, Fault, Later, Letter, LetterToNobody, Mail, Make, MakeDated,
    NextDay, NobodyAgain, NobodyAnew, NobodyMakes, OtherMakes, Reply, ReplyToNobody, ReplyToOther,
    ServerAnew,
};

/// How many requests and replies there are, events that have happened, entries, and rows that both clients have; and whether the
/// first one's file is outstanding.
type Came = ([u64; 5], bool);

/// What is seen of a world without its bank.
#[derive(Clone, Copy)]
struct Seen {
    requests: u64,
    replies: u64,
    events: u64,
    rows: u64,
    outstanding: bool,
    replied: Replied,
}

/// What is seen of the replies: whether all are the same bytes, and whether the first tells noon.
#[derive(Clone, Copy)]
struct Replied {
    alike: bool,
    at_noon: bool,
}

/// Cases whose replies are all the same bytes.
const CASES: &[(&str, &[Do], Came)] = &[
    (
        "a file that comes again gets the kept bytes, and its reply is taken once",
        &[Make, Deliver(0), Deliver(0), Reply(1), Deliver(0), Reply(2)],
        ([1, 3, 3, 1, 1], false),
    ),
    (
        "an event whose append failed and whose record stands is adopted, and its file gets the kept reply",
        &[Make, Fault(true), Deliver(0), Again, Deliver(1), Reply(0)],
        ([2, 1, 2, 1, 1], false),
    ),
    (
        "an event whose append failed without its record has never been",
        &[Make, Fault(false), Deliver(0), Again, Deliver(1), Reply(0)],
        ([2, 1, 1, 1, 1], false),
    ),
    (
        "a failed append gives no reply, and changes nothing yet",
        &[Make, Fault(true), Deliver(0), Reply(0)],
        ([1, 0, 0, 0, 0], true),
    ),
    (
        "one reply that comes twice is taken once",
        &[Make, Deliver(0), Reply(0), Reply(0)],
        ([1, 1, 1, 1, 1], false),
    ),
    (
        "the reply to a mail that comes twice is taken once",
        &[Mail, Deliver(0), Reply(0), Reply(0)],
        ([1, 1, 1, 1, 1], false),
    ),
    (
        "a reply that was accepted is saved",
        &[Make, Deliver(0), Reply(0), ClientAnew],
        ([1, 1, 1, 1, 1], false),
    ),
    (
        "replies after the client has started anew",
        &[
            Make,
            Deliver(0),
            Deliver(0),
            ClientAnew,
            Reply(1),
            ClientAnew,
            Reply(0),
        ],
        ([1, 2, 2, 1, 1], false),
    ),
    (
        "a server that starts anew has what was pending and stands",
        &[
            Make,
            Fault(true),
            Deliver(0),
            ServerAnew,
            Deliver(0),
            Reply(0),
        ],
        ([1, 1, 2, 1, 1], false),
    ),
    (
        "a server that starts anew settles what was pending",
        &[Make, Fault(true), Deliver(0), ServerAnew],
        ([1, 0, 1, 1, 0], true),
    ),
    (
        "a server that starts anew lacks what was pending and doesn't stand",
        &[Make, Fault(false), Deliver(0), ServerAnew],
        ([1, 0, 0, 0, 0], true),
    ),
    (
        "a fault that is set and never used",
        &[Make, Deliver(0), Fault(false), Due, ServerAnew, Reply(0)],
        ([1, 1, 1, 1, 1], false),
    ),
    (
        "a fault that is set stays set when the server starts anew",
        &[Make, Fault(false), ServerAnew, Deliver(0)],
        ([1, 0, 0, 0, 0], true),
    ),
    (
        "a client that starts anew before it has saved a file",
        &[ClientAnew, Make, ClientAnew, Again, Deliver(1), Reply(0)],
        ([2, 1, 1, 1, 1], false),
    ),
    (
        "nothing is made while a file is outstanding",
        &[Make, Make, Make],
        ([1, 0, 0, 0, 0], true),
    ),
    (
        "a transfer that is due is posted once",
        &[MakeDated, Deliver(0), Due, NextDay, Due, Due, Reply(0)],
        ([1, 1, 2, 2, 1], false),
    ),
    (
        "due work whose append failed is settled by a letter",
        &[MakeDated, Deliver(0), NextDay, Fault(true), Due, Letter],
        ([1, 1, 3, 3, 0], true),
    ),
    (
        "due work without its record is done when it is asked for again",
        &[MakeDated, Deliver(0), NextDay, Fault(false), Due, Due],
        ([1, 1, 2, 2, 0], true),
    ),
    (
        "a letter is an event; what is due does nothing here",
        &[Letter, Due, Letter],
        ([0, 0, 2, 2, 0], false),
    ),
    (
        "the moment of an event that was pending is the one at which it came",
        &[
            Make,
            Fault(true),
            Deliver(0),
            Later,
            Deliver(0),
            Deliver(0),
            Reply(1),
        ],
        ([1, 2, 3, 1, 1], false),
    ),
    (
        "what names nothing does nothing",
        &[Again, Deliver(0), Reply(0), Make, Deliver(1), Reply(1)],
        ([1, 0, 0, 0, 0], true),
    ),
    (
        "a client that isn't there does nothing",
        &[
            NobodyMakes,
            NobodyAgain,
            NobodyAnew,
            Make,
            Deliver(0),
            ReplyToNobody(0),
        ],
        ([1, 1, 1, 1, 0], true),
    ),
    (
        "a letter to nobody isn't written, and settles",
        &[Make, Fault(true), Deliver(0), LetterToNobody],
        ([1, 0, 1, 1, 0], true),
    ),
    (
        "a client refuses the reply to another's file",
        &[Make, OtherMakes, Deliver(0), ReplyToOther(0)],
        ([2, 1, 1, 1, 0], true),
    ),
];

/// Cases with replies to several files.
const MIXED: &[(&str, &[Do], Came)] = &[
    (
        "replies to earlier files are refused, whatever they say, while a later one is outstanding",
        &[
            Make,
            Deliver(0),
            Reply(0),
            Make,
            Deliver(1),
            Deliver(0),
            Reply(0),
            Reply(2),
            Reply(1),
        ],
        ([2, 3, 3, 2, 2], false),
    ),
    (
        "both clients' files are executed, in whatever order they come",
        &[
            Make,
            OtherMakes,
            Deliver(1),
            Deliver(0),
            ReplyToOther(0),
            Reply(1),
        ],
        ([2, 2, 2, 2, 3], false),
    ),
];

fn text(alloc: Global, letters: &[u8]) -> Result<Text, Fail>
    ensures { IfOk result (λ text. text ≡ trimmed letters.now) }
{
    Ok(Text::new(alloc, letters, 32)?)
}

fn account(alloc: Global, number: &[u8], kind: AcctKind) -> Result<AcctName, Fail> {
    Ok(AcctName {
        bank: text(alloc, b"121099999")?,
        number: text(alloc, number)?,
        kind,
    })
}

fn transfer(alloc: Global, due: Option<Day>) -> Result<Wish, Fail> {
    Ok(Wish::Transfer(XferInfo {
        from: account(alloc, b"1001", AcctKind::Checking)?,
        to: account(alloc, b"1002", AcctKind::Savings)?,
        amount: Cents(1_000),
        due,
    }))
}

fn client(alloc: Global, name: &[u8]) -> Result<Client, Fail>
    ensures { IfOk result (λ client. client ≡ new_client (trimmed name.now) (codes "alice")) }
{
    Ok(Client::new(alloc, text(alloc, name)?, text(alloc, b"alice")?)?)
}

fn clients(alloc: Global) -> Result<Vec<Client>, Fail>
    ensures { IfOk result (λ clients. clients.items ≡ new_client (codes "c1") (codes "alice") ∷ new_client (codes "c2") (codes "alice") ∷ []) }
{
    let mut clients = Vec::new(alloc);
    clients.push(client(alloc, b"c1")?)?;
    clients.push(client(alloc, b"c2")?)?;
    Ok(clients)
}

#[tactic(auto, using(crate::proofs::Clients::new_clients))]
fn world(alloc: Global) -> Result<World, Fail> {
    let setup = Setup::read(alloc, SETUP)?;
    let alice = text(alloc, b"alice")?;
    match setup.user(&alice) {
        Some(_) => Ok(World::new(alloc, keys()?, setup, clients(alloc)?)?),
        None => Err(Fail::from(OutOfMemory)),
    }
}

fn letter(alloc: Global, user: UserId) -> Result<Step, Fail>
    ensures { IfOk result HasLawfulClock }
{
    Ok(Step::Letter(user, text(alloc, b"s")?, text(alloc, b"b")?))
}

fn step(alloc: Global, what: Do) -> Result<Step, Fail>
    ensures { IfOk result HasLawfulClock }
{
    Ok(match what {
        Make => Step::Make(0, transfer(alloc, None)?),
        MakeDated => Step::Make(0, transfer(alloc, Some(TOMORROW))?),
        Mail => Step::Make(0, Wish::Mail(text(alloc, b"s")?, text(alloc, b"b")?)),
        OtherMakes => Step::Make(1, transfer(alloc, None)?),
        NobodyMakes => Step::Make(NOBODY, transfer(alloc, None)?),
        Again => Step::SendAgain(0),
        NobodyAgain => Step::SendAgain(NOBODY),
        ClientAnew => Step::RestartClient(0),
        NobodyAnew => Step::RestartClient(NOBODY),
        Deliver(request) => Step::Deliver(request),
        Reply(reply) => Step::DeliverReply(0, reply),
        ReplyToOther(reply) => Step::DeliverReply(1, reply),
        ReplyToNobody(reply) => Step::DeliverReply(NOBODY, reply),
        Due => Step::Due,
        Letter => letter(alloc, UserId(0))?,
        LetterToNobody => letter(alloc, UserId(9))?,
        Fault(landed) => Step::Fault(landed),
        ServerAnew => Step::RestartServer,
        Later => Step::Clock(LATER),
        NextDay => Step::Clock(NEXT_DAY),
    })
}

fn rows_of(client: &Client) -> u64 {
    let mut count = 0;
    for store in client.stores() {
        count = u64::saturating_add(count, store.rows().len() as u64);
    }
    count
}

fn rows(world: &World) -> u64 {
    let mut count = 0;
    for number in 0..NOBODY {
        if let Some(client) = world.client(number) {
            count = u64::saturating_add(count, rows_of(client));
        }
    }
    count
}

fn is_outstanding(world: &World) -> bool {
    match world.client(0) {
        Some(client) => client.outstanding().is_some(),
        None => false,
    }
}

/// Whether all replies are the same bytes.
fn are_alike(replies: &[Sequence<u8>]) -> bool {
    match replies {
        [first, others @ ..] => others.iter().all(|reply| reply.items() == first.items()),
        [] => true,
    }
}

/// Whether the first reply tells that the bank answered at noon (DTSERVER).
fn is_at_noon(replies: &[Sequence<u8>]) -> bool {
    match replies {
        [first, ..] => first
            .items()
            .windows(NOON_REPORTED.len())
            .any(|part| part == NOON_REPORTED),
        [] => false,
    }
}

/// What is seen of a world.
fn look_at(world: &World) -> Seen {
    Seen {
        requests: world.requests().len() as u64,
        replies: world.replies().len() as u64,
        events: world.event_count(),
        rows: rows(world),
        outstanding: is_outstanding(world),
        replied: Replied {
            alike: are_alike(world.replies()),
            at_noon: is_at_noon(world.replies()),
        },
    }
}

/// Makes the steps of a case, from noon on.
fn run(alloc: Global, world: &mut World, all: &[Do]) -> Result<Seen, Fail> {
    world.run(&[Step::Clock(NOON)])?;
    for what in all {
        world.run(&[step(alloc, *what)?])?;
    }
    Ok(look_at(world))
}

fn last_entry<P: Printer>(book: &Book<P>) -> u64 {
    match book.next_number() {
        Some(number) => number - 1,
        None => book.setup().entries,
    }
}

fn entries(alloc: Global, world: World) -> Result<u64, OutOfMemory> {
    match world.into_parts(alloc) {
        Ok((book, _accounts)) => Ok(last_entry(&book)),
        Err(full) => Err(full),
    }
}

/// What a case comes to, and what is seen of its replies.
fn came_of(alloc: Global, all: &[Do]) -> Result<(Came, Replied), Fail> {
    let mut world = world(alloc)?;
    let seen = run(alloc, &mut world, all);
    let entries = entries(alloc, world);
    let seen = seen?;
    let counts = [
        seen.requests,
        seen.replies,
        seen.events,
        entries?,
        seen.rows,
    ];
    Ok(((counts, seen.outstanding), seen.replied))
}

#[test]
fn steps_come_to_what_they_should(rt: HostRuntime) -> Result<(), Fail> {
    for (name, all, wanted) in CASES {
        let (came, replied) = came_of(rt.alloc(), all)?;
        assert_eq!(rt; came, *wanted, "{name}");
        assert!(rt; replied.alike, "{name}");
    }
    Ok(())
}

#[test]
fn replies_to_several_files_come_to_what_they_should(rt: HostRuntime) -> Result<(), Fail> {
    for (name, all, wanted) in MIXED {
        let (came, replied) = came_of(rt.alloc(), all)?;
        assert_eq!(rt; came, *wanted, "{name}");
        assert!(rt; !replied.alike, "{name}");
    }
    Ok(())
}

#[test]
fn an_event_keeps_its_moment_while_it_is_pending(rt: HostRuntime) -> Result<(), Fail> {
    let at_once: &[Do] = &[Make, Deliver(0)];
    let adopted: &[Do] = &[Make, Fault(true), Deliver(0), Later, Deliver(0)];
    let anew: &[Do] = &[Make, Fault(false), Deliver(0), Later, Deliver(0)];
    for (all, wanted) in [(at_once, true), (adopted, true), (anew, false)] {
        let (_, replied) = came_of(rt.alloc(), all)?;
        assert_eq!(rt; replied.at_noon, wanted, "{all:?}");
    }
    Ok(())
}
