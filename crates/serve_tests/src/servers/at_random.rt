//! Eight workers at once, over whose links transfers between two of ten accounts come. Which two is drawn at random, and either one
//! may pay the other. So a bank that didn't take accounts in the order of their numbers would soon stand still, and the limit of a
//! test's time would end it.

ghost use Rattle.std.specs.Prelude.{◌≡◌, ◌<◌, false};

use super::all_served;
use super::copies::{Copies, CopyKeeper};
use super::crowd::{kept_again, number_after, replies_in};
use crate::connections::{at_noon, posted};
use crate::same::same;
use crate::sample::{keys, put, request_with};
use bank_model::Setup;
use bank_samples::transfer::TRANSFER;
use bank_server::AllEnd;
use bank_shared::Opened;
use ofx_file::OfxPrinter;
use ofx_ports::{Keeper, MemClock, MemDoor, MemKeeper, MemLink, OpenGate};
use ofx_types::Status;
use std::alloc::Global;
use std::process::Abort;
use std::sync::Wait;
use std::thread::Threads;

/// Ten accounts with 10,000.00 each, more than is paid from one of them.
const TEN_ACCOUNTS: &[u8] = b"\
    OFXBANK 1\n\
    BANK 121099999\n\
    LEAD 5\n\
    WINDOW 3\n\
    ENTRIES 9999999999\n\
    USER alice secret\n\
    ACCT 1000 CHECKING 1000000 alice\n\
    ACCT 1001 CHECKING 1000000 alice\n\
    ACCT 1002 CHECKING 1000000 alice\n\
    ACCT 1003 CHECKING 1000000 alice\n\
    ACCT 1004 CHECKING 1000000 alice\n\
    ACCT 1005 CHECKING 1000000 alice\n\
    ACCT 1006 CHECKING 1000000 alice\n\
    ACCT 1007 CHECKING 1000000 alice\n\
    ACCT 1008 CHECKING 1000000 alice\n\
    ACCT 1009 CHECKING 1000000 alice\n";

/// The sample's request as a form. A transfer is between the accounts @f and @t, and a statement of the first one follows.
const FORM: [(&str, &str); 7] = [
    TRANSFER,
    ("<TRNUID>t1", "<TRNUID>@u"),
    ("<ACCTID>1001", "<ACCTID>@f"),
    (
        "<ACCTID>1002\r\n<ACCTTYPE>SAVINGS",
        "<ACCTID>@t\r\n<ACCTTYPE>CHECKING",
    ),
    ("<TRNAMT>10.00", "<TRNAMT>@a"),
    ("<ACCTID>1001", "<ACCTID>@f"),
    ("<INCLUDE>Y", "<INCLUDE>N"),
];

const WORKERS: u64 = 8;

/// The links of a worker.
const LINKS: u64 = 3;

/// The files that come over a link, after which the bank closes it.
const FILES: u64 = 100;

/// Numbers drawn from a seed.
#[derive(Drop)]
struct Draw {
    state: u64,
}

impl Draw {
    /// The next number below a limit.
    fn below(&mut self, limit: u64) -> u64
        requires { 0 < limit }
        ensures { result < limit }
    {
        let state = self.state.wrapping_mul(6_364_136_223_846_793_005);
        self.state = state.wrapping_add(1_442_695_040_888_963_407);
        (self.state >> 33) % limit
    }
}

/// What the accounts have after all transfers that were drawn, in cents.
#[derive(Drop)]
struct Balances {
    cents: Vec<u64>,
}

impl Balances {
    fn new(rt: &impl Abort, alloc: Global) -> Balances {
        let cents = Vec::from_elem(alloc, 1_000_000u64, 10).expect(rt, "room");
        Balances { cents }
    }

    fn pay(&mut self, from: u64, to: u64, amount: u64) {
        if let Some(cents) = self.cents.get_mut(from as usize) {
            *cents = cents.saturating_sub(amount);
        }
        if let Some(cents) = self.cents.get_mut(to as usize) {
            *cents = cents.saturating_add(amount);
        }
    }
}

/// A text with another one in place of each of its places for it.
fn filled(rt: &impl Abort, alloc: Global, form: &str, place: &str, with: &str) -> String {
    form.replace(alloc, place, with).expect(rt, "room")
}

/// The file of a transfer that is drawn, with this TRNUID.
fn drawn(
    rt: &impl Abort,
    alloc: Global,
    form: &str,
    draw: &mut Draw,
    balances: &mut Balances,
    uid: &str,
) -> String {
    let from = draw.below(10);
    let to = (from + 1 + draw.below(9)) % 10;
    let amount = 1 + draw.below(99);
    balances.pay(from, to, amount);
    let file = filled(rt, alloc, form, "@u", uid);
    let payer = format!(in alloc; "100{from}").expect(rt, "room");
    let file = filled(rt, alloc, &file, "@f", &payer);
    let payee = format!(in alloc; "100{to}").expect(rt, "room");
    let file = filled(rt, alloc, &file, "@t", &payee);
    let cents = format!(in alloc; "0.{}{}", amount / 10, amount % 10).expect(rt, "room");
    filled(rt, alloc, &file, "@a", &cents)
}

/// A link over which files of a worker come.
fn link_of_files(
    rt: &impl Abort,
    alloc: Global,
    draw: &mut Draw,
    balances: &mut Balances,
    link: u64,
) -> MemLink {
    let framed = request_with(rt, alloc, &FORM);
    let (_, form) = framed.split_once("\n").unwrap_or(("", ""));
    let mut bytes = Vec::new(alloc);
    for number in 0..FILES {
        let uid = format!(in alloc; "l{link}n{number}e").expect(rt, "room");
        let file = drawn(rt, alloc, form, draw, balances, &uid);
        put(rt, &mut bytes, &posted(rt, alloc, "1.1", file.as_bytes()));
    }
    MemLink::new(alloc, &bytes, 1_000_000).expect(rt, "a link")
}

/// All workers, each with links of its own.
fn all_workers(
    rt: &impl Abort,
    alloc: Global,
    draw: &mut Draw,
    balances: &mut Balances,
) -> Vec<(MemDoor, MemClock)> {
    let mut workers = Vec::new(alloc);
    for worker in 0..WORKERS {
        let mut links = Vec::new(alloc);
        for link in 0..LINKS {
            let link = link_of_files(
                rt,
                alloc,
                draw,
                balances,
                worker.saturating_mul(LINKS).saturating_add(link),
            );
            links.push(link).expect(rt, "room");
        }
        let door = MemDoor::new(alloc, links, &[]).expect(rt, "a doorway");
        workers.push((door, at_noon(rt, alloc))).expect(rt, "room");
    }
    workers
}

/// A bank of ten accounts that has opened from these records.
fn opened_with_ten<K: Keeper>(rt: &impl Abort, alloc: Global, keeper: K) -> Opened<K, OfxPrinter>
    requires { K.unsettled keeper ≡ false }
{
    let setup = Setup::read(alloc, TEN_ACCOUNTS).expect(rt, "a setup");
    let opened = Opened::open(alloc, keys(rt), keeper, setup, OfxPrinter);
    opened.ok().expect(rt, "a bank")
}

/// The text between two others, if they stand in this one.
fn between<'a>(text: &'a str, before: &str, after: &str) -> &'a str {
    let (_, rest) = text.split_once(before).unwrap_or(("", ""));
    let (found, _) = rest.split_once(after).unwrap_or(("", ""));
    found
}

/// Whether these bytes stand among others.
fn stands_in(all: &[u8], bytes: &[u8]) -> bool {
    for part in all.windows(bytes.len().max(1)) {
        if part == bytes {
            return true;
        }
    }
    false
}

/// How many of these replies answer a transfer as posted, with an id above the one before it that is the place of its record.
fn right_replies(replies: &[&str], records: &[Vec<u8>]) -> u64 {
    let mut last = 0;
    let mut right = 0u64;
    for reply in replies {
        let id = number_after(reply, "<SRVRTID>").unwrap_or(0);
        let uid = between(reply, "<TRNUID>", "\r\n");
        let Some(record) = records.get(id.saturating_sub(1) as usize) else {
            continue;
        };
        if id > last
            && reply.contains("<XFERPRCCODE>POSTEDON\r\n")
            && stands_in(record, uid.as_bytes())
        {
            right = right.saturating_add(1);
        }
        last = id;
    }
    right
}

/// What came over each link of all workers.
fn written(rt: &impl Abort, alloc: Global, all: &AllEnd<MemDoor, MemClock>) -> Vec<String> {
    let mut texts = Vec::new(alloc);
    for worked in &all.ends {
        for link in worked.door.back() {
            let held = str::from_utf8(link.held()).expect(rt, "a text");
            let text = format!(in alloc; "{held}").expect(rt, "room");
            texts.push(text).expect(rt, "room");
        }
    }
    texts
}

/// A link over which a request for a statement of each account comes.
fn link_of_statements(rt: &impl Abort, alloc: Global) -> MemLink {
    let mut bytes = Vec::new(alloc);
    for account in 0..10u64 {
        let name = format!(in alloc; "<ACCTID>100{account}").expect(rt, "room");
        let framed = request_with(rt, alloc, &[("<ACCTID>1001", &name)]);
        let (_, file) = framed.split_once("\n").unwrap_or(("", ""));
        put(rt, &mut bytes, &posted(rt, alloc, "1.1", file.as_bytes()));
    }
    MemLink::new(alloc, &bytes, 10_000_000).expect(rt, "a link")
}

/// How many of these replies tell the balance of the account of their place.
fn right_statements(rt: &impl Abort, alloc: Global, replies: &[&str], balances: &Balances) -> u64 {
    let mut right = 0u64;
    for (reply, cents) in replies.iter().zip(balances.cents.iter()) {
        let balance = format!(in alloc;
            "<BALAMT>{}.{}{}\r\n",
            cents / 100,
            cents / 10 % 10,
            cents % 10
        );
        if reply.contains(balance.expect(rt, "room").as_str()) {
            right = right.saturating_add(1);
        }
    }
    right
}

/// How a worker with one link ends at a bank of ten accounts.
fn served_alone<R: Abort + Threads + Wait + Sync>(
    rt: &R,
    alloc: Global,
    opened: Opened<MemKeeper, OfxPrinter>,
    link: MemLink,
) -> AllEnd<MemDoor, MemClock> {
    let mut links = Vec::new(alloc);
    links.push(link).expect(rt, "room");
    let door = MemDoor::new(alloc, links, &[]).expect(rt, "a doorway");
    let mut workers = Vec::new(alloc);
    workers.push((door, at_noon(rt, alloc))).expect(rt, "room");
    all_served(rt, alloc, opened, workers, &OpenGate, 0)
}

/// Each transfer is posted once. Over a link the ids rise, and each is the place of the file's record. A bank that opens from the
/// records has the balances to which all transfers come.
#[test]
fn transfers_between_random_accounts_all_happen(rt: HostRuntime) {
    let alloc = rt.alloc();
    let mut draw = Draw { state: 41 };
    let mut balances = Balances::new(&rt, alloc);
    let workers = all_workers(&rt, alloc, &mut draw, &mut balances);
    let copies = Copies::new(Vec::new(alloc));
    let keeper = CopyKeeper::over(alloc, MemKeeper::new(alloc), &copies);
    let opened = opened_with_ten(&rt, alloc, keeper);
    let all = all_served(&rt, alloc, opened, workers, &OpenGate, 0);
    same(&rt, all.status, Status(0));
    let texts = written(&rt, alloc, &all);
    drop(all);
    let records = copies.into_inner();
    same(&rt, records.len() as u64, WORKERS * LINKS * FILES);
    same(&rt, texts.len() as u64, WORKERS * LINKS);
    for text in &texts {
        let replies = replies_in(&rt, alloc, text);
        same(&rt, right_replies(&replies, &records), FILES);
    }
    let opened = opened_with_ten(&rt, alloc, kept_again(&rt, alloc, &records));
    let all = served_alone(&rt, alloc, opened, link_of_statements(&rt, alloc));
    for text in &written(&rt, alloc, &all) {
        let replies = replies_in(&rt, alloc, text);
        same(
            &rt,
            right_statements(&rt, alloc, replies.get(1..).unwrap_or(&[]), &balances),
            10,
        );
    }
}
