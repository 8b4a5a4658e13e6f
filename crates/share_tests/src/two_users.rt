//! Two users of one account, each with a pass: whatever one of them does, no poll of theirs is told an older token than they know.

ghost use Rattle.std.specs.Prelude.{◌≡◌};
ghost use Rattle.bank_shared.specs.Holds.{IsPassOf};

use crate::callers::asked;
use crate::sample::{failing, opened_over, request_with};
use bank_samples::changes::{NOON, POLL};
use bank_shared::{Bank, BankName, Opened, Pass};
use ofx_file::OfxPrinter;
use ofx_ports::MemKeeper;
use std::alloc::Global;
use std::marker::Brand;
use std::process::Abort;
use std::sync::Wait;

const BOB: (&str, &str) = ("<USERID>alice", "<USERID>bob");

const HIS_PASSWORD: (&str, &str) = ("<USERPASS>secret", "<USERPASS>hunter");

/// The account that is both users', in place of the one that is alice's alone.
const SHARED_ACCOUNT: (&str, &str) = (
    "<ACCTID>1001\r\n<ACCTTYPE>CHECKING",
    "<ACCTID>1002\r\n<ACCTTYPE>SAVINGS",
);

/// A transfer of 1.00 from the shared account to alice's, before the statement request.
const PAYMENT: (&str, &str) = (
    "<STMTTRNRQ>",
    "\
    <INTRATRNRQ>\r\n\
    <TRNUID>b1\r\n\
    <INTRARQ>\r\n\
    <XFERINFO>\r\n\
    <BANKACCTFROM>\r\n\
    <BANKID>121099999\r\n\
    <ACCTID>1002\r\n\
    <ACCTTYPE>SAVINGS\r\n\
    </BANKACCTFROM>\r\n\
    <BANKACCTTO>\r\n\
    <BANKID>121099999\r\n\
    <ACCTID>1001\r\n\
    <ACCTTYPE>CHECKING\r\n\
    </BANKACCTTO>\r\n\
    <TRNAMT>1.00\r\n\
    </XFERINFO>\r\n\
    </INTRARQ>\r\n\
    </INTRATRNRQ>\r\n\
    <STMTTRNRQ>",
);

/// The token in a reply. 0 where it has none.
fn token_in(reply: &str) -> u64 {
    let (_, rest) = reply.split_once("<TOKEN>").unwrap_or(("", ""));
    let (digits, _) = rest.split_once("\r\n").unwrap_or(("", ""));
    digits.parse::<u64>().unwrap_or(0)
}

/// The tokens that a bank of the sample's setup tells of the shared account: to bob who has paid from it, to a pass that is split from
/// his, and to alice.
fn tokens_told<N: BankName, R: Abort + Wait>(
    rt: &R,
    alloc: Global,
    opened: Opened<MemKeeper, OfxPrinter>,
) -> (u64, u64, u64)
    requires setup { opened.setup ≡ N.setup }
    requires opening { opened.state ≡ N.opening }
    requires first { opened.opened ≡ N.first }
    requires board { opened.board ≡ N.board }
    requires tables { opened.tables ≡ N.tables }
{
    let (bank, mut alice) = Bank::<N, _, _>::begin(opened);
    let mut bob = bank.door(&mut alice);
    told_to_both(rt, alloc, &bank, &mut alice, &mut bob)
}

fn told_to_both<N: BankName, R: Abort + Wait>(
    rt: &R,
    alloc: Global,
    bank: &Bank<N, MemKeeper, OfxPrinter>,
    alice: &mut Pass,
    bob: &mut Pass,
) -> (u64, u64, u64)
    requires { IsPassOf N.setup N.opening N.board alice.old × IsPassOf N.setup N.opening N.board bob.old }
{
    let payment = request_with(rt, alloc, &[BOB, HIS_PASSWORD, SHARED_ACCOUNT, PAYMENT]);
    let his_poll = request_with(
        rt,
        alloc,
        &[BOB, HIS_PASSWORD, SHARED_ACCOUNT, POLL[0], POLL[1]],
    );
    let her_poll = request_with(rt, alloc, &[SHARED_ACCOUNT, POLL[0], POLL[1]]);
    let paid = asked(rt, alloc, bank, bob, &payment, NOON);
    assert!(rt; paid.contains("<SRVRTID>1\r\n"));
    let his = token_in(&asked(rt, alloc, bank, bob, &his_poll, NOON));
    let mut child = bank.door(bob);
    let childs = token_in(&asked(rt, alloc, bank, &mut child, &his_poll, NOON));
    let hers = token_in(&asked(rt, alloc, bank, alice, &her_poll, NOON));
    (his, childs, hers)
}

/// Bob is told of his own transfer, a pass split from his no less. Alice, whose pass has seen nothing, is told a token of the log.
#[test]
fn no_poll_is_told_less_than_its_user_knows(rt: HostRuntime) {
    let alloc = rt.alloc();
    let keeper = failing(&rt, alloc, &[], &[]);
    let opened = opened_over(&rt, alloc, keeper);
    let (his, childs, hers) = tokens_told::<Brand, _>(&rt, alloc, opened);
    assert!(rt; his == 1 && childs == 1);
    assert!(rt; hers <= 1);
}
