//! What waits in a store: the outstanding file in words, for people.

ghost use Rattle.std.specs.Prelude.{◌≡◌, ◌++◌, codes, OnOk, IfOk};
ghost use Rattle.std.specs.List.{flat_map, AllByRecursion};
ghost use Rattle.std.specs.Option.{IfSome};
ghost use Rattle.std.specs.Fmt.{decimal};
ghost use Rattle.client_report.specs.Lines.{account_words};
ghost use Rattle.ofx_types.specs.Calendar.{IsDay};
ghost use Rattle.ofx_types.specs.declared.number.Day.{Day};
ghost use Rattle.bank_model.specs.Sound.{IsSoundInfo, IsSoundDeed, IsSoundSync, IsSoundAsk};
ghost use Rattle.ofx_ports.specs.Known.{Stays};
ghost use Rattle.client_run.specs.Waiting as rules;

use crate::keeping::open_client;
use crate::lines::put_day;
use crate::stop::StoreOpenFault;
use client_arguments::Order;
use client_core::Client;
use ofx_ports::StoreKeeper;
use ofx_types::{AcctName, Ask, Day, Deed, OutOfMemory, Recur, SyncAsk, Text, TrnUid, XferInfo};
use ofx_values::{print_amount, print_number};
use std::alloc::Global;

#[tactic(auto, unfolding(client_report::specs::Lines::account_words))]
fn put_account(account: &AcctName, out: &mut Vec<u8>) -> Result<(), OutOfMemory>
    ensures { OnOk result (out.new.items ≡ out.old.items ++ account_words account.now) }
{
    out.extend_from_slice(account.number.as_bytes())?;
    out.push(b' ')?;
    out.extend_from_slice(account.kind.word())?;
    Ok(())
}

fn put_due(due: Option<Day>, out: &mut Vec<u8>) -> Result<(), OutOfMemory>
    requires { IfSome due (λ (day : Day). IsDay day.0) }
    ensures { OnOk result (out.new.items ≡ out.old.items ++ rules.due_words due) }
{
    match due {
        Some(day) => {
            out.extend_from_slice(b" on ")?;
            put_day(day, out)
        }
        None => Ok(()),
    }
}

#[tactic(auto, unfolding(crate::specs::Waiting::transfer_words))]
fn put_transfer(info: &XferInfo, out: &mut Vec<u8>) -> Result<(), OutOfMemory>
    requires { IsSoundInfo info.now }
    ensures { OnOk result (out.new.items ≡ out.old.items ++ rules.transfer_words info.now) }
{
    print_amount(info.amount, out)?;
    out.extend_from_slice(b" from ")?;
    put_account(&info.from, out)?;
    out.extend_from_slice(b" to ")?;
    put_account(&info.to, out)?;
    put_due(info.due, out)
}

fn put_count(count: Option<u32>, out: &mut Vec<u8>) -> Result<(), OutOfMemory>
    ensures { OnOk result (out.new.items ≡ out.old.items ++ rules.count_words count) }
{
    if let Some(count) = count {
        out.extend_from_slice(b", ")?;
        print_number(u64::from(count), out)?;
        out.extend_from_slice(b" in all")?;
    }
    Ok(())
}

#[tactic(auto, unfolding(crate::specs::Waiting::series_words))]
fn put_series(recur: Recur, out: &mut Vec<u8>) -> Result<(), OutOfMemory>
    ensures { OnOk result (out.new.items ≡ out.old.items ++ rules.series_words recur) }
{
    out.extend_from_slice(b" and ")?;
    out.extend_from_slice(recur.freq.word())?;
    out.extend_from_slice(b" after that")?;
    put_count(recur.count, out)
}

#[tactic(auto, unfolding(crate::specs::Waiting::model_words))]
fn put_model(recur: Recur, info: &XferInfo, out: &mut Vec<u8>) -> Result<(), OutOfMemory>
    requires { IsSoundInfo info.now }
    ensures { OnOk result (out.new.items ≡ out.old.items ++ rules.model_words recur info.now) }
{
    put_transfer(info, out)?;
    put_series(recur, out)
}

/// Appends bytes and a number.
fn put_about(what: &[u8], id: u64, out: &mut Vec<u8>) -> Result<(), OutOfMemory>
    ensures { OnOk result (out.new.items ≡ out.old.items ++ (what.now ++ decimal id)) }
{
    out.extend_from_slice(what)?;
    print_number(id, out)
}

#[tactic(auto, unfolding(crate::specs::Waiting::change_words))]
fn put_change(row: &[u8], id: u64, out: &mut Vec<u8>) -> Result<(), OutOfMemory>
    ensures { OnOk result (out.new.items ≡ out.old.items ++ rules.change_words row.now id) }
{
    out.extend_from_slice(b"the change of ")?;
    out.extend_from_slice(row)?;
    print_number(id, out)?;
    out.extend_from_slice(b" to ")?;
    Ok(())
}

fn put_changed_transfer(id: u64, info: &XferInfo, out: &mut Vec<u8>) -> Result<(), OutOfMemory>
    requires { IsSoundInfo info.now }
    ensures { OnOk result (out.new.items ≡ out.old.items ++ (rules.change_words (codes "transfer ") id ++ rules.transfer_words info.now)) }
{
    put_change(b"transfer ", id, out)?;
    put_transfer(info, out)
}

fn put_changed_model(
    id: u64,
    recur: Recur,
    info: &XferInfo,
    out: &mut Vec<u8>,
) -> Result<(), OutOfMemory>
    requires { IsSoundInfo info.now }
    ensures { OnOk result (out.new.items ≡ out.old.items ++ (rules.change_words (codes "recurring transfer ") id ++ rules.model_words recur info.now)) }
{
    put_change(b"recurring transfer ", id, out)?;
    put_model(recur, info, out)
}

#[tactic(auto, unfolding(crate::specs::Waiting::bank_mail_words))]
fn put_bank_mail(
    what: &[u8],
    account: &AcctName,
    subject: &Text,
    out: &mut Vec<u8>,
) -> Result<(), OutOfMemory>
    ensures { OnOk result (out.new.items ≡ out.old.items ++ rules.bank_mail_words what.now account.now subject.now) }
{
    out.extend_from_slice(what)?;
    put_account(account, out)?;
    out.push(b' ')?;
    out.extend_from_slice(subject.as_bytes())?;
    Ok(())
}

fn put_mail(subject: &Text, out: &mut Vec<u8>) -> Result<(), OutOfMemory>
    ensures { OnOk result (out.new.items ≡ out.old.items ++ (codes "the mail " ++ subject.now)) }
{
    out.extend_from_slice(b"the mail ")?;
    out.extend_from_slice(subject.as_bytes())?;
    Ok(())
}

/// Appends a deed: its terms, or what it does to a row.
#[tactic(auto, unfolding(crate::specs::Waiting::deed_words))]
fn put_deed(deed: &Deed, out: &mut Vec<u8>) -> Result<(), OutOfMemory>
    requires { IsSoundDeed deed.now }
    ensures { OnOk result (out.new.items ≡ out.old.items ++ rules.deed_words deed.now) }
{
    match deed {
        Deed::Transfer(info) => put_transfer(info, out),
        Deed::ModifyTransfer(id, info) => put_changed_transfer(*id, info, out),
        Deed::CancelTransfer(id) => put_about(b"the cancellation of transfer ", *id, out),
        Deed::Model(recur, info) => put_model(*recur, info, out),
        Deed::ModifyModel(id, recur, info, _) => put_changed_model(*id, *recur, info, out),
        Deed::CancelModel(id, _) => put_about(b"the end of recurring transfer ", *id, out),
        Deed::BankMail(account, mail) => {
            put_bank_mail(b"the mail about ", account, &mail.subject, out)
        },
        Deed::Mail(mail) => put_mail(&mail.subject, out),
    }
}

#[tactic(auto, unfolding(crate::specs::Waiting::deed_end))]
fn put_deed_end(out: &mut Vec<u8>) -> Result<(), OutOfMemory>
    ensures { OnOk result (out.new.items ≡ out.old.items ++ rules.deed_end) }
{
    out.extend_from_slice(
        b" waits and is made by the next run: run sync, don't give the command again\n",
    )?;
    Ok(())
}

/// Appends the line of a deed.
#[tactic(auto, unfolding(crate::specs::Waiting::deed_line))]
fn put_deed_line(trnuid: &TrnUid, deed: &Deed, out: &mut Vec<u8>) -> Result<(), OutOfMemory>
    requires { IsSoundDeed deed.now }
    ensures { OnOk result (out.new.items ≡ out.old.items ++ rules.deed_line (trnuid.now, deed.now)) }
{
    out.extend_from_slice(trnuid.as_bytes())?;
    out.extend_from_slice(b": ")?;
    put_deed(deed, out)?;
    put_deed_end(out)
}

/// Appends the lines of the deeds of a synchronisation.
fn put_deeds(ask: &SyncAsk, out: &mut Vec<u8>) -> Result<(), OutOfMemory>
    requires { IsSoundSync ask.now }
    ensures { OnOk result (out.new.items ≡ out.old.items ++ flat_map rules.deed_line ask.now.deeds) }
{
    let mut left = ask.deeds.items();
    while let [(trnuid, deed), rest @ ..] = left {
        put_deed_line(trnuid, deed, out)?;
        left = rest;
    }
    Ok(())
}

#[tactic(auto, unfolding(crate::specs::Waiting::statement_end))]
fn put_statement_end(out: &mut Vec<u8>) -> Result<(), OutOfMemory>
    ensures { OnOk result (out.new.items ≡ out.old.items ++ rules.statement_end) }
{
    out.extend_from_slice(b" waits and is made by the next run\n")?;
    Ok(())
}

/// Appends the line of a statement.
#[tactic(auto, unfolding(crate::specs::Waiting::statement_line))]
fn put_statement(trnuid: &TrnUid, account: &AcctName, out: &mut Vec<u8>) -> Result<(), OutOfMemory>
    ensures { OnOk result (out.new.items ≡ out.old.items ++ rules.statement_line trnuid.now account.now) }
{
    out.extend_from_slice(trnuid.as_bytes())?;
    out.extend_from_slice(b": sync ")?;
    put_account(account, out)?;
    put_statement_end(out)
}

/// Appends the lines of an ask.
fn put_ask(ask: &Ask, out: &mut Vec<u8>) -> Result<(), OutOfMemory>
    requires { IsSoundAsk ask.now }
    ensures { OnOk result (out.new.items ≡ out.old.items ++ rules.ask_lines ask.now) }
{
    match ask {
        Ask::Statement(trnuid, account, _) => put_statement(trnuid, account, out),
        Ask::One(trnuid, deed) => put_deed_line(trnuid, deed, out),
        Ask::Sync(ask) => put_deeds(ask, out),
    }
}

/// Appends the lines of asks.
fn put_asks(asks: &[Ask], out: &mut Vec<u8>) -> Result<(), OutOfMemory>
    requires { AllByRecursion IsSoundAsk asks.now }
    ensures { OnOk result (out.new.items ≡ out.old.items ++ flat_map rules.ask_lines asks.now) }
{
    let mut left = asks;
    while let [ask, rest @ ..] = left {
        put_ask(ask, out)?;
        left = rest;
    }
    Ok(())
}

/// The lines of the outstanding file.
fn text_of(alloc: Global, client: &Client) -> Result<Vec<u8>, OutOfMemory>
    ensures { IfOk result (λ bytes. bytes.items ≡ rules.waiting_text client.now) }
{
    let mut out = Vec::new(alloc);
    client.known();
    if let Some(file) = client.outstanding() {
        put_asks(file.asks.items(), &mut out)?;
    }
    Ok(out)
}

/// What waits in the store of an order, in words: a line for each deed of the outstanding file, by its TRNUID, and for each
/// statement that it asks for. Nothing where no file is outstanding. Nothing is saved or sent.
///
/// The faults are those with which a run of the order would end before it sends anything.
pub fn waiting_told<S: StoreKeeper>(
    alloc: Global,
    order: &Order,
    store: &mut S,
) -> Result<Vec<u8>, StoreOpenFault>
    ensures told { IfOk result (λ told. rules.IsWaitingIn order.now (record { text = S.saved store.old; faults = S.faults store.old })
        (record { text = S.saved store.new; faults = S.faults store.new }) told.items) }
    ensures kept { Stays (S.saved store.old) (S.saved store.new) }
{
    let client = open_client(alloc, order, store)?;
    Ok(text_of(alloc, &client)?)
}
