//! The file of a wish.

ghost use Rattle.std.specs.Prelude.{◌≡◌, ◌<◌, ◌≤◌, [], ◌∷◌, None, Ok, codes, IfOk, IfErr, OnOk, OnErr};
ghost use Rattle.ofx_types.specs.declared.transfer.Deed.{Deed};
ghost use Rattle.client_saved.specs.Bounds.{IsName, IsSoundState};
ghost use Rattle.client_core.specs.Objects as objects;
ghost use Rattle.client_core.specs.Wishes as wishes;
ghost use Rattle.client_core.specs.Making as rules;
ghost use Rattle.client_core.specs.ReportLines.{IsRefusal, FollowsRule};

use crate::content::Content;
use crate::fault::ClientFault;
use crate::stores::{model_kept, open_stores, store_of, transfer_kept};
use crate::uids::{deed_uid, file_uid};
use crate::wish::Wish;
use client_report::number_text;
use client_saved::{ClientState, Outstanding};
use client_store::Store;
use ofx_types::{
    AcctName, Ask, Asks, Cents, Day, Deed, Deeds, Duplicate, MailText, Moment, ObjectName,
    OutOfMemory, Period, RequestFile, SyncAsk, SyncKind, Text, XferInfo,
};
use std::alloc::Global;

/// The version of the files that are made.
const VERSION: u16 = 160;

/// The index of a statement's uid in its file.
const STATEMENT: u64 = 0;

/// The index of the first deed's uid in its file.
const FIRST: u64 = 1;

// ---- what a wish asks

fn in_transfers(source: &AcctName, deed: Deed) -> Result<Content, OutOfMemory>
    ensures { IfOk result (λ content. content ≡ wishes.in_transfers source.now deed) }
{
    Ok(Content::Do(ObjectName::Intra(source.copy()?), deed))
}

fn in_models(source: &AcctName, deed: Deed) -> Result<Content, OutOfMemory>
    ensures { IfOk result (λ content. content ≡ wishes.in_models source.now deed) }
{
    Ok(Content::Do(ObjectName::RecIntra(source.copy()?), deed))
}

fn modifying(
    stores: &[Store],
    id: u64,
    to: &AcctName,
    amount: Cents,
    due: Day,
) -> Result<Content, ClientFault>
    ensures { FollowsRule (wishes.modifying id to.now amount due (wishes.transfer_kept id stores.now)) result }
{
    match transfer_kept(stores, id) {
        None => Err(ClientFault::NoRow(id)),
        Some(row) => {
            let info = XferInfo {
                from: row.from.copy()?,
                to: to.copy()?,
                amount,
                due: Some(due),
            };
            Ok(in_transfers(&row.from, Deed::ModifyTransfer(id, info))?)
        }
    }
}

fn cancelling(stores: &[Store], id: u64) -> Result<Content, ClientFault>
    ensures { FollowsRule (wishes.cancelling id (wishes.transfer_kept id stores.now)) result }
{
    match transfer_kept(stores, id) {
        None => Err(ClientFault::NoRow(id)),
        Some(row) => Ok(in_transfers(&row.from, Deed::CancelTransfer(id))?),
    }
}

fn stopping(stores: &[Store], id: u64) -> Result<Content, ClientFault>
    ensures { FollowsRule (wishes.stopping id (wishes.model_kept id stores.now)) result }
{
    match model_kept(stores, id) {
        None => Err(ClientFault::NoRow(id)),
        Some(row) => Ok(in_models(&row.from, Deed::CancelModel(id, true))?),
    }
}

/// The name by which the bank is written to.
fn bank_name(alloc: Global) -> Result<Text, OutOfMemory>
    ensures { IfOk result (λ name. name ≡ codes "BANK") }
{
    match Text::new(alloc, b"BANK", 32) {
        Ok(name) => Ok(name),
        Err(_) => Err(OutOfMemory),
    }
}

fn mail_of(
    alloc: Global,
    client: &ClientState,
    subject: &Text,
    body: &Text,
    at: Moment,
) -> Result<Deed, OutOfMemory>
    ensures { IfOk result (λ deed. deed ≡ wishes.mail_of client.now subject.now body.now at) }
{
    Ok(Deed::Mail(MailText {
        created: at,
        sender: client.user.copy()?,
        target: bank_name(alloc)?,
        subject: subject.copy()?,
        body: body.copy()?,
    }))
}

/// What a file has to ask for a wish. For the last two wishes there is no file.
#[tactic(auto, unfolding(crate::specs::Wishes::content_of))]
fn content_of(
    alloc: Global,
    client: &ClientState,
    wish: &Wish,
    at: Moment,
) -> Result<Content, ClientFault>
    ensures { FollowsRule (wishes.content_of client.now wish.now at) result }
{
    match wish {
        Wish::Sync(account) => Ok(Content::Look(account.copy()?)),
        Wish::Transfer(info) => Ok(in_transfers(&info.from, Deed::Transfer(info.copy()?))?),
        Wish::Modify(id, to, amount, due) => {
            modifying(client.stores.items(), *id, to, *amount, *due)
        }
        Wish::Cancel(id) => cancelling(client.stores.items(), *id),
        Wish::Repeat(recur, info) => Ok(in_models(&info.from, Deed::Model(*recur, info.copy()?))?),
        Wish::Stop(id) => stopping(client.stores.items(), *id),
        Wish::Mail(subject, body) => Ok(Content::Do(
            ObjectName::Mail,
            mail_of(alloc, client, subject, body, at)?,
        )),
        Wish::Check(_) | Wish::Show => Err(ClientFault::NoRow(0)),
    }
}

// ---- the asks

/// How a store is asked about: by its token, or from the beginning where it is marked lost.
fn kind_asked(alloc: Global, store: &Store) -> Result<SyncKind, OutOfMemory>
    ensures { IfOk result (λ kind. kind ≡ rules.kind_asked store.now) }
{
    if store.lost() {
        return Ok(SyncKind::Refresh);
    }
    Ok(SyncKind::After(number_text(alloc, store.token())?))
}

/// How an object is asked about. One without a store is asked about from the token 0 on.
fn kind_for(alloc: Global, object: &ObjectName, stores: &[Store]) -> Result<SyncKind, OutOfMemory>
    ensures { IfOk result (λ kind. kind ≡ rules.kind_asked (objects.store_under object.now stores.now)) }
{
    match store_of(object, stores) {
        Some(store) => kind_asked(alloc, store),
        None => Ok(SyncKind::After(number_text(alloc, 0)?)),
    }
}

fn sync_of(
    alloc: Global,
    client: &ClientState,
    object: ObjectName,
    deeds: Deeds,
) -> Result<Ask, OutOfMemory>
    ensures { IfOk result (λ ask. ask ≡ rules.sync_of client.now object deeds) }
{
    let kind = kind_for(alloc, &object, client.stores.items())?;
    Ok(Ask::Sync(SyncAsk {
        object,
        kind,
        reject: false,
        deeds,
    }))
}

fn statement_of(alloc: Global, client: &ClientState, account: &AcctName) -> Result<Ask, OutOfMemory>
    requires { IsSoundState client.now }
    ensures { IfOk result (λ ask. ask ≡ rules.statement_of client.now account.now) }
{
    let period = Period {
        start: None,
        end: None,
        include: true,
    };
    let trnuid = deed_uid(alloc, &client.name, client.next, STATEMENT)?;
    Ok(Ask::Statement(trnuid, account.copy()?, Some(period)))
}

fn look(alloc: Global, client: &ClientState, account: &AcctName) -> Result<Asks, OutOfMemory>
    requires { IsSoundState client.now }
    ensures { IfOk result (λ asks. asks ≡ rules.looking client.now account.now) }
{
    let mut asks = Asks::new(alloc);
    asks.push(statement_of(alloc, client, account)?)?;
    let transfers = ObjectName::Intra(account.copy()?);
    asks.push(sync_of(alloc, client, transfers, Deeds::new(alloc))?)?;
    let models = ObjectName::RecIntra(account.copy()?);
    asks.push(sync_of(alloc, client, models, Deeds::new(alloc))?)?;
    let mails = ObjectName::BankMail(account.copy()?);
    asks.push(sync_of(alloc, client, mails, Deeds::new(alloc))?)?;
    asks.push(sync_of(alloc, client, ObjectName::Mail, Deeds::new(alloc))?)?;
    Ok(asks)
}

fn act(
    alloc: Global,
    client: &ClientState,
    object: &ObjectName,
    deed: &Deed,
) -> Result<Asks, OutOfMemory>
    requires { IsSoundState client.now }
    ensures { IfOk result (λ asks. asks ≡ rules.acting client.now object.now deed.now) }
{
    let mut deeds = Deeds::new(alloc);
    let trnuid = deed_uid(alloc, &client.name, client.next, FIRST)?;
    deeds.push((trnuid, deed.copy()?))?;
    let mut asks = Asks::new(alloc);
    asks.push(sync_of(alloc, client, object.copy()?, deeds)?)?;
    Ok(asks)
}

fn asks_of(alloc: Global, client: &ClientState, content: &Content) -> Result<Asks, OutOfMemory>
    requires { IsSoundState client.now }
    ensures { IfOk result (λ asks. asks ≡ rules.asks_of client.now content.now) }
{
    match content {
        Content::Look(account) => look(alloc, client, account),
        Content::Do(object, deed) => act(alloc, client, object, deed),
    }
}

// ---- the file

/// The password of a file that isn't written yet.
pub(crate) fn no_password(alloc: Global) -> Result<Text, OutOfMemory>
    ensures { IfOk result (λ text. text ≡ []) }
{
    match Text::new(alloc, b"", 0) {
        Ok(text) => Ok(text),
        Err(_) => Err(OutOfMemory),
    }
}

fn file_of(
    alloc: Global,
    client: &ClientState,
    content: &Content,
) -> Result<RequestFile, OutOfMemory>
    requires { IsSoundState client.now }
    ensures { IfOk result (λ file. file ≡ rules.file_of client.now content.now) }
{
    let newer = file_uid(alloc, &client.name, client.next)?;
    Ok(RequestFile {
        version: VERSION,
        older: client.done.copy()?,
        newer: Some(newer),
        user: client.user.copy()?,
        pass: no_password(alloc)?,
        asks: asks_of(alloc, client, content)?,
    })
}

/// Makes the stores of what is looked at.
fn open_looked_at(
    alloc: Global,
    client: &mut ClientState,
    account: &AcctName,
) -> Result<(), OutOfMemory>
    ensures ok { OnOk result (client.new ≡ rules.with_opened (rules.looked_at account.now) client.old) }
    ensures err { OnErr result (client.new ≡ client.old) }
{
    let objects = [
        ObjectName::Intra(account.copy()?),
        ObjectName::RecIntra(account.copy()?),
        ObjectName::BankMail(account.copy()?),
        ObjectName::Mail,
    ];
    open_stores(alloc, &objects, &mut client.stores)?;
    Ok(())
}

/// Makes the store of one object.
fn open_one(alloc: Global, client: &mut ClientState, object: &ObjectName) -> Result<(), OutOfMemory>
    ensures ok { OnOk result (client.new ≡ rules.with_opened (object.now ∷ []) client.old) }
    ensures err { OnErr result (client.new ≡ client.old) }
{
    let objects = [object.copy()?];
    open_stores(alloc, &objects, &mut client.stores)?;
    Ok(())
}

/// Makes the stores of what the content asks about. Where memory is refused all are as before.
fn open(alloc: Global, client: &mut ClientState, content: &Content) -> Result<(), OutOfMemory>
    ensures ok { OnOk result (client.new ≡ rules.with_opened (rules.objects_of content.now) client.old) }
    ensures err { OnErr result (client.new ≡ client.old) }
{
    match content {
        Content::Look(account) => open_looked_at(alloc, client, account),
        Content::Do(object, _) => open_one(alloc, client, object),
    }
}

/// Makes the file of the content. Where memory is refused the client is as before.
fn set_out(
    alloc: Global,
    client: &mut ClientState,
    content: &Content,
    at: Moment,
) -> Result<(), OutOfMemory>
    requires sound { IsSoundState client.old }
    requires number { client.old.next < 9999999999 }
    ensures ok { OnOk result (client.new ≡ rules.with_file client.old at content.now) }
    ensures err { OnErr result (client.new ≡ client.old) }
{
    let file = file_of(alloc, client, content)?;
    open(alloc, client, content)?;
    client.outstanding = Some(Outstanding { at, file });
    client.next += 1;
    Ok(())
}

/// Makes the file of a wish. After any refusal the client is as before.
#[tactic(auto, unfolding(crate::specs::Making::made))]
pub(crate) fn make(
    alloc: Global,
    client: &mut ClientState,
    wish: &Wish,
    at: Moment,
) -> Result<(), ClientFault>
    requires sound { IsSoundState client.old }
    requires number { client.old.next < 9999999999 }
    ensures made { OnOk result (rules.made client.old wish.now at ≡ Ok client.new) }
    ensures refusal { IfErr result (λ fault. IsRefusal (rules.made client.old wish.now at) fault) }
    ensures err { OnErr result (client.new ≡ client.old) }
{
    let content = content_of(alloc, client, wish, at)?;
    set_out(alloc, client, &content, at)?;
    Ok(())
}
