//! The file that asks for news.

ghost use Rattle.std.specs.Prelude.{◌≡◌, IfOk};
ghost use Rattle.client_core.specs.Making as rules;

use crate::making::no_password;
use client_saved::ClientState;
use ofx_types::{
    AcctName, Ask, Asks, Deeds, Duplicate, ObjectName, OutOfMemory, RequestFile, SyncAsk, SyncKind,
};
use std::alloc::Global;

/// The version of the files that are made.
const VERSION: u16 = 160;

/// What asks for the newest token of an object.
fn poll_ask(alloc: Global, object: ObjectName) -> Ask
    ensures { result ≡ rules.poll_ask object }
{
    Ask::Sync(SyncAsk {
        object,
        kind: SyncKind::TokenOnly,
        reject: false,
        deeds: Deeds::new(alloc),
    })
}

fn poll_asks(alloc: Global, account: &AcctName) -> Result<Asks, OutOfMemory>
    ensures { IfOk result (λ asks. asks ≡ rules.poll_asks account.now) }
{
    let mut asks = Asks::new(alloc);
    asks.push(poll_ask(alloc, ObjectName::Intra(account.copy()?)))?;
    asks.push(poll_ask(alloc, ObjectName::RecIntra(account.copy()?)))?;
    asks.push(poll_ask(alloc, ObjectName::BankMail(account.copy()?)))?;
    Ok(asks)
}

/// The file that asks for the newest tokens of the three objects of an account.
#[tactic(auto, unfolding(crate::specs::Making::poll_of))]
pub(crate) fn poll_of(
    alloc: Global,
    client: &ClientState,
    account: &AcctName,
) -> Result<RequestFile, OutOfMemory>
    ensures { IfOk result (λ file. file ≡ rules.poll_of client.now account.now) }
{
    Ok(RequestFile {
        version: VERSION,
        older: None,
        newer: None,
        user: client.user.copy()?,
        pass: no_password(alloc)?,
        asks: poll_asks(alloc, account)?,
    })
}
