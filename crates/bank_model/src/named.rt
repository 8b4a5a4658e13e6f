//! The accounts that an event names.

ghost use Rattle.std.specs.Prelude.{◌≡◌, ◌↔◌, ◌++◌, [], map, nat_le, position, Some, IfOk, OnOk, Contains};
ghost use Rattle.std.specs.Option.{option_copied};
ghost use Rattle.std.specs.List.{flat_map};
ghost use Rattle.std.specs.List.Sorted.{IsStrictlyIncreasing};
ghost use Rattle.ofx_types.specs.declared.number.AcctId.{AcctId};
ghost use Rattle.bank_model.specs.SetupForm.{IsWithinLimits};
ghost use Rattle.bank_model.specs.SetupLookups.{account_of};
ghost use Rattle.bank_model.specs.Rules as rules;
ghost use Rattle.bank_model.specs.Naming.{inserted, with_any, with_all};

use crate::setup::Setup;
use ofx_types::{
    AcctId, AcctName, Ask, Deed, ObjectName, OutOfMemory, RequestFile, SyncAsk, TransferRow, TrnUid,
};
use std::alloc::Global;

impl Setup {
    /// The accounts of the bank that a file's asks name, in rising order and each once.
    pub fn named_by_file(
        &self,
        alloc: Global,
        file: &RequestFile,
    ) -> Result<Vec<AcctId>, OutOfMemory>
        requires within { IsWithinLimits self.now }
        ensures rising { IfOk result (λ accounts. IsStrictlyIncreasing (map (λ account. account.0) accounts.items)) }
        ensures named { IfOk result (λ accounts. (account : AcctId) → Contains accounts.items account
            ↔ Contains (flat_map (rules.named_by self.now) file.now.asks) (Some account)) }
    {
        let accounts = accounts_of_asks(alloc, self, file.asks.items())?;
        Ok(accounts)
    }

    /// The two accounts of a transfer's row, in rising order, where there is a row and the bank has them.
    pub fn named_by_row(
        &self,
        alloc: Global,
        row: Option<&TransferRow>,
    ) -> Result<Vec<AcctId>, OutOfMemory>
        requires within { IsWithinLimits self.now }
        ensures rising { IfOk result (λ accounts. IsStrictlyIncreasing (map (λ account. account.0) accounts.items)) }
        ensures named { IfOk result (λ accounts. (account : AcctId) → Contains accounts.items account
            ↔ Contains (rules.named_by_row self.now (option_copied row.entry)) (Some account)) }
    {
        let accounts = accounts_of_row(alloc, self, row)?;
        Ok(accounts)
    }
}

fn accounts_of_asks(alloc: Global, setup: &Setup, asks: &[Ask]) -> Result<Vec<AcctId>, OutOfMemory>
    requires within { IsWithinLimits setup.now }
    ensures { IfOk result (λ accounts. accounts.items ≡ with_all [] (flat_map (rules.named_by setup.now) asks.now)) }
{
    let mut accounts = Vec::new(alloc);
    for ask in asks {
        add_ask(&mut accounts, setup, ask)?;
    }
    Ok(accounts)
}

fn accounts_of_row(
    alloc: Global,
    setup: &Setup,
    row: Option<&TransferRow>,
) -> Result<Vec<AcctId>, OutOfMemory>
    requires within { IsWithinLimits setup.now }
    ensures { IfOk result (λ accounts. accounts.items ≡ with_all [] (rules.named_by_row setup.now (option_copied row.entry))) }
{
    let mut accounts = Vec::new(alloc);
    if let Some(row) = row {
        add_both(&mut accounts, setup, &row.from, &row.to)?;
    }
    Ok(accounts)
}

fn add_ask(accounts: &mut Vec<AcctId>, setup: &Setup, ask: &Ask) -> Result<(), OutOfMemory>
    requires within { IsWithinLimits setup.now }
    ensures { OnOk result (accounts.new.items ≡ with_all accounts.old.items (rules.named_by setup.now ask.now)) }
{
    match ask {
        Ask::Statement(_, name, _) => add(accounts, setup, name),
        Ask::One(_, deed) => add_deed(accounts, setup, deed),
        Ask::Sync(ask) => add_sync(accounts, setup, ask),
    }
}

/// Adds the accounts of a synchronisation.
fn add_sync(accounts: &mut Vec<AcctId>, setup: &Setup, ask: &SyncAsk) -> Result<(), OutOfMemory>
    requires within { IsWithinLimits setup.now }
    ensures { OnOk result (accounts.new.items ≡ with_all accounts.old.items
        (rules.named_by_object setup.now ask.now.object ++ flat_map (rules.named_by_pair setup.now) ask.now.deeds)) }
{
    add_object(accounts, setup, &ask.object)?;
    add_deeds(accounts, setup, ask.deeds.items())?;
    Ok(())
}

/// Adds the account of an object, where it has one.
fn add_object(
    accounts: &mut Vec<AcctId>,
    setup: &Setup,
    object: &ObjectName,
) -> Result<(), OutOfMemory>
    requires within { IsWithinLimits setup.now }
    ensures { OnOk result (accounts.new.items ≡ with_all accounts.old.items (rules.named_by_object setup.now object.now)) }
{
    match object {
        ObjectName::Intra(account) => add(accounts, setup, account),
        ObjectName::RecIntra(account) => add(accounts, setup, account),
        ObjectName::BankMail(account) => add(accounts, setup, account),
        ObjectName::Mail => Ok(()),
    }
}

fn add_deeds(
    accounts: &mut Vec<AcctId>,
    setup: &Setup,
    deeds: &[(TrnUid, Deed)],
) -> Result<(), OutOfMemory>
    requires within { IsWithinLimits setup.now }
    ensures { OnOk result (accounts.new.items
        ≡ with_all accounts.old.items (flat_map (rules.named_by_pair setup.now) deeds.now)) }
{
    for deed in deeds {
        add_deed(accounts, setup, &deed.1)?;
    }
    Ok(())
}

fn add_deed(accounts: &mut Vec<AcctId>, setup: &Setup, deed: &Deed) -> Result<(), OutOfMemory>
    requires within { IsWithinLimits setup.now }
    ensures { OnOk result (accounts.new.items ≡ with_all accounts.old.items (rules.named_by_deed setup.now deed.now)) }
{
    match deed {
        Deed::Transfer(info) => add_both(accounts, setup, &info.from, &info.to),
        Deed::ModifyTransfer(_, info) => add_both(accounts, setup, &info.from, &info.to),
        Deed::CancelTransfer(_) => Ok(()),
        Deed::Model(_, info) => add_both(accounts, setup, &info.from, &info.to),
        Deed::ModifyModel(_, _, info, _) => add_both(accounts, setup, &info.from, &info.to),
        Deed::CancelModel(_, _) => Ok(()),
        Deed::BankMail(account, _) => add(accounts, setup, account),
        Deed::Mail(_) => Ok(()),
    }
}

/// Adds the source and the destination of a transfer, where the bank has them.
fn add_both(
    accounts: &mut Vec<AcctId>,
    setup: &Setup,
    from: &AcctName,
    to: &AcctName,
) -> Result<(), OutOfMemory>
    requires within { IsWithinLimits setup.now }
    ensures { OnOk result (accounts.new.items
        ≡ with_any (with_any accounts.old.items (account_of setup.now from.now)) (account_of setup.now to.now)) }
{
    add(accounts, setup, from)?;
    add(accounts, setup, to)
}

/// Adds the account of that name, where the bank has it.
fn add(accounts: &mut Vec<AcctId>, setup: &Setup, name: &AcctName) -> Result<(), OutOfMemory>
    requires within { IsWithinLimits setup.now }
    ensures { OnOk result (accounts.new.items ≡ with_any accounts.old.items (account_of setup.now name.now)) }
{
    match setup.account(name) {
        Some(account) => insert(accounts, account),
        None => Ok(()),
    }
}

/// Inserts an account, in rising order of the numbers, where it isn't there yet.
fn insert(accounts: &mut Vec<AcctId>, account: AcctId) -> Result<(), OutOfMemory>
    ensures { OnOk result (accounts.new.items ≡ inserted account accounts.old.items) }
{
    match index_of(accounts, account) {
        Some(at) => {
            if accounts[at].0 == account.0 {
                return Ok(());
            }
            accounts.insert(at, account)?;
            Ok(())
        }
        None => {
            accounts.push(account)?;
            Ok(())
        }
    }
}

/// The index of the first account whose number isn't below the account's.
fn index_of(accounts: &[AcctId], account: AcctId) -> Option<usize>
    ensures { result ≡ position (λ other. nat_le account.0 other.0) accounts.now }
{
    accounts.iter().position(|other| account.0 <= other.0)
}
