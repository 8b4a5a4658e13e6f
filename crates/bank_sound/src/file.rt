//! Request files: their asks, their synchronisations, and the order of both.

ghost use Rattle.std.specs.Prelude.{◌≡◌, ◌↔◌, ◌++◌, not, filter, IsTrue};
ghost use Rattle.std.specs.Option.{IfSome};
ghost use Rattle.std.specs.List.{AllByRecursion, list_all, position};
ghost use Rattle.ofx_types.specs.PrintedFile as files;
ghost use Rattle.ofx_types.specs.TextRules.{IsFileUid};
ghost use Rattle.bank_model.specs.Sound as bounds;

use crate::deed::is_sound_deed;
use crate::value::{is_moment_option, is_sound_account, is_text};
use ofx_types::{
    Ask, Deed, Family, FileUid, ObjectName, Period, RequestFile, SyncAsk, SyncKind, TrnUid,
};

/// The most asks of a file, and the most deeds of a synchronisation.
const MAX_ASKS: usize = 65_535;

/// The most bytes of a token.
const MAX_TOKEN: usize = 64;

/// Whether all values of a file are within their bounds.
///
/// ```rust
/// use bank_sound::is_sound;
/// use ofx_types::{RequestFile, Sequence, Text};
///
/// let alloc = rt.alloc();
/// let mut file = RequestFile {
///     version: 160,
///     older: None,
///     newer: None,
///     user: Text::new(alloc, b"alice", 32).expect(&rt, "a name"),
///     pass: Text::new(alloc, b"secret", 64).expect(&rt, "a password"),
///     asks: Sequence::new(alloc),
/// };
/// assert!(rt; is_sound(&file));
/// file.version = 200;
/// assert!(rt; !is_sound(&file));
/// ```
pub fn is_sound(file: &RequestFile) -> bool
    ensures { IsTrue result ↔ bounds.IsSound file.now }
{
    known(&file.older);
    known(&file.newer);
    let asks = file.asks.items();
    is_version(file.version) && asks.len() <= MAX_ASKS && is_bank_first(asks) && are_sound(asks)
}

/// What the type keeps of each file uid, for the prover: nothing runs here.
fn known(uid: &Option<FileUid>)
    ensures { IfSome uid.now IsFileUid }
{
    if let Some(uid) = uid {
        let _bytes = uid.as_bytes();
    }
}

/// Whether it is a version of the header.
fn is_version(version: u16) -> bool
    ensures { IsTrue result ↔ bounds.IsVersion version }
{
    version == 102 || version == 103 || version == 151 || version == 160
}

/// Whether what the bank is asked comes before mail.
fn is_bank_first(asks: &[Ask]) -> bool
    ensures { IsTrue result ↔ (asks.now ≡ filter (λ ask. not (files.is_mail_ask ask)) asks.now
        ++ filter files.is_mail_ask asks.now) }
{
    match first_mail(asks) {
        Some(at) => are_mail(&asks[at..]),
        None => true,
    }
}

fn first_mail(asks: &[Ask]) -> Option<usize>
    ensures { result ≡ position files.is_mail_ask asks.now }
{
    asks.iter().position(|ask| is_mail_ask(ask))
}

fn are_mail(asks: &[Ask]) -> bool
    ensures { result ≡ list_all files.is_mail_ask asks.now }
{
    asks.iter().all(|ask| is_mail_ask(ask))
}

/// Whether it asks for mail.
fn is_mail_ask(ask: &Ask) -> bool
    ensures { result ≡ files.is_mail_ask ask.now }
{
    match ask {
        Ask::Statement(_, _, _) => false,
        Ask::One(_, deed) => deed.family().is_mail(),
        Ask::Sync(ask) => ask.object.family().is_mail(),
    }
}

fn are_sound(asks: &[Ask]) -> bool
    ensures { IsTrue result ↔ AllByRecursion bounds.IsSoundAsk asks.now }
{
    for ask in asks {
        if !is_sound_ask(ask) {
            return false;
        }
    }
    true
}

fn is_sound_ask(ask: &Ask) -> bool
    ensures { IsTrue result ↔ bounds.IsSoundAsk ask.now }
{
    match ask {
        Ask::Statement(trnuid, account, period) => {
            is_client_uid(trnuid) && is_sound_account(account) && is_sound_option(*period)
        }
        Ask::One(trnuid, deed) => is_client_uid(trnuid) && is_sound_deed(deed),
        Ask::Sync(ask) => is_sound_sync(ask),
    }
}

fn is_sound_sync(ask: &SyncAsk) -> bool
    ensures { IsTrue result ↔ bounds.IsSoundSync ask.now }
{
    let deeds = ask.deeds.items();
    is_sound_object(&ask.object)
        && is_sound_kind(&ask.kind)
        && deeds.len() <= MAX_ASKS
        && are_sound_pairs(ask.object.family(), deeds)
}

fn is_sound_object(object: &ObjectName) -> bool
    ensures { IsTrue result ↔ bounds.IsSoundObject object.now }
{
    match object {
        ObjectName::Intra(account) => is_sound_account(account),
        ObjectName::RecIntra(account) => is_sound_account(account),
        ObjectName::BankMail(account) => is_sound_account(account),
        ObjectName::Mail => true,
    }
}

fn is_sound_kind(kind: &SyncKind) -> bool
    ensures { IsTrue result ↔ bounds.IsSoundKind kind.now }
{
    match kind {
        SyncKind::After(token) => is_text(token, MAX_TOKEN),
        SyncKind::TokenOnly => true,
        SyncKind::Refresh => true,
    }
}

/// Whether each deed of a synchronisation is sound and of the object's family.
fn are_sound_pairs(family: Family, deeds: &[(TrnUid, Deed)]) -> bool
    ensures { IsTrue result ↔ AllByRecursion (bounds.IsSoundPair family) deeds.now }
{
    for deed in deeds {
        if !is_sound_pair(family, deed) {
            return false;
        }
    }
    true
}

fn is_sound_pair(family: Family, deed: &(TrnUid, Deed)) -> bool
    ensures { IsTrue result ↔ bounds.IsSoundPair family deed.now }
{
    is_client_uid(&deed.0) && is_sound_deed(&deed.1) && is_family(deed.1.family(), family)
}

fn is_family(family: Family, wanted: Family) -> bool
    ensures { IsTrue result ↔ (family ≡ wanted) }
{
    family == wanted
}

/// Whether a client may give the uid: `0` marks what the bank does by itself.
fn is_client_uid(trnuid: &TrnUid) -> bool
    ensures { IsTrue result ↔ bounds.IsClientUid trnuid.now }
{
    trnuid.as_bytes() != b"0".as_slice()
}

fn is_sound_option(period: Option<Period>) -> bool
    ensures { IsTrue result ↔ IfSome period bounds.IsSoundPeriod }
{
    match period {
        Some(period) => is_moment_option(period.start) && is_moment_option(period.end),
        None => true,
    }
}
