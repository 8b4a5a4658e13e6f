//! The message sets that follow on that of the signon.

ghost use Rattle.std.specs.Prelude.{◌≡◌, ◌++◌, IfOk, IfErr};
ghost use Rattle.ofx_types.specs.TagNames.{is_one_of};
ghost use Rattle.ofx_types.specs.MessageReading.{transaction_names, transaction_reply_names};
ghost use Rattle.ofx_file.specs.MessageSets as sets;

use ofx_types::{Sequence, TreeFault};

/// A message set: that of the bank, or that of mail.
#[derive(Clone, Copy, Debug)]
pub(crate) enum MessageSet {
    /// What the bank is asked, and mail about accounts (BANKMSGSRQV1, BANKMSGSRSV1).
    Bank,
    /// Other mail (EMAILMSGSRQV1, EMAILMSGSRSV1).
    Mail,
}

/// Whether a name is that of a request in the message set.
pub(crate) fn is_request_name(set: MessageSet, name: &[u8]) -> bool
    ensures { result ≡ is_one_of (sets.request_names set) name.now }
{
    match set {
        MessageSet::Bank => is_bank_request(name),
        MessageSet::Mail => name == b"MAILTRNRQ".as_slice() || name == b"MAILSYNCRQ".as_slice(),
    }
}

fn is_bank_request(name: &[u8]) -> bool
    ensures { result ≡ is_one_of (sets.request_names MessageSet.Bank) name.now }
{
    name == b"STMTTRNRQ".as_slice()
        || name == b"INTRATRNRQ".as_slice()
        || name == b"RECINTRATRNRQ".as_slice()
        || name == b"BANKMAILTRNRQ".as_slice()
        || name == b"INTRASYNCRQ".as_slice()
        || name == b"RECINTRASYNCRQ".as_slice()
        || name == b"BANKMAILSYNCRQ".as_slice()
}

/// Whether a name is that of the request of a deed.
pub(crate) fn is_transaction(name: &[u8]) -> bool
    ensures { result ≡ is_one_of transaction_names name.now }
{
    name == b"INTRATRNRQ".as_slice()
        || name == b"RECINTRATRNRQ".as_slice()
        || name == b"BANKMAILTRNRQ".as_slice()
        || name == b"MAILTRNRQ".as_slice()
}

/// Whether a name is that of a reply in the message set.
pub(crate) fn is_reply_name(set: MessageSet, name: &[u8]) -> bool
    ensures { result ≡ is_one_of (sets.reply_names set) name.now }
{
    match set {
        MessageSet::Bank => is_bank_reply(name),
        MessageSet::Mail => name == b"MAILTRNRS".as_slice() || name == b"MAILSYNCRS".as_slice(),
    }
}

fn is_bank_reply(name: &[u8]) -> bool
    ensures { result ≡ is_one_of (sets.reply_names MessageSet.Bank) name.now }
{
    name == b"STMTTRNRS".as_slice()
        || name == b"INTRATRNRS".as_slice()
        || name == b"RECINTRATRNRS".as_slice()
        || name == b"BANKMAILTRNRS".as_slice()
        || name == b"INTRASYNCRS".as_slice()
        || name == b"RECINTRASYNCRS".as_slice()
        || name == b"BANKMAILSYNCRS".as_slice()
}

/// Whether a name is that of the answer to a deed.
pub(crate) fn is_transaction_reply(name: &[u8]) -> bool
    ensures { result ≡ is_one_of transaction_reply_names name.now }
{
    name == b"INTRATRNRS".as_slice()
        || name == b"RECINTRATRNRS".as_slice()
        || name == b"BANKMAILTRNRS".as_slice()
        || name == b"MAILTRNRS".as_slice()
}

/// The messages of two message sets, those of the first in front.
pub(crate) fn one_after_other<T: Drop>(
    first: Sequence<T>,
    second: Sequence<T>,
) -> Result<Sequence<T>, TreeFault>
    ensures ok { IfOk result (λ all. all ≡ first ++ second) }
    ensures err { IfErr result (λ fault. fault ≡ TreeFault.OutOfMemory) }
{
    let mut all = first.into_vec();
    let mut rest = second.into_vec();
    match all.append(&mut rest) {
        Ok(()) => Ok(Sequence::from_vec(all)),
        Err(_) => Err(TreeFault::OutOfMemory),
    }
}
