//! The printed form of a request file.

ghost use Rattle.std.specs.Prelude.{◌≡◌, ◌++◌, OnOk, IfOk, IsSomeAnd};
ghost use Rattle.std.specs.List.{flat_map, AllByRecursion};
ghost use Rattle.ofx_types.specs.PrintedFile as form;
ghost use Rattle.ofx_types.specs.PrintedFile.{file_text};
ghost use Rattle.ofx_types.specs.Calendar.{IsMoment};
ghost use Rattle.ofx_file.specs.FileParts as parts;
ghost use Rattle.ofx_file.specs.MessageSets as sets;
ghost use Rattle.ofx_file.specs.Printable.{IsPrintableFile, IsPrintableAsk};

use crate::messages::MessageSet;
use msg_bank::print_statement;
use msg_mail::print_signon;
use msg_sync::{print_sync, print_transaction};
use ofx_header::{Header, write_header};
use ofx_tree::Sheet;
use ofx_types::{Ask, Deed, Duplicate, Moment, ObjectName, OutOfMemory, RequestFile, Text};
use std::alloc::Global;

/// The room that a request file is given at first, in bytes.
const ROOM: usize = 1_024;

/// The bytes of a request file that was made at a moment of the years 1900 to 9999, in its one printed form (OFX 1.6, "Open
/// Financial Exchange Headers", "SGML Basics"). What the bank is asked comes before mail. The days and moments of its asks
/// lie in those years too.
#[tactic(auto, using(crate::proofs::Texts::file_text_is))]
pub fn write_request(alloc: Global, file: &RequestFile, at: Moment) -> Result<Vec<u8>, OutOfMemory>
    requires { IsPrintableFile file.now at }
    ensures { IfOk result (λ out. out.items ≡ file_text file.now at) }
{
    let mut out = Vec::with_capacity(alloc, ROOM)?;
    write_header(&header_of(file)?, &mut out)?;
    let mut sheet = Sheet::from_vec(out);
    body(file, at, &mut sheet)?;
    Ok(sheet.into_bytes())
}

/// The header of a request.
fn header_of(file: &RequestFile) -> Result<Header, OutOfMemory>
    ensures { IfOk result (λ header. header ≡ record { version = file.now.version; older = file.now.older; newer = file.now.newer }) }
{
    Ok(Header {
        version: file.version,
        older: file.older.copy()?,
        newer: file.newer.copy()?,
    })
}

/// Appends what follows the header.
#[tactic(auto, using(msg_parts::proofs::Joined::aggregate_of_three))]
fn body(file: &RequestFile, at: Moment, sheet: &mut Sheet) -> Result<(), OutOfMemory>
    requires { IsPrintableFile file.now at }
    ensures { OnOk result (sheet.new ≡ sheet.old ++ parts.request_body file.now at) }
{
    sheet.start(b"OFX")?;
    signon_set(&file.user, &file.pass, at, sheet)?;
    ask_set_of_some(MessageSet::Bank, file.asks.items(), sheet)?;
    ask_set_of_some(MessageSet::Mail, file.asks.items(), sheet)?;
    sheet.end(b"OFX")
}

/// Appends the message set of the signon.
#[tactic(auto, unfolding(ofx_types::specs::Sheet::aggregate))]
fn signon_set(user: &Text, pass: &Text, at: Moment, sheet: &mut Sheet) -> Result<(), OutOfMemory>
    requires { IsMoment at.0 }
    ensures { OnOk result (sheet.new ≡ sheet.old ++ parts.request_signon_set user.now pass.now at) }
{
    sheet.start(b"SIGNONMSGSRQV1")?;
    print_signon(user, pass, at, sheet)?;
    sheet.end(b"SIGNONMSGSRQV1")
}

/// Appends a message set, where one of the asks is in it.
fn ask_set_of_some(set: MessageSet, asks: &[Ask], sheet: &mut Sheet) -> Result<(), OutOfMemory>
    requires { AllByRecursion IsPrintableAsk asks.now }
    ensures { OnOk result (sheet.new ≡ sheet.old ++ parts.ask_set_of_some set asks.now) }
{
    if has_any(set, asks) {
        return ask_set(set, asks, sheet);
    }
    Ok(())
}

/// Appends a message set.
#[tactic(auto, unfolding(ofx_types::specs::Sheet::aggregate))]
fn ask_set(set: MessageSet, asks: &[Ask], sheet: &mut Sheet) -> Result<(), OutOfMemory>
    requires { AllByRecursion IsPrintableAsk asks.now }
    ensures { OnOk result (sheet.new ≡ sheet.old ++ parts.ask_set set asks.now) }
{
    let name = set_name(set);
    sheet.start(name)?;
    print_asks(set, asks, sheet)?;
    sheet.end(name)
}

fn set_name(set: MessageSet) -> &'static [u8]
    ensures { result.now ≡ sets.request_set set }
{
    match set {
        MessageSet::Bank => b"BANKMSGSRQV1",
        MessageSet::Mail => b"EMAILMSGSRQV1",
    }
}

/// Whether one of the asks is in a message set.
fn has_any(set: MessageSet, asks: &[Ask]) -> bool
    ensures { result ≡ sets.has_ask set asks.now }
{
    asks.iter().any(|ask| is_in(set, ask))
}

/// Whether an ask is in a message set.
fn is_in(set: MessageSet, ask: &Ask) -> bool
    ensures { result ≡ sets.is_ask_in set ask.now }
{
    match set {
        MessageSet::Bank => !is_mail(ask),
        MessageSet::Mail => is_mail(ask),
    }
}

/// Whether an ask is one of mail about nothing in particular.
fn is_mail(ask: &Ask) -> bool
    ensures { result ≡ form.is_mail_ask ask.now }
{
    match ask {
        Ask::Statement(_, _, _) => false,
        Ask::One(_, deed) => matches!(deed, Deed::Mail(_)),
        Ask::Sync(sync) => matches!(sync.object, ObjectName::Mail),
    }
}

/// Appends the asks that are in a message set, in their order.
fn print_asks(set: MessageSet, asks: &[Ask], sheet: &mut Sheet) -> Result<(), OutOfMemory>
    requires { AllByRecursion IsPrintableAsk asks.now }
    ensures { OnOk result (sheet.new ≡ sheet.old ++ flat_map (sets.text_in set) asks.now) }
{
    for ask in asks {
        print_if_in(set, ask, sheet)?;
    }
    Ok(())
}

/// Appends an ask, where it is in the message set.
fn print_if_in(set: MessageSet, ask: &Ask, sheet: &mut Sheet) -> Result<(), OutOfMemory>
    requires { IsPrintableAsk ask.now }
    ensures { OnOk result (sheet.new ≡ sheet.old ++ sets.text_in set ask.now) }
{
    if is_in(set, ask) {
        return print_ask(ask, sheet);
    }
    Ok(())
}

/// Appends an ask.
#[tactic(auto, unfolding(ofx_types::specs::PrintedFile::ask_text))]
fn print_ask(ask: &Ask, sheet: &mut Sheet) -> Result<(), OutOfMemory>
    requires { IsPrintableAsk ask.now }
    ensures { OnOk result (sheet.new ≡ sheet.old ++ form.ask_text ask.now) }
{
    match ask {
        Ask::Statement(trnuid, account, period) => {
            print_statement(trnuid, account, period.as_ref(), sheet)
        }
        Ask::One(trnuid, deed) => print_transaction(trnuid, deed, sheet),
        Ask::Sync(sync) => print_sync(sync, sheet),
    }
}
