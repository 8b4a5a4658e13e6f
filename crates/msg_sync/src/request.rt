//! What a client asks for of an object (INTRASYNCRQ, RECINTRASYNCRQ, BANKMAILSYNCRQ, MAILSYNCRQ), read and written.

ghost use Rattle.std.specs.Prelude.{◌≡◌, ◌++◌, OnOk};
ghost use Rattle.std.specs.Io.{StartsWith};
ghost use Rattle.std.specs.List.{flat_map, AllByRecursion};
ghost use Rattle.ofx_types.specs.FormWords.{ReadsForm, one_of};
ghost use Rattle.ofx_types.specs.Nodes.{children};
ghost use Rattle.ofx_types.specs.DeedForm as deeds;
ghost use Rattle.ofx_types.specs.SyncForm as forms;
ghost use Rattle.ofx_types.specs.SyncReading as reading;
ghost use Rattle.ofx_types.specs.SyncReading.{sync_of};
ghost use Rattle.ofx_types.specs.PrintedSync as text;
ghost use Rattle.ofx_types.specs.PrintedSync.{sync_text};
ghost use Rattle.msg_sync.specs.SyncSteps as steps;
ghost use Rattle.msg_sync.specs.PrintableSyncs.{IsPrintablePair, IsPrintableSync};

use crate::listing::put_form;
use crate::object::{print_object, read_object};
use crate::transaction::{print_transaction, read_transaction};
use msg_parts::print_flag;
use ofx_tree::{Cursor, Sheet};
use ofx_types::{Deed, Deeds, Family, OutOfMemory, SyncAsk, SyncKind, TreeFault, TrnUid};
use std::alloc::Global;

/// The most bytes of a token.
const MAX_BYTES: u32 = 64;

/// The ask that a synchronisation is: INTRASYNCRQ, RECINTRASYNCRQ, BANKMAILSYNCRQ or MAILSYNCRQ. Just one of TOKEN, TOKENONLY
/// and REFRESH is in it, the last two as `Y`. Deeds of another family are skipped.
///
/// The first fault of its form, with its offset, which is its own where it has another name; `OutOfMemory` where memory
/// for its texts or its deeds is refused.
///
/// ```rust
/// use msg_sync::read_sync;
/// use ofx_tape::Tape;
/// use ofx_tree::Cursor;
/// use ofx_types::{ObjectName, SyncKind};
///
/// let body = b"<OFX><MAILSYNCRQ><TOKEN>3<REJECTIFMISSING>N</MAILSYNCRQ></OFX>";
/// let tape = Tape::read(rt.alloc(), body).expect(&rt, "a tape");
/// let request = Cursor::root(&tape)
///     .one(b"MAILSYNCRQ")
///     .expect(&rt, "a synchronisation");
/// let ask = read_sync(rt.alloc(), &request).expect(&rt, "an ask");
/// let (ObjectName::Mail, SyncKind::After(token)) = (&ask.object, &ask.kind) else {
///     panic!(rt; "the mail after a token");
/// };
/// assert!(rt; token.as_bytes() == b"3".as_slice() && ask.deeds.items().is_empty());
/// ```
#[tactic(auto, unfolding(ofx_types::specs::SyncReading::sync_of))]
pub fn read_sync(alloc: Global, c: &Cursor<'_>) -> Result<SyncAsk, TreeFault>
    ensures { ReadsForm result (sync_of c.now) }
{
    let family = family_synced(c)?;
    let choice = c.one_of(b"TOKEN", b"TOKENONLY", b"REFRESH")?;
    let kind = read_kind(alloc, &choice)?;
    let reject = c.flag(b"REJECTIFMISSING")?;
    let object = read_object(alloc, family, c)?;
    let deeds = read_deeds(alloc, deed_name(family), c)?;
    Ok(SyncAsk {
        object,
        kind,
        reject,
        deeds,
    })
}

/// How much of the history is asked for.
#[tactic(auto, unfolding(ofx_types::specs::SyncReading::kind_of))]
fn read_kind(alloc: Global, choice: &Cursor<'_>) -> Result<SyncKind, TreeFault>
    ensures { ReadsForm result (reading.kind_of choice.now) }
{
    if choice.name() == b"TOKEN".as_slice() {
        return Ok(SyncKind::After(choice.own_text(alloc, MAX_BYTES)?));
    }
    if choice.name() == b"TOKENONLY".as_slice() {
        return only_yes(SyncKind::TokenOnly, choice);
    }
    only_yes(SyncKind::Refresh, choice)
}

/// The kind that an element stands for with `Y`; with another value it stands for nothing.
fn only_yes(kind: SyncKind, choice: &Cursor<'_>) -> Result<SyncKind, TreeFault>
    ensures { result ≡ reading.only_yes kind choice.now.node }
{
    if choice.value_eq(b"Y") {
        return Ok(kind);
    }
    Err(TreeFault::Value(choice.offset() as u64))
}

/// The family of what is synchronised, by the name of the synchronisation.
fn family_synced(sync: &Cursor<'_>) -> Result<Family, TreeFault>
    ensures { result ≡ reading.family_synced sync.now }
{
    if sync.name() == b"INTRASYNCRQ".as_slice() {
        return Ok(Family::Intra);
    }
    if sync.name() == b"RECINTRASYNCRQ".as_slice() {
        return Ok(Family::RecIntra);
    }
    if sync.name() == b"BANKMAILSYNCRQ".as_slice() {
        return Ok(Family::BankMail);
    }
    if sync.name() == b"MAILSYNCRQ".as_slice() {
        return Ok(Family::Mail);
    }
    Err(TreeFault::Value(sync.offset() as u64))
}

/// The name of the deeds of a family.
fn deed_name(family: Family) -> &'static [u8]
    ensures { result.now ≡ deeds.request_name family }
{
    match family {
        Family::Intra => b"INTRATRNRQ",
        Family::RecIntra => b"RECINTRATRNRQ",
        Family::BankMail => b"BANKMAILTRNRQ",
        Family::Mail => b"MAILTRNRQ",
    }
}

/// The deeds of this name, in the order of the file.
#[tactic(auto, using(crate::proofs::After::rest, crate::proofs::Deeds::all_deeds))]
fn read_deeds(alloc: Global, name: &[u8], sync: &Cursor<'_>) -> Result<Deeds, TreeFault>
    ensures { ReadsForm result (reading.deeds_of name.now (children sync.now)) }
{
    let mut deeds = Deeds::new(alloc);
    for child in sync.children() {
        put_form(deed_at(alloc, name, &child)?, &mut deeds)?;
    }
    Ok(deeds)
}

/// The deed that a child is. A child of another name is skipped.
#[tactic(auto, unfolding(crate::specs::Listing::form_at))]
fn deed_at(
    alloc: Global,
    name: &[u8],
    child: &Cursor<'_>,
) -> Result<Option<(TrnUid, Deed)>, TreeFault>
    ensures { ReadsForm result (steps.deed_at name.now child.now) }
{
    if child.name() == name {
        return Ok(Some(read_transaction(alloc, child)?));
    }
    Ok(None)
}

/// Writes a synchronisation. Its deeds' days and moments lie in the years 1900 to 9999.
#[tactic(auto, unfolding(ofx_types::specs::PrintedSync::sync_text, ofx_types::specs::Sheet::aggregate))]
pub fn print_sync(s: &SyncAsk, out: &mut Sheet) -> Result<(), OutOfMemory>
    requires { IsPrintableSync s.now }
    ensures ok { OnOk result (out.new ≡ out.old ++ sync_text s.now) }
    ensures kept { StartsWith out.new out.old }
{
    let family = s.object.family();
    let name = name_of(family);
    out.start(name)?;
    print_kind(&s.kind, out)?;
    print_flag(b"REJECTIFMISSING", s.reject, out)?;
    print_plain(family, out)?;
    print_object(&s.object, out)?;
    print_deeds(s.deeds.items(), out)?;
    out.end(name)
}

/// The name of a synchronisation of a family.
fn name_of(family: Family) -> &'static [u8]
    ensures { result.now ≡ forms.sync_name family }
{
    match family {
        Family::Intra => b"INTRASYNCRQ",
        Family::RecIntra => b"RECINTRASYNCRQ",
        Family::BankMail => b"BANKMAILSYNCRQ",
        Family::Mail => b"MAILSYNCRQ",
    }
}

#[tactic(auto, unfolding(ofx_types::specs::PrintedSync::kind_text))]
fn print_kind(kind: &SyncKind, sheet: &mut Sheet) -> Result<(), OutOfMemory>
    ensures ok { OnOk result (sheet.new ≡ sheet.old ++ text.kind_text kind.now) }
    ensures kept { StartsWith sheet.new sheet.old }
{
    match kind {
        SyncKind::After(token) => sheet.text(b"TOKEN", token),
        SyncKind::TokenOnly => sheet.element(b"TOKENONLY", b"Y"),
        SyncKind::Refresh => sheet.element(b"REFRESH", b"Y"),
    }
}

/// Writes that mail is asked for without images and without HTML.
#[tactic(auto, unfolding(ofx_types::specs::PrintedSync::plain_text))]
fn print_plain(family: Family, sheet: &mut Sheet) -> Result<(), OutOfMemory>
    ensures ok { OnOk result (sheet.new ≡ sheet.old ++ text.plain_text family) }
    ensures kept { StartsWith sheet.new sheet.old }
{
    match family {
        Family::Intra | Family::RecIntra => Ok(()),
        Family::BankMail | Family::Mail => {
            sheet.element(b"INCIMAGES", b"N")?;
            sheet.element(b"USEHTML", b"N")
        }
    }
}

fn print_deeds(deeds: &[(TrnUid, Deed)], sheet: &mut Sheet) -> Result<(), OutOfMemory>
    requires { AllByRecursion IsPrintablePair deeds.now }
    ensures ok { OnOk result (sheet.new ≡ sheet.old ++ flat_map text.transaction_text deeds.now) }
    ensures kept { StartsWith sheet.new sheet.old }
{
    for deed in deeds {
        print_transaction(&deed.0, &deed.1, sheet)?;
    }
    Ok(())
}
