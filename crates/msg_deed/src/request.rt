//! What a client asks to be done (INTRATRNRQ, RECINTRATRNRQ), read and written.

ghost use Rattle.std.specs.Prelude.{◌≡◌, ◌++◌, OnOk};
ghost use Rattle.std.specs.Io.{StartsWith};
ghost use Rattle.ofx_types.specs.FormWords.{ReadsForm};
ghost use Rattle.ofx_types.specs.DeedReading as reading;
ghost use Rattle.ofx_types.specs.DeedReading.{deed_of};
ghost use Rattle.ofx_types.specs.DeedText as text;
ghost use Rattle.ofx_types.specs.DeedText.{deed_text};
ghost use Rattle.msg_deed.specs.PrintableDeeds.{IsPrintableDeed};

use crate::recurring::{
    print_cancel_model, print_model, print_modify_model, read_cancel_model, read_model,
    read_modify_model,
};
use crate::transfer::{
    print_cancel, print_modify, print_transfer, read_cancel, read_modify, read_transfer,
};
use msg_parts::{print_trnuid, read_own_trnuid, request_name};
use ofx_tree::{Cursor, Sheet};
use ofx_types::{Deed, OutOfMemory, TreeFault, TrnUid};
use std::alloc::Global;

/// The uid and the deed that a request of a transfer (INTRATRNRQ) or of a recurring one (RECINTRATRNRQ) is: just one of
/// the three requests of its name is in it.
///
/// The first fault of its form, with its offset, which is its own where it has another name; `OutOfMemory` where memory
/// for its texts is refused.
///
/// ```rust
/// use msg_deed::read_deed;
/// use ofx_tape::Tape;
/// use ofx_tree::Cursor;
/// use ofx_types::Deed;
///
/// let body = b"<OFX><INTRATRNRQ><TRNUID>t1<INTRACANRQ><SRVRTID>7</INTRACANRQ></INTRATRNRQ></OFX>";
/// let tape = Tape::read(rt.alloc(), body).expect(&rt, "a tape");
/// let request = Cursor::root(&tape)
///     .one(b"INTRATRNRQ")
///     .expect(&rt, "a request");
/// let Ok((uid, Deed::CancelTransfer(7))) = read_deed(rt.alloc(), &request) else {
///     panic!(rt; "the cancellation of the transfer 7");
/// };
/// assert!(rt; uid.as_bytes() == b"t1".as_slice());
/// ```
#[tactic(auto, unfolding(ofx_types::specs::DeedReading::deed_of))]
pub fn read_deed(alloc: Global, c: &Cursor<'_>) -> Result<(TrnUid, Deed), TreeFault>
    ensures { ReadsForm result (deed_of c.now) }
{
    let trnuid = read_own_trnuid(alloc, c)?;
    let request = request_in(c)?;
    let deed = read_request(alloc, &request)?;
    Ok((trnuid, deed))
}

/// The one request that is in a transaction.
fn request_in<'t>(c: &Cursor<'t>) -> Result<Cursor<'t>, TreeFault>
    ensures { result ≡ reading.request_in c.now }
{
    if c.name() == b"INTRATRNRQ".as_slice() {
        return c.one_of(b"INTRARQ", b"INTRAMODRQ", b"INTRACANRQ");
    }
    if c.name() == b"RECINTRATRNRQ".as_slice() {
        return c.one_of(b"RECINTRARQ", b"RECINTRAMODRQ", b"RECINTRACANRQ");
    }
    Err(TreeFault::Value(c.offset() as u64))
}

/// The deed that one of the six requests is, by its name.
#[tactic(auto, unfolding(ofx_types::specs::DeedReading::request_of))]
fn read_request(alloc: Global, request: &Cursor<'_>) -> Result<Deed, TreeFault>
    ensures { ReadsForm result (reading.request_of request.now) }
{
    if request.name() == b"INTRARQ".as_slice() {
        return read_transfer(alloc, request);
    }
    if request.name() == b"INTRAMODRQ".as_slice() {
        return read_modify(alloc, request);
    }
    if request.name() == b"INTRACANRQ".as_slice() {
        return read_cancel(request);
    }
    if request.name() == b"RECINTRARQ".as_slice() {
        return read_model(alloc, request);
    }
    if request.name() == b"RECINTRAMODRQ".as_slice() {
        return read_modify_model(alloc, request);
    }
    read_cancel_model(request)
}

/// Writes the request of a transfer or of a recurring one. Its due day, if it has one, lies in the years 1900 to 9999.
#[tactic(auto, unfolding(ofx_types::specs::DeedText::deed_text), using(msg_parts::proofs::Joined::joined))]
pub fn print_deed(trnuid: &TrnUid, deed: &Deed, out: &mut Sheet) -> Result<(), OutOfMemory>
    requires { IsPrintableDeed deed.now }
    ensures ok { OnOk result (out.new ≡ out.old ++ deed_text trnuid.now deed.now) }
    ensures kept { StartsWith out.new out.old }
{
    let name = request_name(deed);
    out.start(name)?;
    print_trnuid(trnuid, out)?;
    print_request(deed, out)?;
    out.end(name)
}

/// Writes the request that a deed is.
fn print_request(deed: &Deed, sheet: &mut Sheet) -> Result<(), OutOfMemory>
    requires { IsPrintableDeed deed.now }
    ensures ok { OnOk result (sheet.new ≡ sheet.old ++ text.request_text deed.now) }
    ensures kept { StartsWith sheet.new sheet.old }
{
    match deed {
        Deed::Transfer(info) => print_transfer(info, sheet),
        Deed::ModifyTransfer(id, info) => print_modify(*id, info, sheet),
        Deed::CancelTransfer(id) => print_cancel(*id, sheet),
        Deed::Model(recur, info) => print_model(*recur, info, sheet),
        Deed::ModifyModel(id, recur, info, pending) => {
            print_modify_model(*id, *recur, info, *pending, sheet)
        }
        Deed::CancelModel(id, pending) => print_cancel_model(*id, *pending, sheet),
        Deed::BankMail(_, _) | Deed::Mail(_) => unreachable!(),
    }
}
