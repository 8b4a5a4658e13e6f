//! The signon (SONRQ) and the answer to it (SONRS), read and written (OFX 1.6, "Signon").

ghost use Rattle.std.specs.Prelude.{◌≡◌, ◌++◌, OnOk};
ghost use Rattle.std.specs.Io.{StartsWith};
ghost use Rattle.ofx_types.specs.Calendar.{IsMoment};
ghost use Rattle.ofx_types.specs.FormWords.{ReadsForm};
ghost use Rattle.ofx_types.specs.RequestReading.{signon_of};
ghost use Rattle.ofx_types.specs.RequestText.{signon_request};
ghost use Rattle.ofx_types.specs.ReplyReading.{signon_reply_of};
ghost use Rattle.ofx_types.specs.ReplyForm.{signon_reply};
ghost use Rattle.msg_mail.specs.SignonParts as parts;

use msg_parts::{print_status, read_status};
use ofx_tree::{Cursor, Sheet};
use ofx_types::{Moment, OutOfMemory, Text, TreeFault};
use std::alloc::Global;

/// The most bytes of a user's name.
const MAX_USER: u32 = 32;

/// The most bytes of a password.
const MAX_PASS: u32 = 64;

/// Who signs on, as a SONRQ says: the user's name and the password.
///
/// The first fault of USERID and then USERPASS, each of which occurs once, with a text of at most 32 and 64 bytes:
/// `Missing` at the SONRQ, `Repeated` at the second one, `Value` at one that is no such text; `OutOfMemory` where memory
/// for a text is refused. Offsets count from the first byte of the body.
///
/// ```rust
/// use msg_mail::read_signon;
/// use ofx_tape::Tape;
/// use ofx_tree::{Cursor, TreeFault};
///
/// let alloc = rt.alloc();
/// let body = b"<OFX><SONRQ><USERID>alice<USERPASS>secret</SONRQ></OFX>";
/// let tape = Tape::read(alloc, body).expect(&rt, "a tape");
/// let ofx = Cursor::root(&tape);
/// let request = ofx.one(b"SONRQ").expect(&rt, "a signon");
/// let (user, pass) = read_signon(alloc, &request).expect(&rt, "a name and a password");
/// assert!(rt; user.as_bytes() == b"alice".as_slice() && pass.as_bytes() == b"secret".as_slice());
/// // The aggregate at offset 0 has no USERID.
/// assert!(rt; read_signon(alloc, &ofx).err() == Some(TreeFault::Missing(0)));
/// ```
#[tactic(auto, unfolding(ofx_types::specs::RequestReading::signon_of))]
pub fn read_signon(alloc: Global, c: &Cursor<'_>) -> Result<(Text, Text), TreeFault>
    ensures { ReadsForm result (signon_of c.now) }
{
    let user = c.text(alloc, b"USERID", MAX_USER)?;
    let pass = c.text(alloc, b"USERPASS", MAX_PASS)?;
    Ok((user, pass))
}

/// Writes a signon that was made at a moment of the years 1900 to 9999.
#[tactic(auto, unfolding(ofx_types::specs::RequestText::signon_request, ofx_types::specs::Sheet::aggregate))]
pub fn print_signon(
    user: &Text,
    pass: &Text,
    at: Moment,
    out: &mut Sheet,
) -> Result<(), OutOfMemory>
    requires { IsMoment at.0 }
    ensures ok { OnOk result (out.new ≡ out.old ++ signon_request user.now pass.now at) }
    ensures kept { StartsWith out.new out.old }
{
    out.start(b"SONRQ")?;
    out.moment(b"DTCLIENT", at)?;
    out.text(b"USERID", user)?;
    out.text(b"USERPASS", pass)?;
    program(out)?;
    out.end(b"SONRQ")
}

/// Writes the language of the user and the program that signs on.
fn program(out: &mut Sheet) -> Result<(), OutOfMemory>
    ensures ok { OnOk result (out.new ≡ out.old ++ parts.program) }
    ensures kept { StartsWith out.new out.old }
{
    out.element(b"LANGUAGE", b"ENG")?;
    out.element(b"APPID", b"OFXC")?;
    out.element(b"APPVER", b"0100")
}

/// Writes the answer to a signon: its code, and the moment of the reply, in the years 1900 to 9999.
#[tactic(auto, unfolding(ofx_types::specs::ReplyForm::signon_reply, ofx_types::specs::Sheet::aggregate))]
pub fn print_signon_reply(code: u16, at: Moment, out: &mut Sheet) -> Result<(), OutOfMemory>
    requires { IsMoment at.0 }
    ensures ok { OnOk result (out.new ≡ out.old ++ signon_reply code at) }
    ensures kept { StartsWith out.new out.old }
{
    out.start(b"SONRS")?;
    print_status(code, out)?;
    out.moment(b"DTSERVER", at)?;
    out.element(b"LANGUAGE", b"ENG")?;
    out.end(b"SONRS")
}

/// The code and the moment that a SONRS says. It takes no memory.
///
/// The first fault of its STATUS and then of DTSERVER, each of which occurs once: `Missing` at the aggregate, `Repeated`
/// at the second one, `Value` at a CODE or DTSERVER that is no number up to 65,535 and no date. Offsets count from the
/// first byte of the body.
#[tactic(auto, unfolding(ofx_types::specs::ReplyReading::signon_reply_of))]
pub fn read_signon_reply(c: &Cursor<'_>) -> Result<(u16, Moment), TreeFault>
    ensures { result ≡ signon_reply_of c.now }
{
    let code = read_status(c)?;
    let at = c.moment(b"DTSERVER")?;
    Ok((code, at))
}
