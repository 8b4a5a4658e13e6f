//! The bodies of messages, by their kinds. A refusal is how many bytes are left from the start of the first field without a form.

ghost use Rattle.std.specs.Prelude.{◌≡◌};
ghost use Rattle.postgres_messages.specs.Reading.{ended, report_in, sign_on_in, authentication_in, key_data_in, setting_in, ready_in, row_in, completed_in, body_in};
ghost use Rattle.postgres_messages.specs.Views.{Gives, texts, message_of};

use crate::fields::{get_text, get_u16, get_u32};
use crate::kind::Kind;
use crate::message::BackendMessage;
use crate::texts::{Texts, skip_texts};
use crate::values::{Values, skip_values};

/// The message of this kind whose body these bytes are.
#[tactic(auto, unfolding(crate::specs::Reading::body_in))]
pub(crate) fn read_body(kind: Kind, body: &[u8]) -> Result<BackendMessage, usize>
    ensures { Gives message_of result (body_in kind body.now) }
{
    match kind {
        Kind::Authentication => read_authentication(body),
        Kind::KeyData => read_key_data(body),
        Kind::ParameterStatus => read_setting(body),
        Kind::ReadyForQuery => read_ready(body),
        Kind::ParseComplete => end(BackendMessage::Parsed, body),
        Kind::BindComplete => end(BackendMessage::Bound, body),
        Kind::DataRow => read_row(body),
        Kind::CommandComplete => read_completed(body),
        Kind::ErrorResponse => match read_report(body) {
            Ok(report) => Ok(BackendMessage::Failed(report)),
            Err(left) => Err(left),
        },
        Kind::NoticeResponse => match read_report(body) {
            Ok(report) => Ok(BackendMessage::Notice(report)),
            Err(left) => Err(left),
        },
    }
}

/// The message, where nothing follows it.
fn end<'a>(message: BackendMessage<'a>, rest: &[u8]) -> Result<BackendMessage<'a>, usize>
    ensures { Gives message_of result (ended (message_of message.entry) rest.now) }
{
    if rest.is_empty() {
        Ok(message)
    } else {
        Err(rest.len())
    }
}

/// A list of texts that is the whole body.
fn read_report(body: &[u8]) -> Result<Texts, usize>
    ensures { Gives texts result (report_in body.now) }
{
    let rest = skip_texts(body)?;
    if rest.is_empty() {
        Ok(Texts { bytes: body })
    } else {
        Err(rest.len())
    }
}

fn read_authentication(body: &[u8]) -> Result<BackendMessage, usize>
    ensures { Gives message_of result (authentication_in body.now) }
{
    let (code, rest) = get_u32(body)?;
    match code {
        0 => end(BackendMessage::SignedOn, rest),
        10 => {
            let names = read_report(rest)?;
            Ok(BackendMessage::Methods(names))
        }
        11 => Ok(BackendMessage::Challenge(rest)),
        12 => Ok(BackendMessage::Verifier(rest)),
        _ => Err(body.len()),
    }
}

fn read_key_data(body: &[u8]) -> Result<BackendMessage, usize>
    ensures { Gives message_of result (key_data_in body.now) }
{
    let (process, rest) = get_u32(body)?;
    let (key, rest) = get_u32(rest)?;
    end(BackendMessage::ProcessKey(process, key), rest)
}

fn read_setting(body: &[u8]) -> Result<BackendMessage, usize>
    ensures { Gives message_of result (setting_in body.now) }
{
    let (name, rest) = get_text(body)?;
    let (value, rest) = get_text(rest)?;
    end(BackendMessage::Setting(name, value), rest)
}

fn read_ready(body: &[u8]) -> Result<BackendMessage, usize>
    ensures { Gives message_of result (ready_in body.now) }
{
    match body {
        [b'I', rest @ ..] => end(BackendMessage::Ready, rest),
        _ => Err(body.len()),
    }
}

fn read_row(body: &[u8]) -> Result<BackendMessage, usize>
    ensures { Gives message_of result (row_in body.now) }
{
    let (count, bytes) = get_u16(body)?;
    let rest = skip_values(count, bytes)?;
    end(BackendMessage::Row(Values { count, bytes }), rest)
}

fn read_completed(body: &[u8]) -> Result<BackendMessage, usize>
    ensures { Gives message_of result (completed_in body.now) }
{
    let (tag, rest) = get_text(body)?;
    end(BackendMessage::Completed(tag), rest)
}
