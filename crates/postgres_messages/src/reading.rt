//! The next message of a server, from the bytes that have come.

ghost use Rattle.std.specs.Prelude.{◌≡◌, length};
ghost use Rattle.postgres_messages.specs.Reading.{placed, kind_in, body_in, read};
ghost use Rattle.postgres_messages.specs.Views.{reading_of};

use crate::body::read_body;
use crate::fields::get_u32;
use crate::kind::{Kind, kind_named};
use crate::message::Reading;

/// The longest length of a message that is taken, without its kind: 64 MiB.
pub const MAX_LENGTH: u32 = 67_108_864;

/// What the bytes that have come begin with.
///
/// ```rust
/// use postgres_messages::{BackendMessage, Reading, read_message};
///
/// // That a statement was done, and then that the server is ready, of which one byte is still to come.
/// let came = b"C\0\0\0\x0fINSERT 0 1\0Z\0\0\0\x05";
/// match read_message(came) {
///     Reading::Whole(BackendMessage::Completed(tag), 16) => {
///         assert!(rt; tag == b"INSERT 0 1".as_slice());
///     }
///     _ => assert!(rt; false),
/// }
/// assert!(rt; matches!(read_message(&came[16..]), Reading::Cut));
/// ```
#[tactic(auto, unfolding(crate::specs::Reading::read))]
pub fn read_message(bytes: &[u8]) -> Reading
    ensures { reading_of result ≡ read bytes.now }
{
    match bytes {
        [] => Reading::Cut,
        [byte, rest @ ..] => read_kind(kind_named(*byte), rest),
    }
}

fn read_kind(kind: Option<Kind>, rest: &[u8]) -> Reading
    ensures { reading_of result ≡ kind_in kind rest.now }
{
    let Some(kind) = kind else {
        return Reading::Refused(0);
    };
    let Ok((length, rest)) = get_u32(rest) else {
        return Reading::Cut;
    };
    if length < 4 || length > MAX_LENGTH {
        return Reading::Refused(1);
    }
    let size = length as usize - 4;
    if rest.len() < size {
        return Reading::Cut;
    }
    read_whole(kind, &rest[..size])
}

fn read_whole(kind: Kind, body: &[u8]) -> Reading
    ensures { reading_of result ≡ placed (length body.now) (body_in kind body.now) }
{
    match read_body(kind, body) {
        Ok(message) => Reading::Whole(message, body.len() + 5),
        Err(left) => Reading::Refused((body.len() + 5).saturating_sub(left)),
    }
}
