//! The kinds of a server's messages.

ghost use Rattle.std.specs.Prelude.{◌≡◌};
ghost use Rattle.postgres_messages.specs.Reading.{kind_of};

/// The kind of a message, which its first byte names.
#[derive(Clone, Copy)]
pub(crate) enum Kind {
    Authentication,
    KeyData,
    ParameterStatus,
    ReadyForQuery,
    ParseComplete,
    BindComplete,
    DataRow,
    CommandComplete,
    ErrorResponse,
    NoticeResponse,
}

/// The kind that a byte names.
pub(crate) fn kind_named(byte: u8) -> Option<Kind>
    ensures { result ≡ kind_of byte }
{
    match byte {
        b'R' => Some(Kind::Authentication),
        b'K' => Some(Kind::KeyData),
        b'S' => Some(Kind::ParameterStatus),
        b'Z' => Some(Kind::ReadyForQuery),
        b'1' => Some(Kind::ParseComplete),
        b'2' => Some(Kind::BindComplete),
        b'D' => Some(Kind::DataRow),
        b'C' => Some(Kind::CommandComplete),
        b'E' => Some(Kind::ErrorResponse),
        b'N' => Some(Kind::NoticeResponse),
        _ => None,
    }
}
