//! The parts of requests, as the bytes of a link come.

/// The part of a request to which the next byte of a link belongs.
#[derive(Clone, Copy)]
pub(crate) enum RequestPart {
    /// The first one: no byte of the request has come.
    Start,
    /// The head, of which some bytes have come.
    Head,
    /// What follows the head.
    Body,
}

/// The start of the line with the length of a body, in small letters.
const LENGTH_FIELD: &[u8] = b"content-length:";

/// Where the bytes that have come end, among the requests of a link. Only what tells one request from the next is read: the
/// lines of a head, of which an empty one is the last, and the length of the body. How long parts may take depends on it, and
/// what they mean doesn't.
#[derive(Clone, Copy)]
pub(crate) struct RequestTrack {
    pub(crate) part: RequestPart,
    // whether a line of the head has come that isn't empty, and whether the line that is coming is empty so far
    has_line: bool,
    is_line_empty: bool,
    // how much of the field's name the line begins with, up to all of it; more where it begins with something else
    matched: usize,
    // the length that the head says
    length: u64,
    // how many bytes of the body are still to come
    left: u64,
}

impl RequestTrack {
    /// Before the first byte.
    pub(crate) fn new() -> RequestTrack {
        RequestTrack {
            part: RequestPart::Start,
            has_line: false,
            is_line_empty: true,
            matched: 0,
            length: 0,
            left: 0,
        }
    }

    /// These bytes come. Whether a head ends in them.
    pub(crate) fn take(&mut self, bytes: &[u8]) -> bool {
        let mut has_ended = false;
        for byte in bytes {
            match self.part {
                RequestPart::Body => self.take_of_body(),
                _ => has_ended = self.take_of_head(*byte) || has_ended,
            }
        }
        has_ended
    }

    /// A byte of the body comes.
    fn take_of_body(&mut self) {
        self.left = self.left.saturating_sub(1);
        if self.left == 0 {
            self.part = RequestPart::Start;
        }
    }

    /// A byte of the head comes. Whether the head ends with it.
    fn take_of_head(&mut self, byte: u8) -> bool {
        self.part = RequestPart::Head;
        match byte {
            b'\n' => self.end_line(),
            b'\r' => false,
            _ => {
                self.has_line = true;
                self.is_line_empty = false;
                self.take_of_line(byte);
                false
            }
        }
    }

    /// A line ends. Whether the head ends with it. Empty lines before its first one don't count.
    fn end_line(&mut self) -> bool {
        let is_last = self.is_line_empty && self.has_line;
        self.is_line_empty = true;
        self.matched = 0;
        if is_last {
            self.has_line = false;
            self.left = self.length;
            self.length = 0;
            self.part = if self.left == 0 {
                RequestPart::Start
            } else {
                RequestPart::Body
            };
        }
        is_last
    }

    /// A byte of a line comes.
    fn take_of_line(&mut self, byte: u8) {
        let name_length = LENGTH_FIELD.len();
        if self.matched == name_length {
            if byte.is_ascii_digit() {
                let digit = u64::from(byte - b'0');
                self.length = self.length.saturating_mul(10).saturating_add(digit);
            }
        } else if let Some(wanted) = LENGTH_FIELD.get(self.matched)
            && *wanted == byte.to_ascii_lowercase()
        {
            self.matched += 1;
        } else {
            self.matched = usize::MAX;
        }
    }
}
