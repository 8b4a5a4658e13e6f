//! One line of a header: its end, its tag, and what follows it.

ghost use Rattle.std.specs.Prelude.{◌≡◌, ◌≤◌, IfOk, length, position};
ghost use Rattle.ofx_types.specs.HeaderForm.{is_line_feed};
ghost use Rattle.ofx_header.specs.HeaderReading as header;
ghost use Rattle.ofx_header.specs.HeaderReading.{ReadsHeader};

use ofx_types::HeaderFault;

/// The bytes after the mark, a tag and its colon, on the line that begins at an offset, and the offset after the line.
///
/// `Cut` where the line's LF isn't there, and `Line` where the line doesn't begin with the mark.
#[tactic(auto, unfolding(crate::specs::HeaderReading::raw_at))]
pub(crate) fn raw_at<'a>(
    bytes: &'a [u8],
    at: usize,
    number: u8,
    mark: &[u8],
) -> Result<(&'a [u8], usize), HeaderFault>
    requires { at ≤ length bytes.now }
    ensures found { ReadsHeader (λ x. (x.0.now, x.1)) result (header.raw_at number mark.now bytes.now at) }
    ensures within { IfOk result (λ x. x.1 ≤ length bytes.now) }
{
    let rest = &bytes[at..];
    let Some(size) = first_line_feed(rest) else {
        return Err(HeaderFault::Cut(bytes.len() as u64));
    };
    let line = &rest[..size];
    if !line.starts_with(mark) {
        return Err(HeaderFault::Line(number, at as u64));
    }
    Ok((&line[mark.len()..], at + size + 1))
}

fn first_line_feed(bytes: &[u8]) -> Option<usize>
    ensures { result ≡ position is_line_feed bytes.now }
{
    bytes.iter().position(|byte| *byte == b'\n')
}
