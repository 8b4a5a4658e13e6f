//! Reply files, frames and arguments that tests use.

use ofx_types::Text;
use std::alloc::Global;
use std::process::Abort;

/// The header of a file. Its body begins at the offset 143.
const HEADER: &str =
    "OFXHEADER:100\r\nDATA:OFXSGML\r\nVERSION:160\r\nSECURITY:NONE\r\nENCODING:USASCII\r\nCHARSET:1252\r\nCOMPRESSION:NONE\r\nOLDFILEUID:NONE\r\nNEWFILEUID:NONE\r\n\r\n";

/// What precedes the signon's code.
const SIGNON: &str = "<OFX><SIGNONMSGSRSV1><SONRS><STATUS><CODE>";

/// What follows it, up to the lines of a statement of 1001 CHECKING.
const STATEMENT: &str =
    "<SEVERITY>INFO</STATUS><DTSERVER>20240131120000<LANGUAGE>ENG</SONRS></SIGNONMSGSRSV1><BANKMSGSRSV1><STMTTRNRS><TRNUID>s<STATUS><CODE>0<SEVERITY>INFO</STATUS><STMTRS><CURDEF>USD<BANKACCTFROM><BANKID>121099999<ACCTID>1001<ACCTTYPE>CHECKING</BANKACCTFROM><BANKTRANLIST><DTSTART>20240101<DTEND>20240131";

/// What follows the lines.
const AFTER: &str =
    "</BANKTRANLIST><LEDGERBAL><BALAMT>0.00<DTASOF>20240131</LEDGERBAL><AVAILBAL><BALAMT>0.00<DTASOF>20240131</AVAILBAL></STMTRS></STMTTRNRS></BANKMSGSRSV1></OFX>";

/// The body of a request file.
const REQUEST: &str =
    "<OFX><SIGNONMSGSRQV1><SONRQ><DTCLIENT>20240131120000<USERID>alice<USERPASS>secret<LANGUAGE>ENG<APPID>OFXC<APPVER>0100</SONRQ></SIGNONMSGSRQV1></OFX>";

/// The lines with the FITIDs 1 and 2.
pub const FIRST: &str =
    "<STMTTRN><TRNTYPE>XFER<DTPOSTED>20240131120100<TRNAMT>-1.00<FITID>1</STMTTRN><STMTTRN><TRNTYPE>XFER<DTPOSTED>20240131120200<TRNAMT>-2.00<FITID>2</STMTTRN>";

/// The lines with the FITIDs 2 and 3.
pub const SECOND: &str =
    "<STMTTRN><TRNTYPE>XFER<DTPOSTED>20240131120200<TRNAMT>-2.00<FITID>2</STMTTRN><STMTTRN><TRNTYPE>XFER<DTPOSTED>20240131120300<TRNAMT>-3.00<FITID>3</STMTTRN>";

/// A line with the FITID 2 that says otherwise.
pub const OTHER: &str =
    "<STMTTRN><TRNTYPE>XFER<DTPOSTED>20240131120200<TRNAMT>-2.50<FITID>2</STMTTRN>";

/// A reply file with a signon of this code and these lines of 1001 CHECKING.
pub fn reply(rt: &impl Abort, alloc: Global, code: &str, lines: &str) -> String {
    format!(in alloc; "{HEADER}{SIGNON}{code}{STATEMENT}{lines}{AFTER}").expect(rt, "a reply")
}

/// A request file.
pub fn request(rt: &impl Abort, alloc: Global) -> String {
    format!(in alloc; "{HEADER}{REQUEST}").expect(rt, "a request")
}

/// Appends a file in its frame.
pub fn push_frame(rt: &impl Abort, alloc: Global, file: &str, input: &mut String) {
    let size = file.len();
    let head = format!(in alloc; "FILE {size}\n").expect(rt, "a head");
    input.push_str(&head).expect(rt, "room");
    input.push_str(file).expect(rt, "room");
}

/// The frames of reply files with these lines, all with a signon that succeeded.
pub fn frames(rt: &impl Abort, alloc: Global, files: &[&str]) -> String {
    let mut input = String::new(alloc);
    for lines in files {
        push_frame(rt, alloc, &reply(rt, alloc, "0", lines), &mut input);
    }
    input
}

/// Arguments as texts.
pub fn texts(rt: &impl Abort, alloc: Global, arguments: &[&str]) -> Vec<Text> {
    let mut texts = Vec::new(alloc);
    for argument in arguments {
        let text = Text::new(alloc, argument.as_bytes(), 10_000).expect(rt, "an argument");
        texts.push(text).expect(rt, "room");
    }
    texts
}
