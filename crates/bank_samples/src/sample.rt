//! The sample's setup, requests and replies, byte for byte.

use std::alloc::{AllocError, Global};

pub const SETUP: &[u8; 158] = b"\
    OFXBANK 1\n\
    BANK 121099999\n\
    LEAD 5\n\
    WINDOW 3\n\
    ENTRIES 9999999999\n\
    USER alice secret\n\
    USER bob hunter\n\
    ACCT 1001 CHECKING 10000 alice\n\
    ACCT 1002 SAVINGS 5000 alice bob\n";

/// The request up to its transaction's name.
const REQUEST_PREFIX: &[u8; 353] = b"\
    FILE 529\n\
    OFXHEADER:100\r\n\
    DATA:OFXSGML\r\n\
    VERSION:160\r\n\
    SECURITY:NONE\r\n\
    ENCODING:USASCII\r\n\
    CHARSET:1252\r\n\
    COMPRESSION:NONE\r\n\
    OLDFILEUID:NONE\r\n\
    NEWFILEUID:NONE\r\n\
    \r\n\
    <OFX>\r\n\
    <SIGNONMSGSRQV1>\r\n\
    <SONRQ>\r\n\
    <DTCLIENT>20240131120000\r\n\
    <USERID>alice\r\n\
    <USERPASS>secret\r\n\
    <LANGUAGE>ENG\r\n\
    <APPID>OFXC\r\n\
    <APPVER>0100\r\n\
    </SONRQ>\r\n\
    </SIGNONMSGSRQV1>\r\n\
    <BANKMSGSRQV1>\r\n\
    <STMTTRNRQ>\r\n\
    <TRNUID>";

const REQUEST_BACK: &[u8; 183] = b"\r\n\
    <STMTRQ>\r\n\
    <BANKACCTFROM>\r\n\
    <BANKID>121099999\r\n\
    <ACCTID>1001\r\n\
    <ACCTTYPE>CHECKING\r\n\
    </BANKACCTFROM>\r\n\
    <INCTRAN>\r\n\
    <INCLUDE>Y\r\n\
    </INCTRAN>\r\n\
    </STMTRQ>\r\n\
    </STMTTRNRQ>\r\n\
    </BANKMSGSRQV1>\r\n\
    </OFX>\r\n";

/// The reply up to its transaction's name.
const REPLY_PREFIX: &[u8; 339] = b"\
    FILE 752\n\
    OFXHEADER:100\r\n\
    DATA:OFXSGML\r\n\
    VERSION:160\r\n\
    SECURITY:NONE\r\n\
    ENCODING:USASCII\r\n\
    CHARSET:1252\r\n\
    COMPRESSION:NONE\r\n\
    OLDFILEUID:NONE\r\n\
    NEWFILEUID:NONE\r\n\
    \r\n\
    <OFX>\r\n\
    <SIGNONMSGSRSV1>\r\n\
    <SONRS>\r\n\
    <STATUS>\r\n\
    <CODE>0\r\n\
    <SEVERITY>INFO\r\n\
    </STATUS>\r\n\
    <DTSERVER>20240131120000\r\n\
    <LANGUAGE>ENG\r\n\
    </SONRS>\r\n\
    </SIGNONMSGSRSV1>\r\n\
    <BANKMSGSRSV1>\r\n\
    <STMTTRNRS>\r\n\
    <TRNUID>";

const REPLY_BACK: &[u8; 420] = b"\r\n\
    <STATUS>\r\n\
    <CODE>0\r\n\
    <SEVERITY>INFO\r\n\
    </STATUS>\r\n\
    <STMTRS>\r\n\
    <CURDEF>USD\r\n\
    <BANKACCTFROM>\r\n\
    <BANKID>121099999\r\n\
    <ACCTID>1001\r\n\
    <ACCTTYPE>CHECKING\r\n\
    </BANKACCTFROM>\r\n\
    <BANKTRANLIST>\r\n\
    <DTSTART>19000101000000\r\n\
    <DTEND>20240131120000\r\n\
    </BANKTRANLIST>\r\n\
    <LEDGERBAL>\r\n\
    <BALAMT>100.00\r\n\
    <DTASOF>20240131120000\r\n\
    </LEDGERBAL>\r\n\
    <AVAILBAL>\r\n\
    <BALAMT>100.00\r\n\
    <DTASOF>20240131120000\r\n\
    </AVAILBAL>\r\n\
    </STMTRS>\r\n\
    </STMTTRNRS>\r\n\
    </BANKMSGSRSV1>\r\n\
    </OFX>\r\n";

/// The sample's request in its frame, once for each transaction's name. A name has two bytes.
pub fn requests(alloc: Global, names: &[&[u8; 2]]) -> Result<Vec<u8>, AllocError> {
    joined(alloc, REQUEST_PREFIX, names, REQUEST_BACK)
}

/// The sample's request with the first of each text in it turned into the other, in its frame.
pub fn request_with(alloc: Global, changes: &[(&str, &str)]) -> Result<String, AllocError> {
    let framed = requests(alloc, &[b"s1"])?;
    let text = str::from_utf8(&framed).unwrap_or("");
    let file = text.strip_prefix("FILE 529\n").unwrap_or(text);
    changed(alloc, file, changes)
}

/// The sample's reply with the first of each text in it turned into the other, in its frame.
pub fn reply_with(alloc: Global, changes: &[(&str, &str)]) -> Result<String, AllocError> {
    let framed = replies(alloc, &[b"s1"])?;
    let text = str::from_utf8(&framed).unwrap_or("");
    let file = text.strip_prefix("FILE 752\n").unwrap_or(text);
    changed(alloc, file, changes)
}

/// The bytes of a file with the first of each text in it turned into the other, in their frame.
fn changed(alloc: Global, file: &str, changes: &[(&str, &str)]) -> Result<String, AllocError> {
    let mut file = String::from_str(alloc, file)?;
    for (old, new) in changes {
        file = file.replacen(alloc, old, new, 1)?;
    }
    format!(in alloc; "FILE {}\n{file}", file.len())
}

/// The sample's reply in its frame, once for each transaction's name. A name has two bytes.
pub fn replies(alloc: Global, names: &[&[u8; 2]]) -> Result<Vec<u8>, AllocError> {
    joined(alloc, REPLY_PREFIX, names, REPLY_BACK)
}

fn joined(
    alloc: Global,
    prefix: &[u8],
    names: &[&[u8; 2]],
    back: &[u8],
) -> Result<Vec<u8>, AllocError> {
    let mut bytes = Vec::new(alloc);
    for name in names {
        bytes.extend_from_slice(prefix)?;
        bytes.extend_from_slice(name.as_slice())?;
        bytes.extend_from_slice(back)?;
    }
    Ok(bytes)
}
