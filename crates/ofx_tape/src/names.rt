//! Whether a start tag is an element's or an aggregate's: names that are always the one or the other.
//!
//! A name is compared with those of its length alone.

ghost use Rattle.std.specs.Prelude.{◌≡◌};
ghost use Rattle.std.specs.List.{before_first};
ghost use Rattle.ofx_types.specs.TagFault.{is_open};
ghost use Rattle.ofx_types.specs.TagNames.{is_one_of, is_element, element_names, aggregate_names};
ghost use Rattle.ofx_tape.specs.NamesOfLength.{of_length};

use crate::scan::{is_tag_next, skip_white};

/// Whether a start tag of this name, before these bytes, is an element's.
///
/// Where only white space comes before the next `<` or the end, the name must be one that is always an element's. Where
/// other text does, it must be one that isn't always an aggregate's.
pub(crate) fn begins_element(name: &[u8], suffix: &[u8]) -> bool
    ensures { result ≡ is_element name.now (before_first is_open suffix.now) }
{
    if is_tag_next(skip_white(suffix)) {
        return is_element_name(name);
    }
    !is_aggregate_name(name)
}

/// Whether a name is always an element's.
pub(crate) fn is_element_name(name: &[u8]) -> bool
    ensures { result ≡ is_one_of element_names name.now }
{
    match name.len() {
        2 => is_element_of_two(name),
        3 => is_element_of_three(name),
        4 => is_element_of_four(name),
        5 => is_element_of_five(name),
        6 => is_element_of_six(name),
        7 => is_element_of_seven(name),
        8 => is_element_of_eight(name),
        9 => is_element_of_nine(name),
        10 => is_element_of_ten(name),
        11 => is_element_of_eleven(name),
        15 => is_element_of_fifteen(name),
        _ => false,
    }
}

fn is_element_of_two(name: &[u8]) -> bool
    ensures { result ≡ is_one_of (of_length 2 element_names) name.now }
{
    name == b"TO".as_slice()
}

fn is_element_of_three(name: &[u8]) -> bool
    ensures { result ≡ is_one_of (of_length 3 element_names) name.now }
{
    name == b"ORG".as_slice() || name == b"FID".as_slice() || name == b"TAN".as_slice()
}

fn is_element_of_four(name: &[u8]) -> bool
    ensures { result ≡ is_one_of (of_length 4 element_names) name.now }
{
    name == b"CODE".as_slice()
        || name == b"NAME".as_slice()
        || name == b"MEMO".as_slice()
        || name == b"FREQ".as_slice()
        || name == b"FROM".as_slice()
}

fn is_element_of_five(name: &[u8]) -> bool
    ensures { result ≡ is_one_of (of_length 5 element_names) name.now }
{
    name == b"APPID".as_slice()
        || name == b"DTEND".as_slice()
        || name == b"FITID".as_slice()
        || name == b"DTDUE".as_slice()
        || name == b"TOKEN".as_slice()
}

fn is_element_of_six(name: &[u8]) -> bool
    ensures { result ≡ is_one_of (of_length 6 element_names) name.now }
{
    name == b"USERID".as_slice()
        || name == b"APPVER".as_slice()
        || name == b"TRNUID".as_slice()
        || name == b"BANKID".as_slice()
        || name == b"ACCTID".as_slice()
        || name == b"CURDEF".as_slice()
        || name == b"DTUSER".as_slice()
        || name == b"TRNAMT".as_slice()
        || name == b"BALAMT".as_slice()
        || name == b"DTASOF".as_slice()
        || name == b"NINSTS".as_slice()
}

fn is_element_of_seven(name: &[u8]) -> bool
    ensures { result ≡ is_one_of (of_length 7 element_names) name.now }
{
    name == b"USERKEY".as_slice()
        || name == b"MESSAGE".as_slice()
        || name == b"ACCTKEY".as_slice()
        || name == b"DTSTART".as_slice()
        || name == b"INCLUDE".as_slice()
        || name == b"TRNTYPE".as_slice()
        || name == b"DTAVAIL".as_slice()
        || name == b"SRVRTID".as_slice()
        || name == b"REFRESH".as_slice()
        || name == b"SUBJECT".as_slice()
        || name == b"MSGBODY".as_slice()
        || name == b"USEHTML".as_slice()
}

fn is_element_of_eight(name: &[u8]) -> bool
    ensures { result ≡ is_one_of (of_length 8 element_names) name.now }
{
    name == b"DTCLIENT".as_slice()
        || name == b"USERPASS".as_slice()
        || name == b"LANGUAGE".as_slice()
        || name == b"SEVERITY".as_slice()
        || name == b"DTSERVER".as_slice()
        || name == b"DTPROFUP".as_slice()
        || name == b"DTACCTUP".as_slice()
        || name == b"BRANCHID".as_slice()
        || name == b"ACCTTYPE".as_slice()
        || name == b"DTPOSTED".as_slice()
        || name == b"LOSTSYNC".as_slice()
}

fn is_element_of_nine(name: &[u8]) -> bool
    ensures { result ≡ is_one_of (of_length 9 element_names) name.now }
{
    name == b"CLTCOOKIE".as_slice()
        || name == b"DTXFERPRJ".as_slice()
        || name == b"DTXFERPRC".as_slice()
        || name == b"TOKENONLY".as_slice()
        || name == b"DTCREATED".as_slice()
        || name == b"INCIMAGES".as_slice()
}

fn is_element_of_ten(name: &[u8]) -> bool
    ensures { result ≡ is_one_of (of_length 10 element_names) name.now }
{
    name == b"GENUSERKEY".as_slice()
        || name == b"SESSCOOKIE".as_slice()
        || name == b"RECSRVRTID".as_slice()
        || name == b"MODPENDING".as_slice()
        || name == b"CANPENDING".as_slice()
}

fn is_element_of_eleven(name: &[u8]) -> bool
    ensures { result ≡ is_one_of (of_length 11 element_names) name.now }
{
    name == b"TSKEYEXPIRE".as_slice() || name == b"XFERPRCCODE".as_slice()
}

fn is_element_of_fifteen(name: &[u8]) -> bool
    ensures { result ≡ is_one_of (of_length 15 element_names) name.now }
{
    name == b"REJECTIFMISSING".as_slice()
}

/// Whether a name is always an aggregate's.
pub(crate) fn is_aggregate_name(name: &[u8]) -> bool
    ensures { result ≡ is_one_of aggregate_names name.now }
{
    match name.len() {
        2 => is_aggregate_of_two(name),
        3 => is_aggregate_of_three(name),
        4 => is_aggregate_of_four(name),
        5 => is_aggregate_of_five(name),
        6 => is_aggregate_of_six(name),
        7 => is_aggregate_of_seven(name),
        8 => is_aggregate_of_eight(name),
        9 => is_aggregate_of_nine(name),
        10 => is_aggregate_of_ten(name),
        11 => is_aggregate_of_eleven(name),
        12 => is_aggregate_of_twelve(name),
        13 => is_aggregate_of_thirteen(name),
        14 => is_aggregate_of_fourteen(name),
        _ => false,
    }
}

fn is_aggregate_of_two(name: &[u8]) -> bool
    ensures { result ≡ is_one_of (of_length 2 aggregate_names) name.now }
{
    name == b"FI".as_slice()
}

fn is_aggregate_of_three(name: &[u8]) -> bool
    ensures { result ≡ is_one_of (of_length 3 aggregate_names) name.now }
{
    name == b"OFX".as_slice()
}

fn is_aggregate_of_four(name: &[u8]) -> bool
    ensures { result ≡ is_one_of (of_length 4 aggregate_names) name.now }
{
    name == b"MAIL".as_slice()
}

fn is_aggregate_of_five(name: &[u8]) -> bool
    ensures { result ≡ is_one_of (of_length 5 aggregate_names) name.now }
{
    name == b"SONRQ".as_slice() || name == b"SONRS".as_slice()
}

fn is_aggregate_of_six(name: &[u8]) -> bool
    ensures { result ≡ is_one_of (of_length 6 aggregate_names) name.now }
{
    name == b"STATUS".as_slice()
        || name == b"STMTRQ".as_slice()
        || name == b"MAILRQ".as_slice()
        || name == b"STMTRS".as_slice()
        || name == b"MAILRS".as_slice()
}

fn is_aggregate_of_seven(name: &[u8]) -> bool
    ensures { result ≡ is_one_of (of_length 7 aggregate_names) name.now }
{
    name == b"INCTRAN".as_slice()
        || name == b"INTRARQ".as_slice()
        || name == b"STMTTRN".as_slice()
        || name == b"INTRARS".as_slice()
}

fn is_aggregate_of_eight(name: &[u8]) -> bool
    ensures { result ≡ is_one_of (of_length 8 aggregate_names) name.now }
{
    name == b"XFERINFO".as_slice() || name == b"AVAILBAL".as_slice()
}

fn is_aggregate_of_nine(name: &[u8]) -> bool
    ensures { result ≡ is_one_of (of_length 9 aggregate_names) name.now }
{
    name == b"STMTTRNRQ".as_slice()
        || name == b"MAILTRNRQ".as_slice()
        || name == b"STMTTRNRS".as_slice()
        || name == b"LEDGERBAL".as_slice()
        || name == b"MAILTRNRS".as_slice()
}

fn is_aggregate_of_ten(name: &[u8]) -> bool
    ensures { result ≡ is_one_of (of_length 10 aggregate_names) name.now }
{
    name == b"BANKACCTTO".as_slice()
        || name == b"INTRATRNRQ".as_slice()
        || name == b"INTRAMODRQ".as_slice()
        || name == b"INTRACANRQ".as_slice()
        || name == b"RECINTRARQ".as_slice()
        || name == b"RECURRINST".as_slice()
        || name == b"BANKMAILRQ".as_slice()
        || name == b"MAILSYNCRQ".as_slice()
        || name == b"INTRATRNRS".as_slice()
        || name == b"INTRAMODRS".as_slice()
        || name == b"INTRACANRS".as_slice()
        || name == b"XFERPRCSTS".as_slice()
        || name == b"RECINTRARS".as_slice()
        || name == b"BANKMAILRS".as_slice()
        || name == b"MAILSYNCRS".as_slice()
}

fn is_aggregate_of_eleven(name: &[u8]) -> bool
    ensures { result ≡ is_one_of (of_length 11 aggregate_names) name.now }
{
    name == b"INTRASYNCRQ".as_slice() || name == b"INTRASYNCRS".as_slice()
}

fn is_aggregate_of_twelve(name: &[u8]) -> bool
    ensures { result ≡ is_one_of (of_length 12 aggregate_names) name.now }
{
    name == b"BANKMSGSRQV1".as_slice()
        || name == b"BANKACCTFROM".as_slice()
        || name == b"BANKMSGSRSV1".as_slice()
        || name == b"BANKTRANLIST".as_slice()
}

fn is_aggregate_of_thirteen(name: &[u8]) -> bool
    ensures { result ≡ is_one_of (of_length 13 aggregate_names) name.now }
{
    name == b"EMAILMSGSRQV1".as_slice()
        || name == b"RECINTRATRNRQ".as_slice()
        || name == b"RECINTRAMODRQ".as_slice()
        || name == b"RECINTRACANRQ".as_slice()
        || name == b"BANKMAILTRNRQ".as_slice()
        || name == b"EMAILMSGSRSV1".as_slice()
        || name == b"RECINTRATRNRS".as_slice()
        || name == b"RECINTRAMODRS".as_slice()
        || name == b"RECINTRACANRS".as_slice()
        || name == b"BANKMAILTRNRS".as_slice()
}

fn is_aggregate_of_fourteen(name: &[u8]) -> bool
    ensures { result ≡ is_one_of (of_length 14 aggregate_names) name.now }
{
    name == b"SIGNONMSGSRQV1".as_slice()
        || name == b"RECINTRASYNCRQ".as_slice()
        || name == b"BANKMAILSYNCRQ".as_slice()
        || name == b"SIGNONMSGSRSV1".as_slice()
        || name == b"RECINTRASYNCRS".as_slice()
        || name == b"BANKMAILSYNCRS".as_slice()
}
