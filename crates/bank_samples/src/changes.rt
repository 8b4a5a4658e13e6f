//! What is changed in the sample's request, and moments at which it is answered.

use ofx_types::Moment;

/// 31 January 2024 at 12:00:00.
pub const NOON: Moment = Moment(1_706_702_400);

/// 1 February 2024 at 00:00:05.
pub const NEXT_DAY: Moment = Moment(1_706_745_605);

/// The name of a file.
pub const NAMED: (&str, &str) = ("NEWFILEUID:NONE", "NEWFILEUID:week");

/// The day of the transfer, before which nothing is posted: 1 February 2024.
pub const DUE_LATER: (&str, &str) = (
    "<TRNAMT>10.00\r\n",
    "<TRNAMT>10.00\r\n<DTDUE>20240201000000\r\n",
);

/// What comes before the account in the sample's request.
const STATEMENT: &str = "<STMTTRNRQ>\r\n<TRNUID>s1\r\n<STMTRQ>\r\n";

/// What follows it.
const STATEMENT_END: &str =
    "<INCTRAN>\r\n<INCLUDE>Y\r\n</INCTRAN>\r\n</STMTRQ>\r\n</STMTTRNRQ>\r\n";

/// A poll of the account's transfers in place of the statement.
pub const POLL: [(&str, &str); 2] = [
    (
        STATEMENT,
        "<INTRASYNCRQ>\r\n<TOKENONLY>Y\r\n<REJECTIFMISSING>N\r\n",
    ),
    (STATEMENT_END, "</INTRASYNCRQ>\r\n"),
];
