//! A transfer beside the sample's statement request, and what replies tell of it.

/// A transfer before the statement request: 10.00 from 1001, which has 100.00, to 1002, which has 50.00.
pub const TRANSFER: (&str, &str) = (
    "<STMTTRNRQ>",
    "\
    <INTRATRNRQ>\r\n\
    <TRNUID>t1\r\n\
    <INTRARQ>\r\n\
    <XFERINFO>\r\n\
    <BANKACCTFROM>\r\n\
    <BANKID>121099999\r\n\
    <ACCTID>1001\r\n\
    <ACCTTYPE>CHECKING\r\n\
    </BANKACCTFROM>\r\n\
    <BANKACCTTO>\r\n\
    <BANKID>121099999\r\n\
    <ACCTID>1002\r\n\
    <ACCTTYPE>SAVINGS\r\n\
    </BANKACCTTO>\r\n\
    <TRNAMT>10.00\r\n\
    </XFERINFO>\r\n\
    </INTRARQ>\r\n\
    </INTRATRNRQ>\r\n\
    <STMTTRNRQ>",
);

/// The answer to the transfer, before the statement.
pub const POSTED: (&str, &str) = (
    "<STMTTRNRS>",
    "\
    <INTRATRNRS>\r\n\
    <TRNUID>t1\r\n\
    <STATUS>\r\n\
    <CODE>0\r\n\
    <SEVERITY>INFO\r\n\
    </STATUS>\r\n\
    <INTRARS>\r\n\
    <CURDEF>USD\r\n\
    <SRVRTID>1\r\n\
    <XFERINFO>\r\n\
    <BANKACCTFROM>\r\n\
    <BANKID>121099999\r\n\
    <ACCTID>1001\r\n\
    <ACCTTYPE>CHECKING\r\n\
    </BANKACCTFROM>\r\n\
    <BANKACCTTO>\r\n\
    <BANKID>121099999\r\n\
    <ACCTID>1002\r\n\
    <ACCTTYPE>SAVINGS\r\n\
    </BANKACCTTO>\r\n\
    <TRNAMT>10.00\r\n\
    <DTDUE>20240131000000\r\n\
    </XFERINFO>\r\n\
    <XFERPRCSTS>\r\n\
    <XFERPRCCODE>POSTEDON\r\n\
    <DTXFERPRC>20240131120000\r\n\
    </XFERPRCSTS>\r\n\
    </INTRARS>\r\n\
    </INTRATRNRS>\r\n\
    <STMTTRNRS>",
);

/// The transfer in the source's statement.
pub const PAID: (&str, &str) = (
    "</BANKTRANLIST>",
    "\
    <STMTTRN>\r\n\
    <TRNTYPE>XFER\r\n\
    <DTPOSTED>20240131120000\r\n\
    <TRNAMT>-10.00\r\n\
    <FITID>1\r\n\
    </STMTTRN>\r\n\
    </BANKTRANLIST>",
);

/// The source's balance after the transfer, which a statement tells twice.
pub const SOURCE_BALANCE: (&str, &str) = ("<BALAMT>100.00", "<BALAMT>90.00");
