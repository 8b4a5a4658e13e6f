//! The status codes with which a bank answers (OFX 1.6, "Status Codes").

/// Done.
pub const DONE: u16 = 0;

/// The bank can make no more entries.
pub const NO_ROOM: u16 = 2000;

/// The account isn't the user's.
pub const ACCOUNT_NOT_FOUND: u16 = 2003;

/// The source isn't an account of the user, or isn't that of what is changed.
pub const SOURCE_NOT_FOUND: u16 = 2006;

/// The destination isn't an account of the bank, or is the source.
pub const DESTINATION_NOT_FOUND: u16 = 2009;

/// The amount isn't positive.
pub const INVALID_AMOUNT: u16 = 2012;

/// The day is absent, or isn't after the business day.
pub const DATE_TOO_SOON: u16 = 2014;

/// The transfer is posted, or closed without funds.
pub const ALREADY_COMMITTED: u16 = 2016;

/// The transfer is cancelled.
pub const ALREADY_CANCELED: u16 = 2017;

/// There is no transfer with this id out of an account of the user.
pub const UNKNOWN_SERVER_ID: u16 = 2018;

/// The user has used this TRNUID before.
pub const DUPLICATE_REQUEST: u16 = 2019;

/// REJECTIFMISSING Y without a token.
pub const REJECTED_WITHOUT_TOKEN: u16 = 6500;

/// REJECTIFMISSING Y with a token that isn't the newest one.
pub const TOKEN_OUT_OF_DATE: u16 = 6502;

/// The transfer is due and its source has no cover.
pub const INSUFFICIENT_FUNDS: u16 = 10504;

/// The recurring transfer is cancelled.
pub const MODEL_ALREADY_CANCELED: u16 = 10509;

/// There is no recurring transfer with this id out of an account of the user.
pub const UNKNOWN_MODEL_ID: u16 = 10518;

/// No user has this name and this password.
pub const SIGNON_INVALID: u16 = 15500;

/// The mail isn't to the bank.
pub const NOT_TO_BANK: u16 = 16501;
