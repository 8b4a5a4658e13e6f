//! What a user wishes of a client.

use ofx_types::{AcctName, Cents, Day, Recur, Text, XferInfo};

/// What a user wishes, one variant for each command.
#[derive(Drop)]
pub enum Wish {
    /// To look at an account: its statement, and all that is synchronised about it and of the user's mail.
    Sync(AcctName),
    /// A transfer.
    Transfer(XferInfo),
    /// Another destination, amount and day for the transfer with this id.
    Modify(u64, AcctName, Cents, Day),
    /// The cancellation of the transfer with this id.
    Cancel(u64),
    /// A recurring transfer, whose first one is due on the day that is given.
    Repeat(Recur, XferInfo),
    /// The cancellation of the recurring transfer with this id, and of its transfers that wait.
    Stop(u64),
    /// A mail to the bank: what it is about, and what it says.
    Mail(Text, Text),
    /// To check whether there is news of an account.
    Check(AcctName),
    /// To be shown what the client keeps.
    Show,
}
