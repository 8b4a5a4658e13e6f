//! What may happen in the world.

use client_core::Wish;
use ofx_types::{Moment, Text, UserId};

/// One step of the world. Clients, and the files in either bag, are numbered from 0 in the order in which they came; a step that
/// names nothing there does nothing.
#[derive(Drop)]
pub enum Step {
    /// The client makes the file of a wish, saves what it knows and sends the file.
    Make(u32, Wish),
    /// The client sends its outstanding file again.
    SendAgain(u32),
    /// The client starts anew from its saved text.
    RestartClient(u32),
    /// This request arrives at the server.
    Deliver(u32),
    /// At the client of the first number the reply of the second arrives.
    DeliverReply(u32, u32),
    /// The bank does the next of its due work.
    Due,
    /// The bank writes this user a letter of this subject and this body.
    Letter(UserId, Text, Text),
    /// The next append of a record fails: its record is stored nonetheless, or doesn't.
    Fault(bool),
    /// The server starts anew from its records.
    RestartServer,
    /// The clock shows this moment from now on.
    Clock(Moment),
}
