//! The command `show`: what the client keeps.

ghost use Rattle.client_run.specs.Commands.{Shows};

use crate::lines::kept_text;
use crate::printing::print_bytes;
use crate::sending::print_end;
use crate::stop::ClientStop;
use client_core::Client;
use ofx_ports::Sink;
use std::alloc::Global;

/// Prints what the client keeps.
pub(crate) fn show<W: Sink>(alloc: Global, client: &Client, out: &mut W) -> Result<(), ClientStop>
    ensures { Shows client.now (record { held = W.held out.old; faults = W.faults out.old })
        (record { held = W.held out.new; faults = W.faults out.new }) result }
{
    print_end(print_bytes(kept_text(alloc, client), out))
}
