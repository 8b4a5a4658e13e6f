//! The ports that a command is handed, seen as one value.

use ofx_ports::{Clock, Keeper, Sink, Source};

/// The source of the setup, the input, the output, the keeper and the clock, as one value for contracts.
pub trait Ports {
    ghost use Rattle.bank_session.specs.PortsView.{PortsView};

    // what they tell
    ghost seen: { Self → PortsView };
}

impl<A: Source, B: Source, W: Sink, K: Keeper, C: Clock> Ports for (A, B, W, K, C) {
    ghost seen = { λ p. record {
      setup_left = A.left p.0;
      setup_faults = A.faults p.0;
      input_left = B.left p.1;
      input_faults = B.faults p.1;
      held = W.held p.2;
      out_faults = W.faults p.2;
      records = K.records p.3;
      keeper_faults = K.faults p.3;
      shown = C.shown p.4;
      unsettled = K.unsettled p.3;
    } };
}
