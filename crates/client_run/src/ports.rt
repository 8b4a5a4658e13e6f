//! The ports that a run is handed, seen as one value.

use ofx_ports::{Clock, Link, Sink, StoreKeeper};

/// The link to the bank, the store, the clock and the output, as one value for contracts.
pub trait Ports {
    ghost use Rattle.client_run.specs.Views.{PortsView};

    // what they tell
    ghost seen: { Self → PortsView };
}

impl<L: Link, S: StoreKeeper, C: Clock, W: Sink> Ports for (L, S, C, W) {
    ghost seen = { λ p. record {
      link = record {
        left = L.left p.0;
        sent = L.held p.0;
        read_faults = L.read_faults p.0;
        write_faults = L.write_faults p.0;
      };
      store = record { text = S.saved p.1; faults = S.faults p.1 };
      shown = C.shown p.2;
      out = record { held = W.held p.3; faults = W.faults p.3 };
    } };
}
