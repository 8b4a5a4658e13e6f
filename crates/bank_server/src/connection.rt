//! A connection over a bank that many callers share.

ghost use Rattle.std.specs.Prelude.{◌≡◌, ◌≤◌, Some};
ghost use Rattle.bank_connection.specs.Connection.{around, Converses};
ghost use Rattle.bank_shared.specs.Holds.{IsPassOf, caller_of};

use bank_connection::{Office, ServeError, Served, serve_link};
use bank_model::{Printer, Setup, SubmitFault};
use bank_shared::{Bank, BankName, Pass};
use ofx_ports::{Clock, Gate, Keeper, Link};
use ofx_types::{Moment, OutOfMemory, RequestFile, UserId};
use std::alloc::Global;
use std::sync::Wait;

/// One caller of a bank that is shared. What it knows of the bank is what its pass does.
#[derive(Drop)]
struct CallerOffice<'a, N: BankName, K: Keeper, P: Printer, R: Wait, G: Gate> {
    bank: &'a Bank<N, K, P>,
    rt: &'a R,
    pass: &'a mut Pass,
    gate: &'a G,
}

impl<'a, N: BankName, K: Keeper, P: Printer, R: Wait, G: Gate> Office
    for CallerOffice<'a, N, K, P, R, G> {
    ghost use Rattle.std.specs.Prelude.{Some};
    ghost use Rattle.bank_shared.specs.Holds.{IsPassOf, caller_of};

    ghost setup = { λ _. N.setup };

    ghost knows = { λ o. Some (caller_of N.opening o.pass.now) };

    ghost through = { λ o. o.pass.ghost_name };

    ghost ready = { λ o. IsPassOf N.setup N.opening N.board o.pass.now };

    fn setup(&self) -> &Setup {
        self.bank.known(self.pass);
        self.bank.setup()
    }

    fn ask(
        &mut self,
        user: UserId,
        file: &RequestFile,
        at: Moment,
    ) -> Result<Vec<u8>, SubmitFault> {
        self.bank
            .submit(self.rt, self.pass, user, file, at, self.gate)
    }

    fn look(
        &mut self,
        user: UserId,
        file: &RequestFile,
        at: Moment,
    ) -> Result<Vec<u8>, OutOfMemory> {
        let answered = self.bank.poll(self.pass, user, file, at);
        self.bank.known(self.pass);
        answered
    }
}

/// Serves a connection to its end over the bank that `N` names, as `serve_link` does: the replies are those of the log that the pass
/// has then seen, and the endings that answer its files are those that the pass has gained.
pub fn serve_connection<N: BankName, K: Keeper, P: Printer, R: Wait, L: Link, C: Clock, G: Gate>(
    bank: &Bank<N, K, P>,
    rt: &R,
    alloc: Global,
    pass: &mut Pass,
    link: &mut L,
    clock: &mut C,
    gate: &G,
) -> Result<Served, ServeError>
    requires pass { IsPassOf N.setup N.opening N.board pass.old }
    ensures converses { Converses N.setup
        (around (L.left link.old) (L.read_faults link.old) (L.held link.old) (L.write_faults link.old) (C.shown clock.old)
        (Some (caller_of N.opening pass.old)))
        (around (L.left link.new) (L.read_faults link.new) (L.held link.new) (L.write_faults link.new) (C.shown clock.new)
        (Some (caller_of N.opening pass.new)))
        result }
    ensures pass { IsPassOf N.setup N.opening N.board pass.new }
    ensures reads { L.read_faults link.old ≤ L.read_faults link.new }
    ensures writes { L.write_faults link.old ≤ L.write_faults link.new }
{
    let mut office = CallerOffice {
        bank,
        rt,
        pass,
        gate,
    };
    serve_link(alloc, &mut office, link, clock)
}
