//! A caller of a bank that makes what is due happen.

use crate::advancer::Advancer;
use bank_model::{Printer, SubmitFault};
use bank_shared::{Advance, Bank, BankName, Pass};
use ofx_ports::{Gate, Keeper};
use ofx_types::Moment;
use std::sync::Wait;

/// A caller of a bank with its pass.
#[derive(Drop)]
pub struct Caller<'a, R: Wait, N: BankName, K: Keeper, P: Printer, G: Gate> {
    pub rt: &'a R,
    pub bank: &'a Bank<N, K, P>,
    pub pass: &'a mut Pass,
    pub gate: &'a G,
}

impl<'a, R: Wait, N: BankName, K: Keeper, P: Printer, G: Gate> Advancer
    for Caller<'a, R, N, K, P, G> {
    ghost use Rattle.bank_shared.specs.Holds.{IsPassOf, caller_of};

    ghost setup = { λ _. N.setup };

    ghost knows = { λ c. caller_of N.opening c.pass.now };

    ghost through = { λ c. c.pass.ghost_name };

    ghost ready = { λ c. IsPassOf N.setup N.opening N.board c.pass.now };

    fn advance(&mut self, at: Moment) -> Result<Advance, SubmitFault> {
        self.bank.advance(self.rt, self.pass, at, self.gate)
    }
}
