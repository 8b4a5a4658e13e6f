//! What names one bank.

ghost use Rattle.std.specs.Prelude.{ℕ, List, Option};
ghost use Rattle.bank_model.specs.declared.event.State.{State};
ghost use Rattle.bank_model.specs.declared.setup.Setup.{Setup};
ghost use Rattle.bank_accounts.specs.AccountView.{Tables};
ghost use Rattle.token_board.specs.Views.{BoardView};

use std::marker::Brand;

/// One bank, for contracts alone. What a lock keeps is known by its type, so the types of all that belongs to one bank have its
/// name.
///
/// A caller opens the bank first and then calls a function that is generic in the name, at `Brand`.
pub trait BankName {
    // the setup of the bank
    ghost setup: { Setup };

    // the state in which it opened
    ghost opening: { State };

    // the records from which it opened, where the keeper reported them
    ghost first: { Option (List (List ℕ)) };

    // the board of its newest tokens
    ghost board: { BoardView };

    // the table of each of its accounts
    ghost tables: { Tables };
}

impl BankName for Brand {
    ghost use Rattle.std.specs.Prelude.{[], None};
    ghost use Rattle.bank_model.specs.Rules.{opening_state};
    ghost use Rattle.token_board.specs.Views.{no_table};

    ghost setup = { record { bank = []; users = []; accounts = []; lead = 0; window = 0; entries = 0 } };

    ghost opening = { opening_state };

    ghost first = { None };

    ghost board = { record { table = no_table; start = [] } };

    ghost tables = { [] };
}
