//! The rows that deeds and due work make.

ghost use Rattle.std.specs.Prelude.{◌≡◌, IfOk, int_le};
ghost use Rattle.ofx_types.specs.Calendar.{IsDay};
ghost use Rattle.std.specs.Option.{IfSome};
ghost use Rattle.bank_model.specs.Judging as judging;
ghost use Rattle.bank_model.specs.Deeds as deeds;
ghost use Rattle.bank_model.specs.Due as due_work;

use crate::names::own_name;
use bank_model::Setup;
use ofx_types::{
    Day, Duplicate, ModelRow, Moment, OutOfMemory, Recur, TransferRow, XferCode, XferInfo,
};
use ofx_values::midnight;

/// The row of a new transfer, which is due on a business day or waits.
#[tactic(auto, unfolding(bank_model::specs::Deeds::new_row))]
pub(crate) fn new_row(
    setup: &Setup,
    id: u64,
    at: Moment,
    day: Day,
    info: &XferInfo,
) -> Result<TransferRow, OutOfMemory>
    requires day { IsDay day.0 }
    requires due { IfSome info.now.due (λ due. IsDay due.0) }
    ensures { IfOk result (λ row. row ≡ deeds.new_row id at day info.now) }
{
    let due = due_day(info, day);
    let posted = is_due(due, day);
    Ok(TransferRow {
        id,
        model: 0,
        from: own_name(setup, &info.from)?,
        to: own_name(setup, &info.to)?,
        amount: info.amount,
        due,
        code: if posted {
            XferCode::Posted
        } else {
            XferCode::Waiting
        },
        stamp: if posted { at } else { midnight(due) },
    })
}

/// The row of a transfer that waits, changed on a business day.
#[tactic(auto, unfolding(bank_model::specs::Deeds::changed_row))]
pub(crate) fn changed_row(
    setup: &Setup,
    day: Day,
    info: &XferInfo,
    row: &TransferRow,
) -> Result<TransferRow, OutOfMemory>
    requires day { IsDay day.0 }
    requires due { IfSome info.now.due (λ due. IsDay due.0) }
    ensures { IfOk result (λ changed. changed ≡ deeds.changed_row day info.now row.now) }
{
    let due = due_day(info, day);
    Ok(TransferRow {
        id: row.id,
        model: row.model,
        from: row.from.copy()?,
        to: own_name(setup, &info.to)?,
        amount: info.amount,
        due,
        code: XferCode::Waiting,
        stamp: midnight(due),
    })
}

/// The day on which a transfer is due.
fn due_day(info: &XferInfo, day: Day) -> Day
    requires day { IsDay day.0 }
    requires due { IfSome info.now.due (λ due. IsDay due.0) }
    ensures value { result ≡ judging.due_day info.now day }
    ensures known { IsDay result.0 }
{
    match info.due {
        Some(due) => due,
        None => day,
    }
}

fn is_due(due: Day, day: Day) -> bool
    ensures { result ≡ int_le due.0 day.0 }
{
    due.0 <= day.0
}

/// The row of a new recurring transfer.
#[tactic(auto, unfolding(bank_model::specs::Deeds::new_model))]
pub(crate) fn new_model(
    setup: &Setup,
    id: u64,
    day: Day,
    recur: Recur,
    info: &XferInfo,
) -> Result<ModelRow, OutOfMemory>
    requires day { IsDay day.0 }
    requires due { IfSome info.now.due (λ due. IsDay due.0) }
    ensures { IfOk result (λ row. row ≡ deeds.new_model id day recur info.now) }
{
    Ok(ModelRow {
        id,
        recur,
        from: own_name(setup, &info.from)?,
        to: own_name(setup, &info.to)?,
        amount: info.amount,
        first: due_day(info, day),
    })
}

/// The row of a recurring transfer, changed on a business day.
#[tactic(auto, unfolding(bank_model::specs::Deeds::changed_model))]
pub(crate) fn changed_model(
    setup: &Setup,
    day: Day,
    recur: Recur,
    info: &XferInfo,
    row: &ModelRow,
) -> Result<ModelRow, OutOfMemory>
    requires day { IsDay day.0 }
    requires due { IfSome info.now.due (λ due. IsDay due.0) }
    ensures { IfOk result (λ changed. changed ≡ deeds.changed_model day recur info.now row.now) }
{
    Ok(ModelRow {
        id: row.id,
        recur,
        from: row.from.copy()?,
        to: own_name(setup, &info.to)?,
        amount: info.amount,
        first: due_day(info, day),
    })
}

/// The row of a transfer that waits while its recurring transfer is changed.
#[tactic(auto, unfolding(bank_model::specs::Deeds::with_terms))]
pub(crate) fn with_terms(
    setup: &Setup,
    info: &XferInfo,
    row: &TransferRow,
) -> Result<TransferRow, OutOfMemory>
    ensures { IfOk result (λ changed. changed ≡ deeds.with_terms info.now row.now) }
{
    Ok(TransferRow {
        id: row.id,
        model: row.model,
        from: row.from.copy()?,
        to: own_name(setup, &info.to)?,
        amount: info.amount,
        due: row.due,
        code: row.code,
        stamp: row.stamp,
    })
}

/// The row of a transfer that is posted at a moment where there is cover, and closed otherwise.
#[tactic(auto, unfolding(bank_model::specs::Due::processed_row))]
pub(crate) fn processed_row(
    covered: bool,
    at: Moment,
    row: &TransferRow,
) -> Result<TransferRow, OutOfMemory>
    ensures { IfOk result (λ processed. processed ≡ due_work.processed_row covered at row.now) }
{
    Ok(TransferRow {
        id: row.id,
        model: row.model,
        from: row.from.copy()?,
        to: row.to.copy()?,
        amount: row.amount,
        due: row.due,
        code: if covered {
            XferCode::Posted
        } else {
            XferCode::NoFunds
        },
        stamp: at,
    })
}

/// The row of a transfer that a recurring one makes for a date.
#[tactic(auto, unfolding(bank_model::specs::Due::spawned_row))]
pub(crate) fn spawned_row(id: u64, date: Day, row: &ModelRow) -> Result<TransferRow, OutOfMemory>
    requires { IsDay date.0 }
    ensures { IfOk result (λ spawned. spawned ≡ due_work.spawned_row id date row.now) }
{
    Ok(TransferRow {
        id,
        model: row.id,
        from: row.from.copy()?,
        to: row.to.copy()?,
        amount: row.amount,
        due: date,
        code: XferCode::Waiting,
        stamp: midnight(date),
    })
}
