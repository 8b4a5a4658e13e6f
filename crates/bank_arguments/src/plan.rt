//! The arguments of `serve`.

ghost use Rattle.bank_arguments.specs.Plans.{ReadsNumbers, ReadsPlan};

use crate::command::Plan;
use ofx_types::Text;
use program_arguments::{is_word, number_within};

/// The greatest port.
pub(crate) const MAX_PORT: u64 = 65_535;

/// The most workers.
pub(crate) const MAX_WORKERS: u64 = 64;

/// The most connections of a worker.
pub(crate) const MAX_CONNECTIONS: u64 = 4_294_967_295;

/// What the arguments say: `serve`, the setup, the records, PORT, WORKERS and CONNECTIONS. None where they have another form.
pub fn plan_of(arguments: &[Text]) -> Option<Plan>
    ensures { ReadsPlan arguments.now result }
{
    match arguments {
        [command, _setup, _records, port, workers, most] => {
            if is_word(command, b"serve") {
                numbers_of(port, workers, most)
            } else {
                None
            }
        }
        _ => None,
    }
}

/// The numbers that three arguments are. None where one of them is none, or not within its bounds.
fn numbers_of(port: &Text, workers: &Text, most: &Text) -> Option<Plan>
    ensures { ReadsNumbers port.now workers.now most.now result }
{
    let port = number_within(port, 1, MAX_PORT)?;
    let workers = number_within(workers, 1, MAX_WORKERS)?;
    let most = number_within(most, 0, MAX_CONNECTIONS)?;
    Some(Plan {
        port: port as u16,
        workers: workers as u32,
        most: most as u32,
    })
}
