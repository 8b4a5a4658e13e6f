//! Each reply of the bank, printed, reads back as that reply. Nothing here runs: each contract is a law over the rules of
//! `bank_model` and the forms of `ofx_types`.
//!
//! Every state that a bank comes to is one whose history may be reported (`reported_states`), and whatever a bank answers in such a
//! state is a sound reply (`replies`). A file that comes again is answered by the kept bytes of an earlier reply. Clients'
//! request files read back too (`requests`).
#![tactic(auto)]

mod replies;
mod reported_states;
mod requests;

pub use replies::{answers_are_replies, denials_read_back, new_replies_read_back, polls_read_back};
pub use reported_states::reported_states_last;
pub use requests::{requests_read_back, spelled_files_have_signons};
