//! How many files may be open.

use libc::types::rlimit;
use libc::{RLIMIT_NOFILE, getrlimit};

/// How many files this process may have open at once, as `ulimit -n` shows it. None where the system doesn't say.
pub fn max_open_files() -> Option<u64> {
    let mut limit = rlimit {
        rlim_cur: 0,
        rlim_max: 0,
    };
    if getrlimit(RLIMIT_NOFILE, &mut limit) == 0 {
        Some(limit.rlim_cur)
    } else {
        None
    }
}
