//! The descriptors that the system gives this process.
use libc::types::rlimit;
use libc::{RLIMIT_NOFILE, getrlimit};

/// Returns the most descriptors that this process may have open at a time, sockets among them; None if the system doesn't say.
pub fn max_descriptors() -> Option<u64> {
    let mut limit = rlimit {
        rlim_cur: 0,
        rlim_max: 0,
    };
    if getrlimit(RLIMIT_NOFILE, &mut limit) == 0 {
        Some(limit.rlim_cur)
    } else {
        None
    }
}
