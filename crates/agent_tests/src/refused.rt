//! Whether an allocation is to fail.
use std::env::Env;
use std::process::Abort;

/// Checks that an allocation is to fail, as the environment says if `scripts/fail-alloc` runs a test: else a call was out of memory
/// though there was enough. It takes no memory.
pub(crate) fn check_refused(rt: &(impl Env + Abort)) {
    let mut number = [0u8; 32];
    assert!(rt; rt.var("FAIL_ALLOC", &mut number).is_ok());
}
