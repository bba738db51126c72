//! A writer that takes what a test wants, and what may go wrong if memory is refused.
use std::env::Env;
use std::io;
use std::io::{ErrorKind, Write};
use std::process::Abort;

/// Returns whether an allocation is to fail, as the environment says if `scripts/fail-alloc` runs a test. It takes no memory.
pub(crate) fn is_refused(rt: &impl Env) -> bool {
    let mut number = [0u8; 32];
    rt.var("FAIL_ALLOC", &mut number).is_ok()
}

/// Checks that an allocation is to fail: else something went wrong though there was enough memory.
pub(crate) fn check_refused(rt: &(impl Env + Abort)) {
    assert!(rt; is_refused(rt));
}

/// A writer that takes this text, and nothing else.
#[derive(Drop)]
pub(crate) struct Page<'a> {
    /// What was not written yet.
    pub(crate) left: &'a [u8],
}

impl<'a> Write for Page<'a> {
    fn write(&mut self, buf: &[u8]) -> io::Result<usize> {
        let Some(&byte) = buf.first() else {
            return Ok(0);
        };
        match self.left.split_first() {
            Some((&next, behind)) if next == byte => {
                self.left = behind;
                Ok(1)
            }
            _ => Err(io::Error::from(ErrorKind::WriteZero)),
        }
    }

    fn flush(&mut self) -> io::Result<()> {
        Ok(())
    }
}
