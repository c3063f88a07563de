//! Assertions as calls: what they expand to is proved once, and not at each use.
use std::process::Abort;

/// Ends the test if the two differ.
pub(crate) fn same(rt: &impl Abort, got: &[u8], wanted: &[u8]) {
    assert_eq!(rt; got, wanted);
}

/// Ends the test if this is not so, and says of what.
pub(crate) fn holds(rt: &impl Abort, is_so: bool, of: &str) {
    assert!(rt; is_so, "not so of {of}");
}
