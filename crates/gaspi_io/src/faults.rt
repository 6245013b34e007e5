//! The failure of a source or a sink.

/// The only error of a source or a sink: it failed, and has counted one fault.
#[derive(Clone, Copy, Debug, PartialEq, Eq)]
pub struct Failed;
