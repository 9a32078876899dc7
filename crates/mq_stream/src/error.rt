//! What can go wrong: a device that failed.
use thiserror::Error;

/// The device failed, or had failed before.
#[derive(Clone, Copy, Debug, PartialEq, Eq, Error)]
#[error("the device failed")]
pub struct DeviceFault;
