//! The tags that the bytes of events begin with, as `specs/Tags` of def_bytes has them.

/// A process was taken on.
pub const ENROL: u8 = 1;

/// A process submitted a transaction, without a number for the request.
pub const SUBMIT: u8 = 2;

/// A process renewed leases, without a number.
pub const RENEW: u8 = 3;

/// A process cancelled a transaction, without a number.
pub const CANCEL: u8 = 4;

/// A process was lost.
pub const GONE: u8 = 5;

/// Time passed.
pub const TICK: u8 = 6;

/// A device did not take a value.
pub const FAULT: u8 = 7;

/// A process submitted a transaction, under a number.
pub const NUMBERED_SUBMIT: u8 = 8;

/// A process renewed leases, under a number.
pub const NUMBERED_RENEW: u8 = 9;

/// A process cancelled a transaction, under a number.
pub const NUMBERED_CANCEL: u8 = 10;
