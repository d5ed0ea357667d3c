use boss_model::{Object, Station};

/// A value as its object has it.
#[derive(Clone, Copy, Debug, PartialEq, Eq)]
pub enum Value {
    /// Of an analog object: a binary32 by its bits.
    Real { bits: u32 },
    /// Of a binary object: 0 inactive, 1 active.
    Enumerated { state: u8 },
    /// Of a multi-state object.
    Unsigned { state: u8 },
}

/// What a device is asked.
#[derive(Clone, Copy, Debug, PartialEq, Eq)]
pub enum What {
    /// To take a value, at a level of its priority array, 1 to 16.
    Write { value: Value, level: u8 },
    /// What value it has: this one, or another.
    Check { value: Value },
}

/// What is asked of an object of a device.
#[derive(Clone, Copy, Debug, PartialEq, Eq)]
pub struct Asked {
    /// The station behind the host that is asked; none where the host itself is.
    pub remote: Option<Station>,
    pub object: Object,
    pub what: What,
}
