//! Events read out of a record, and the fields that they and a kept state are made of, read and written. Each reader and writer
//! agrees with the definition of the field.
#![tactic(auto)]

mod acts;
mod kept;
mod kept_written;
mod numbers;
mod parts;
mod putting;
mod reading;
mod room;
mod spelled;
pub mod tag;
mod unread;
mod written;
mod written_parts;

pub use kept::read_reply;
pub use kept_written::put_reply;
pub use numbers::{read_u16, read_u32, read_u64};
pub use parts::read_name;
pub use putting::{put_natural32, put_u8, put_u16, put_u32, put_u64};
pub use reading::read_event;
pub use room::Room;
pub use spelled::{Spelled, read_items};
pub use unread::{NoSpelling, Unread};
pub use written::{Written, write_items};
pub use written_parts::{put_name, put_policy};
