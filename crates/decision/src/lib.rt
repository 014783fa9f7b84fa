// What an alert asks of a set.
#![tactic(auto)]

mod alert;
mod decide;
mod drive;
mod judge;
mod keep;
mod lookup;
mod name;
mod picture;
mod present;

pub use alert::{Alert, Excepted};
pub use decide::decide_picture;
pub use drive::drive_set;
pub use judge::applies_to;
pub use keep::{end_of, keep_alert};
pub use lookup::{borrowable_sound, details_service, first_named};
pub use name::Name;
pub use picture::Picture;
pub use present::{picture_stands, present_alert};
