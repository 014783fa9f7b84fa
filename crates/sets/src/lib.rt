// Sets: what every set means and does, the studio bus and the channel map.
#![tactic(auto)]

mod bus;
mod caption;
mod map;
mod refusal;
mod set;
mod sound;
mod table;

pub use bus::StudioBus;
pub use caption::Caption;
pub use map::ChannelMap;
pub use refusal::{SetRefusal, TableRefusal};
pub use set::Set;
pub use sound::Sound;
