// The eight calls that a host makes, and the query of a farm's meters. All memory is lent: the farm sheet, the table, the output buffer,
// the assembling buffer, the input. No call asks anything of what it is lent: what it can't serve it refuses by document 01's number, and
// then nothing lent has changed. Each call has a crate of its own; here they stand together.
#![tactic(auto)]

pub use call_bytes::bytes;
pub use call_closed::{link_lost, peer_closed};
pub use call_connect::connect;
pub use call_controller::controller_message;
pub use call_datagram::datagram;
pub use call_meters::meters;
pub use call_start::start;
pub use call_tick::tick;
