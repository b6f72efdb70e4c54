//! Tests of `enip_server`: several peers at once, over scripted wires.

mod caller;
mod evictions;
mod framed;
mod held;
mod kept;
mod kept_adapter;
mod owner;
mod owner_port;
mod queued;
mod saved_adapter;
mod turns;
mod watched;
mod wires;
