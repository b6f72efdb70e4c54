//! Tests of `enip_adapter`: writes of the device, readers and writers that fail, rights and shares of peers, deadlines,
//! datagrams, and the texts of errors.

mod caller;
mod deadline;
mod device;
mod discovery;
mod endings;
mod queued;
mod rights;
mod serving;
mod texts;
