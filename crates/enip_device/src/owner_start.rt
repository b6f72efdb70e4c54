//! What an owner of a device starts from: the option `--owner` and the configuration, or nobody.

use config_file::need_at_once;
use device_sockets::{GuestSockets, Observer, UnkeptGuest};
use enip_adapter::Adapter;
use enip_common::{CommandError, OsArg};
use enip_config::Configuration;
use enip_server::{FrameWire, NoWatcher};
use kept_server::RoundGuest;
use mio::net::TcpListener;
use owner_port::{DeviceTable, OwnerPort};
use owner_sockets::{OwnerLink, OwnerSockets};
use serve_options::{OwnerOptions, ServeOptions};
use std::alloc::{AllocError, Global};

/// Why nobody can take part.
#[derive(Drop)]
pub(crate) enum NoGuest {
    /// Memory was refused.
    Memory,
    /// There is an owner, and no socket at which it is listened for.
    NoSocket,
}

impl From<AllocError> for NoGuest {
    fn from(_error: AllocError) -> NoGuest {
        NoGuest::Memory
    }
}

/// Who takes part in the rounds of a device, before they begin.
pub(crate) trait GuestStart<O: Observer> {
    /// Who takes part, whether the state of the device is kept or not.
    type Guest: RoundGuest<FrameWire<O::Wire>>
        + UnkeptGuest<FrameWire<O::Wire>>
        + GuestSockets
        + Drop;

    /// Whether the owner is asked while a client waits.
    fn asks(&self) -> bool;

    /// The guest of the rounds of a device with this adapter. It listens for an owner at this socket, if there is one.
    fn start(
        self,
        alloc: Global,
        listener: Option<TcpListener>,
        adapter: &Adapter,
        observer: &O,
    ) -> Result<Self::Guest, NoGuest>;
}

/// The device has no owner: nobody takes part in its rounds.
#[derive(Drop)]
pub(crate) struct NoOwnerStart;

impl<O: Observer> GuestStart<O> for NoOwnerStart {
    type Guest = NoWatcher;

    fn asks(&self) -> bool {
        false
    }

    fn start(
        self,
        _alloc: Global,
        _listener: Option<TcpListener>,
        _adapter: &Adapter,
        _observer: &O,
    ) -> Result<NoWatcher, NoGuest> {
        Ok(NoWatcher)
    }
}

/// What the arguments and a configuration say about an owner.
pub(crate) struct OwnerStart<'a> {
    options: OwnerOptions<'a>,
    table: DeviceTable,
    token: Option<Vec<u8>>,
    /// Whether the owner is asked while a client waits.
    asks: bool,
}

// Written out, so that each exit of a function that owns one calls it, and has no drop of every part.
impl Drop for OwnerStart<'_> {
    fn drop(self) {
        let OwnerStart {
            options: _,
            table: _,
            token: _,
            asks: _,
        } = self;
    }
}

impl<'a> OwnerStart<'a> {
    /// Reads the token, if an owner has to show one.
    pub(crate) fn read(
        rt: &HostRuntime,
        args: &[OsArg],
        options: OwnerOptions<'a>,
        configuration: &Configuration,
    ) -> Result<OwnerStart<'a>, CommandError<'a>> {
        let token = options.read_token(rt, args)?;
        let table = DeviceTable::new(rt.alloc(), configuration)?;
        let asks = need_at_once(&configuration.objects.objects).is_some();
        Ok(OwnerStart {
            options,
            table,
            token,
            asks,
        })
    }

    /// The port of the owner.
    fn into_port(self, alloc: Global, adapter: &Adapter) -> Result<OwnerPort, AllocError> {
        let OwnerStart {
            options,
            table,
            token,
            asks: _,
        } = self;
        OwnerPort::new(alloc, table, token, options.timeout(), adapter)
    }
}

impl<O: Observer> GuestStart<O> for OwnerStart<'_> {
    type Guest = OwnerLink<O::OwnerLog>;

    fn asks(&self) -> bool {
        self.asks
    }

    fn start(
        self,
        alloc: Global,
        listener: Option<TcpListener>,
        adapter: &Adapter,
        observer: &O,
    ) -> Result<OwnerLink<O::OwnerLog>, NoGuest> {
        let Some(listener) = listener else {
            return Err(NoGuest::NoSocket);
        };
        let sockets = OwnerSockets::new(alloc, listener, self.options.from(), observer.owner_log());
        let port = self.into_port(alloc, adapter)?;
        Ok(OwnerLink::new(port, sockets))
    }
}

/// Listens for an owner, if the options have one. Returns the socket, and the options with its address.
///
/// # Errors
///
/// If the argument is not an address, or if the system refuses to listen there.
pub(crate) fn listen_for_owner<'a>(
    rt: &HostRuntime,
    options: ServeOptions<'a>,
) -> Result<(Option<TcpListener>, ServeOptions<'a>), CommandError<'a>> {
    let Some(owner) = options.owner() else {
        return Ok((None, options));
    };
    let listener = owner.bind(rt)?;
    let address = listener
        .local_addr()
        .map_err(|error| CommandError::of_system(owner.address(), error))?;
    Ok((
        Some(TcpListener::from_std(listener)),
        options.with_owner_at(address),
    ))
}
