//! A device to be served: its start, and the rounds in which it is served then.

ghost use Rattle.std.specs.Prelude.{◌≡◌, [], IfOk};
ghost use Rattle.enip_keep.specs.Server.{IsReady};
ghost use Rattle.enip_server.specs.Rounds.{state_of};
ghost use Rattle.kept_adapter.specs.Started.{started};

use crate::owner_start::{GuestStart, NoGuest, listen_for_owner};
use config_file::ConfigFile;
use device_rounds::{
    NoKeeper, RoundDevice, ServeLimits, ServedDevice, Sockets, UnkeptPeers, serve_connections,
};
use device_sockets::{GuestSockets, Observer, ServeFault, UnkeptGuest};
use device_start::{FileUser, KeptFile, OpenFile, start_kept};
use enip_access::Access;
use enip_common::{CommandError, HostPort, NamedReason, Reason};
use enip_keep::{Device, KeepError, Keeper, Server};
use enip_server::{FrameWire, Wire};
use kept_adapter::AdapterStart;
use serve_options::{ServeOptions, listen};
use std::io;

/// A device to be served.
#[derive(Drop)]
pub(crate) struct Service<'a, O: Observer + Drop, P: Drop> {
    pub(crate) options: ServeOptions<'a>,
    /// What the device starts from.
    pub(crate) start: AdapterStart,
    /// Who may connect. `None`: everybody may.
    pub(crate) access: Option<Access>,
    /// Its owner, or nobody.
    pub(crate) guest: P,
    pub(crate) observer: O,
}

impl<'a, O: Observer + Drop, P: GuestStart<O> + Drop> Service<'a, O, P> {
    /// Starts the device as it is configured, and serves it. Nothing of it is kept.
    pub(crate) fn run_unkept(
        self,
        rt: &HostRuntime,
        config: &ConfigFile<'a>,
    ) -> Result<u8, CommandError<'a>> {
        let Service {
            options,
            start,
            access,
            guest,
            observer,
        } = self;
        let server = start_unkept(rt, config, start)?;
        let (device, options) = served_device(rt, server, guest, options, &observer)?;
        listen_and_serve(rt, options, access, device, observer)
    }
}

/// A device to be served whose state is kept in a file.
#[derive(Drop)]
pub(crate) struct KeptService<'a, O: Observer + Drop, P: Drop> {
    pub(crate) file: KeptFile<'a>,
    pub(crate) service: Service<'a, O, P>,
}

impl<'a, O: Observer + Drop, P: GuestStart<O> + Drop> FileUser<Result<u8, CommandError<'a>>>
    for KeptService<'a, O, P> {
    fn run<K: Keeper + Drop>(
        self,
        rt: &HostRuntime,
        opened: OpenFile<K>,
    ) -> Result<u8, CommandError<'a>> {
        let KeptService { file, service } = self;
        let Service {
            options,
            start,
            access,
            guest,
            observer,
        } = service;
        let (server, values) = start_kept(rt, file, opened, start, options.wishes())?;
        let (device, options) = served_device(rt, server, guest, options, &observer)?;
        values.report(rt, file);
        listen_and_serve(rt, options, access, device, observer)
    }
}

/// Starts a device of which nothing is kept, as it is configured.
///
/// # Errors
///
/// If memory is refused.
fn start_unkept<'a, W: Wire + Drop, G: UnkeptGuest<FrameWire<W>>>(
    rt: &HostRuntime,
    config: &ConfigFile<'a>,
    start: AdapterStart,
) -> Result<Server<UnkeptPeers<FrameWire<W>, AdapterStart, G>, NoKeeper>, CommandError<'a>>
    ensures ready { IfOk result (IsReady ⟦<NoKeeper as Keeper>⟧.doubt ⟦<NoKeeper as Keeper>⟧.is_up
        ⟦<NoKeeper as Keeper>⟧.kept ⟦<UnkeptPeers<FrameWire<W>, AdapterStart, G> as Device>⟧.contents
        ⟦<UnkeptPeers<FrameWire<W>, AdapterStart, G> as Device>⟧.known_kept
        ⟦<UnkeptPeers<FrameWire<W>, AdapterStart, G> as Device>⟧.kept_part) }
    ensures started { IfOk result (λ server. (state_of server.device.peers).adapter ≡ started start []) }
{
    match Server::start_from(rt.alloc(), NoKeeper::new(), &[], &start) {
        Ok(server) => Ok(server),
        Err(KeepError::Memory) => Err(CommandError::of_memory()),
        Err(_) => Err(CommandError::of_reason(Reason::Named(config.name(), NamedReason::Failed))),
    }
}

/// The device of a server that has started, with who takes part in its rounds, and the options with the address at which it
/// listens for an owner.
fn served_device<
    'a,
    O: Observer + Drop,
    P: GuestStart<O> + Drop,
    D: RoundDevice<O::Wire, P::Guest> + Drop,
    K: Keeper + Drop,
>(
    rt: &HostRuntime,
    server: Server<D, K>,
    guest: P,
    options: ServeOptions<'a>,
    observer: &O,
) -> Result<(ServedDevice<O::Wire, D, K, P::Guest>, ServeOptions<'a>), CommandError<'a>>
    requires { IsReady K.doubt K.is_up K.kept D.contents D.known_kept D.kept_part server }
    ensures server { IfOk result (λ r. r.0.server ≡ server) }
    ensures ready { IfOk result (λ r. IsReady K.doubt K.is_up K.kept D.contents D.known_kept D.kept_part r.0.server) }
{
    let asks = guest.asks();
    let (listener, listening) = listen_for_owner(rt, options)?;
    let adapter = server.device().peers().adapter();
    match guest.start(rt.alloc(), listener, adapter, observer) {
        Ok(guest) => Ok((ServedDevice::new(server, guest, asks), listening)),
        Err(NoGuest::Memory) => Err(CommandError::of_memory()),
        Err(NoGuest::NoSocket) => Err(no_owner(options)),
    }
}

/// The error of a device whose owner cannot be listened for.
fn no_owner<'a>(options: ServeOptions<'a>) -> CommandError<'a> {
    let address = match options.owner() {
        Some(owner) => owner.address(),
        None => "--owner",
    };
    CommandError::of_reason(Reason::Named(address, NamedReason::Failed))
}

/// Binds the sockets of a device, and serves it.
fn listen_and_serve<
    'a,
    O: Observer + Drop,
    D: RoundDevice<O::Wire, G> + Drop,
    K: Keeper + Drop,
    G: GuestSockets + Drop,
>(
    rt: &HostRuntime,
    options: ServeOptions<'a>,
    access: Option<Access>,
    device: ServedDevice<O::Wire, D, K, G>,
    observer: O,
) -> Result<u8, CommandError<'a>>
    requires { IsReady K.doubt K.is_up K.kept D.contents D.known_kept D.kept_part device.server }
{
    let (address, listener, datagrams) = listen(rt, options)?;
    let sockets = Sockets {
        listener,
        datagrams,
    };
    let limits = ServeLimits {
        count: options.count(),
        access,
    };
    match serve_connections(rt, rt.alloc(), sockets, device, limits, observer) {
        Ok(()) => Ok(0),
        Err(fault) => Err(serve_error(options, address, fault)),
    }
}

/// The error of a device that is not served any longer.
fn serve_error<'a>(
    options: ServeOptions<'a>,
    address: HostPort<'a>,
    fault: ServeFault,
) -> CommandError<'a> {
    match (fault, options.keep()) {
        (ServeFault::Keep(error), Some(file)) => file.not_kept(error),
        (ServeFault::Keep(KeepError::Memory), None) => CommandError::of_memory(),
        (ServeFault::System(error), _) if error.kind() == io::ErrorKind::OutOfMemory => {
            CommandError::of_memory()
        }
        _ => CommandError::of_reason(Reason::Named(address.text(), NamedReason::Failed)),
    }
}
