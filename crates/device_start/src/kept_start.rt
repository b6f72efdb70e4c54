//! A device that starts from what is kept in FILE of `--keep`.

ghost use Rattle.std.specs.Prelude.{◌≡◌, ◌≤◌, All, IfOk};
ghost use Rattle.device_start.specs.Preparing.{GoesOn, IsPrepared};
ghost use Rattle.enip_keep.specs.Kept.{IsKeepable, Kept, pairs_of, set_all};
ghost use Rattle.enip_keep.specs.Server.{IsReady};
ghost use Rattle.kept_server.specs.Rounds.{kept_of};

use crate::kept_file::{FileNote, FileUser, KeptFile, OpenFile};
use crate::kept_values::KeptValues;
use crate::prepared::{Prepared, prepare};
use crate::start::start_to_read;
use crate::start_watch::{Done, StartWatch};
use crate::wishes::StartWishes;
use config_file::ConfigFile;
use enip_common::{CommandError, OUTPUT, OsArg};
use enip_keep::{Device, Entry, Keeper, Numbered, Server, commit_loaded};
use enip_server::Wire;
use kept_adapter::AdapterStart;
use kept_server::{KeptDevice, KeptPeers, RoundGuest};
use std::alloc::Global;

/// Starts a device from what is kept in an open file. Returns its server, and what is kept.
///
/// # Errors
///
/// If the state in the file is damaged, older than `FILE.round` says, or that of another device. If the device would lose
/// something of it: see `AdapterStart::hindrances`.
pub fn start_kept<'a, W: Wire + Drop, K: Keeper + Drop, G: RoundGuest<W>>(
    rt: &HostRuntime,
    file: KeptFile<'a>,
    opened: OpenFile<K>,
    start: AdapterStart,
    wishes: StartWishes<'a>,
) -> Result<
    (
        Server<KeptPeers<W, AdapterStart, G>, Numbered<K, FileNote>>,
        KeptValues,
    ),
    CommandError<'a>,
>
    requires { K.doubt opened.rows ≡ 0 → K.is_up opened.rows }
    ensures goes_on { IfOk result (λ r. ⟦<Numbered<K, FileNote> as Keeper>⟧.doubt r.0.keeper ≡ 0 → (kept : Kept)
        × GoesOn start wishes.entry kept (⟦<KeptPeers<W, AdapterStart, G> as Device>⟧.contents r.0.device)) }
    ensures ready { IfOk result (λ r. IsReady ⟦<Numbered<K, FileNote> as Keeper>⟧.doubt ⟦<Numbered<K, FileNote> as Keeper>⟧.is_up
        ⟦<Numbered<K, FileNote> as Keeper>⟧.kept ⟦<KeptPeers<W, AdapterStart, G> as Device>⟧.contents
        ⟦<KeptPeers<W, AdapterStart, G> as Device>⟧.known_kept kept_of r.0) }
{
    let watch = opened.watch();
    let keeper = file.numbered(rt.alloc(), opened)?;
    start_server(rt, file, keeper, start, wishes, watch)
}

/// Starts a device from what is kept. Returns its server, and what is kept.
fn start_server<'a, W: Wire + Drop, K: Keeper + Drop, G: RoundGuest<W>>(
    rt: &HostRuntime,
    file: KeptFile<'a>,
    keeper: K,
    start: AdapterStart,
    wishes: StartWishes<'a>,
    watch: StartWatch,
) -> Result<(Server<KeptPeers<W, AdapterStart, G>, K>, KeptValues), CommandError<'a>>
    requires { K.doubt keeper ≡ 0 → K.is_up keeper }
    ensures goes_on { IfOk result (λ r. K.doubt r.0.keeper ≡ 0
        → GoesOn start wishes.entry (K.kept keeper) (⟦<KeptPeers<W, AdapterStart, G> as Device>⟧.contents r.0.device)) }
    ensures ready { IfOk result (λ r. IsReady K.doubt K.is_up K.kept
        ⟦<KeptPeers<W, AdapterStart, G> as Device>⟧.contents
        ⟦<KeptPeers<W, AdapterStart, G> as Device>⟧.known_kept kept_of r.0) }
{
    let alloc = rt.alloc();
    let (keeper, entries, start, notes, watch) = load(rt, file, keeper, start, wishes, watch)?;
    match Server::start_from(alloc, keeper, &entries, &start) {
        Ok(server) => {
            let _ = watch.next(rt, file.name(), Done::Written);
            Ok((
                server,
                KeptValues::of(alloc, file, &entries, &start, notes)?,
            ))
        }
        Err(error) => Err(file.refused(error)),
    }
}

/// Loads what is kept, and makes it ready for the start: what has changed by that is committed. Returns the keeper, its
/// entries, the start in a life that was not before, what is said of the changes, and the watch.
fn load<'a, K: Keeper + Drop>(
    rt: &HostRuntime,
    file: KeptFile<'a>,
    keeper: K,
    start: AdapterStart,
    wishes: StartWishes<'a>,
    watch: StartWatch,
) -> Result<(K, Vec<Entry>, AdapterStart, Vec<String>, StartWatch), CommandError<'a>>
    requires { K.doubt keeper ≡ 0 → K.is_up keeper }
    ensures up { IfOk result (λ r. K.doubt r.0 ≡ 0 → K.is_up r.0) }
    ensures loaded { IfOk result (λ r. K.doubt r.0 ≡ 0 → pairs_of r.1.items ≡ K.kept r.0) }
    ensures doubt { IfOk result (λ r. K.doubt keeper ≤ K.doubt r.0) }
    ensures prepared { IfOk result (λ r. K.doubt r.0 ≡ 0
        → IsPrepared start r.2 wishes.entry (K.kept keeper) (pairs_of r.1.items)) }
{
    let mut keeper = keeper;
    let mut entries = match keeper.load(rt.alloc()) {
        Ok(entries) => entries,
        Err(error) => return Err(file.refused(error)),
    };
    let watch = watch.next(rt, file.name(), Done::Read(entries.len()));
    let (start, prepared) = prepare_later(rt, file, start, &mut entries, wishes)?;
    let Prepared { changes, notes } = prepared;
    match commit_loaded(&mut keeper, &entries, &changes) {
        Ok(()) => Ok((keeper, entries, start, notes, watch)),
        Err(error) => Err(file.refused(error)),
    }
}

/// Makes the entries of FILE ready for a start in a life that was not before. Returns that start, and the changes.
fn prepare_later<'a>(
    rt: &HostRuntime,
    file: KeptFile<'a>,
    start: AdapterStart,
    entries: &mut Vec<Entry>,
    wishes: StartWishes<'a>,
) -> Result<(AdapterStart, Prepared), CommandError<'a>>
    ensures prepared { IfOk result (λ r.
        IsPrepared start r.0 wishes.entry (pairs_of entries.old.items) (pairs_of entries.new.items)) }
    ensures made { IfOk result (λ r. pairs_of entries.new.items
        ≡ set_all (pairs_of r.1.changes.items) (pairs_of entries.old.items)) }
    ensures keepable { IfOk result (λ r. All IsKeepable r.1.changes.items) }
{
    let start = start.in_later_life(entries);
    let prepared = prepare(rt, file, &start, entries, wishes)?;
    Ok((start, prepared))
}

/// `enip check --keep`: prints what is kept in FILE of the device of a configuration.
///
/// # Errors
///
/// Those of a start with this configuration. What is kept is printed before.
pub fn print_kept_values<'a>(
    rt: &HostRuntime,
    args: &[OsArg],
    config: &ConfigFile<'a>,
    name: &'a str,
) -> Result<(), CommandError<'a>> {
    let file = KeptFile::to_read(name);
    let start = start_to_read(rt, config)?;
    match file
        .locked(rt, args)?
        .open_for(rt, Printing { file, start })
    {
        Ok(printed) => printed,
        Err(fault) => Err(file.not_opened(fault)),
    }
}

/// Prints what is kept in an open file, and whether a device starts from it.
#[derive(Drop)]
struct Printing<'a> {
    file: KeptFile<'a>,
    start: AdapterStart,
}

impl<'a> FileUser<Result<(), CommandError<'a>>> for Printing<'a> {
    fn run<K: Keeper + Drop>(
        self,
        rt: &HostRuntime,
        opened: OpenFile<K>,
    ) -> Result<(), CommandError<'a>> {
        let Printing { file, start } = self;
        let mut entries = loaded(rt.alloc(), file, opened)?;
        let values = KeptValues::of(rt.alloc(), file, &entries, &start, Vec::new(rt.alloc()))?;
        values
            .print(rt.alloc(), &entries, &start, rt.stdout())
            .map_err(|error| CommandError::of_system(OUTPUT, error))?;
        prepare(rt, file, &start, &mut entries, StartWishes::NONE)?;
        match start.start(rt.alloc(), &entries) {
            Ok(_) => Ok(()),
            Err(error) => Err(file.refused(error)),
        }
    }
}

/// The entries in an open file.
fn loaded<'a, K: Keeper + Drop>(
    alloc: Global,
    file: KeptFile<'a>,
    opened: OpenFile<K>,
) -> Result<Vec<Entry>, CommandError<'a>>
    requires { K.doubt opened.rows ≡ 0 → K.is_up opened.rows }
{
    let mut keeper = file.numbered(alloc, opened)?;
    match keeper.load(alloc) {
        Ok(entries) => Ok(entries),
        Err(error) => Err(file.refused(error)),
    }
}
