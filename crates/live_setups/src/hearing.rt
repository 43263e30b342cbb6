//! What a run of `listen` is made with.

ghost use Rattle.std.specs.Prelude.{◌≡◌, ◌≤◌, ◌++◌, IfOk, IfSome, OnOk, length, map};
ghost use Rattle.std.specs.Option.{IsSome};
ghost use Rattle.pitch_fields.specs.Limits.{IsHoldLimit};
ghost use Rattle.live_words.specs.Options.{units_of as units_in};
ghost use Rattle.live_setups.specs.Hearing.{CanBeHeard, addrs_of, every_unit, hearing_of};
ghost use Rattle.live_setups.specs.Hearing.{named_units, peer_by, peers_of, ports_of, units_heard};
ghost use Rattle.live_setups.specs.Hearing.{with_unit, with_units};

use crate::account::account_or_nobodys;
use line_sockets::Port;
use live_listen::ListenSetup;
use live_recovery::{Peer, RecoverSetup, Session};
use live_words::{LineWords, ListenWords, Server, ServerWords};
use pitch_fields::HoldLimit;
use std::alloc::{AllocError, Global};
use std::net::SocketAddr;

/// Who is heard.
#[derive(Drop)]
pub enum Hearing {
    /// Every unit, where none is named. Nobody is asked.
    Every(ListenSetup),
    /// The units that are named, with whose end the run ends. Their servers are asked.
    Named(RecoverSetup),
}

/// What a run of `listen` is made with.
#[derive(Drop)]
pub struct ListenRun {
    /// The ports of the lines by their numbers: lines A, lines B, and gap lines.
    pub ports: Vec<Port>,
    /// Where the peers are, by their numbers: the proxies, and then the Spin Servers.
    pub addrs: Vec<SocketAddr>,
    /// Who is heard on the lines.
    pub hearing: Hearing,
    /// After how many seconds the run ends, where that is limited.
    pub seconds: Option<u64>,
}

// The ports by the numbers of their lines.
fn ports_by_line(alloc: Global, lines: &LineWords) -> Result<Vec<Port>, AllocError>
    ensures { IfOk result (λ ports. ports.items ≡ ports_of lines.now) }
{
    let mut ports = Vec::from_slice(alloc, &lines.a)?;
    ports.extend_from_slice(&lines.b)?;
    ports.extend_from_slice(&lines.gap)?;
    Ok(ports)
}

// Where some servers are.
fn places_of(alloc: Global, servers: &[Server]) -> Result<Vec<SocketAddr>, AllocError>
    ensures { IfOk result (λ addrs. addrs.items ≡ map (λ server. server.addr) servers.now) }
{
    servers.iter().map(|server| server.addr).collect(alloc)
}

// Where the peers are, by their numbers.
fn addrs_by_peer(alloc: Global, servers: &ServerWords) -> Result<Vec<SocketAddr>, AllocError>
    ensures { IfOk result (λ addrs. addrs.items ≡ addrs_of servers.now) }
{
    let mut addrs = places_of(alloc, &servers.grp)?;
    let spin = places_of(alloc, &servers.spin)?;
    addrs.extend_from_slice(&spin)?;
    Ok(addrs)
}

// Some servers as peers, by this session of each one's unit.
fn peers_with(alloc: Global, servers: &[Server], session: Session) -> Result<Vec<Peer>, AllocError>
    ensures { IfOk result (λ peers. peers.items ≡ map (peer_by session) servers.now) }
{
    let peers = servers.iter().map(|server| Peer {
        unit: server.unit,
        session,
    });
    peers.collect(alloc)
}

// The peers by their numbers.
fn peers_by_number(alloc: Global, servers: &ServerWords) -> Result<Vec<Peer>, AllocError>
    ensures { IfOk result (λ peers. peers.items ≡ peers_of servers.now) }
{
    let mut peers = peers_with(alloc, &servers.grp, Session::Proxy)?;
    let spin = peers_with(alloc, &servers.spin, Session::SpinServer)?;
    peers.extend_from_slice(&spin)?;
    Ok(peers)
}

// Adds a unit, unless it stands there.
fn add_unit(units: &mut Vec<u8>, unit: u8) -> Result<(), AllocError>
    ensures { OnOk result (units.new.items ≡ with_unit units.old.items unit) }
{
    if units.contains(&unit) {
        return Ok(());
    }
    units.push(unit)?;
    Ok(())
}

// Adds some units, each unless it stands there.
fn add_units(units: &mut Vec<u8>, more: &[u8]) -> Result<(), AllocError>
    ensures { OnOk result (units.new.items ≡ with_units units.old.items more.now) }
{
    'units: for unit in more {
        add_unit(units, *unit)?;
    }
    Ok(())
}

// The units of some servers.
fn units_of(alloc: Global, servers: &[Server]) -> Result<Vec<u8>, AllocError>
    ensures { IfOk result (λ units. units.items ≡ units_in servers.now) }
{
    servers.iter().map(|server| server.unit).collect(alloc)
}

// The units that are named, by themselves or with a server, each once.
fn units_once(alloc: Global, asked: &ListenWords) -> Result<Vec<u8>, AllocError>
    ensures { IfOk result (λ units. units.items ≡ units_heard asked.now) }
{
    let mut units = Vec::new(alloc);
    add_units(&mut units, &asked.units)?;
    let grp = units_of(alloc, &asked.servers.grp)?;
    add_units(&mut units, &grp)?;
    let spin = units_of(alloc, &asked.servers.spin)?;
    add_units(&mut units, &spin)?;
    Ok(units)
}

// Every unit is heard on so many lines.
fn hear_every(alloc: Global, asked: &ListenWords, lines: u16, hold: HoldLimit) -> Option<Hearing>
    requires lines { lines ≡ length (ports_of asked.now.lines) }
    requires hold { hold ≡ asked.now.hold }
    ensures hearing { IfSome result (λ hearing. hearing ≡ every_unit asked.now) }
    ensures some { 1 ≤ lines → IsSome result }
{
    match ListenSetup::make(lines, Vec::new(alloc), hold) {
        Some(setup) => Some(Hearing::Every(setup)),
        None => None,
    }
}

// These units are heard, and their servers are asked.
fn hear_named(
    asked: &ListenWords,
    lines: u16,
    peers: Vec<Peer>,
    units: Vec<u8>,
    hold: HoldLimit,
) -> Option<Hearing>
    requires lines { lines ≡ length (ports_of asked.now.lines) }
    requires peers { peers.items ≡ peers_of asked.now.servers }
    requires units { units.items ≡ units_heard asked.now }
    requires hold { hold ≡ asked.now.hold }
    ensures hearing { IfSome result (λ hearing. hearing ≡ named_units asked.now) }
    ensures some { length (peers_of asked.now.servers) ≤ 65535 → IsSome result }
{
    let account = account_or_nobodys(asked.servers.account);
    match RecoverSetup::make(lines, peers, units, account, hold) {
        Some(setup) => Some(Hearing::Named(setup)),
        None => None,
    }
}

// Who is heard on so many lines.
fn hear_on(alloc: Global, asked: &ListenWords, lines: usize) -> Result<Option<Hearing>, AllocError>
    requires { lines ≡ length (ports_of asked.now.lines) }
    ensures hearing { IfOk result (λ made. IfSome made (λ hearing. hearing ≡ hearing_of asked.now)) }
    ensures some { IfOk result (λ made. CanBeHeard asked.now → IsSome made) }
{
    let Ok(lines) = u16::try_from(lines) else {
        return Ok(None);
    };
    let Some(hold) = HoldLimit::of(asked.hold) else {
        return Ok(None);
    };
    let units = units_once(alloc, asked)?;
    if units.is_empty() {
        return Ok(hear_every(alloc, asked, lines, hold));
    }
    let peers = peers_by_number(alloc, &asked.servers)?;
    Ok(hear_named(asked, lines, peers, units, hold))
}

/// What a run is made with that hears what the words ask for. `None` only where there are more than
/// 65,535 lines or servers: what the words ask for has a line, and a hold within its range.
///
/// The one error is want of memory.
pub fn listen_run(alloc: Global, asked: &ListenWords) -> Result<Option<ListenRun>, AllocError>
    ensures ports { IfOk result
        (λ made. IfSome made (λ run. run.ports.items ≡ ports_of asked.now.lines)) }
    ensures addrs { IfOk result
        (λ made. IfSome made (λ run. run.addrs.items ≡ addrs_of asked.now.servers)) }
    ensures hearing { IfOk result
        (λ made. IfSome made (λ run. run.hearing ≡ hearing_of asked.now)) }
    ensures seconds { IfOk result
        (λ made. IfSome made (λ run. run.seconds ≡ asked.now.seconds)) }
    ensures some { IfOk result (λ made. CanBeHeard asked.now → IsSome made) }
{
    let ports = ports_by_line(alloc, &asked.lines)?;
    let addrs = addrs_by_peer(alloc, &asked.servers)?;
    match hear_on(alloc, asked, ports.len())? {
        Some(hearing) => Ok(Some(ListenRun {
            ports,
            addrs,
            hearing,
            seconds: asked.seconds,
        })),
        None => Ok(None),
    }
}
