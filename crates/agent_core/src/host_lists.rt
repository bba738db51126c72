//! The hosts that a file lists: one address on a line.
ghost use Rattle.std.specs.Prelude.{◌≡◌, ◌≤◌, length, map, IfErr, IfOk};
ghost use Rattle.std.specs.Str.Lines.{lines};
ghost use Rattle.change_core.specs.Address.{address_text};
ghost use Rattle.agent_core.specs.Hosts.{IsFaultOfLines, IsHostList, IsHostsFault, IsNoAddress, hosts_in, names_host};
ghost use Rattle.agent_core.specs.declared.host_lists.HostsFault.TheVariants as hosts_fault;

use change_core::Address;
use std::alloc::{AllocError, AllocFailed, Global};
use thiserror::Error;

/// The most hosts that a file lists.
pub const MAX_HOSTS: usize = 4_096;

/// The most bytes of a file of hosts.
pub const MAX_HOSTS_BYTES: usize = 131_072;

/// A reason why bytes list no hosts.
#[derive(Clone, Copy, Debug, PartialEq, Eq, Error)]
pub enum HostsFault {
    /// There are more than 131,072.
    #[error("it has more than {MAX_HOSTS_BYTES} bytes")]
    Long,
    /// They are not UTF-8.
    #[error("it is not UTF-8")]
    NotUtf8,
    /// The line of this number, counted from 1, is not an address.
    #[error("line {0} is not an IPv4 address and a port of 1 to 65535, as 127.0.0.1:7946")]
    BadLine(usize),
    /// There are more than 4,096 hosts.
    #[error("it has more than {MAX_HOSTS} hosts")]
    Many,
    /// An allocation failed.
    #[error("out of memory")]
    Memory,
}

impl From<AllocError> for HostsFault {
    ghost from_gives = { λ _ e. e ≡ hosts_fault.Memory };

    fn from(_: AllocError) -> HostsFault {
        HostsFault::Memory
    }
}

impl<T: Drop> From<AllocFailed<T>> for HostsFault {
    ghost from_gives = { λ _ e. e ≡ hosts_fault.Memory };

    fn from(_: AllocFailed<T>) -> HostsFault {
        HostsFault::Memory
    }
}

/// Returns whether a line without the white space at its ends names a host: it is not empty, and does not begin with `#`.
fn names_host(text: &str) -> bool
    ensures { result ≡ names_host text.now }
{
    match text.as_bytes().first() {
        Some(byte) => *byte != b'#',
        None => false,
    }
}

/// Returns the address that the line of this number is.
fn host_of(text: &str, number: usize) -> Result<Address, HostsFault>
    ensures host { IfOk result (λ a. text.now ≡ address_text a) }
    ensures fault { IfErr result (λ e. (e ≡ HostsFault.BadLine number) × IsNoAddress text.now) }
{
    Address::parse(text).map_err(|_| HostsFault::BadLine(number))
}

/// Returns the hosts of lines.
#[tactic(auto, using(crate::proofs::Hosting::names, crate::proofs::Hosting::passes, crate::proofs::Hosting::fails))]
fn hosts_of(alloc: Global, lines: &[&str]) -> Result<Vec<Address>, HostsFault>
    ensures hosts { IfOk result (λ hosts. hosts_in (map (λ line. line.now) lines.now) ≡ map address_text hosts.items) }
    ensures fault { IfErr result (IsFaultOfLines (map (λ line. line.now) lines.now)) }
{
    let mut hosts = Vec::new(alloc);
    for (place, line) in lines.iter().enumerate() {
        let text = line.trim();
        if names_host(text) {
            match host_of(text, place + 1) {
                Ok(host) => hosts.push(host)?,
                Err(fault) => return Err(fault),
            }
        }
    }
    Ok(hosts)
}

/// Returns the lines of a text.
fn lines_of(alloc: Global, text: &str) -> Result<Vec<&str>, AllocError>
    ensures { IfOk result (λ found. map (λ line. line.now) found.items ≡ lines text.now) }
{
    text.lines().collect(alloc)
}

/// Returns the hosts of a text.
#[tactic(auto, using(crate::proofs::Hosting::hosts_as, crate::proofs::Hosting::fault_as, crate::proofs::Hosting::many_as))]
fn hosts_of_text(alloc: Global, text: &str) -> Result<Vec<Address>, HostsFault>
    ensures hosts { IfOk result (λ hosts. (length hosts.items ≤ 4096) × (hosts_in (lines text.now) ≡ map address_text hosts.items)) }
    ensures fault { IfErr result (IsFaultOfLines (lines text.now)) }
{
    let lines = lines_of(alloc, text)?;
    let hosts = hosts_of(alloc, lines.as_slice())?;
    if hosts.len() > MAX_HOSTS {
        return Err(HostsFault::Many);
    }
    Ok(hosts)
}

/// Returns the hosts that the bytes of a file list, in their order: one address on a line. Blank lines, those that begin with `#`, and the white space
/// at the ends of each line are left out.
///
/// # Errors
///
/// If several apply, the first of them, except that `Memory` can replace any but the first two.
///
/// - `Long`: there are more than 131,072 bytes.
/// - `NotUtf8`: they are not UTF-8.
/// - `BadLine`: a line is not an address, the first such.
/// - `Many`: there are more than 4,096 hosts.
/// - `Memory`: out of memory.
#[tactic(auto, using(crate::proofs::Hosting::listed, crate::proofs::Hosting::faulty))]
pub fn hosts_in(alloc: Global, bytes: &[u8]) -> Result<Vec<Address>, HostsFault>
    ensures hosts { IfOk result (λ hosts. IsHostList bytes.now hosts.items) }
    ensures fault { IfErr result (IsHostsFault bytes.now) }
{
    if bytes.len() > MAX_HOSTS_BYTES {
        return Err(HostsFault::Long);
    }
    match str::from_utf8(bytes) {
        Ok(text) => hosts_of_text(alloc, text),
        Err(_) => Err(HostsFault::NotUtf8),
    }
}
