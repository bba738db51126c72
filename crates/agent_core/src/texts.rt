//! The JSON texts of members and owners, and the line of a digest.
ghost use Rattle.std.specs.Prelude.{◌≡◌, ◌++◌, IfOk, OnOk, string_bytes};
ghost use Rattle.agent_core.specs.Texts.{digest_line, member_text, members_text, members_list, on_ring, owners_text, quoted_list, ring_text, server_of, server_text, servers_list, shown_owners};

use change_core::{Address, Change, Digest, DigestText, Incarnation, Status};
use std::alloc::{AllocError, Global};
use std::fmt::Write;

/// Appends the addresses in their order, each between quotes, with commas between them.
fn push_quoted(text: &mut String, addresses: &[Address]) -> Result<(), AllocError>
    ensures { OnOk result (string_bytes text.new ≡ string_bytes text.old ++ quoted_list addresses.now) }
{
    for (i, address) in addresses.iter().enumerate() {
        if i > 0 {
            text.push_str(",")?;
        }
        write!(text, "\"{address}\"")?;
    }
    Ok(())
}

/// Appends the owners of one key of many, as `["10.0.0.1:7946",..]`, or `null` if the first of them is `hidden`.
///
/// # Errors
///
/// - `AllocError`: out of memory. A part may have been appended.
pub fn push_owners(
    text: &mut String,
    owners: &[Address],
    hidden: Option<Address>,
) -> Result<(), AllocError>
    ensures { OnOk result (string_bytes text.new ≡ string_bytes text.old ++ shown_owners hidden owners.now) }
{
    if let (Some(hidden), [first, ..]) = (hidden, owners) {
        if *first == hidden {
            return text.push_str("null");
        }
    }
    text.push_str("[")?;
    push_quoted(text, owners)?;
    text.push_str("]")
}

/// Returns the owners in their order, as `{"owners":["10.0.0.1:7946",..]}` and a newline.
///
/// # Errors
///
/// - `AllocError`: out of memory.
pub fn owners_text(alloc: Global, owners: &[Address]) -> Result<String, AllocError>
    ensures { IfOk result (λ text. string_bytes text ≡ owners_text owners.now) }
{
    let mut text = String::from_str(alloc, "{\"owners\":[")?;
    push_quoted(&mut text, owners)?;
    text.push_str("]}\n")?;
    Ok(text)
}

/// Appends a member, as `{"address":"10.0.0.1:7946","status":"alive","incarnation":5,"weight":1}`.
fn push_member(text: &mut String, member: &Change) -> Result<(), AllocError>
    ensures { OnOk result (string_bytes text.new ≡ string_bytes text.old ++ member_text member.now) }
{
    let address = member.address;
    let status = member.status;
    let incarnation = member.incarnation.number();
    let weight = member.weight.number();
    write!(
        text,
        "{{\"address\":\"{address}\",\"status\":\"{status}\",\"incarnation\":{incarnation},\"weight\":{weight}}}"
    )?;
    Ok(())
}

/// Appends the members in their order, with commas between them.
fn push_members(text: &mut String, members: &[Change]) -> Result<(), AllocError>
    ensures { OnOk result (string_bytes text.new ≡ string_bytes text.old ++ members_list members.now) }
{
    for (i, member) in members.iter().enumerate() {
        if i > 0 {
            text.push_str(",")?;
        }
        push_member(text, member)?;
    }
    Ok(())
}

/// Returns `{"address":"10.0.0.1:7946","digest":"..","replicas":100,"addresses_used":3,"addresses_max":4096,"members":[..]}`
/// and a newline: the node's own address, the digest in 64 hexadecimal digits, the number of points on the ring for a unit
/// of weight, how many addresses are used of those that there can be, and the members in their order, each with its
/// address, status, incarnation and weight.
///
/// # Errors
///
/// - `AllocError`: out of memory.
pub fn members_text(
    alloc: Global,
    own: Address,
    digest: &Digest,
    replicas: u32,
    members: &[Change],
) -> Result<String, AllocError>
    ensures { IfOk result (λ text. string_bytes text ≡ members_text own digest.now.bytes replicas members.now) }
{
    let digits = DigestText::of(digest);
    let digits = digits.as_str();
    let used = members.len();
    let mut text = format!(in alloc;
        "{{\"address\":\"{own}\",\"digest\":\"{digits}\",\"replicas\":{replicas},\"addresses_used\":{used},\"addresses_max\":4096,\"members\":["
    )?;
    push_members(&mut text, members)?;
    text.push_str("]}\n")?;
    Ok(text)
}

/// Returns the members that serve, as they stand on the ring: each alive at incarnation 0, with its address and its weight. So no suspicion and no
/// refutation changes them.
///
/// # Errors
///
/// - `AllocError`: out of memory.
pub fn on_ring(alloc: Global, members: &[Change]) -> Result<Vec<Change>, AllocError>
    ensures { IfOk result (λ servers. servers.items ≡ on_ring members.now) }
{
    let mut servers = Vec::with_capacity(alloc, members.len())?;
    for member in members {
        if member.status.serving() {
            servers.push(server_of(member))?;
        }
    }
    Ok(servers)
}

/// Returns a member as it stands on the ring.
fn server_of(member: &Change) -> Change
    ensures { result ≡ server_of member.now }
{
    let Some(incarnation) = Incarnation::new(0) else {
        unreachable!();
    };
    Change {
        address: member.address,
        incarnation,
        status: Status::Alive,
        weight: member.weight,
    }
}

/// Appends a member that serves, as `{"address":"10.0.0.1:7946","weight":1}`.
fn push_server(text: &mut String, server: &Change) -> Result<(), AllocError>
    ensures { OnOk result (string_bytes text.new ≡ string_bytes text.old ++ server_text server.now) }
{
    let address = server.address;
    let weight = server.weight.number();
    write!(text, "{{\"address\":\"{address}\",\"weight\":{weight}}}")?;
    Ok(())
}

/// Appends the members that serve, with commas between them.
pub(crate) fn push_servers(text: &mut String, servers: &[Change]) -> Result<(), AllocError>
    ensures { OnOk result (string_bytes text.new ≡ string_bytes text.old ++ servers_list servers.now) }
{
    for (i, server) in servers.iter().enumerate() {
        if i > 0 {
            text.push_str(",")?;
        }
        push_server(text, server)?;
    }
    Ok(())
}

/// Returns `{"ring":"..","own":"10.0.0.1:7946","replicas":100,"serving":[..]}` and a newline: the digest of the ring in 64 hexadecimal digits, the
/// node's own address, the number of points on the ring for a unit of weight, and the members that serve, each with its address and weight.
///
/// # Errors
///
/// - `AllocError`: out of memory.
pub fn ring_text(
    alloc: Global,
    own: Address,
    digest: &Digest,
    replicas: u32,
    servers: &[Change],
) -> Result<String, AllocError>
    ensures { IfOk result (λ text. string_bytes text ≡ ring_text own digest.now.bytes replicas servers.now) }
{
    let digits = DigestText::of(digest);
    let mut text = String::from_str(alloc, "{\"ring\":\"")?;
    text.push_str(digits.as_str())?;
    write!(
        text,
        "\",\"own\":\"{own}\",\"replicas\":{replicas},\"serving\":["
    )?;
    push_servers(&mut text, servers)?;
    text.push_str("]}\n")?;
    Ok(text)
}

/// Returns the digest in 64 hexadecimal digits, and a newline.
///
/// # Errors
///
/// - `AllocError`: out of memory.
pub fn digest_line(alloc: Global, digest: &Digest) -> Result<String, AllocError>
    ensures { IfOk result (λ text. string_bytes text ≡ digest_line digest.now.bytes) }
{
    let digits = DigestText::of(digest);
    let mut text = String::from_str(alloc, digits.as_str())?;
    text.push_str("\n")?;
    Ok(text)
}
