//! A ring made of many servers in one call: its points are hashed one server after another and sorted once.
ghost use Rattle.std.specs.Prelude.{◌≡◌, ◌*◌, ◌≤◌, [], OnOk, vec_capacity};
ghost use Rattle.change_core.specs.Ascending.{In};
ghost use Rattle.hash_ring.specs.Points.{IsReplicas, AreSmall, points};
ghost use Rattle.hash_ring.specs.Servers.{AreServers, with_each};
ghost use Rattle.hash_ring.specs.declared.servers.Server.{Server};

use crate::hash::PointHash;
use crate::points::{Point, point_count, push_points};
use crate::servers::{Server, put_server};
use std::alloc::AllocError;

/// Adds servers to a list that is empty, each replacing any other of its address, and makes room in `late` for the
/// points of each.
pub(crate) fn list_servers(
    list: &mut Vec<Server>,
    late: &mut Vec<Point>,
    replicas: u32,
    servers: &[Server],
) -> Result<(), AllocError>
    requires replicas { IsReplicas replicas }
    requires none { list.old.items ≡ [] }
    requires nothing_late { late.old.items ≡ [] }
    ensures listed { OnOk result (list.new.items ≡ with_each servers.now []) }
    ensures servers { OnOk result (AreServers list.new.items) }
    ensures none_late { OnOk result (late.new.items ≡ []) }
    ensures fits { OnOk result ((s : Server) → In s list.new.items → replicas * s.weight ≤ vec_capacity late.new) }
{
    for server in servers {
        let count = point_count(replicas, server.weight);
        late.reserve(count as usize)?;
        put_server(list, server)?;
    }
    Ok(())
}

/// Makes a list that is empty that of the points of servers, ascending.
pub(crate) fn fill_all<H: PointHash>(
    list: &mut Vec<Point>,
    hash: H,
    replicas: u32,
    servers: &[Server],
) -> Result<(), AllocError>
    requires replicas { IsReplicas replicas }
    requires none { list.old.items ≡ [] }
    ensures made { OnOk result (list.new.items ≡ points (H.hash_of hash) replicas servers.now) }
    ensures small { OnOk result (AreSmall list.new.items) }
{
    for server in servers {
        let count = point_count(replicas, server.weight);
        list.reserve(count as usize)?;
        push_points(list, hash, server.address, count);
    }
    list.sort_unstable();
    list.dedup();
    Ok(())
}

/// At least as many points as any one of the servers has.
pub(crate) fn most_points(replicas: u32, servers: &[Server]) -> usize
    requires { IsReplicas replicas }
    ensures { (s : Server) → In s servers.now → replicas * s.weight ≤ result }
{
    let mut most = 0;
    for server in servers {
        most = point_count(replicas, server.weight).max(most);
    }
    most as usize
}
