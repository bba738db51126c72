//! The lists of a ring: its servers and their points.
ghost use Rattle.std.specs.Prelude.{◌≡◌, ◌≢◌, ◌+◌, ◌*◌, ◌/◌, ◌<◌, ◌≤◌, [], ◌++◌, length, is_some, IsOk, IsOkUnless, OnOk, vec_len, vec_capacity};
ghost use Rattle.change_core.specs.Ascending.{ascending, In, IsAscending};
ghost use Rattle.hash_ring.specs.Points.{IsReplicas, point_cmp};
ghost use Rattle.hash_ring.specs.RingModel.{IsKept};
ghost use Rattle.hash_ring.specs.Servers.{AreServers, weight_of, with_each, without};
ghost use Rattle.hash_ring.specs.Steps.{IsTaken};
ghost use Rattle.hash_ring.specs.declared.points.Point.{Point};
ghost use Rattle.hash_ring.specs.declared.servers.Server.{Server};

use crate::builds::{fill_all, list_servers, most_points};
use crate::errors::RingError;
use crate::hash::PointHash;
use crate::late::{merge_all, merge_late};
use crate::points::{Point, reserve_points, take_points};
use crate::servers::{Server, take_server};
use crate::starts::SearchIndex;
use change_core::Address;
use std::alloc::{AllocError, Global};

/// The servers ascending by address, their points ascending, and the index at which searches of these start.
#[derive(Drop)]
pub(crate) struct Lists {
    pub(crate) servers: Vec<Server>,
    pub(crate) points: Vec<Point>,
    pub(crate) starts: SearchIndex,
    /// Points of servers that were added since the others were merged, as they came.
    pub(crate) late: Vec<Point>,
}

impl Lists {
    pub(crate) fn new(alloc: Global) -> Lists
        ensures servers { result.servers.items ≡ [] }
        ensures points { result.points.items ≡ [] }
        ensures late { result.late.items ≡ [] }
    {
        Lists {
            servers: Vec::new(alloc),
            points: Vec::new(alloc),
            starts: SearchIndex::new(alloc),
            late: Vec::new(alloc),
        }
    }

    /// Fills lists that are empty with servers, of two of one address the later, and with their points.
    pub(crate) fn fill<H: PointHash>(
        &mut self,
        hash: H,
        replicas: u32,
        servers: &[Server],
    ) -> Result<(), AllocError>
        requires replicas { IsReplicas replicas }
        requires no_servers { self.old.servers.items ≡ [] }
        requires no_points { self.old.points.items ≡ [] }
        requires none_late { self.old.late.items ≡ [] }
        ensures servers { OnOk result (self.new.servers.items ≡ with_each servers.now []) }
        ensures kept { OnOk result (IsKept (H.hash_of hash) replicas self.new.servers.items self.new.points.items self.new.late.items (vec_capacity self.new.late) (vec_capacity self.new.points)) }
        // A failed allocation of the index is not ignored: here, and in the two calls below.
        ensures counted { OnOk result (vec_capacity self.new.points / 16 ≤ vec_len self.new.starts.counts) }
    {
        list_servers(&mut self.servers, &mut self.late, replicas, servers)?;
        fill_all(&mut self.points, hash, replicas, &self.servers)?;
        self.starts.widen(&self.points, self.points.capacity())
    }

    /// Fills lists that are empty with the servers of others and all their points, and makes room for as many late points as any one
    /// server has.
    pub(crate) fn fill_as(&mut self, others: &Lists, replicas: u32) -> Result<(), AllocError>
        requires replicas { IsReplicas replicas }
        requires ascends { IsAscending point_cmp others.now.points.items }
        requires no_servers { self.old.servers.items ≡ [] }
        requires no_points { self.old.points.items ≡ [] }
        requires none_late { self.old.late.items ≡ [] }
        ensures servers { OnOk result (self.new.servers.items ≡ others.now.servers.items) }
        ensures points { OnOk result (self.new.points.items ≡ ascending point_cmp (others.now.points.items ++ others.now.late.items)) }
        ensures none_late { OnOk result (self.new.late.items ≡ []) }
        ensures fits { OnOk result ((s : Server) → In s others.now.servers.items → replicas * s.weight ≤ vec_capacity self.new.late) }
        ensures counts_as { others.now.late.items ≡ [] → OnOk result (vec_len others.now.starts.counts ≤ vec_len self.new.starts.counts) }
        ensures counted { others.now.late.items ≢ [] → OnOk result (vec_capacity self.new.points / 16 ≤ vec_len self.new.starts.counts) }
    {
        self.servers.extend_from_slice(&others.servers)?;
        self.late.reserve(most_points(replicas, &others.servers))?;
        merge_all(&mut self.points, &others.points, &others.late)?;
        if others.late.is_empty() {
            return self.starts.fill_as(&others.starts);
        }
        self.starts.widen(&self.points, self.points.capacity())
    }

    /// Makes room for another server, for a number of late points, and for all points merged.
    pub(crate) fn reserve(&mut self, count: usize) -> Result<(), RingError>
        ensures servers { self.new.servers.items ≡ self.old.servers.items }
        ensures points { self.new.points.items ≡ self.old.points.items }
        ensures late { self.new.late.items ≡ self.old.late.items }
        ensures room { OnOk result ((vec_len self.new.servers < vec_capacity self.new.servers)
            × (vec_len self.new.late + count ≤ vec_capacity self.new.late)
            × (vec_len self.new.points + (vec_len self.new.late + count) ≤ vec_capacity self.new.points)) }
        ensures counted { OnOk result (vec_capacity self.old.points < vec_len self.old.points + (vec_len self.old.late + count)
            → (vec_len self.old.points + (vec_len self.old.late + count)) / 16 ≤ vec_len self.new.starts.counts) }
        ensures enough { vec_len self.old.servers < vec_capacity self.old.servers
            → vec_len self.old.late + count ≤ vec_capacity self.old.late
            → vec_len self.old.points + (vec_len self.old.late + count) ≤ vec_capacity self.old.points
            → IsOk result }
        ensures servers_capacity { vec_capacity self.old.servers ≤ vec_capacity self.new.servers }
        ensures points_capacity { vec_capacity self.old.points ≤ vec_capacity self.new.points }
        ensures late_capacity { vec_capacity self.old.late ≤ vec_capacity self.new.late }
        ensures refusal { IsOkUnless result RingError.Memory }
    {
        self.servers.reserve(1)?;
        self.late.reserve(count)?;
        let more = self.late.len() + count;
        reserve_points(&mut self.points, &mut self.starts, more)?;
        Ok(())
    }

    /// Removes a server and its points, and returns whether it was there. If it was, no point is late afterwards.
    pub(crate) fn take_out(&mut self, address: Address) -> bool
        requires servers { AreServers self.old.servers.items }
        requires ascends { IsAscending point_cmp self.old.points.items }
        requires apart { (p : Point) → In p self.old.points.items → In p self.old.late.items → ⊥ }
        requires room { length self.old.points.items + length (ascending point_cmp self.old.late.items) ≤ vec_capacity self.old.points }
        ensures servers { self.new.servers.items ≡ without address self.old.servers.items }
        ensures there { result ≡ is_some (weight_of address self.old.servers.items) }
        ensures points { IsTaken address self.old.points.items self.old.late.items result self.new.points.items self.new.late.items }
        ensures servers_capacity { vec_capacity self.new.servers ≡ vec_capacity self.old.servers }
        ensures points_capacity { vec_capacity self.old.points ≤ vec_capacity self.new.points }
        ensures late_capacity { vec_capacity self.old.late ≤ vec_capacity self.new.late }
    {
        if !take_server(&mut self.servers, address) {
            return false;
        }
        merge_late(&mut self.points, &mut self.starts, &mut self.late);
        take_points(&mut self.points, &mut self.starts, address);
        true
    }
}
