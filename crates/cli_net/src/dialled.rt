//! A link whose answers came over the connections of its network.
ghost use Rattle.std.specs.Prelude.{◌≡◌};
ghost use Rattle.cli_net.specs.Dialled.{dialled};

use change_core::Address;
use cluster_names::ClusterName;
use kept_links::{KeptLink, Pool};
use message_core::Message;
use peer_core::{Link, LinkError};
use std::alloc::Global;
use std::marker::{Brand, PhantomData};
use std::sync::Wait;
use std::time::Clock;
use transport::{Dial, Limits};

/// The name of a cluster, for contracts alone; each call over a link picks it.
pub trait Named {
    ghost use Rattle.std.specs.Prelude.{ℕ, List, Option};

    ghost cluster: { Option (List ℕ) };
}

impl Named for Brand {
    ghost use Rattle.std.specs.Prelude.{None};

    ghost cluster = { None };
}

/// No name.
#[derive(Debug, Drop)]
pub struct Unnamed;

impl Named for Unnamed {
    ghost use Rattle.std.specs.Prelude.{None};

    ghost cluster = { None };
}

/// A link over sockets, with the standard limits, which opens a connection for each call. To contracts each answer came over a connection that
/// leads to the address asked, on which the message's line was written; where the cluster has a name, both lines have it. A caller can show no other.
#[derive(Drop)]
pub struct DialledLink<'a, C: Named, N> {
    net: &'a N,
    cluster: &'a Option<ClusterName>,
    failures: u64,
    of: PhantomData<C>,
    ghost named: { cluster.now ≡ C.cluster },
}

impl<'a, C: Named, N> DialledLink<'a, C, N> {
    /// A link of a cluster of this name, if it has one, that has not failed yet, over this network.
    pub fn new(net: &'a N, cluster: &'a Option<ClusterName>) -> Self
        requires { cluster.now ≡ C.cluster }
    {
        DialledLink {
            net,
            cluster,
            failures: 0,
            of: PhantomData,
        }
    }
}

impl<'a, C: Named, N: Dial + Clock + Copy> Link for DialledLink<'a, C, N> {
    ghost may_answer = { dialled N.leads N.Stream.contents N.Stream.remaining C.cluster };

    ghost went = { λ _ _ _ _ _. Unit {0} };

    ghost failed = { λ l. l.failures };

    fn failures(&self) -> u64 {
        self.failures
    }

    #[tactic(auto, using(crate::proofs::Exchanged::exchanged))]
    fn call<R: Wait>(
        &mut self,
        rt: &R,
        alloc: Global,
        to: Address,
        message: &Message,
    ) -> Result<Message, LinkError> {
        let none: Option<&'a Pool<N::Stream>> = None;
        let limits = Limits::standard();
        let mut link = KeptLink::new(*self.net, self.net, none, self.cluster, limits);
        link.reset(limits, self.failures);
        let answer = link.call(rt, alloc, to, message);
        self.failures = link.failures();
        answer
    }
}
