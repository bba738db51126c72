//! Theorems about points, distances and owners. Each is the contract of a function that does nothing, for every hash,
//! all servers and every key.
ghost use Rattle.std.specs.Prelude.{◌≡◌, ◌≢◌, ◌⊎◌, ◌↔◌, ℕ, ◌+◌, ◌%◌, ◌^◌, ◌<◌, Bool, IsTrue, None, Some, List, filter, slice_get};
ghost use Rattle.std.specs.List.{Contains};
ghost use Rattle.std.specs.Option.{option_cmp};
ghost use Rattle.std.specs.Ordering.{nat_cmp};
ghost use Rattle.std.specs.declared.cmp.Ordering.TheVariants.{Less};
ghost use Rattle.change_core.specs.declared.addresses.Address.{Address};
ghost use Rattle.change_core.specs.declared.changes.Change.{Change};
ghost use Rattle.change_core.specs.Members.{greatest, serving};
ghost use Rattle.hash_ring.specs.Points.{clockwise, distance, owner, owners, points, IsLeastWay, IsBefore, IsPointAmong, IsPointBefore};
ghost use Rattle.hash_ring.specs.Consistency.{others};
ghost use Rattle.hash_ring.specs.Servers.{addresses_of, weight_of, with_server, without};
ghost use Rattle.hash_ring.specs.Serving.{servers_of, serving_weight};
ghost use Rattle.hash_ring.specs.declared.points.Point.{Point};
ghost use Rattle.hash_ring.specs.declared.servers.Server.{Server};

/// Consistent hashing, for any hash. When a server joins, the owner of each key stays or becomes that server. When a
/// server leaves, only its keys move. The other owners of a key keep their order, also if the server's weight changes.
pub fn consistency()
    ensures joins { (hash : List ℕ → ℕ) (replicas : ℕ) (servers : List Server) (s : Server) (key : List ℕ)
        → weight_of s.address servers ≡ None
        → (owner hash replicas (with_server s servers) key ≡ Some s.address)
        ⊎ (owner hash replicas (with_server s servers) key ≡ owner hash replicas servers key) }
    ensures leaves { (hash : List ℕ → ℕ) (replicas : ℕ) (servers : List Server) (a : Address) (key : List ℕ)
        → (owner hash replicas servers key ≡ Some a)
        ⊎ (owner hash replicas (without a servers) key ≡ owner hash replicas servers key) }
    ensures join_order { (hash : List ℕ → ℕ) (replicas : ℕ) (servers : List Server) (s : Server) (key : List ℕ)
        → others s.address (owners hash replicas (with_server s servers) key)
        ≡ others s.address (owners hash replicas servers key) }
    ensures leave_order { (hash : List ℕ → ℕ) (replicas : ℕ) (servers : List Server) (a : Address) (key : List ℕ)
        → owners hash replicas (without a servers) key
        ≡ others a (owners hash replicas servers key) }
{}

/// Confined disagreement: how two lists of servers differ if they name different owners of a key. If one names `a` and
/// the other `b`, then `a` has less weight in the other list, or `b` has less weight in the one; a server that is
/// absent has less weight than one that is present. So if the owner that each list names has the same weight in both,
/// they name one owner, whatever else they differ in. Servers with the same weights in both lists have one order among
/// the owners of both. This is more than that consistent hashing is monotone (Karger and others, STOC 1997).
pub fn confined_disagreement()
    ensures differ { (hash : List ℕ → ℕ) (replicas : ℕ) (one other : List Server) (key : List ℕ) (a b : Address)
        → owner hash replicas one key ≡ Some a
        → owner hash replicas other key ≡ Some b
        → a ≢ b
        → (option_cmp nat_cmp (weight_of a other) (weight_of a one) ≡ Less)
        ⊎ (option_cmp nat_cmp (weight_of b one) (weight_of b other) ≡ Less) }
    ensures agree { (hash : List ℕ → ℕ) (replicas : ℕ) (one other : List Server) (key : List ℕ)
        → ((a : Address) → owner hash replicas one key ≡ Some a → weight_of a one ≡ weight_of a other)
        → ((b : Address) → owner hash replicas other key ≡ Some b → weight_of b one ≡ weight_of b other)
        → owner hash replicas one key ≡ owner hash replicas other key }
    ensures one_order { (hash : List ℕ → ℕ) (replicas : ℕ) (one other : List Server) (key : List ℕ) (shared : Address → Bool)
        → ((a : Address) → IsTrue (shared a) → weight_of a one ≡ weight_of a other)
        → filter shared (owners hash replicas one key)
        ≡ filter shared (owners hash replicas other key) }
{}

/// The way from one number up to another leads there, wrapping around at 2^64. The distance of a server with n points is
/// the way to one of them, no way to another is shorter, and no other number is such.
pub fn distances()
    ensures leads { (from to : ℕ) → from < 2 ^ 64 → to < 2 ^ 64
        → ((from + clockwise from to) % 2 ^ 64 ≡ to) × (clockwise from to < 2 ^ 64) }
    ensures least { (hash : List ℕ → ℕ) (n : ℕ) (server : Address) (key : List ℕ) → 0 < n
        → IsLeastWay hash n server key (distance hash n server key) }
    ensures only { (hash : List ℕ → ℕ) (n way : ℕ) (server : Address) (key : List ℕ)
        → IsLeastWay hash n server key way → way ≡ distance hash n server key }
{}

/// The owners of a key are exactly the servers, each once. Of two of them the nearer comes first, and of two as near
/// that of the lesser address.
pub fn owners_by_distance()
    ensures exactly { (hash : List ℕ → ℕ) (replicas : ℕ) (servers : List Server) (key : List ℕ) (a : Address)
        → Contains (owners hash replicas servers key) a ↔ Contains (addresses_of servers) a }
    ensures in_order { (hash : List ℕ → ℕ) (replicas : ℕ) (servers : List Server) (key : List ℕ) (i j : ℕ) (a b : Address)
        → i < j → slice_get (owners hash replicas servers key) i ≡ Some a
        → slice_get (owners hash replicas servers key) j ≡ Some b
        → IsBefore hash replicas servers key a b }
{}

/// The points are exactly those that each server has by its weight, each once. They ascend by hash and then by address.
pub fn points_of_servers()
    ensures exactly { (hash : List ℕ → ℕ) (replicas : ℕ) (servers : List Server) (p : Point)
        → Contains (points hash replicas servers) p ↔ IsPointAmong hash replicas servers p }
    ensures in_order { (hash : List ℕ → ℕ) (replicas : ℕ) (servers : List Server) (i j : ℕ) (p q : Point)
        → i < j → slice_get (points hash replicas servers) i ≡ Some p
        → slice_get (points hash replicas servers) j ≡ Some q → IsPointBefore p q }
{}

/// The servers of a list of changes have the addresses that serve, in the same order. An address has the weight of its
/// greatest change if that is alive or suspect, and else none.
pub fn serving_servers()
    ensures addresses { (L : List Change) → addresses_of (servers_of L) ≡ serving L }
    ensures weights { (L : List Change) (a : Address) → weight_of a (servers_of L) ≡ serving_weight (greatest L a) }
{}
