ghost use Rattle.std.specs.Prelude.{◌≡◌, ◌≤◌, ◌<◌, ℕ, List, ◌%◌, ◌^◌, sum};
ghost use Rattle.hash_ring.specs.RingModel.{HasRoom};

use crate::given::{A, B, C, address, check_refused, weight};
use change_core::{Address, Weight};
use hash_ring::*;
use std::alloc::Global;
use std::env::Env;
use std::process::Abort;
use std::sync::atomic::{AtomicU64, Ordering};

/// What callers see of a ring, apart from its room: how many servers it has, the weight of one of them, and who owns a key before, at
/// and between the points of the servers by sum.
type Seen = (usize, Option<Weight>, [Option<Address>; 6]);

fn seen<H: PointHash>(ring: &Ring<H>, server: Address) -> Seen {
    let owners = [
        ring.owner(b""),
        ring.owner(b"zzzz/"),
        ring.owner(b"zzzz0"),
        ring.owner(b"zzzz1"),
        ring.owner(b"zzzz2"),
        ring.owner(b"zzzz3"),
    ];
    (ring.len(), ring.weight(server), owners)
}

/// Makes room for a server, at the second try if the first ran out of memory. That leaves the ring unchanged.
fn reserve<H: PointHash>(
    rt: &(impl Env + Abort),
    ring: &mut Ring<H>,
    server: Address,
    weight: Weight,
)
    ensures { HasRoom ring.new (record { address = server; weight = weight }) }
{
    let before = seen(ring, server);
    if ring.reserve_for(server, weight) == Err(RingError::Memory) {
        check_refused(rt);
        assert!(rt; seen(ring, server) == before);
    }
    let Ok(()) = ring.reserve_for(server, weight) else {
        panic!(rt; "no room")
    };
}

/// Makes room for a server, and adds it.
fn add<H: PointHash>(rt: &(impl Env + Abort), ring: &mut Ring<H>, text: &str, number: u8) -> bool {
    let server = address(rt, text);
    let weight = weight(rt, number);
    reserve(rt, ring, server, weight);
    ring.add(server, weight)
}

/// A ring of these servers, of weight 1.
fn ring_of<H: PointHash>(
    rt: &(impl Env + Abort),
    alloc: Global,
    hash: H,
    replicas: u32,
    texts: &[&str],
) -> Ring<H> {
    let mut ring = Ring::new(alloc, hash, replicas).ok().expect(rt, "a ring");
    for text in texts {
        assert!(rt; add(rt, &mut ring, *text, 1));
    }
    ring
}

/// The owners of a key, at the second try if the first ran out of memory. That leaves the ring unchanged.
fn owners<H: PointHash>(
    rt: &(impl Env + Abort),
    ring: &Ring<H>,
    key: &[u8],
    count: usize,
) -> Vec<Address> {
    let server = address(rt, A);
    let before = seen(ring, server);
    match ring.owners(key, count) {
        Ok(named) => named,
        Err(_) => {
            check_refused(rt);
            assert!(rt; seen(ring, server) == before);
            ring.owners(key, count).ok().expect(rt, "owners")
        }
    }
}

/// A copy, at the second try if the first ran out of memory. That leaves the ring unchanged.
fn copy<H: PointHash>(rt: &(impl Env + Abort), ring: &Ring<H>) -> Ring<H> {
    let server = address(rt, A);
    let before = seen(ring, server);
    match ring.copy() {
        Ok(copy) => copy,
        Err(_) => {
            check_refused(rt);
            assert!(rt; seen(ring, server) == before);
            ring.copy().ok().expect(rt, "a copy")
        }
    }
}

/// A key, how many owners are asked for, and their texts.
type Row<'a> = (&'a str, usize, &'a [&'a str]);

/// Names the owners of each entry, in this order, and the first of them if there is one.
fn check_rows<H: PointHash>(rt: &(impl Env + Abort), ring: &Ring<H>, rows: &[Row]) {
    for row in rows {
        let (key, count, texts) = *row;
        let named = owners(rt, ring, key.as_bytes(), count);
        assert!(rt; named.len() == texts.len(), "{key}");
        for place in 0..texts.len() {
            assert!(rt;
                named.get(place) == Some(&address(rt, texts[place])),
                "{key}"
            );
        }
        let owner = ring.owner(key.as_bytes());
        assert!(rt;
            named.is_empty() || owner == named.first().copied(),
            "{key}"
        );
    }
}

/// Owners of the three servers at two points each.
const EVEN: [Row<'static>; 6] = [
    ("zzzz1", 3, &[B, C, A]),
    ("zzzz2", 3, &[C, A, B]),
    ("zzzz3", 3, &[A, B, C]),
    ("", 0, &[]),
    ("", 1, &[A]),
    ("", 9, &[A, B, C]),
];

/// The same where the second one has three times as many.
const WEIGHTED: [Row<'static>; 3] = [
    ("zzzz1", 3, &[B, C, A]),
    ("zzzz2", 3, &[B, C, A]),
    ("zzzz3", 3, &[B, A, C]),
];

/// The second of three servers becomes heavier, and then has its first weight again.
/// Three owners of `zzzz1`: B, C, A. Of `zzzz2`: C, A, B. Of `zzzz3`: A, B, C. Owners of the empty key: none of none, A of one, A, B, C
/// of nine. B with weight 3, whose points are 536 to 541: B, C, A for `zzzz1` and for `zzzz2`, B, A, C for `zzzz3`. With weight 1 again:
/// unchanged. To add a server that is there, or to remove one that is not, changes nothing.
#[test]
fn owners_by_sum_and_weight(rt: HostRuntime) {
    let mut ring = ring_of(&rt, rt.alloc(), SumHash, 2, &[C, A, B]);
    check_rows(&rt, &ring, &EVEN);
    assert!(rt; add(&rt, &mut ring, B, 3));
    assert!(rt; !add(&rt, &mut ring, B, 3));
    assert!(rt; ring.weight(address(&rt, B)) == Weight::new(3) && ring.len() == 3);
    check_rows(&rt, &ring, &WEIGHTED);
    assert!(rt; add(&rt, &mut ring, B, 1));
    check_rows(&rt, &ring, &EVEN);
}

/// Gives a server that is there a weight that is not greater, with no room made before.
fn lighten<H: PointHash>(
    rt: &impl Abort,
    ring: &mut Ring<H>,
    server: Address,
    light: Weight,
) -> bool {
    let held = ring.weight(server).expect(rt, "a server");
    if held.number() < light.number() {
        return false;
    }
    ring.add(server, light)
}

#[test]
fn a_lighter_server_needs_no_room(rt: HostRuntime) {
    let mut ring = ring_of(&rt, rt.alloc(), SumHash, 2, &[A, C]);
    assert!(rt; add(&rt, &mut ring, B, 3));
    assert!(rt; lighten(&rt, &mut ring, address(&rt, B), weight(&rt, 1)));
    let rows: [Row; 2] = [("zzzz2", 3, &[C, A, B]), ("zzzz3", 3, &[A, B, C])];
    check_rows(&rt, &ring, &rows);
}

/// A ring loses its servers.
/// An empty ring: no owner, no owners. The owners of `zzzz0` and `zzzz1` are A and B. B is removed: A and C. A copy made before still
/// says A and B. To add a server that is there, or to remove one that is not, changes nothing.
#[test]
fn a_copy_stays_as_it_was(rt: HostRuntime) {
    let mut ring = ring_of(&rt, rt.alloc(), SumHash, 2, &[A, B, C]);
    let copy = copy(&rt, &ring);
    let server = address(&rt, B);
    assert!(rt; ring.contains(server) && ring.remove(server));
    assert!(rt; !ring.contains(server) && !ring.remove(server));
    check_rows(&rt, &ring, &[("zzzz0", 1, &[A]), ("zzzz1", 1, &[C])]);
    check_rows(&rt, &copy, &[("zzzz0", 1, &[A]), ("zzzz1", 1, &[B])]);
    drop(copy);
    ring.remove(address(&rt, A));
    ring.remove(address(&rt, C));
    assert!(rt; ring.owner(b"zzzz1").is_none());
    check_rows(&rt, &ring, &[("zzzz1", 3, &[])]);
}

/// It is copied, with no second try.
/// A copy of a ring that never had a server is made without memory.
#[test]
fn a_copy_of_nothing_takes_no_memory(rt: HostRuntime) {
    let ring = ring_of(&rt, rt.alloc(), SumHash, 2, &[]);
    let copy = ring.copy().ok().expect(&rt, "a copy");
    assert!(rt; copy.len() == 0 && copy.owner(b"key").is_none());
}

/// By SHA-256, 100 points: `10.0.0.1:1` and `10.0.0.1:11` both have the point text `10.0.0.1:110`. As a key it has these owners in this
/// order.
#[test]
fn a_tie_goes_to_the_lesser_address(rt: HostRuntime) {
    let texts = ["10.0.0.1:11", A];
    let ring = ring_of(&rt, rt.alloc(), Sha256Hash, 100, &texts);
    check_rows(&rt, &ring, &[("10.0.0.1:110", 2, &[A, "10.0.0.1:11"])]);
}

/// The hashes of `abc` and of the empty text begin with `ba7816bf8f01cfea` and `e3b0c44298fc1c14`.
#[test]
fn sha256_begins_with_eight_bytes(rt: HostRuntime) {
    assert!(rt; Sha256Hash.hash(b"abc") == 0xba78_16bf_8f01_cfea);
    assert!(rt; Sha256Hash.hash(b"") == 0xe3b0_c442_98fc_1c14);
    for (key, wanted) in [("zzzz0", 0), ("zzzz2", u64::MAX - 1)] {
        let away = distance(SumHash, 2, address(&rt, B), weight(&rt, 1), key.as_bytes());
        assert!(rt; away == wanted, "{key}");
    }
}

/// A server of this address and weight.
fn server(rt: &impl Abort, text: &str, number: u8) -> Server {
    Server {
        address: address(rt, text),
        weight: weight(rt, number),
    }
}

/// Of two servers of one address the weight that came last holds.
/// A ring of many servers at once: of two of one address the later; BadReplicas for none.
#[test]
fn a_ring_of_many_servers_at_once(rt: HostRuntime) {
    let servers = [
        server(&rt, C, 1),
        server(&rt, B, 8),
        server(&rt, A, 1),
        server(&rt, B, 3),
    ];
    let refused = Ring::with_servers(rt.alloc(), SumHash, 0, &servers).err();
    assert!(rt; refused == Some(RingError::BadReplicas));
    let made = again!(
        &rt,
        RingError,
        Ring::with_servers(rt.alloc(), SumHash, 2, &servers)
    );
    let ring = made.ok().expect(&rt, "a ring");
    assert!(rt; ring.len() == 3 && ring.weight(address(&rt, B)) == Weight::new(3));
    let rows: [Row; 2] = [("zzzz1", 3, &[B, C, A]), ("zzzz3", 3, &[B, A, C])];
    check_rows(&rt, &ring, &rows);
}

/// 0 and 1,001 points for each server: bad replicas.
#[test]
fn replicas_are_bounded(rt: HostRuntime) {
    let bad = Some(RingError::BadReplicas);
    for (replicas, wanted) in [(0, bad), (1, None), (1000, None), (1001, bad)] {
        let refused = Ring::new(rt.alloc(), SumHash, replicas).err();
        assert!(rt; refused == wanted, "{replicas}");
    }
}

/// A sum of bytes that counts how often it is asked for.
#[derive(Clone, Copy)]
struct CountingHash<'a> {
    calls: &'a AtomicU64,
}

impl<'a> PointHash for CountingHash<'a> {
    ghost hash_of = { λ _ bytes. sum bytes % 2 ^ 64 };

    fn hash(&self, bytes: &[u8]) -> u64 {
        self.calls.fetch_add(1, Ordering::SeqCst);
        SumHash.hash(bytes)
    }
}

/// A change hashes the points that it brings.
fn count_edits<'a>(rt: &(impl Env + Abort), ring: &mut Ring<CountingHash<'a>>, calls: &AtomicU64) {
    let server = address(rt, A);
    let heavy = weight(rt, 8);
    reserve(rt, ring, server, heavy);
    let before = calls.load(Ordering::SeqCst);
    assert!(rt; ring.add(server, heavy));
    assert!(rt; calls.load(Ordering::SeqCst) == before.wrapping_add(56));
    assert!(rt; !lighten(rt, ring, server, heavy));
    assert!(rt; calls.load(Ordering::SeqCst) == before.wrapping_add(56));
    assert!(rt; lighten(rt, ring, server, weight(rt, 2)));
    assert!(rt; calls.load(Ordering::SeqCst) == before.wrapping_add(70));
}

/// A lookup hashes the key; removing points hashes nothing, nor does a copy.
fn count_others<'a>(rt: &(impl Env + Abort), ring: &mut Ring<CountingHash<'a>>, calls: &AtomicU64) {
    let server = address(rt, A);
    let before = calls.load(Ordering::SeqCst);
    ring.owner(b"key");
    assert!(rt; calls.load(Ordering::SeqCst) == before.wrapping_add(1));
    let copy = again!(rt, RingError, ring.copy()).ok().expect(rt, "a copy");
    assert!(rt; copy.len() == 1 && copy.weight(server) == Weight::new(2));
    drop(copy);
    ring.remove(server);
    assert!(rt; calls.load(Ordering::SeqCst) == before.wrapping_add(1));
    assert!(rt; ring.len() == 0);
}

#[test]
fn an_edit_hashes_its_own_points_alone(rt: HostRuntime) {
    let calls = AtomicU64::new(0);
    let mut ring = ring_of(&rt, rt.alloc(), CountingHash { calls: &calls }, 7, &[]);
    count_edits(&rt, &mut ring, &calls);
    count_others(&rt, &mut ring, &calls);
}

/// The next number of a linear congruential generator, below a bound.
fn draw(state: &mut u64, bound: u64) -> u64
    requires { 1 ≤ bound }
    ensures { result < bound }
{
    *state = state
        .wrapping_mul(6364136223846793005)
        .wrapping_add(1442695040888963407);
    (*state >> 33) % bound
}

/// The ports of servers whose texts run into one another.
const PORTS: [u16; 6] = [1, 11, 2, 12, 110, 21];

/// The weights of the servers of these ports, as they should be in a ring: kept in a list, as servers are added and
/// removed.
type Weights = [Option<Weight>; 6];

/// The weight that the server of an address should have.
fn weight_beside(weights: &Weights, server: Address) -> Option<Weight> {
    for place in 0..6usize {
        if PORTS[place] == server.port() {
            return weights[place];
        }
    }
    None
}

/// How many servers there should be.
fn count_beside(weights: &Weights) -> usize {
    let mut count = 0usize;
    for weight in weights {
        if weight.is_some() {
            count = count.wrapping_add(1);
        }
    }
    count
}

/// Adds a server to a ring, or removes it.
fn edit<H: PointHash>(
    rt: &(impl Env + Abort),
    ring: &mut Ring<H>,
    weights: &mut Weights,
    state: &mut u64,
) {
    let place = draw(state, 6) as usize;
    let server = Address::new(0x0a00_0001, PORTS[place]).expect(rt, "a port");
    if draw(state, 4) == 0 {
        ring.remove(server);
        weights[place] = None;
    } else {
        let weight = weight(rt, 1 + draw(state, 8) as u8);
        reserve(rt, ring, server, weight);
        ring.add(server, weight);
        weights[place] = Some(weight);
    }
}

/// Names all servers as owners of a key, by their distance and then by address.
fn check_key<H: PointHash>(
    rt: &(impl Env + Abort),
    ring: &Ring<H>,
    weights: &Weights,
    hash: H,
    state: &mut u64,
) {
    let key = [b'z', b'z', b'z', b'z', draw(state, 256) as u8];
    let named = owners(rt, ring, &key, 9);
    assert!(rt; ring.owner(&key) == named.first().copied());
    assert!(rt; named.len() == count_beside(weights));
    let mut last = None;
    for server in &named {
        let weight = weight_beside(weights, *server).expect(rt, "a server");
        let here = Some((distance(hash, 3, *server, weight, &key), *server));
        assert!(rt; last < here);
        last = here;
    }
}

/// Twenty changes of a ring, and ten keys after each. By `SumHash` the points lie from 535 to 690, and the keys from
/// 488 to 743, so before them, among them, at them and past them.
fn check_edits<H: PointHash>(rt: &(impl Env + Abort), ring: &mut Ring<H>, hash: H, seed: u64) {
    let mut state = seed;
    let mut weights: Weights = [None; 6];
    for _ in 0..20 {
        edit(rt, ring, &mut weights, &mut state);
        for _ in 0..10 {
            check_key(rt, ring, &weights, hash, &mut state);
        }
    }
}

#[test]
fn owners_are_the_servers_by_distance(rt: HostRuntime) {
    let mut sums = ring_of(&rt, rt.alloc(), SumHash, 3, &[]);
    check_edits(&rt, &mut sums, SumHash, 1);
    let mut digests = ring_of(&rt, rt.alloc(), Sha256Hash, 3, &[]);
    check_edits(&rt, &mut digests, Sha256Hash, 2);
}

/// This many are named where this many are asked for, by their distance.
#[test]
fn many_owners(rt: HostRuntime) {
    let mut ring = ring_of(&rt, rt.alloc(), Sha256Hash, 3, &[]);
    let one = weight(&rt, 1);
    for port in 1..=40 {
        let server = Address::new(0x0a00_0001, port).expect(&rt, "a port");
        reserve(&rt, &mut ring, server, one);
        ring.add(server, one);
    }
    for (count, wanted) in &[(0, 0), (39, 39), (40, 40), (4096, 40)] {
        let named = owners(&rt, &ring, b"key", *count);
        assert!(rt; named.len() == *wanted);
        let mut last = None;
        for server in &named {
            let away = distance(Sha256Hash, 3, *server, one, b"key");
            let here = Some((away, *server));
            assert!(rt; last < here);
            last = here;
        }
    }
}

/// A ring names the owners of a key that a settled one names.
fn answer_alike(
    rt: &(impl Env + Abort),
    ring: &Ring<SumHash>,
    settled: &Ring<SumHash>,
    key: &[u8],
) {
    let named = owners(rt, settled, key, 40);
    assert!(rt; owners(rt, ring, key, 40).as_slice() == named.as_slice());
    assert!(rt; ring.owner(key) == named.first().copied());
}

/// Both rings answer alike, and so does a copy of the first.
fn check_alike(rt: &(impl Env + Abort), late: &Ring<SumHash>, settled: &Ring<SumHash>) {
    let copied = copy(rt, late);
    for place in 0..16u8 {
        let key = [b'z', b'z', b'z', b'z', place * 16];
        answer_alike(rt, late, settled, &key);
        answer_alike(rt, &copied, settled, &key);
    }
}

/// Adds a server to both rings, or removes it from both.
fn edit_both(
    rt: &(impl Env + Abort),
    late: &mut Ring<SumHash>,
    settled: &mut Ring<SumHash>,
    state: &mut u64,
) {
    let server = Address::new(0x0a00_0001, 1 + draw(state, 40) as u16).expect(rt, "a port");
    let weight = weight(rt, 1 + draw(state, 8) as u8);
    if draw(state, 5) == 0 {
        assert!(rt; late.remove(server) == settled.remove(server));
    } else {
        reserve(rt, late, server, weight);
        reserve(rt, settled, server, weight);
        assert!(rt; late.add_late(server, weight) == settled.add(server, weight));
    }
}

/// One ring is settled at the end alone, and the other after each change: servers are added, leave, and come back with
/// other weights.
/// A ring that is settled after each of 60 edits, one that is settled at their end alone, and copies of that name the same owners.
#[test]
fn a_ring_settles_late(rt: HostRuntime) {
    let mut late = ring_of(&rt, rt.alloc(), SumHash, 3, &[]);
    let mut settled = ring_of(&rt, rt.alloc(), SumHash, 3, &[]);
    let mut state = 7;
    for turn in 0..60 {
        edit_both(&rt, &mut late, &mut settled, &mut state);
        if turn % 20 == 15 {
            check_alike(&rt, &late, &settled);
        }
    }
    late.settle();
    late.settle();
    check_alike(&rt, &late, &settled);
}
