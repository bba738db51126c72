//! Theorems of packed answers, over all statuses and bodies, of parts, of rings and the texts of their digests, of the next owner of a
//! key, of the watch over a service, and of what the application is told.
ghost use Rattle.std.specs.Prelude.{◌≡◌, ◌≢◌, ◌<◌, ◌≤◌, ◌^◌, ◌++◌, ℕ, List, [], ◌∷◌, Bool, Option, None, Some, length, slice_get};
ghost use Rattle.std.specs.List.{All};
ghost use Rattle.agent_core.specs.Packs.{packed, unpacked};
ghost use Rattle.agent_core.specs.Parts.{joined, packed_bytes, text_of_body};
ghost use Rattle.agent_core.specs.Passing.{AreParts, answer_parts, answer_text, flat, next_fields, request_parts, request_text};
ghost use Rattle.change_core.specs.Members.{digest_text, members};
ghost use Rattle.change_core.specs.declared.addresses.Address.{Address};
ghost use Rattle.change_core.specs.declared.changes.Change.{Change};
ghost use Rattle.hash_ring.specs.Points.{owner, owners};
ghost use Rattle.hash_ring.specs.Servers.{weight_of, with_server, without};
ghost use Rattle.hash_ring.specs.Serving.{servers_of};
ghost use Rattle.hash_ring.specs.declared.servers.Server.{Server};
ghost use Rattle.agent_core.specs.Services.{LeavesLate, StaysOut};
ghost use Rattle.agent_core.specs.Tellings.{Event, after_all, digest_in, last_noted, last_taken, latest, new_telling};
ghost use Rattle.agent_core.specs.Texts.{on_ring};
ghost use Rattle.base64.specs.GeneralPurpose.{IsBytes};

/// Unpacking a packed answer returns its status, whether it is JSON, and its body, for each status from 200 to 599.
pub fn packs()
    ensures status { (status : ℕ) (is_json : Bool) (body : List ℕ) → 200 ≤ status → status ≤ 599
        → (unpacked (packed status is_json body)).status ≡ status }
    ensures is_json { (status : ℕ) (is_json : Bool) (body : List ℕ) → 200 ≤ status → status ≤ 599
        → (unpacked (packed status is_json body)).is_json ≡ is_json }
    ensures body { (status : ℕ) (is_json : Bool) (body : List ℕ) → 200 ≤ status → status ≤ 599
        → (unpacked (packed status is_json body)).body ≡ body }
{}

/// No two lists of parts have the same bytes, if each part has fewer than 2^64 bytes, and no two byte strings have the same
/// text. So what was packed comes out whole.
pub fn parts()
    ensures joined { (a : List (List ℕ)) (b : List (List ℕ)) → All (λ p. length p < 2 ^ 64) a → All (λ p. length p < 2 ^ 64) b → joined a ≡ joined b → a ≡ b }
    ensures packed { (a : List ℕ) (b : List ℕ) → IsBytes a → IsBytes b → packed_bytes a ≡ packed_bytes b → a ≡ b }
{}

/// A request and an answer that are passed on whole come out whole: no two have the same text. The text of a request that is a
/// body alone is no such request's, whatever the body, and the text of an answer to one is no such answer's. A request whose
/// next owner is named has that field after the others.
pub fn passing()
    ensures requests { (method : List ℕ) (target : List ℕ) (body : List ℕ) (fields : List (List ℕ × List ℕ)) (method2 : List ℕ) (target2 : List ℕ) (body2 : List ℕ) (fields2 : List (List ℕ × List ℕ))
        → AreParts (request_parts method target body fields) → AreParts (request_parts method2 target2 body2 fields2)
        → request_text method target body fields ≡ request_text method2 target2 body2 fields2
        → (method ≡ method2) × (target ≡ target2) × (body ≡ body2) × (fields ≡ fields2) }
    ensures answers { (status : ℕ) (body : List ℕ) (fields : List (List ℕ × List ℕ)) (status2 : ℕ) (body2 : List ℕ) (fields2 : List (List ℕ × List ℕ))
        → status ≤ 599 → status2 ≤ 599 → AreParts (answer_parts status body fields) → AreParts (answer_parts status2 body2 fields2)
        → answer_text status body fields ≡ answer_text status2 body2 fields2
        → (status ≡ status2) × (body ≡ body2) × (fields ≡ fields2) }
    ensures bodies { (text : List ℕ) (method : List ℕ) (target : List ℕ) (body : List ℕ) (fields : List (List ℕ × List ℕ))
        → AreParts (text ∷ []) → AreParts (request_parts method target body fields) → text_of_body text ≢ request_text method target body fields }
    ensures next { (method : List ℕ) (target : List ℕ) (body : List ℕ) (fields : List (List ℕ × List ℕ)) (next : Option ℕ)
        → joined (request_parts method target body fields) ++ joined (flat (next_fields next)) ≡ joined (request_parts method target body (fields ++ next_fields next)) }
    ensures packs { (status : ℕ) (is_json : Bool) (body : List ℕ) (status2 : ℕ) (body2 : List ℕ) (fields : List (List ℕ × List ℕ))
        → packed status is_json body ≢ answer_text status2 body2 fields }
{}

/// Rings whose digests are of one text have the same members that serve, with the same weights, and so the same owners of each key, by the same
/// hash and the same number of replicas.
pub fn rings()
    ensures serving { (a : List Change) (b : List Change) → digest_text (on_ring a) ≡ digest_text (on_ring b) → on_ring a ≡ on_ring b }
    ensures servers { (a : List Change) (b : List Change) → on_ring (members a) ≡ on_ring (members b) → servers_of a ≡ servers_of b }
    ensures owners { (hash : List ℕ → ℕ) (replicas : ℕ) (key : List ℕ) (a : List Change) (b : List Change)
        → digest_text (on_ring (members a)) ≡ digest_text (on_ring (members b)) → owners hash replicas (servers_of a) key ≡ owners hash replicas (servers_of b) key }
{}

/// The second of a key's owners, whom a service is told as the next, owns the key once the first is gone. If the first has
/// joined, it is the owner before.
pub fn next_owners()
    ensures leaves { (hash : List ℕ → ℕ) (replicas : ℕ) (servers : List Server) (a : Address) (key : List ℕ)
        → owner hash replicas servers key ≡ Some a → slice_get (owners hash replicas servers key) 1 ≡ owner hash replicas (without a servers) key }
    ensures joins { (hash : List ℕ → ℕ) (replicas : ℕ) (servers : List Server) (s : Server) (key : List ℕ)
        → weight_of s.address servers ≡ None → owner hash replicas (with_server s servers) key ≡ Some s.address
        → slice_get (owners hash replicas (with_server s servers) key) 1 ≡ owner hash replicas servers key }
{}

/// A node that leaves because its service takes no connection does so no sooner than the milliseconds of its watch after each moment at which the
/// service took one or the node was out of the ring; and what somebody had leave stays out, whatever its service does.
pub fn absences()
    ensures late { LeavesLate }
    ensures held { StaysOut }
{}

/// Whatever events come, the application was told the ring that was noted last, or is still to be told it: of the ring to be told or, if there is none,
/// of the one told last, the digest is that of the ring that was noted last. The one told last is the one noted last before the last notice that it
/// took. No failure puts a notice off by more than eight seconds.
pub fn tellings()
    ensures latest { (events : List Event) → digest_in (latest (after_all new_telling events)) ≡ last_noted None events }
    ensures told { (events : List Event) → digest_in (after_all new_telling events).told ≡ last_taken None None events }
    ensures pause { (events : List Event) → (after_all new_telling events).pause ≤ 8000 }
{}
