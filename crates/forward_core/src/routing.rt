//! The route of a request, by the owners of its keys.
ghost use Rattle.std.specs.Prelude.{◌≡◌, ◌↔◌, [], Ok, Err};
ghost use Rattle.forward_core.specs.Routes.{route_to, owner_in, HaveDiverged, IsRouteOf};

use crate::errors::ForwardError;
use crate::routes::Route;
use change_core::Address;
use hash_ring::PointHash;
use message_core::{Keys, Text};
use node_core::View;

/// Returns the route of a request whose keys have this owner, for the node `own`: it is handled here if and only if the
/// node owns the keys itself, and by no node if and only if they have no owner.
pub fn route(owner: Option<Address>, own: Address) -> Route
    ensures { result ≡ route_to owner own }
{
    match owner {
        Some(owner) if owner == own => Route::Here,
        Some(owner) => Route::To(owner),
        None => Route::Nobody,
    }
}

/// Returns the route of a request of these keys, for the node whose view this is: to the one owner of all of them, as
/// the view names it. If no member serves it is `Route::Nobody`, whatever the keys. It takes no memory, and hashes each
/// key at most once.
///
/// # Errors
///
/// - `Diverged`: two of the keys have different owners.
pub fn route_keys<H: PointHash>(view: &View<H>, keys: &Keys) -> Result<Route, ForwardError>
    ensures routed { IsRouteOf H.hash_of view.now keys.now result }
    ensures diverged { (result ≡ Err ForwardError.Diverged) ↔ HaveDiverged H.hash_of view.now keys.now }
    ensures nobody { (result ≡ Ok Route.Nobody) ↔ (view.now.servers ≡ []) }
{
    let Some((first, others)) = keys.as_slice().split_first() else {
        unreachable!()
    };
    let owner = owner_of(view, first);
    for key in others {
        if owner_of(view, key) != owner {
            return Err(ForwardError::Diverged);
        }
    }
    Ok(route(owner, view.own()))
}

fn owner_of<H: PointHash>(view: &View<H>, key: &Text) -> Option<Address>
    ensures { result ≡ owner_in H.hash_of view.now key.now }
{
    view.owner(key.as_str().as_bytes())
}
