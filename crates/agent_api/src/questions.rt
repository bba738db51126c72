//! The answers to questions about the ring: the owners of many keys by one view, and the ring with its digest.
ghost use Rattle.std.specs.Prelude.{◌≡◌, ◌++◌, IfOk, OnOk, map, option_copied, string_bytes};
ghost use Rattle.agent_core.specs.Texts.{all_owners_text};
ghost use Rattle.agent_core.specs.declared.actions.Action.TheVariants as action;
ghost use Rattle.agent_node.specs.Calling.{HasMade};
ghost use Rattle.agent_api.specs.Performing.{Performs, ShowsAllOwners, ShowsRing, hidden_of, is_known, key_text};

use crate::api::{Api, out_of_memory, refusal_of};
use agent_core::{KeyList, Refusal, on_ring, push_owners, ring_text};
use agent_http::Reply;
use agent_node::digest_of;
use agent_state::Host;
use change_core::{Address, Change, Digest, DigestText};
use hash_ring::Sha256Hash;
use message_core::Text;
use node_core::View;
use std::alloc::{AllocError, Global};

/// Appends the first owners of a key by a view; `null` if the first of them is `hidden`.
fn push_key(
    text: &mut String,
    view: &View<Sha256Hash>,
    key: &Text,
    count: usize,
    hidden: &Option<Address>,
) -> Result<(), AllocError>
    ensures { OnOk result (string_bytes text.new ≡ string_bytes text.old ++ key_text view.now count hidden.now key.now) }
{
    let Ok(owners) = view.owners(key.as_str().as_bytes(), count) else {
        return Err(AllocError);
    };
    push_owners(text, owners.as_slice(), *hidden)
}

/// Returns the text with the first owners of keys by a view, in the order of the keys.
fn text_by(
    alloc: Global,
    view: &View<Sha256Hash>,
    keys: &[Text],
    count: usize,
    hidden: &Option<Address>,
) -> Result<String, AllocError>
    ensures { IfOk result (λ text. string_bytes text ≡ all_owners_text (map (key_text view.now count hidden.now) keys.now)) }
{
    let mut text = String::from_str(alloc, "{\"owners\":[")?;
    for (i, key) in keys.iter().enumerate() {
        if i > 0 {
            text.push_str(",")?;
        }
        push_key(&mut text, view, key, count, hidden)?;
    }
    text.push_str("]}\n")?;
    Ok(text)
}

/// Makes the reply with the first owners of keys by a view.
fn all_owners_by(
    alloc: Global,
    view: &View<Sha256Hash>,
    keys: &[Text],
    count: usize,
    hidden: Option<Address>,
) -> Result<Reply, Refusal>
    ensures { ShowsAllOwners hidden keys.now count view.now result }
{
    let text = text_by(alloc, view, keys, count, &hidden).map_err(out_of_memory)?;
    Ok(Reply::Json(text))
}

/// Returns this address, if the keys of the node that has it are left out.
fn hidden_of(own: Address, only_others: bool) -> Option<Address>
    ensures { result ≡ hidden_of own only_others }
{
    if only_others { Some(own) } else { None }
}

/// Returns whether a text is the one of a digest.
fn is_known(after: Option<&Text>, digest: &Digest) -> bool
    ensures { result ≡ is_known (option_copied after.entry) digest.now.bytes }
{
    match after {
        Some(after) => after.as_str() == DigestText::of(digest).as_str(),
        None => false,
    }
}

impl<'f, 'a, R: Host> Api<'f, 'a, R> {
    /// Returns the first owners of keys by one view.
    ///
    /// # Errors
    ///
    /// - `NotJoined`: the hosts are still being asked.
    /// - `Spent`: the node takes no more calls.
    /// - `Memory`: out of memory.
    pub fn all_owners(
        &mut self,
        keys: &KeyList,
        count: usize,
        only_others: bool,
    ) -> Result<Reply, Refusal>
        ensures performed { HasMade (Performs self.old.limit self.old.agent.now.own self.old.agent.now.replicas (action.AllOwners keys.now count only_others) result) self.old.caller.now self.new.caller.now }
        ensures agent { self.new.agent ≡ self.old.agent }
    {
        if self.agent.life.is_starting.get() {
            return Err(Refusal::NotJoined);
        }
        let hidden = hidden_of(self.agent.own, only_others);
        match self.caller.view(&self.agent.rt) {
            Ok(view) => all_owners_by(self.alloc, &view, keys.as_slice(), count, hidden),
            Err(error) => Err(refusal_of(error)),
        }
    }

    /// Makes the reply with the ring of these members, unless `after` is the text of the ring's digest.
    fn show_ring(&self, members: &[Change], after: Option<&Text>) -> Result<Reply, Refusal>
        ensures { ShowsRing self.now.agent.now.own self.now.agent.now.replicas (option_copied after.entry) members.now result }
    {
        let (agent, alloc) = (self.agent, self.alloc);
        let servers = on_ring(alloc, members).map_err(out_of_memory)?;
        let servers = servers.as_slice();
        let digest = digest_of(alloc, servers).map_err(out_of_memory)?;
        if is_known(after, &digest) {
            return Ok(Reply::Unchanged { digest });
        }
        let since = agent.watchers.since(&agent.rt, &digest);
        let text = ring_text(alloc, agent.own, &digest, agent.replicas, servers).map_err(
            out_of_memory,
        )?;
        Ok(Reply::Ring {
            digest,
            since,
            text,
        })
    }

    /// Returns the ring, or that its digest is the one with the text `after`.
    ///
    /// # Errors
    ///
    /// - `NotJoined`: the hosts are still being asked.
    /// - `ManyQuestions`: the request was to wait, and as many wait as may.
    /// - `Spent`: the node takes no more calls.
    /// - `Memory`: out of memory.
    pub fn ring(&mut self, after: Option<&Text>) -> Result<Reply, Refusal>
        ensures performed { HasMade (Performs self.old.limit self.old.agent.now.own self.old.agent.now.replicas (action.Ring (option_copied after.entry)) result) self.old.caller.now self.new.caller.now }
        ensures agent { self.new.agent ≡ self.old.agent }
    {
        if self.agent.life.is_starting.get() {
            return Err(Refusal::NotJoined);
        }
        if self.is_turned_away.get() {
            self.is_turned_away.set(false);
            return Err(Refusal::ManyQuestions);
        }
        match self.caller.members(&self.agent.rt) {
            Ok(members) => self.show_ring(members.as_slice(), after),
            Err(error) => Err(refusal_of(error)),
        }
    }
}
