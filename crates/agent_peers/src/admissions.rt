//! The admission of new members: up to a margin below the most addresses that there can be, so that two which come at once never meet the
//! last place.
ghost use Rattle.std.specs.Prelude.{◌≡◌, IfNone, IfSome};
ghost use Rattle.agent_peers.specs.Admissions.{Admits, admitted, joiner};

use agent_core::is_admitted;
use agent_node::{Agent, Caller};
use agent_state::Host;
use change_core::Address;
use line_service::Input;
use message_core::{Content, Message, Reason};

/// Returns the sender of a Join; None if the input is none.
fn joiner(input: &Input) -> Option<Address>
    ensures { result ≡ joiner input.now }
{
    match input {
        Input::Message(
            Message {
                source,
                content: Content::Join(_),
                ..
            },
        ) => Some(*source),
        _ => None,
    }
}

/// Returns the input that a node answers which holds this number of addresses, that of the sender of this Join among them or not:
/// the Join, or a refusal as full.
fn admitted(join: Input, addresses: usize, is_known: bool) -> Input
    ensures { result ≡ admitted join addresses is_known }
{
    if is_admitted(addresses, is_known) {
        join
    } else {
        Input::Refused(Reason::Full)
    }
}

/// Returns the input, or a refusal as full in place of a Join whose sender the node does not know while it holds 4,000 addresses
/// or more. If the node can't be asked, the input is returned.
pub fn admit<R: Host>(agent: &Agent<R>, caller: &mut Caller, input: Input) -> Input
    ensures node { caller.new.node ≡ caller.old.node }
    ensures other { IfNone (joiner input) (result ≡ input) }
    ensures join { IfSome (joiner input) (λ source. Admits source input result caller.old caller.new) }
{
    let Some(source) = joiner(&input) else {
        return input;
    };
    let Ok(known) = caller.member(&agent.rt, source) else {
        return input;
    };
    let Ok(addresses) = caller.len(&agent.rt) else {
        return input;
    };
    admitted(input, addresses, known.is_some())
}
