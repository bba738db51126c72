//! A theorem about the requests of an agent's clients, the contract of a function that does nothing.
ghost use Rattle.agent_api.specs.Ending.{AnswersAreDoneOnce, ErrorsAreUndone, OthersAreSure, RequestsEndOnce};
ghost use Rattle.agent_api.specs.Onces.{noted_by, sends_once};

use agent_state::Host;
use peer_core::HandlerMut;
use std::net::TcpStream;
use transport::Dial;

/// A request that may not be performed twice ends once. It goes over a [`OnceLink`] of any network, and asks any handler. Of the Forwards that its link is
/// given only the last may have reached a node that performed it: for each before, the node called said that it does not own the keys, or there was no
/// answer, and the network made no connection. If none follows those, the handler was called, once, or nothing was performed. If the request has an answer,
/// the handler gave the text, or the link was given one Forward more, and a Reply to it has the text. If it has an error and the link notes no doubt, no
/// node performed it by a Forward. There is no doubt unless the error is that for memory, by which a request also ends early; and unless it is that or the
/// handler's, the handler was not called.
pub fn performed_once<R: Host, N: Dial<Stream = TcpStream>, A: HandlerMut>()
    ensures sent { RequestsEndOnce (sends_once {R = R} N.dialled) A.handled noted_by }
    ensures answered { AnswersAreDoneOnce (sends_once {R = R} N.dialled) A.handled noted_by }
    ensures undone { ErrorsAreUndone (sends_once {R = R} N.dialled) A.handled noted_by }
    ensures sure { OthersAreSure (sends_once {R = R} N.dialled) A.handled noted_by }
{}
