//! Theorems about requests to agents, each the contract of a function that does nothing.
ghost use Rattle.agent.specs.Journeys.{ClientsAreTold, EndsMeet, ForwardsAskOne, RequestsAskOne};
ghost use Rattle.agent_api.specs.Onces.{noted_by, sends_once};
ghost use Rattle.agent.specs.Owning.{AskersDiffer, AskersOwn, OneAsks};

use agent_state::Host;
use peer_core::HandlerMut;
use std::net::TcpStream;
use transport::Dial;

/// One application is asked, whichever agent a request enters at. An agent that is given a request, by a client or by another node's Forward, asks its
/// application only if it owns each of the keys in one of the views by which it answers. So of all agents whose views name owners by the same number of points
/// and the same servers, at most one asks its application for a key, however often each is given it. And the views by which two agents both do differ about one
/// of the two, if they have the same number of points: the first has less weight in the other's view than in its own, or the second in the first's.
pub fn one_application<A: HandlerMut>()
    ensures own { AskersOwn A.handled }
    ensures one { OneAsks A.handled }
    ensures differ { AskersDiffer A.handled }
{}

/// One application of all agents is asked for a request at most, once, by whichever agents its Forwards go. The journey of a Forward ends where no agent receives it,
/// or at one, once. That one asks its application; or it passes the Forward on, over a link by which it has a journey again; or, if no other node performed it,
/// it answers again; or it turns the Forward away, and asks nothing. An answer is taken to be the message of the line that the agent sent back. Then a Forward
/// asks one application at most: none if `NotOwner` came; and if a Reply came, the one that gave its text, or none, and the text says that an agent had no place.
///
/// A request that may not be performed twice, over a [`OnceLink`](agent_api::OnceLink) of any network, so asks one application in all at most, of the agent that it entered at
/// or of one to which a Forward came. If it has an answer, that one gave the text, or the text says that an agent had no place. If it has an error, the only
/// one that can have been asked is the agent's own, whose error it is; or another whose answer was lost, or was neither a Reply nor `NotOwner`, and then the
/// link notes a doubt. Its client is told so: a refusal
/// says that no application was asked, unless the answer was lost, or the agent's own application failed.
///
/// Where the two ends of a connection meet, what contracts ensure of each makes such a journey (`meet`).
pub fn journeys<R: Host, N: Dial<Stream = TcpStream>, A: HandlerMut, B: HandlerMut>()
    ensures forwards { ForwardsAskOne A.handled }
    ensures requests { RequestsAskOne (sends_once {R = R} N.dialled) noted_by A.handled B.handled }
    ensures told { ClientsAreTold (sends_once {R = R} N.dialled) noted_by A.handled }
    ensures meet { EndsMeet (sends_once {R = R} N.dialled) noted_by A.handled B.handled }
{}
