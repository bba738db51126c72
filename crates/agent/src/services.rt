//! The thread that looks after the service, the application of an agent: the node is in the ring only while the service takes
//! connections.
ghost use Rattle.std.specs.Prelude.{◌≡◌, ◌⊎◌, IfErr, None, Ok, is_ok, not, ℕ};
ghost use Rattle.agent_core.specs.Warnings.{told};
ghost use Rattle.agent.specs.Services.{Leaves, Moves};

use agent_core::{Move, Notice, Sight};
use agent_node::{Agent, AgentError, Caller};
use agent_state::{Host, System};
use change_core::Address;
use log::{info, warn};
use std::alloc::Global;
use std::sync::Arc;
use std::thread;
use std::time::Duration;

/// The milliseconds between two looks at the service.
const BETWEEN_LOOKS: u64 = 500;

/// The milliseconds between two looks while the node is out of the ring.
const BETWEEN_LOOKS_OUT: u64 = 200;

/// Has the node leave before any other node hears of it, unless its service takes connections: it comes into the ring when that
/// does.
///
/// # Errors
///
/// - `Memory`: out of memory.
pub fn await_service<R: Host>(agent: &Agent<R>, caller: &mut Caller) -> Result<(), AgentError>
    ensures left { (caller.new ≡ caller.old) ⊎ Leaves (is_ok result) caller.old caller.new }
    ensures error { IfErr result (λ e. e ≡ AgentError.Memory) }
{
    if matches!(agent.application.is_up(), Ok(true)) {
        return Ok(());
    }
    agent.life.is_service_up.set(false);
    let mut watch = agent.life.moving.lock(&agent.rt);
    caller.leave(&agent.rt).map_err(|_| AgentError::Memory)?;
    watch.set_out();
    agent.life.set_left();
    agent.life.is_starting.set(false);
    warn!(agent.log(); "the application accepts no connection: this node joins once it does");
    Ok(())
}

/// What the thread that looks after the service keeps from one look to the next.
#[derive(Drop)]
struct Lookout<'a, R> {
    agent: &'a Agent<R>,
    caller: Caller,
    /// The service's address.
    at: Address,
    /// What the log said last of the service, and of moves of the node that fail.
    service_notice: Notice,
    move_notice: Notice,
    /// What the log said last of looks that were not possible.
    look_notice: Notice,
}

impl<'a, R: Host> Lookout<'a, R> {
    /// Logs whether the service takes connections, unless the log said so last.
    fn log_service(&mut self, takes: bool)
        ensures notice { (now : ℕ) × (self.new.service_notice ≡ told self.old.service_notice (not takes) now) }
        ensures caller { self.new.caller ≡ self.old.caller }
    {
        let (agent, at) = (self.agent, self.at);
        if !self.service_notice.note(!takes, agent.now()) {
            return;
        }
        if takes {
            info!(agent.log(); "{at} accepts connections: the application is up");
        } else {
            warn!(agent.log(); "{at} accepts no connection: the application is down");
        }
    }

    /// Makes a move of the node. The caller holds `moving`. Returns whether the node made it.
    #[tactic(auto, using(crate::proofs::Moving::comes_back, crate::proofs::Moving::leaves, crate::proofs::Moving::stays))]
    fn make(&mut self, step: Move) -> bool
        ensures { Moves step result self.old.caller self.new.caller }
    {
        let agent = self.agent;
        match step {
            Move::Stay => true,
            Move::Leave => {
                let is_made = self.caller.leave(&agent.rt).is_ok();
                if is_made {
                    agent.life.set_left();
                    warn!(agent.log(); "this node leaves the ring, since its application accepts no connection");
                }
                is_made
            }
            Move::Rejoin => {
                let is_made = agent.come_back(&mut self.caller).is_ok();
                if is_made {
                    info!(agent.log(); "this node comes into the ring, since its application accepts connections");
                }
                is_made
            }
        }
    }

    /// Returns whether the service takes a connection; None, which is logged unless the log said so last, if the system lets none be made.
    fn takes(&mut self) -> Option<bool>
        ensures { self.new.caller ≡ self.old.caller }
    {
        let agent = self.agent;
        let seen = agent.application.is_up();
        if self.look_notice.note(seen.is_err(), agent.now()) {
            match seen {
                Ok(_) => info!(agent.log(); "connections can be made again"),
                Err(error) => warn!(agent.log(); "no connection can be made: {error}"),
            }
        }
        seen.ok()
    }

    /// Looks whether the service takes a connection, and has the node leave or come back for that.
    fn look(&mut self) {
        let agent = self.agent;
        let Some(takes) = self.takes() else {
            return;
        };
        agent.life.is_service_up.set(takes);
        self.log_service(takes);
        let mut watch = agent.life.moving.lock(&agent.rt);
        if agent.life.is_stopping.get() {
            return;
        }
        let now = agent.now();
        let step = watch.note(Sight {
            now: now.number(),
            takes,
            has_left: agent.life.has_left.get(),
        });
        let is_made = self.make(step);
        if self.move_notice.note(!is_made, now) && !is_made {
            warn!(agent.log(); "this node can't leave the ring or come back: it tries again");
        }
        agent.renew(&mut self.caller);
    }
}

/// Looks after the service at an address until the agent is to end.
fn watch_service<R: Host>(agent: Arc<Agent<R>, Global>, caller: Caller, at: Address) {
    let agent = &*agent;
    let mut lookout = Lookout {
        agent,
        caller,
        at,
        service_notice: Notice::new(),
        move_notice: Notice::new(),
        look_notice: Notice::new(),
    };
    for _ in agent.rt.forever() {
        lookout.look();
        if agent.life.is_stopping.get() {
            return;
        }
        let rest = if agent.life.has_left.get() {
            BETWEEN_LOOKS_OUT
        } else {
            BETWEEN_LOOKS
        };
        thread::sleep(&agent.rt, Duration::from_millis(rest));
    }
}

/// Starts the thread that looks after the service at an address, if there is one.
///
/// # Errors
///
/// - `Spent`: the thread needs a pass of the node, and none is left.
/// - `NoThread`: the system gave no thread.
/// - `Memory`: out of memory.
pub fn start_watch<R: System>(
    rt: &R,
    agent: &Arc<Agent<R>, Global>,
    app: Option<Address>,
) -> Result<(), AgentError>
    ensures { app ≡ None → result ≡ Ok tt }
{
    let Some(at) = app else {
        return Ok(());
    };
    let caller = agent.next_caller()?;
    let agent = Arc::try_clone(agent)?;
    let started = thread::spawn(rt, move || watch_service(agent, caller, at));
    let _thread = started.map_err(|_| AgentError::NoThread)?;
    Ok(())
}
