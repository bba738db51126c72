//! Servers from their words to their last connection.
use crate::peers::Page;
use crate::plans::{PLAN, Plan};
use crate::shared::{Running, System, check_again, ends_well, start, turn};
use crate::talks::{ECHO, Talk, serves};
use cli_net::{AskError, ask_run};
use std::thread;
use std::time::Duration;

/// Whether `ask_run` writes this line and nothing else for `hi` under `k`.
fn asks(rt: &impl System, server: &Running, line: &str) -> Result<bool, AskError> {
    let mut page = Page(line.as_bytes());
    ask_run(rt, rt.alloc(), server.address, "k", "hi", &mut page)?;
    Ok(page.0.is_empty())
}

/// How often each side tries at a port that the system may have given to a connection.
const FEW_TRIES: u32 = 10_000;

/// Whether a server, which may not listen yet, comes to answer so.
fn is_echoed(rt: &impl System, server: &Running, line: &str) -> bool {
    for _ in 0..FEW_TRIES {
        let asked = asks(rt, server, line);
        if asked != Err(AskError::NoAnswer) || server.has_ended() {
            return asked == Ok(true);
        }
        thread::sleep(rt, Duration::from_millis(1));
    }
    false
}

/// Two requests under the standard waits, at such a port, so that both sides try again.
fn echoes_twice(rt: &impl System) -> bool {
    let plan = Plan {
        port: 39_171,
        requests: 2,
        line: None,
        page: "serving 127.0.0.1:39171\ndone\n",
        tries: FEW_TRIES,
        ..PLAN
    };
    let Some(server) = start(rt, &plan) else {
        return false;
    };
    let line = "127.0.0.1:39171 hi\n";
    let is_served = is_echoed(rt, &server, line) && asks(rt, &server, line) == Ok(true);
    ends_well(rt, server, is_served)
}

/// A server of 2 requests with the standard timeouts at 127.0.0.1:39171, asked twice for `hi` under `k` by `ask_run`: `127.0.0.1:39171 hi`
/// each time, and it has written `serving 127.0.0.1:39171` and `done`. The system may have given that port to a connection: the server
/// tries again a millisecond later, and so does the first question, at most 10,000 times.
#[test]
fn two_requests_are_echoed(rt: HostRuntime) {
    let _turn = turn(&rt);
    check_again!(&rt, echoes_twice(&rt));
}

/// Workers that wait for lines, and after a request as many unresponsive peers as there are workers, while another peer asks. There are
/// requests to spare, which knocks use up.
/// Two workers, and 16: while as many peers send nothing, another one is answered. All connections, with knocks at the end, are its 100
/// requests: none uses up two, or none.
#[test]
fn silent_peers_hold_no_worker(rt: HostRuntime) {
    for (workers, beside) in [(2, 2), (16, 16)] {
        let plan = Plan { workers, ..PLAN };
        let talks = [ECHO, Talk { beside, ..ECHO }];
        check_again!(&rt, serves(&rt, &plan, &talks), "{workers} workers");
    }
}
