//! What a server makes of peers that do not ask as they should.
use crate::plans::{PLAN, Plan};
use crate::shared::check_again;
use crate::talks::{Close, ECHO, MALFORMED, Talk, serves};

/// Says no message.
const NONSENSE: Talk = Talk {
    text: "[]\n",
    wanted: MALFORMED,
    ..ECHO
};

/// What is not a message, between two requests.
const TALKS: [Talk; 11] = like! { Talk:
    ECHO;
    NONSENSE;
    NONSENSE { text: "\n" };
    NONSENSE { text: "{\"kind\":", close: Close::Ends };
    // too long
    NONSENSE { blocks: 1_024, text: "a" };
    // slow
    NONSENSE { drips: 40, text: "\n" };
    NONSENSE { text: "", close: Close::Ends, wanted: "" };
    NONSENSE { text: "", close: Close::HangsUp, wanted: "" };
    NONSENSE { text: "{\"kind\":", close: Close::HangsUp, wanted: "" };
    NONSENSE { text: "[]\n[]\n" };
    ECHO;
};

/// `[]`, an empty line, half a line and the end, 1,048,577 bytes, a letter each 10 ms and a newline after 40 of them: refused as
/// malformed, and the server hangs up. Two lines: the first is answered. The end at once, and one that hangs up, also after half a line:
/// nothing. Each is one request, and the next one is served.
#[test]
fn what_is_no_message_is_refused(rt: HostRuntime) {
    let plan = Plan {
        requests: TALKS.len() as u64,
        workers: 1,
        ..PLAN
    };
    check_again!(&rt, serves(&rt, &plan, &TALKS));
}

/// A request whose line may miss the limit.
const SPARED: Talk = Talk { looks: 20, ..ECHO };

/// Is unresponsive, and left, after most of the limit, and more than the standard one.
const SILENT: Talk = Talk {
    text: "",
    wanted: "",
    least: 900,
    ..SPARED
};

/// Peers that are not done within the limit, between two requests.
const SLOW: [Talk; 5] = like! { Talk:
    SPARED;
    SILENT;
    SILENT { text: "{\"kind\":" };
    SILENT { drips: 20_000, text: "\n" };
    SPARED;
};

/// Silence, half a line and silence, and a letter each 10 ms without end, where a line is waited for one second: the server hangs up
/// without an answer, not before nine tenths of it, and serves the next one. All connections, with knocks at the end, are its 40
/// requests: more than there are talks, since a line may miss the limit.
#[test]
fn a_slow_peer_is_left_at_the_limit(rt: HostRuntime) {
    let plan = Plan {
        requests: 40,
        workers: 1,
        line: Some(1_000),
        ..PLAN
    };
    check_again!(&rt, serves(&rt, &plan, &SLOW));
}
