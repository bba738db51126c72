//! The lines of a script in, their answers out.

use crate::cli::fakes::{ALL, Form, Page, Reader, Source};
use crate::cli::runs::{SIM, check, check_all, check_lines};
use crate::shared::Host;
use hash_ring::SumHash;
use laws::script_agreement;
use std::sync::atomic::AtomicU64;

/// The lines of a script, and their answers.
type Script = (&'static [&'static str], &'static str);

/// A script: each line with its answer.
macro_rules! script {
    ($($line:literal => $answer:literal;)+) => {
        (&[$($line),+], concat!($($answer, "\n"),+))
    };
}

const SUSPICION: Script = script! {
    "node 10.0.0.1:1 7" => "ok"; "node 10.0.0.2:1 1" => "ok"; "take 10.0.0.1:1 10.0.0.2:1 1 alive" => "taken 1 0";
    "take 10.0.0.1:1 10.0.0.1:1 7 suspect" => "taken 1 1"; "members 10.0.0.1:1" => "10.0.0.1:1alive8;10.0.0.2:1alive1";
    "owners 10.0.0.1:1 2 zzzz1" => "10.0.0.2:1 10.0.0.1:1"; "take 10.0.0.1:1 10.0.0.2:1 1 suspect" => "taken 1 0";
    "at 5000" => "ok"; "expire 10.0.0.1:1" => "10.0.0.2:1faulty1"; "owners 10.0.0.1:1 2 zzzz1" => "10.0.0.1:1";
    "expire 10.0.0.1:1" => "none";
};

const LOSSES: Script = script! {
    "node 10.0.0.1:1 7" => "ok"; "node 10.0.0.2:1 1" => "ok"; "take 10.0.0.1:1 10.0.0.2:1 1 alive" => "taken 1 0";
    "take 10.0.0.1:1 10.0.0.1:1 7 suspect" => "taken 1 1"; "send 10.0.0.1:1 10.0.0.2:1" => "message 1";
    "deliver 1" => "taken 1 0 message 2"; "deliver 1" => "taken 0 0 message 3"; "deliver 2" => "taken 0 0";
    "members 10.0.0.2:1" => "10.0.0.1:1alive8;10.0.0.2:1alive1"; "restart 10.0.0.2:1 2" => "ok";
    "members 10.0.0.2:1" => "10.0.0.2:1alive2"; "deliver 1" => "taken 1 0 message 4"; "deliver 4" => "taken 1 0";
    "members 10.0.0.1:1" => "10.0.0.1:1alive8;10.0.0.2:1alive2";
};

/// A node at its last incarnation, which can refute nothing.
const EXHAUSTED: Script = script! {
    "node 10.0.0.1:1 9007199254740991" => "ok"; "node 10.0.0.2:1 1" => "ok";
    "take 10.0.0.1:1 10.0.0.1:1 9007199254740991 suspect" => "stopped 0 Exhausted";
    "take 10.0.0.2:1 10.0.0.1:1 9007199254740991 suspect" => "taken 1 0"; "at 5000" => "ok";
    "expire 10.0.0.2:1" => "10.0.0.1:1faulty9007199254740991"; "send 10.0.0.2:1 10.0.0.1:1" => "message 1";
    "deliver 1" => "stopped 1 Exhausted"; "leave 10.0.0.1:1" => "10.0.0.1:1leave9007199254740991";
    "rejoin 10.0.0.1:1" => "Exhausted";
};

/// A node made late and asked at an earlier moment, keys with spaces and without bytes, and weights.
const OTHERS: Script = script! {
    "at 1000" => "ok"; "node 10.0.0.1:1 7" => "ok"; "at 0" => "ok"; "take 10.0.0.1:1 10.0.0.2:1 1 suspect 8" => "taken 1 0";
    "at 5999" => "ok"; "expire 10.0.0.1:1" => "none"; "owners 10.0.0.1:1 9 " => "10.0.0.1:1 10.0.0.2:1";
    "owners 10.0.0.1:1 1 a  b c z" => "10.0.0.2:1"; "at 6000" => "ok"; "expire 10.0.0.1:1" => "10.0.0.2:1faulty1*8";
    "leave 10.0.0.1:1" => "10.0.0.1:1leave7"; "leave 10.0.0.1:1" => "AlreadyLeft"; "owners 10.0.0.1:1 9 a" => "none";
    "rejoin 10.0.0.1:1" => "10.0.0.1:1alive8"; "rejoin 10.0.0.1:1" => "NotLeft"; "node 10.0.0.3:1 1 2" => "ok";
    "members 10.0.0.3:1" => "10.0.0.3:1alive1*2";
    "digest 10.0.0.3:1" => "102d23bd842cbc64e2c06fd4e2afab809640e435c3010d50384240bb7d8b754a"; "restart 10.0.0.3:1 2 3" => "ok";
    "members 10.0.0.3:1" => "10.0.0.3:1alive2*3"; "node 10.0.0.4:1 1 1" => "ok"; "owners 10.0.0.3:1 0 k" => "none";
    "owners 10.0.0.3:1 4096 k" => "10.0.0.3:1"; "send 10.0.0.1:1 10.0.0.9:1" => "message 1"; "deliver 1" => "lost";
};

/// Eleven commands, in which a suspicion of A is refuted and one of B runs out, with their answers. Fourteen commands, in which messages
/// are sent, delivered twice, and B is restarted, with their answers. A message to an address without a node: lost. A key that is empty
/// or has spaces; weights as last words of `node`, `take` and `restart`.
#[test]
fn answers_scripts(rt: HostRuntime) {
    for (lines, answers) in &[SUSPICION, LOSSES, EXHAUSTED, OTHERS] {
        check_lines(&rt, &SIM, *lines, (*answers, ""));
    }
}

/// Lines whose last is wrong, and the error text.
const AT_FAULT: [(&[&str], &str, &str); 11] = rows! {
    &["node 10.0.0.1:1 07"], "", "line 1: bad command";
    &["at 5", "leave 10.0.0.1:1"], "ok\n", "line 2: unknown node";
    &["node 10.0.0.1:1 7", "node 10.0.0.1:1 8"], "ok\n", "line 2: node exists";
    &["deliver 9"], "", "line 1: unknown message";
    &["deliver 0"], "", "line 1: unknown message";
    &["restart 10.0.0.1:1 7"], "", "line 1: unknown node";
    &["node 10.0.0.1:1 7", "restart 10.0.0.1:1 7"], "ok\n", "line 2: incarnation not greater";
    &["node 10.0.0.1:1 7", "take 10.0.0.1:1 10.0.0.1:1 7 suspect", "restart 10.0.0.1:1 8"], "ok\ntaken 1 1\n",
        "line 3: incarnation not greater";
    &["node 10.0.0.1:1 7", "restart 10.0.0.1:1 6"], "ok\n", "line 2: incarnation not greater";
    &["node 10.0.0.1:1 7", "node 10.0.0.2:1 1", "take 10.0.0.1:1 10.0.0.2:1 1 alive", "take 10.0.0.1:1 10.0.0.1:1 7 suspect", "restart 10.0.0.2:1 1"],
        "ok\nok\ntaken 1 0\ntaken 1 1\n", "line 5: incarnation not greater";
    &["node 10.0.0.1:1 7", "send 10.0.0.2:1 10.0.0.1:1"], "ok\n", "line 2: unknown node";
};

/// Lines that are no commands.
const NO_COMMANDS: [&str; 33] = rows! {
    ""; " "; "node"; "Node 10.0.0.1:1 7"; " node 10.0.0.1:1 7"; "node  10.0.0.1:1 7"; "node 10.0.0.1:1"; "node 10.0.0.1:1 7 ";
    "node 10.0.0.1:1 7 0"; "node 10.0.0.1:1 7 9"; "node 10.0.0.1:1 7 1 1"; "node 10.0.0.1 7"; "node 10.0.0.1:1 9007199254740992";
    "at -1"; "at +1"; "at 1.0"; "take 10.0.0.1:1 10.0.0.2:1 1 Alive"; "take 10.0.0.1:1 10.0.0.2:1 1";
    "leave 10.0.0.1:1 10.0.0.2:1"; "owners 10.0.0.1:1 1"; "owners 10.0.0.1:1 4097 k"; "send 10.0.0.1:1"; "deliver"; "deliver one";
    "node 10.0.0.1:1 7 02"; "at 05"; "at 9007199254740992"; "deliver 9007199254740992"; "deliver 1 1"; "rejoin 10.0.0.1:1 x";
    "expire 10.0.0.1:1 x"; "members 10.0.0.1:1 x"; "digest 10.0.0.1:1 x";
};

/// `deliver 9` where no such message was made: unknown message. `restart` of a node at the incarnation that it has, first or refuted,
/// or below it: incarnation not greater. Unknown and existing nodes; what is no command.
#[test]
fn refuses_lines_at_fault(rt: HostRuntime) {
    for (lines, answers, text) in &AT_FAULT {
        check_lines(&rt, &SIM, *lines, (*answers, *text));
    }
    for line in &NO_COMMANDS {
        check_lines(&rt, &SIM, &[*line], ("", "line 1: bad command"));
    }
}

/// Checks what this many lines of a form end with: the last answer, and the text of the error, or of none if that is
/// empty.
fn check_last(rt: &impl Host, form: Form, count: usize, wanted: (&str, &str)) {
    let reader = Reader::new(Source::Many(form, count), ALL);
    let mut page = Page::new(ALL);
    page.keeps_all = false;
    check(rt, &SIM, reader, page, wanted);
}

/// The 65th node, the 65,537th message, as one sent or as an answer.
#[test]
fn refuses_too_many_nodes(rt: HostRuntime) {
    check_last(&rt, Form::Node, 65, ("ok\n", "line 65: too many nodes"));
    check_last(&rt, Form::Again, 65, ("ok\n", "line 65: node exists"));
}

#[test]
fn stops_where_a_node_is_full(rt: HostRuntime) {
    check_last(&rt, Form::Take, 4_097, ("stopped 0 Full\n", ""));
}

/// The last answer to too many messages, and the error of the line after it.
const TOO_MANY: (&str, &str) = ("message 65536\n", "line 65538: too many messages");

/// The 65th node, the 65,537th message, as one sent or as an answer.
#[test]
fn refuses_too_many_messages(rt: HostRuntime) {
    check_last(&rt, Form::Ping, 65_538, TOO_MANY);
}

/// The 65th node, the 65,537th message, as one sent or as an answer.
#[test]
fn refuses_an_answer_too_many(rt: HostRuntime) {
    check_last(&rt, Form::Delivery, 65_538, TOO_MANY);
}

/// A line of 1,048,577 bytes: line too long.
#[test]
fn refuses_too_long_a_line(rt: HostRuntime) {
    check_all(
        &rt,
        &SIM,
        Source::Long(1_048_577),
        ("", "line 1: line too long"),
    );
    check_all(
        &rt,
        &SIM,
        Source::Long(1_048_576),
        ("", "line 1: bad command"),
    );
}

/// A script of three lines.
pub const SHORT: [&str; 3] =
    rows! { "node 10.0.0.1:1 7"; "members 10.0.0.1:1"; "leave 10.0.0.1:1"; };

pub const SHORT_ANSWERED: &str = "ok\n10.0.0.1:1alive7\n10.0.0.1:1leave7\n";

/// The answer when the reader fails after each number of bytes, and the error text.
#[test]
fn answers_whole_lines_before_a_failed_read(rt: HostRuntime) {
    for left in 0..=54 {
        let wanted = match left {
            0..18 => ("", "line 1: read failed"),
            18..37 => ("ok\n", "line 2: read failed"),
            37..54 => ("ok\n10.0.0.1:1alive7\n", "line 3: read failed"),
            _ => (SHORT_ANSWERED, "line 4: read failed"),
        };
        let reader = Reader::new(Source::Lines(&SHORT), left);
        check(&rt, &SIM, reader, Page::new(ALL), wanted);
    }
}

/// Each line is typed once the answer to the one before it is shown.
#[test]
fn shows_each_answer_before_it_reads_on(rt: HostRuntime) {
    let shown = AtomicU64::new(0);
    let mut page = Page::new(ALL);
    page.shown = Some(&shown);
    let mut reader = Reader::new(Source::Lines(&SHORT), ALL);
    reader.shown = Some(&shown);
    check(&rt, &SIM, reader, page, (SHORT_ANSWERED, ""));
}

/// Two nodes that take the same changes, each in its own order.
const SAME_CHANGES: Script = script! {
    "node 10.0.0.1:1 7" => "ok"; "node 10.0.0.2:1 1" => "ok"; "take 10.0.0.1:1 10.0.0.2:1 1 alive" => "taken 1 0";
    "take 10.0.0.1:1 10.0.0.3:1 3 faulty" => "taken 1 0"; "take 10.0.0.1:1 10.0.0.4:1 2 alive" => "taken 1 0";
    "take 10.0.0.1:1 10.0.0.3:1 1 suspect" => "taken 0 0";
    "members 10.0.0.1:1" => "10.0.0.1:1alive7;10.0.0.2:1alive1;10.0.0.3:1faulty3;10.0.0.4:1alive2";
    "digest 10.0.0.1:1" => "ad0e1edde0699548b56dc7c6ffcf785898db5f457e38a1677c6e493f5b41905d";
    "owners 10.0.0.1:1 4 zzzz1" => "10.0.0.2:1 10.0.0.4:1 10.0.0.1:1"; "take 10.0.0.2:1 10.0.0.4:1 2 alive" => "taken 1 0";
    "take 10.0.0.2:1 10.0.0.3:1 1 suspect" => "taken 1 0"; "take 10.0.0.2:1 10.0.0.3:1 3 faulty" => "taken 1 0";
    "take 10.0.0.2:1 10.0.0.1:1 7 alive" => "taken 1 0";
    "members 10.0.0.2:1" => "10.0.0.1:1alive7;10.0.0.2:1alive1;10.0.0.3:1faulty3;10.0.0.4:1alive2";
    "digest 10.0.0.2:1" => "ad0e1edde0699548b56dc7c6ffcf785898db5f457e38a1677c6e493f5b41905d";
    "owners 10.0.0.2:1 4 zzzz1" => "10.0.0.2:1 10.0.0.4:1 10.0.0.1:1";
};

#[test]
fn nodes_with_the_same_changes_are_answered_alike(rt: HostRuntime) {
    script_agreement::<SumHash>();
    let (lines, answers) = SAME_CHANGES;
    check_lines(&rt, &SIM, lines, (answers, ""));
}
