//! The commands of arguments.
ghost use Rattle.std.specs.Prelude.{◌≡◌, ◌<◌, ◌^◌, vec_len};
ghost use Rattle.hash_ring.specs.Points.{IsReplicas};

use crate::shared::{Host, check_refused, made};
use change_core::{Address, Incarnation, MAX_NUMBER, Weight};
use cli_core::{
    AskAnyWords, AskWords, ClusterCommand, MembersForm, MembersWords, OwnerWords, ServeWords,
    SimWords, Subcommand,
};
use cli_words::{ClusterWords, Words, WordsError, read_words};
use cluster_names::ClusterName;
use std::process::Abort;

/// Words, at most this many.
pub type Line<'a> = [&'a str; 16];

/// No words.
pub const NO_WORDS: Line<'static> = [""; 16];

/// The arguments of a line, between its spaces; None if it is empty.
pub fn words_in<'a, 'b>(rt: &impl Abort, line: &'a str, words: &'b mut Line<'a>) -> &'b [&'a str] {
    let mut count = 0;
    if !line.is_empty() {
        for word in line.split(' ') {
            let Some(place) = words.get_mut(count) else {
                panic!(rt; "too many words: {line}")
            };
            *place = word;
            count += 1;
        }
    }
    words.get(..count).unwrap_or_default()
}

/// Reads the arguments. After a failed allocation they are read again.
///
/// # Errors
///
/// - The error of the arguments, but not that of a failed allocation.
pub fn read<'a>(rt: &impl Host, words: &'a [&'a str]) -> Result<Words<'a>, WordsError> {
    match read_words(rt.alloc(), words) {
        Err(WordsError::OutOfMemory) => {
            check_refused(rt);
            read_words(rt.alloc(), words)
        }
        ended => ended,
    }
}

/// Words, and the subcommand that they ask for.
const READ: [(&str, Subcommand<'static>); 11] = rows! {
    "ringpop sim", Subcommand::Sim(SimWords { replicas: 100, sum: false, });
    "ringpop sim --sum --replicas 2", Subcommand::Sim(SimWords { replicas: 2, sum: true, });
    "", Subcommand::Fold;
    "ringpop", Subcommand::Fold;
    "ringpop fold", Subcommand::Fold;
    "ringpop hash ", Subcommand::Hash("");
    "ringpop hash abc", Subcommand::Hash("abc");
    "ringpop owner k", Subcommand::Owner(OwnerWords { count: 1, replicas: 100, sum: false, key: "k", });
    "ringpop owner --n 0 k", Subcommand::Owner(OwnerWords { count: 0, replicas: 100, sum: false, key: "k", });
    "ringpop owner --n=4096 --replicas 1 k", Subcommand::Owner(OwnerWords { count: 4096, replicas: 1, sum: false, key: "k", });
    "ringpop owner --n 3 --replicas=1000 --sum -- -k", Subcommand::Owner(OwnerWords { count: 3, replicas: 1000, sum: true, key: "-k", });
};

/// That the arguments of a line have this command.
fn asks(rt: &impl Host, line: &str, wanted: Words<'_>) {
    let mut words = NO_WORDS;
    let words = read(rt, words_in(rt, line, &mut words));
    assert!(rt; matches!(&words, Ok(words) if *words == wanted), "{line}");
}

/// With no words it is `fold`; `owner` has one owner and 100 points for each server where nothing is told.
#[test]
fn reads_the_words(rt: HostRuntime) {
    for (line, wanted) in &READ {
        asks(&rt, *line, Words::Lines(*wanted));
    }
}

/// 127.0.0.1:1.
fn local(rt: &impl Abort) -> Address {
    Address::new(0x7f00_0001, 1).expect(rt, "an address")
}

/// That the arguments of a line have this command, which speaks to nodes whose cluster has no name.
fn unnamed(rt: &impl Host, line: &str, command: ClusterCommand<'_>) {
    let cluster = None;
    asks(rt, line, Words::Cluster(ClusterWords { command, cluster }));
}

/// The same of nodes of the cluster blue.
fn of_blue(rt: &impl Host, line: &str, command: ClusterCommand<'_>) {
    let cluster = made!(rt, ClusterName::new(rt.alloc(), "blue"));
    asks(rt, line, Words::Cluster(ClusterWords { command, cluster }));
}

/// A request to 127.0.0.1:1.
fn ask<'a>(rt: &impl Abort, key: &'a str, body: &'a str) -> ClusterCommand<'a> {
    let address = local(rt);
    ClusterCommand::Ask(AskWords { address, key, body })
}

/// A request for b to the owner of the key k, by 127.0.0.1:1 and with this many points of a server.
fn ask_any(rt: &impl Abort, replicas: u32, sum: bool) -> ClusterCommand<'static>
    requires { IsReplicas replicas }
{
    let (host, key, body) = (local(rt), "k", "b");
    ClusterCommand::AskAny(AskAnyWords {
        host,
        replicas,
        sum,
        key,
        body,
    })
}

/// A question for the members of 127.0.0.1:1.
fn members(rt: &impl Abort, form: MembersForm) -> ClusterCommand<'static> {
    let host = local(rt);
    ClusterCommand::Members(MembersWords { host, form })
}

/// `ask`, `ask --any`, `members`, `members --lines` and `tell` at 127.0.0.1:1, with empty texts, and with texts behind `--` that begin
/// with `-`.
#[test]
fn reads_the_words_of_questions(rt: HostRuntime) {
    unnamed(&rt, "ringpop ask 127.0.0.1:1 k b", ask(&rt, "k", "b"));
    unnamed(&rt, "ringpop ask 127.0.0.1:1  ", ask(&rt, "", ""));
    let line = "ringpop ask 127.0.0.1:1 -- -k -b";
    unnamed(&rt, line, ask(&rt, "-k", "-b"));
    let line = "ringpop ask --any 127.0.0.1:1 k b";
    unnamed(&rt, line, ask_any(&rt, 100, false));
    let line = "ringpop ask --any --replicas 2 --sum 127.0.0.1:1 k b";
    unnamed(&rt, line, ask_any(&rt, 2, true));
    let line = "ringpop members 127.0.0.1:1";
    unnamed(&rt, line, members(&rt, MembersForm::Digest));
    let line = "ringpop members --lines 127.0.0.1:1";
    unnamed(&rt, line, members(&rt, MembersForm::Lines));
    let line = "ringpop members --table 127.0.0.1:1";
    unnamed(&rt, line, members(&rt, MembersForm::Table));
    let line = "ringpop tell 127.0.0.1:1";
    unnamed(&rt, line, ClusterCommand::Tell(local(&rt)));
}

/// The same with the name of a cluster, before and behind other options.
#[test]
fn reads_the_name_of_the_cluster(rt: HostRuntime) {
    let line = "ringpop ask --cluster blue 127.0.0.1:1 k b";
    of_blue(&rt, line, ask(&rt, "k", "b"));
    let line = "ringpop members --cluster=blue --lines 127.0.0.1:1";
    of_blue(&rt, line, members(&rt, MembersForm::Lines));
    let line = "ringpop tell 127.0.0.1:1 --cluster blue";
    of_blue(&rt, line, ClusterCommand::Tell(local(&rt)));
}

/// What serves at 127.0.0.1:1 where only the incarnation 1 and one connection are told, but for the hosts.
fn least_server(rt: &impl Abort, hosts: Vec<Address>) -> ClusterCommand<'static>
    requires { vec_len hosts < 2 ^ 32 }
{
    ClusterCommand::Serve(ServeWords {
        address: local(rt),
        incarnation: Incarnation::new(1).expect(rt, "an incarnation"),
        requests: 1,
        workers: 2,
        period: 0,
        replicas: 100,
        weight: Weight::new(1).expect(rt, "a weight"),
        per_message: 64,
        piggyback: 15,
        heal: false,
        sum: false,
        hosts,
    })
}

/// What serves at 127.0.0.1:1 with the greatest numbers.
fn greatest_server(rt: &impl Host) -> ClusterCommand<'static> {
    ClusterCommand::Serve(ServeWords {
        address: local(rt),
        incarnation: Incarnation::new(MAX_NUMBER).expect(rt, "an incarnation"),
        requests: 1_000_000,
        workers: 16,
        period: MAX_NUMBER,
        replicas: 1000,
        weight: Weight::new(8).expect(rt, "a weight"),
        per_message: 4096,
        piggyback: 1000,
        heal: true,
        sum: true,
        hosts: Vec::new(rt.alloc()),
    })
}

/// 10.0.0.2:7946, and 127.0.0.1:1 twice.
fn three_hosts(rt: &impl Host) -> Vec<Address>
    ensures { vec_len result ≡ 3 }
{
    let (other, own) = (
        Address::new(0x0a00_0002, 7946).expect(rt, "an address"),
        local(rt),
    );
    made!(rt, vec![in rt.alloc(); other, own, own])
}

/// `serve` at 127.0.0.1:1 of incarnation 1 for one connection: 2 workers, no rounds, 100 points, SHA-256, weight 1, no host; with the
/// greatest of each; with three hosts, which stay in their order.
#[test]
fn reads_the_words_of_serve(rt: HostRuntime) {
    let line = "ringpop serve 127.0.0.1:1 1 1";
    unnamed(&rt, line, least_server(&rt, Vec::new(rt.alloc())));
    let line =
        "ringpop serve --workers=16 --period 9007199254740991 --replicas=1000 --sum --weight 8 --per-message 4096 --piggyback=1000 --heal 127.0.0.1:1 9007199254740991 1000000";
    unnamed(&rt, line, greatest_server(&rt));
    // its hosts stay in their order
    let line = "ringpop serve 127.0.0.1:1 1 1 10.0.0.2:7946 127.0.0.1:1 127.0.0.1:1";
    unnamed(&rt, line, least_server(&rt, three_hosts(&rt)));
}
