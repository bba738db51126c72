//! Arguments that are refused, and the error text.

use crate::cli::reads::{NO_WORDS, read, words_in};
use crate::shared::{Host, check_again, check_refused, made};
use cli_words::{WordsError, bad_argument, words_not_text};

/// That the error of arguments starts with this text, and ends the program with status 2.
fn begins(rt: &impl Host, fault: WordsError, text: &str) {
    let said = made!(rt, format!(in rt.alloc(); "{fault}"));
    assert!(rt;
        said.as_str().starts_with(text) && fault.status() == 2,
        "{text}"
    );
}

/// Arguments of `serve`, and the start of their error text.
const REFUSED_SERVERS: [(&str, &str); 22] = rows! {
    "ringpop serve", "error: the following required arguments were not provided:\n  <ADDRESS>\n  <INCARNATION>\n  <REQUESTS>\n";
    "ringpop serve 127.0.0.1:1 1", "error: the following required arguments were not provided:\n  <REQUESTS>\n";
    "ringpop serve 127.0.0.1:1 one 1", "error: invalid value 'one' for '<INCARNATION>'";
    "ringpop serve 127.0.0.1:1 9007199254740992 1", "error: invalid value '9007199254740992' for '<INCARNATION>'";
    "ringpop serve 127.0.0.1:1 1 0", "error: invalid value '0' for '<REQUESTS>'";
    "ringpop serve 127.0.0.1:1 1 1000001", "error: invalid value '1000001' for '<REQUESTS>'";
    "ringpop serve --workers 0 127.0.0.1:1 1 1", "error: invalid value '0' for '--workers <W>'";
    "ringpop serve --workers 0 x 1 1", "error: invalid value '0' for '--workers <W>'";
    "ringpop serve --workers 17 127.0.0.1:1 1 1", "error: invalid value '17' for '--workers <W>'";
    "ringpop serve --period 9007199254740992 127.0.0.1:1 1 1", "error: invalid value '9007199254740992' for '--period <MS>'";
    "ringpop serve --replicas 0 127.0.0.1:1 1 1", "error: invalid value '0' for '--replicas <R>'";
    "ringpop serve --replicas 1001 127.0.0.1:1 1 1", "error: invalid value '1001' for '--replicas <R>'";
    "ringpop serve --weight 0 127.0.0.1:1 1 1", "error: invalid value '0' for '--weight <W>'";
    "ringpop serve --weight 9 127.0.0.1:1 1 1", "error: invalid value '9' for '--weight <W>'";
    "ringpop serve --per-message 0 127.0.0.1:1 1 1", "error: invalid value '0' for '--per-message <N>'";
    "ringpop serve --per-message 4097 127.0.0.1:1 1 1", "error: invalid value '4097' for '--per-message <N>'";
    "ringpop serve --piggyback 1001 127.0.0.1:1 1 1", "error: invalid value '1001' for '--piggyback <N>'";
    "ringpop serve --lines 127.0.0.1:1 1 1", "error: unexpected argument '--lines' found\n";
    "ringpop serve 127.0.0.1:01 1 1", "ringpop: bad address\n";
    "ringpop serve 127.0.0.1:1 1 1 x", "ringpop: bad address\n";
    "ringpop serve 127.0.0.1:1 1 1 127.0.0.1:1 127.0.0.1:0 127.0.0.1:1", "ringpop: bad address\n";
    "ringpop serve 127.0.0.1:1 1 1 127.0.0.1:1 ", "ringpop: bad address\n";
};

/// That the arguments of each line are refused, and the error starts with this text.
fn check_refusals(rt: &impl Host, rows: &[(&str, &str)]) {
    for (line, text) in rows {
        let mut words = NO_WORDS;
        let Err(fault) = read(rt, words_in(rt, *line, &mut words)) else {
            panic!(rt; "not refused: {text}")
        };
        begins(rt, fault, *text);
    }
}

/// `serve` without one of its words, or with a number one outside its range: refused by `clap`. Behind that the node's own address, and
/// any of its hosts that is none: `ringpop: bad address`.
#[test]
fn refuses_the_words_of_a_server(rt: HostRuntime) {
    check_refusals(&rt, &REFUSED_SERVERS);
}

/// Arguments of `agent` with an address that is none, and the error text.
const REFUSED_AGENTS: [(&str, &str); 9] = rows! {
    "ringpop agent 127.0.0.1", "ringpop: bad address: ADDRESS\n";
    "ringpop agent --bind 0.0.0.0 127.0.0.1:1", "ringpop: bad address: --bind\n";
    "ringpop agent --http 7980 127.0.0.1:1", "ringpop: bad address: --http\n";
    "ringpop agent --app localhost:8080 127.0.0.1:1", "ringpop: bad address: --app\n";
    "ringpop agent 127.0.0.1:1 127.0.0.1:2 x", "ringpop: bad address: HOST\n";
    "ringpop agent --bind x --http x --app x x x", "ringpop: bad address: ADDRESS\n";
    "ringpop agent --bind x --http x --app x 127.0.0.1:1 x", "ringpop: bad address: --bind\n";
    "ringpop agent --http x --app x 127.0.0.1:1 x", "ringpop: bad address: --http\n";
    "ringpop agent --app x 127.0.0.1:1 x", "ringpop: bad address: --app\n";
};

/// `agent` with an address that is none is refused, and the text names the first such argument as the help writes it.
#[test]
fn names_an_agents_bad_address(rt: HostRuntime) {
    check_refusals(&rt, &REFUSED_AGENTS);
}

/// Arguments, and the start of their error text.
const REFUSED_WORDS: [(&str, &str); 39] = rows! {
    "ringpop ", "error: unrecognized subcommand ''\n";
    "ringpop server", "error: unrecognized subcommand 'server'\n";
    "ringpop --help", "Names the members of a cluster and the owners of its keys";
    "ringpop --version", "ringpop 1.0.0-dev\n";
    "elsewhere/ringpop sim --help",
        "Reads a script of commands for simulated nodes; answers each command with a line\n\nUsage: ringpop sim [OPTIONS]\n";
    "ringpop fold x", "error: unexpected argument 'x' found\n";
    "ringpop hash", "error: the following required arguments were not provided:\n";
    "ringpop owner", "error: the following required arguments were not provided:\n";
    "ringpop owner k l", "error: unexpected argument 'l' found\n";
    "ringpop owner --n 4097 k", "error: invalid value '4097' for '--n <N>'";
    "ringpop owner --replicas 0 k", "error: invalid value '0' for '--replicas <R>'";
    "ringpop owner --replicas 1001 k", "error: invalid value '1001' for '--replicas <R>'";
    "ringpop sim x", "error: unexpected argument 'x' found\n";
    "ringpop sim --replicas 0", "error: invalid value '0' for '--replicas <R>'";
    "ringpop sim --replicas 1001", "error: invalid value '1001' for '--replicas <R>'";
    "ringpop ask 127.0.0.1:1 k", "error: the following required arguments were not provided:\n";
    "ringpop ask --sum 127.0.0.1:1 k b", "error: the following required arguments were not provided:\n  --any\n";
    "ringpop ask --replicas 2 127.0.0.1:1 k b", "error: the following required arguments were not provided:\n  --any\n";
    "ringpop ask --any --replicas 0 x k b", "error: invalid value '0' for '--replicas <R>'";
    "ringpop members", "error: the following required arguments were not provided:\n";
    "ringpop members 127.0.0.1:1 l", "error: unexpected argument 'l' found\n";
    "ringpop tell", "error: the following required arguments were not provided:\n";
    "ringpop agent --log verbose 127.0.0.1:1", "error: invalid value 'verbose' for '--log <LEVEL>': give off, error, warn, info or debug\n";
    "ringpop agent --any-request --key-field a:b 127.0.0.1:1", "error: invalid value 'a:b' for '--key-field <NAME>': give the name of a field of HTTP, as X-Ringpop-Key\n";
    "ringpop agent --key-field X-User 127.0.0.1:1", "error: the following required arguments were not provided:\n  --any-request\n";
    "ringpop agent --cluster a/b 127.0.0.1:1", "error: invalid value 'a/b' for '--cluster <NAME>': give 1 to 64 letters, digits, '.', '_' and '-'\n";
    "ringpop agent --cluster= 127.0.0.1:1", "error: invalid value '' for '--cluster <NAME>': give 1 to 64 letters, digits";
    "ringpop members --cluster a/b 127.0.0.1:1",
        "error: invalid value 'a/b' for '--cluster <NAME>': give 1 to 64 letters, digits, '.', '_' and '-'\n\nUsage: ringpop members [OPTIONS] <HOST>\n";
    "ringpop ask --cluster= 127.0.0.1:1 k b",
        "error: invalid value '' for '--cluster <NAME>': give 1 to 64 letters, digits, '.', '_' and '-'\n\nUsage: ringpop ask [OPTIONS] <ADDRESS> <KEY> <BODY>\n";
    "ringpop ask --any --cluster é 127.0.0.1:1 k b", "error: invalid value 'é' for '--cluster <NAME>': give 1 to 64 letters, digits";
    "ringpop tell --cluster a\"b 127.0.0.1:1",
        "error: invalid value 'a\"b' for '--cluster <NAME>': give 1 to 64 letters, digits, '.', '_' and '-'\n\nUsage: ringpop tell [OPTIONS] <HOST>\n";
    "ringpop tell --cluster a/b x", "ringpop: bad address\n";
    "ringpop serve --cluster a 127.0.0.1:1 1 1", "error: unexpected argument '--cluster' found\n";
    "ringpop ask 10.0.0.01:1 k b", "ringpop: bad address\n";
    "ringpop ask --any x k b", "ringpop: bad address\n";
    "ringpop members 10.0.0.1:0", "ringpop: bad address\n";
    "ringpop members ", "ringpop: bad address\n";
    "ringpop tell x", "ringpop: bad address\n";
    "ringpop tell --help",
        "Reads change lines; sends them to a running node, and prints how many members it then holds\n\nUsage: ringpop tell [OPTIONS] <HOST>\n";
};

/// Other words are refused by `clap`, in its own text, with status 2; `--sum` or `--replicas` of `ask` without `--any` among them. Behind
/// that an address that is none: `ringpop: bad address`, status 2.
#[test]
fn refuses_words(rt: HostRuntime) {
    check_refusals(&rt, &REFUSED_WORDS);
}

/// Lines with an argument that has to be an address and is not, or without one, and the text that names it.
const BAD_ARGUMENTS: [(&str, &str); 7] = rows! {
    "ringpop members localhost:7946", "'localhost:7946' for HOST: give an IPv4 address and a port of 1 to 65535, as 127.0.0.1:7946";
    "ringpop serve --sum 127.0.0.1:1 1 1 127.0.0.1:2 127.0.0.1 x",
        "'127.0.0.1' for HOST: give an IPv4 address and a port of 1 to 65535, as 127.0.0.1:7946";
    "ringpop ask --any [::1]:1 x y", "'[::1]:1' for ADDRESS: give an IPv4 address and a port of 1 to 65535, as 127.0.0.1:7946";
    "ringpop agent --app x --http y 127.0.0.1:1 z", "'y' for --http: give an IPv4 address and a port of 1 to 65535, as 127.0.0.1:7946";
    "ringpop agent --bind x --http y 0 z", "'0' for ADDRESS: give an IPv4 address and a port of 1 to 65535, as 127.0.0.1:7946";
    "ringpop members 127.0.0.1:1", "";
    "ringpop hash x", "";
};

/// Whether this text names the argument of a line that is not an address; the empty text where there is none.
fn is_named(rt: &impl Host, line: &str, text: &str) -> bool {
    let mut words = NO_WORDS;
    let words = words_in(rt, line, &mut words);
    match bad_argument(rt.alloc(), words) {
        Ok(Some(bad)) => match format!(in rt.alloc(); "{bad}") {
            Ok(said) => said.as_str() == text,
            Err(_) => false,
        },
        Ok(None) => text.is_empty(),
        Err(_) => false,
    }
}

/// The first argument that has to be an address and is none is named, with what was given; where there is none, nothing.
#[test]
fn names_bad_arguments(rt: HostRuntime) {
    for (line, text) in &BAD_ARGUMENTS {
        check_again!(&rt, is_named(&rt, *line, *text), "{text}");
    }
}

/// Words that are not UTF-8 are refused in the form of `clap`'s texts, with status 2.
#[test]
fn refuses_words_that_are_not_text(rt: HostRuntime) {
    let fault = match words_not_text(rt.alloc()) {
        WordsError::OutOfMemory => {
            check_refused(&rt);
            words_not_text(rt.alloc())
        }
        fault => fault,
    };
    begins(&rt, fault, "error: the words are not UTF-8\n");
}
