//! The texts below the help of the program and of its subcommands. A paragraph starts at the left margin; the manual page is made from them.

/// The text below the help of the program.
pub(crate) const BELOW: &str =
    r#"With no command ringpop runs fold, which waits for lines on standard input: ringpop < changes.jsonl

Change lines:
  A change line is one JSON object, in which a node, the source, says what it holds about a member:
  {"address":"10.0.0.2:7946","incarnationNumber":5,"source":"10.0.0.1:7946","sourceIncarnationNumber":3,"status":"alive"}
  The status is alive, suspect, faulty, leave or tombstone. A member can also have a "weight", from 1 to 8; without
  it the weight is 1. If lines about one member differ, the greatest one counts, wherever it is: by incarnation,
  then by status in the order above, then by weight. A line has at most 1,048,576 bytes, and an input names at
  most 4,096 members.

Exit status:
  0  All went well, or help or the version was asked for.
  1  The command failed. Standard error has a line that starts with "ringpop:" and gives the reason, with the number
     of the line if an input line is wrong. A second line can name an address and what the system said.
  2  The arguments are wrong. Standard error says which.

Examples:
  ringpop < changes.jsonl
      prints the members, and their digest: members that are equal have equal digests
  ringpop owner --n 2 trip-42 < changes.jsonl
      prints the owner of the key trip-42, and the member that comes after it
  ringpop members --table 10.0.0.2:7946
      prints what a running node holds about each member
  ringpop ask --any 10.0.0.2:7946 trip-42 hello
      sends "hello" to the owner of the key trip-42, and prints the answer
  ringpop serve --period 200 10.0.0.1:7946 1 1000
      runs the first node of a cluster; it ends after 1,000 connections
  ringpop serve --period 200 10.0.0.2:7946 1 1000 10.0.0.1:7946
      runs a second node, which joins the first
  ringpop-run agent --http 127.0.0.1:7980 --app 127.0.0.1:8080 10.0.0.1:7946 10.0.0.1:7946 10.0.0.2:7946
      runs a node next to a service at port 8080, in a cluster of two machines"#;

/// The text below the help of `fold`.
pub(crate) const BELOW_FOLD: &str =
    r#"The first line of the output lists the members by address, each with its status, incarnation and, if it is not 1,
weight. The second line is the SHA-256 of the first. Equal members give equal output, whatever the order of the lines."#;

/// The text below the help of `owner`.
pub(crate) const BELOW_OWNER: &str =
    r#"Members that are alive or suspect can own a key. If there are fewer of them than --n, all are printed."#;

/// The text below the help of `sim`.
pub(crate) const BELOW_SIM: &str =
    r#"A script has one command on each line, with one space between words. X and Y are addresses of nodes, I is an
incarnation, and W a weight, which is 1 if it is left out. The nodes are played in this process, without a network or
a clock.

Commands of a script:
  node X I [W]           makes the node X
  restart X I [W]        starts X again, at a greater incarnation
  at MS                  sets the time, in milliseconds
  take X Y I STATUS [W]  tells X that Y is alive, suspect, faulty, leave or tombstone at incarnation I
  leave X                has X leave
  rejoin X               has X come back
  expire X               ends one timer of X that is due, that of the least address
  members X              prints the members that X holds
  digest X               prints their digest
  owners X N KEY         prints the first N owners of a key
  send X Y               keeps the ping that X would send to Y, as the message with the next number, from 1
  deliver NUMBER         delivers that message; an answer is kept as the next message"#;

/// The text below the help of `serve`.
pub(crate) const BELOW_SERVE: &str =
    r#"The node asks the hosts to admit it, one after the other, and waits for an unresponsive one for up to five seconds.
Then it listens, prints "serving" and its address, serves REQUESTS connections, prints "done" and ends. It answers a
request with its own address, a space and the text of the request.

A node that is started again has to name a host that runs, and a greater incarnation than before. Until it listens,
pings of it fail and others may suspect it. It refutes a suspicion in its answers; if others hold it as faulty by
then, it needs rounds of its own (--period) to refute that.

If it cannot listen after a host admitted it, it stays a member until others hold it as faulty. After its last
connection it may accept others for up to 8.5 seconds, or 20.25 with --heal, until a round is complete; they get no
answer.

Nothing is authenticated: use a trusted network."#;

/// The text below the help of `agent`.
pub(crate) const BELOW_AGENT: &str =
    r#"The agent listens, prints "serving" and its address, and asks the hosts to admit it. If none answers, it serves alone
and asks again each second. A client sends a request for a key to any agent over HTTP; that agent has the application
next to the owner of the key answer it. The log goes to standard error.

POST /stop has the node leave the cluster; the agent then prints "done" and ends. SIGTERM and Ctrl-C end it without
leaving, as a crash does. Started by ringpop-run, it leaves on both.

Nothing is authenticated: use a trusted network."#;

/// The text below the help of `ask`.
pub(crate) const BELOW_ASK: &str =
    r#"A node that does not own the key refuses the request. A question waits for its answer for up to five seconds. With
--any there are two questions, and two more if the node that was taken for the owner is not the owner."#;

/// The text below the help of `members`.
pub(crate) const BELOW_MEMBERS: &str =
    r#"Without an option the output is that of fold. In "ringpop members --lines HOST | ringpop owner KEY", owner prints
nothing and ends with status 0 if members fails, unless the shell has "set -o pipefail"."#;

/// The text below the help of `tell`.
pub(crate) const BELOW_TELL: &str =
    r#"An input has at most 4,096 lines. A change that is old, or that the node refutes, does not alter the number of
members: ask members for the result."#;
