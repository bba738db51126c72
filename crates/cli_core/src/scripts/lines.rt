//! The commands of a script's lines.
ghost use Rattle.std.specs.Prelude.{◌≡◌, ◌↔◌, ℕ, List, Some, None, IfSome};
ghost use Rattle.change_core.specs.declared.changes.Change.{Change};
ghost use Rattle.change_core.specs.Numbers.{greatest_number};
ghost use Rattle.cli_core.specs.declared.scripts.lines.Birth.{Birth};
ghost use Rattle.cli_core.specs.declared.scripts.lines.Command.{Command};
ghost use Rattle.cli_core.specs.declared.scripts.lines.Verb.{Verb};
ghost use Rattle.cli_core.specs.ScriptLines.{Addresses, CountsOwners, HasArguments, IsAddressed, IsBirth, IsChange, IsCommand, IsNumber, verb_of, verb_word};

use crate::scripts::readers::{LineRest, read_address, read_number, read_text};
use change_core::{Address, Change, Incarnation, MAX_MEMBERS, Moment, Weight};

/// The arguments with which a node is made.
#[derive(Clone, Copy)]
pub struct Birth {
    pub address: Address,
    pub incarnation: Incarnation,
    pub weight: Weight,
}

/// A call of a node.
#[derive(Clone, Copy)]
pub enum Question<'a> {
    /// To process a change with its subject as its source.
    Take(Change),
    Leave,
    Rejoin,
    /// To apply one change that is due.
    Expire,
    Members,
    Digest,
    /// The first owners of a key: their number, and the key.
    Owners(usize, &'a [u8]),
}

/// The command of a line.
#[derive(Clone, Copy)]
pub enum Command<'a> {
    /// A node is made.
    Node(Birth),
    /// The script's moment is set.
    At(Moment),
    /// The node of an address is asked.
    Ask(Address, Question<'a>),
    /// The ping of the first address to the second is kept.
    Send(Address, Address),
    /// The message of this number is received.
    Deliver(u64),
    /// A node starts again.
    Restart(Birth),
}

/// The first word of a line.
#[derive(Clone, Copy)]
enum Verb {
    Node,
    At,
    Take,
    Leave,
    Rejoin,
    Expire,
    Members,
    Digest,
    Owners,
    Send,
    Deliver,
    Restart,
}

impl Verb {
    /// Reads a first word.
    fn parse(word: &str) -> Option<Verb>
        ensures { (v : Verb) → (result ≡ Some v) ↔ (word.now ≡ verb_word v) }
    {
        match word {
            "node" => Some(Verb::Node),
            "at" => Some(Verb::At),
            "take" => Some(Verb::Take),
            "leave" => Some(Verb::Leave),
            "rejoin" => Some(Verb::Rejoin),
            "expire" => Some(Verb::Expire),
            "members" => Some(Verb::Members),
            "digest" => Some(Verb::Digest),
            "owners" => Some(Verb::Owners),
            "send" => Some(Verb::Send),
            "deliver" => Some(Verb::Deliver),
            "restart" => Some(Verb::Restart),
            _ => None,
        }
    }
}

/// Reads the command of a line. None if the line is not a command: it has another first word, or its arguments are not
/// those of the command.
pub fn read_command(line: &[u8]) -> Option<Command<'_>>
    ensures read { IfSome result (λ c. IsCommand c line.now) }
    ensures none { result ≡ None → (c : Command) → IsCommand c line.now → ⊥ }
{
    let mut words = LineRest { rest: line };
    let word = words.word()?;
    let text = read_text(word)?;
    let verb = Verb::parse(text)?;
    read_arguments(verb, words)
}

/// Reads the arguments after a first word.
fn read_arguments(verb: Verb, mut words: LineRest<'_>) -> Option<Command<'_>>
    ensures read { IfSome result (λ c. (verb_of c ≡ verb) × HasArguments c words.entry.rest.now) }
    ensures none { result ≡ None → (c : Command) → verb_of c ≡ verb → HasArguments c words.entry.rest.now → ⊥ }
{
    match verb {
        Verb::Node => Some(Command::Node(read_birth(&mut words)?)),
        Verb::At => Some(Command::At(read_moment(words.rest)?)),
        Verb::Take => {
            let (node, change) = read_take(&mut words)?;
            Some(Command::Ask(node, Question::Take(change)))
        }
        Verb::Leave => Some(Command::Ask(read_address(words.rest)?, Question::Leave)),
        Verb::Rejoin => Some(Command::Ask(read_address(words.rest)?, Question::Rejoin)),
        Verb::Expire => Some(Command::Ask(read_address(words.rest)?, Question::Expire)),
        Verb::Members => Some(Command::Ask(read_address(words.rest)?, Question::Members)),
        Verb::Digest => Some(Command::Ask(read_address(words.rest)?, Question::Digest)),
        Verb::Owners => {
            let (node, count) = read_owners(&mut words)?;
            Some(Command::Ask(node, Question::Owners(count, words.rest)))
        }
        Verb::Send => {
            let (node, target) = read_send(&mut words)?;
            Some(Command::Send(node, target))
        }
        Verb::Deliver => Some(Command::Deliver(read_number(words.rest)?)),
        Verb::Restart => Some(Command::Restart(read_birth(&mut words)?)),
    }
}

/// An address, an incarnation and a weight.
fn read_birth(words: &mut LineRest<'_>) -> Option<Birth>
    ensures read { IfSome result (λ b. IsBirth b words.old.rest.now) }
    ensures none { result ≡ None → (b : Birth) → IsBirth b words.old.rest.now → ⊥ }
{
    let address = words.address()?;
    let (incarnation, weight) = words.incarnation()?;
    Some(Birth {
        address,
        incarnation,
        weight,
    })
}

fn read_moment(word: &[u8]) -> Option<Moment>
    ensures read { IfSome result (λ m. IsNumber greatest_number m word.now) }
    ensures none { result ≡ None → (m : ℕ) → IsNumber greatest_number m word.now → ⊥ }
{
    let number = read_number(word)?;
    Moment::new(number)
}

/// A node, and the change that it is to take: its address, incarnation, status and weight.
fn read_take(words: &mut LineRest<'_>) -> Option<(Address, Change)>
    ensures read { IfSome result (λ p. Addresses p.0 (IsChange p.1) words.old.rest.now) }
    ensures none { result ≡ None → (a : ℕ) (c : Change) → Addresses a (IsChange c) words.old.rest.now → ⊥ }
{
    let node = words.address()?;
    let change = read_change(words)?;
    Some((node, change))
}

fn read_change(words: &mut LineRest<'_>) -> Option<Change>
    ensures read { IfSome result (λ c. IsChange c words.old.rest.now) }
    ensures none { result ≡ None → (c : Change) → IsChange c words.old.rest.now → ⊥ }
{
    let address = words.address()?;
    let number = words.number()?;
    let incarnation = Incarnation::new(number)?;
    let (status, weight) = words.status()?;
    Some(Change {
        address,
        incarnation,
        status,
        weight,
    })
}

/// Reads a node, and how many owners; the key is the rest.
fn read_owners(words: &mut LineRest<'_>) -> Option<(Address, usize)>
    ensures read { IfSome result (λ p. CountsOwners p.0 p.1 words.new.rest.now words.old.rest.now) }
    ensures none { result ≡ None → (a count : ℕ) (key : List ℕ) → CountsOwners a count key words.old.rest.now → ⊥ }
{
    let node = words.address()?;
    let count = words.number()?;
    if count > MAX_MEMBERS as u64 {
        return None;
    }
    Some((node, count as usize))
}

/// Reads a node, and its ping's target.
fn read_send(words: &mut LineRest<'_>) -> Option<(Address, Address)>
    ensures read { IfSome result (λ p. Addresses p.0 (IsAddressed p.1) words.old.rest.now) }
    ensures none { result ≡ None → (a b : ℕ) → Addresses a (IsAddressed b) words.old.rest.now → ⊥ }
{
    let node = words.address()?;
    let target = read_address(words.rest)?;
    Some((node, target))
}
