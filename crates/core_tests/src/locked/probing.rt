//! Rounds of gossip in which no other node answers: of 2n - 1 of them one ends with each member.
ghost use Rattle.locked_node.specs.Passes.{Fits};

use crate::locked::nodes::{Caller, Shared, alone, hear, let_go};
use crate::shared::{B, C, D, Waiter, address, made, moment};
use laws::completeness;
use locked_node::{Address, Message, Status, SumHash};
use peer_core::{Link, LinkError, Round, gossip_round};
use std::alloc::Global;
use std::sync::Wait;

/// A link that reaches no node.
#[derive(Drop)]
pub(crate) struct Cut {
    failures: u64,
}

impl Cut {
    pub(crate) fn new() -> Cut {
        Cut { failures: 0 }
    }
}

impl Link for Cut {
    ghost may_answer = { λ _ _ _. Unit {0} };

    ghost went = { λ _ _ _ _ _. Unit {0} };

    ghost failed = { λ c. c.failures };

    fn failures(&self) -> u64 {
        self.failures
    }

    fn call<R: Wait>(
        &mut self,
        _rt: &R,
        _alloc: Global,
        _to: Address,
        _message: &Message,
    ) -> Result<Message, LinkError> {
        if self.failures == u64::MAX {
            return Err(LinkError::Spent);
        }
        self.failures += 1;
        Err(LinkError::Io)
    }
}

/// Makes one round; once more if an allocation failed.
fn round(rt: &impl Waiter, node: &Shared, pass: &mut Caller, link: &mut Cut) -> Round
    requires { Fits node.now pass.old }
    ensures { Fits node.now pass.new }
{
    let now = moment(rt, 0);
    made!(rt, gossip_round(rt, rt.alloc(), node, pass, link, now))
}

/// Whether a round ends with the address as suspected, or as one of which no helper could tell.
fn finds(round: &Round, sought: Address) -> bool {
    match round {
        Round::Suspected(found) | Round::Inconclusive(found) => *found == sought,
        _ => false,
    }
}

/// Which of three members were found, once this round ended.
fn noted(found: [bool; 3], done: &Round, sought: &[Address; 3]) -> [bool; 3] {
    [
        found[0] || finds(done, sought[0]),
        found[1] || finds(done, sought[1]),
        found[2] || finds(done, sought[2]),
    ]
}

/// Makes five rounds, and checks that each of three members is found.
fn check_rounds(rt: &impl Waiter, node: &Shared, pass: &mut Caller)
    requires { Fits node.now pass.old }
    ensures { Fits node.now pass.new }
{
    let mut link = Cut::new();
    let sought = [address(rt, B), address(rt, C), address(rt, D)];
    let mut found = [false; 3];
    for i in 0..5u64 {
        let _ = i;
        let done = round(rt, node, pass, &mut link);
        found = noted(found, &done, &sought);
    }
    assert!(rt; found == [true; 3]);
}

#[test]
fn five_rounds_find_each_of_three_members(rt: HostRuntime) {
    completeness::<SumHash, Cut>();
    let (node, mut pass) = alone(&rt);
    hear(&rt, &node, &mut pass, (B, 1, Status::Alive));
    hear(&rt, &node, &mut pass, (C, 1, Status::Alive));
    hear(&rt, &node, &mut pass, (D, 1, Status::Alive));
    check_rounds(&rt, &node, &mut pass);
    let_go(node, pass);
}
