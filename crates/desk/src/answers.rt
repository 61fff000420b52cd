// The answers in numbers. In each the reason is the number of the item that is met, 0 where none is, and the fault is W. Where an item is met
// the other numbers are 0.
ghost use Rattle.std.specs.Prelude.{◌≡◌};
ghost use Rattle.verdict.specs.Verdict.{outcome, reason_of, where_of};
ghost use Rattle.listing.specs.Listed.{found_of};
ghost use Rattle.list_entry.specs.Answer.{found_in};
ghost use Rattle.chain_entry.specs.Answer as chaining;
ghost use Rattle.rewriting.specs.Answer as rewriting;
ghost use Rattle.classes_entry.specs.Answer as classing;
ghost use Rattle.job_run.specs.Answer.{after_of, today_of, nodes_of, classes_of};

use job_run::Report;
use listing::Found;
use verdict::Refusal;

const NOTHING_FOUND: Found = Found {
    count: 0,
    rounds: 0,
};

fn reason_and_fault<T>(answer: &Result<T, Refusal>) -> (u32, u32)
    ensures reason { result.0 ≡ reason_of (outcome answer.now) }
    ensures fault { result.1 ≡ where_of (outcome answer.now) }
{
    match answer {
        Ok(_) => (0, 0),
        Err(refusal) => (u32::from(refusal.number()), u32::from(refusal.fault())),
    }
}

// The rounds are those that listing made.
#[repr(C)]
#[derive(Clone, Copy)]
pub struct ListAnswer {
    pub reason: u32,
    pub fault: u32,
    pub count: u32,
    pub rounds: u32,
}

impl From<Result<Found, Refusal>> for ListAnswer {
    ghost from_gives = { λ r a. (a.reason ≡ reason_of (outcome r)) × (a.fault ≡ where_of (outcome r)) × (found_of a.count a.rounds ≡ found_in r) };

    fn from(answer: Result<Found, Refusal>) -> ListAnswer {
        let (reason, fault) = reason_and_fault(&answer);
        let found = answer.unwrap_or(NOTHING_FOUND);
        ListAnswer {
            reason,
            fault,
            count: found.count,
            rounds: found.rounds,
        }
    }
}

#[repr(C)]
#[derive(Clone, Copy)]
pub struct ApplyAnswer {
    pub reason: u32,
    pub fault: u32,
}

impl From<Result<(), Refusal>> for ApplyAnswer {
    ghost from_gives = { λ r a. (a.reason ≡ reason_of r) × (a.fault ≡ where_of r) };

    fn from(answer: Result<(), Refusal>) -> ApplyAnswer {
        let (reason, fault) = reason_and_fault(&answer);
        ApplyAnswer { reason, fault }
    }
}

#[repr(C)]
#[derive(Clone, Copy)]
pub struct RewriteAnswer {
    pub reason: u32,
    pub fault: u32,
    pub nodes: u32,
}

impl From<Result<u32, Refusal>> for RewriteAnswer {
    ghost from_gives = { λ r a. (a.reason ≡ reason_of (outcome r)) × (a.fault ≡ where_of (outcome r)) × (a.nodes ≡ rewriting.nodes_of r) };

    fn from(answer: Result<u32, Refusal>) -> RewriteAnswer {
        let (reason, fault) = reason_and_fault(&answer);
        RewriteAnswer {
            reason,
            fault,
            nodes: answer.unwrap_or(0),
        }
    }
}

#[repr(C)]
#[derive(Clone, Copy)]
pub struct ClassesAnswer {
    pub reason: u32,
    pub fault: u32,
    pub count: u32,
}

impl From<Result<u32, Refusal>> for ClassesAnswer {
    ghost from_gives = { λ r a. (a.reason ≡ reason_of (outcome r)) × (a.fault ≡ where_of (outcome r)) × (a.count ≡ classing.count_of r) };

    fn from(answer: Result<u32, Refusal>) -> ClassesAnswer {
        let (reason, fault) = reason_and_fault(&answer);
        ClassesAnswer {
            reason,
            fault,
            count: answer.unwrap_or(0),
        }
    }
}

// Whether a chain is given, 1 or 0, and how many steps it has.
#[repr(C)]
#[derive(Clone, Copy)]
pub struct ChainAnswer {
    pub reason: u32,
    pub fault: u32,
    pub found: u32,
    pub steps: u32,
}

impl From<Result<Option<u32>, Refusal>> for ChainAnswer {
    ghost from_gives = { λ r a. (a.reason ≡ reason_of (outcome r)) × (a.fault ≡ where_of (outcome r)) × (a.found ≡ chaining.found_of r) × (a.steps ≡ chaining.steps_of r) };

    fn from(answer: Result<Option<u32>, Refusal>) -> ChainAnswer {
        let (reason, fault) = reason_and_fault(&answer);
        let (found, steps) = match answer {
            Ok(Some(steps)) => (1, steps),
            _ => (0, 0),
        };
        ChainAnswer {
            reason,
            fault,
            found,
            steps,
        }
    }
}

// The slots listed on the site after and today, the rewritten nodes, the different class numbers, and the rounds of the two lists.
#[repr(C)]
#[derive(Clone, Copy)]
pub struct JobAnswer {
    pub reason: u32,
    pub fault: u32,
    pub after: u32,
    pub today: u32,
    pub nodes: u32,
    pub classes: u32,
    pub after_rounds: u32,
    pub today_rounds: u32,
}

impl From<Result<Report, Refusal>> for JobAnswer {
    ghost from_gives = { λ r a. (a.reason ≡ reason_of (outcome r)) × (a.fault ≡ where_of (outcome r)) × (found_of a.after a.after_rounds ≡ after_of r) × (found_of a.today a.today_rounds ≡ today_of r) × (a.nodes ≡ nodes_of r) × (a.classes ≡ classes_of r) };

    fn from(answer: Result<Report, Refusal>) -> JobAnswer {
        let (reason, fault) = reason_and_fault(&answer);
        let report = answer.unwrap_or(Report {
            after: NOTHING_FOUND,
            today: NOTHING_FOUND,
            nodes: 0,
            classes: 0,
        });
        JobAnswer {
            reason,
            fault,
            after: report.after.count,
            today: report.today.count,
            nodes: report.nodes,
            classes: report.classes,
            after_rounds: report.after.rounds,
            today_rounds: report.today.rounds,
        }
    }
}
