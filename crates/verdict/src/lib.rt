// Why inputs are refused. The outcome of a check is a `Result<(), Refusal>`.
#![tactic(auto)]

ghost use Rattle.std.specs.Prelude.{◌≡◌, Some};
ghost use Rattle.verdict.specs.Verdict.{number_of, fault_of};
ghost use Rattle.verdict.specs.Text.{refusal_text};

use std::fmt;

// One case for each item of docs/SPEC.md, "Reasons", with W, the number of the node or edit at fault, where the item names one.
#[derive(Clone, Copy, PartialEq, Eq, Debug)]
pub enum Refusal {
    BufferLength,
    File,
    SiteLength,
    Names,
    Labels,
    Links,
    ConditionLength,
    MalformedNode(u16),
    EvenRule(u16),
    FreeVariable(u16),
    SheetLength,
    MalformedEdit(u16),
    NotThrough(u16),
    TableFull,
    Rounds,
    Limit,
    Start,
    Edition,
}

impl Refusal {
    // The number of the item.
    pub fn number(self) -> u8
        ensures { result ≡ number_of self }
    {
        match self {
            Refusal::BufferLength => 1,
            Refusal::File => 2,
            Refusal::SiteLength => 3,
            Refusal::Names => 4,
            Refusal::Labels => 5,
            Refusal::Links => 6,
            Refusal::ConditionLength => 7,
            Refusal::MalformedNode(_) => 8,
            Refusal::EvenRule(_) => 9,
            Refusal::FreeVariable(_) => 10,
            Refusal::SheetLength => 11,
            Refusal::MalformedEdit(_) => 12,
            Refusal::NotThrough(_) => 13,
            Refusal::TableFull => 14,
            Refusal::Rounds => 15,
            Refusal::Limit => 16,
            Refusal::Start => 17,
            Refusal::Edition => 18,
        }
    }

    // W, 0 where the item names no node or edit.
    pub fn fault(self) -> u16
        ensures { result ≡ fault_of self }
    {
        match self {
            Refusal::MalformedNode(w)
            | Refusal::EvenRule(w)
            | Refusal::FreeVariable(w)
            | Refusal::MalformedEdit(w)
            | Refusal::NotThrough(w) => w,
            _ => 0,
        }
    }
}

impl fmt::Display for Refusal {
    ghost output = { λ r. Some (refusal_text r) };

    fn fmt<W: fmt::Write>(&self, f: &mut fmt::Formatter<W>) -> fmt::Result {
        write!(f, "refused {} {}", self.number(), self.fault())
    }
}
