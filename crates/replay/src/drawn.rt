// Calls that are drawn at random.

// What is wrong with a call: its record fails a check, is a stranger's, or the call is refused.
#[derive(Clone, Copy, PartialEq, Eq)]
pub(crate) enum Flaw {
    Nothing,
    Currency,
    Mailbox,
    Bank,
    Sender,
    Apostrophe,
}

#[derive(Clone, Copy)]
pub(crate) struct Draw {
    pub flaw: Flaw,
    pub bank: usize,
    pub by_address: bool,
    pub sells: bool,
    // Of the record, from a small set, and of the one that it cancels.
    pub number: usize,
    pub cancels: bool,
    pub named: usize,
    pub quantity: usize,
    pub currency: usize,
}

// The first state of the generator.
const SEED: u64 = 88172645463325252;

// The next state of the generator (xorshift).
fn next(seed: u64) -> u64 {
    let a = seed ^ (seed << 13);
    let b = a ^ (a >> 7);
    b ^ (b << 17)
}

fn flaw_of(n: u64) -> Flaw {
    match n {
        0 => Flaw::Currency,
        1 => Flaw::Mailbox,
        2 => Flaw::Bank,
        3 => Flaw::Sender,
        4 => Flaw::Apostrophe,
        _ => Flaw::Nothing,
    }
}

impl Draw {
    // The call of a state, each part from bits of its own. Banks of lower rows call more often.
    fn of(seed: u64) -> Draw {
        Draw {
            flaw: flaw_of((seed >> 8) % 16),
            bank: (seed % 16).min((seed >> 4) % 16) as usize,
            by_address: (seed >> 58) % 4 == 0,
            sells: (seed >> 61) % 2 == 0,
            number: ((seed >> 12) % 80) as usize,
            cancels: (seed >> 56) % 4 == 0,
            named: ((seed >> 24) % 80) as usize,
            quantity: ((seed >> 36) % 100) as usize,
            currency: ((seed >> 48) % 3) as usize,
        }
    }

    // Whether the record passes the sender check for a bank, in a call that is not refused.
    pub(crate) fn passes_for(self, bank: usize) -> bool {
        matches!(self.flaw, Flaw::Nothing | Flaw::Currency) && self.bank == bank
    }
}

// The calls, without end: each call is drawn from the state that follows the one before.
#[derive(Drop)]
pub(crate) struct Draws {
    seed: u64,
}

impl Draws {
    // All calls, from the first on.
    pub(crate) fn new() -> Draws {
        Draws { seed: SEED }
    }
}

impl Iterator for Draws {
    type Item = Draw;

    fn next(&mut self) -> Option<Draw> {
        let drawn = Draw::of(self.seed);
        self.seed = next(self.seed);
        Some(drawn)
    }
}
