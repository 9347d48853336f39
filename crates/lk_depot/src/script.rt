//! Which calls of a form in memory are to fail.
#![tactic(auto)]

ghost use Rattle.std.specs.Prelude.{◌≡◌};
ghost use Rattle.lk_depot.specs.Faults.{next_count, is_listed};

/// The calls that are to fail, by number from 0, and how many calls there were.
#[derive(Drop)]
pub struct Script {
    pub fails: Vec<u64>,
    pub calls: u64,
}

impl Script {
    /// Counts a call, and says whether it is to fail.
    pub fn next_fails(&mut self) -> bool
        ensures listed { result ≡ is_listed self.old.fails.items self.old.calls }
        ensures after { self.new ≡ record self.old { calls = next_count self.old.calls } }
    {
        let call = self.calls;
        self.calls = call.saturating_add(1);
        self.fails.contains(&call)
    }
}
