// For random group runs: a generator, and a log with the check of demand 3's claim on it.
#![tactic(auto)]

ghost use Rattle.std.specs.Prelude.{◌≡◌, length, min};
ghost use Rattle.std.specs.List.{list_all, list_any};
ghost use Rattle.group_runs.specs.run_checks.Random.{next_random};
ghost use Rattle.group_runs.specs.run_checks.Log.{proposal_event, commit_event, is_commit, is_commit_of, agrees_with_commit, is_proposal_of, slot_of, events_allow, passes, new_log, logged, log_events, slot_in};

// The next number of Marsaglia's generator xorshift64. From a seed other than 0 it goes through every number but 0.
pub fn next_random(x: u64) -> u64
    ensures { result ≡ next_random x }
{
    let a = x ^ (x << 13);
    let b = a ^ (a >> 7);
    b ^ (b << 17)
}

#[derive(Clone, Copy, PartialEq, Eq, Debug, Default)]
pub enum Kind {
    #[default]
    Proposal,
    Commit,
}

// What the log keeps of a call: a proposal that was not refused, with the slot of its member, or a commit, with the slot that it names.
#[derive(Clone, Copy, PartialEq, Eq, Debug, Default)]
pub struct Event {
    pub kind: Kind,
    pub member: u64,
    pub slot: u64,
    pub v: u64,
}

impl Event {
    fn is_commit(&self) -> bool
        ensures { result ≡ is_commit self.now }
    {
        self.kind == Kind::Commit
    }

    fn is_commit_of(&self, member: u64) -> bool
        ensures { result ≡ is_commit_of member self.now }
    {
        self.is_commit() && self.member == member
    }

    // Where an earlier event is a commit of the slot, it has the value.
    #[tactic(auto, unfolding(crate::specs::run_checks::Log::agrees_with_commit))]
    fn agrees(&self, earlier: &Event) -> bool
        ensures { result ≡ agrees_with_commit self.now earlier.now }
    {
        !earlier.is_commit() || earlier.slot != self.slot || earlier.v == self.v
    }

    // An earlier event is a proposal of the value in the slot.
    #[tactic(auto, unfolding(crate::specs::run_checks::Log::is_proposal_of))]
    fn proposes(&self, earlier: &Event) -> bool
        ensures { result ≡ is_proposal_of self.now earlier.now }
    {
        !earlier.is_commit() && earlier.slot == self.slot && earlier.v == self.v
    }

    fn all_agree(&self, earlier: &[Event]) -> bool
        ensures { result ≡ list_all (agrees_with_commit self.now) earlier.now }
    {
        earlier.iter().all(|x| self.agrees(x))
    }

    fn one_proposes(&self, earlier: &[Event]) -> bool
        ensures { result ≡ list_any (is_proposal_of self.now) earlier.now }
    {
        earlier.iter().any(|x| self.proposes(x))
    }

    // Each proposal may come after the earlier events, and a commit that agrees with them, has a value that was
    // proposed in its slot, and is of its member's slot.
    #[tactic(auto, using(crate::proofs::run_checks::Counted::all_listed, crate::proofs::run_checks::Counted::any_listed), unfolding(crate::specs::run_checks::Log::events_allow))]
    fn may_follow(&self, earlier: &[Event]) -> bool
        ensures { result ≡ events_allow self.now earlier.now (length earlier.now) }
    {
        !self.is_commit()
            || self.all_agree(earlier)
                && self.one_proposes(earlier)
                && slot_of(self.member, earlier) == self.slot
    }
}

// A member's slot after some events: the number of its commits among them.
#[tactic(auto, using(crate::proofs::run_checks::Counted::count_listed))]
fn slot_of(member: u64, events: &[Event]) -> u64
    ensures { result ≡ slot_of member events.now (length events.now) }
{
    events.iter().filter(|x| x.is_commit_of(member)).count() as u64
}

// The events in their order, in the first count places. One that comes where 256 are there is not kept. An array with a count and no ArrayVec, which is not Copy.
#[derive(Clone, Copy)]
pub struct Log {
    pub events: [Event; 256],
    pub count: usize,
}

impl Log {
    pub fn new() -> Log
        ensures { result ≡ new_log }
    {
        let none = Event {
            kind: Kind::Proposal,
            member: 0,
            slot: 0,
            v: 0,
        };
        Log {
            events: [none; 256],
            count: 0,
        }
    }

    // The events that are kept. Any number may stand in count.
    #[tactic(auto, unfolding(crate::specs::run_checks::Log::log_events))]
    fn events(&self) -> &[Event]
        ensures { result.now ≡ log_events self.now }
    {
        &self.events[..self.count.min(256)]
    }

    #[tactic(auto, unfolding(crate::specs::run_checks::Log::logged))]
    fn add(&mut self, e: Event)
        ensures { self.new ≡ logged self.old e }
    {
        if self.count < 256 {
            self.events[self.count] = e;
            self.count += 1;
        }
    }

    // A member's slot: the number of its commits.
    pub fn slot_of(&self, member: u64) -> u64
        ensures { result ≡ slot_in self.now member }
    {
        slot_of(member, self.events())
    }

    pub fn proposed(&mut self, member: u64, v: u64)
        ensures { self.new ≡ logged self.old (proposal_event member (slot_in self.old member) v) }
    {
        let slot = self.slot_of(member);
        self.add(Event {
            kind: Kind::Proposal,
            member,
            slot,
            v,
        });
    }

    pub fn committed(&mut self, member: u64, slot: u64, v: u64)
        ensures { self.new ≡ logged self.old (commit_event member slot v) }
    {
        self.add(Event {
            kind: Kind::Commit,
            member,
            slot,
            v,
        });
    }

    // Whether each commit agrees with the earlier ones, has a value that was proposed in its slot, and is of its member's slot.
    #[tactic(auto, using(crate::proofs::run_checks::Checked::passes_next, crate::proofs::run_checks::Checked::passes_stops), unfolding(crate::specs::run_checks::Log::passes))]
    pub fn passes(&self) -> bool
        ensures { result ≡ passes (log_events self.now) (length (log_events self.now)) }
    {
        let events = self.events();
        for (i, e) in events.iter().enumerate() {
            if !e.may_follow(&events[..i]) {
                return false;
            }
        }
        true
    }
}
