// The numbers of refusals, which documents 01 and 02 give.
#![tactic(auto)]

ghost use Rattle.std.specs.Prelude.{◌≡◌, ℕ};
ghost use Rattle.basics.specs.refusals.Refusals.{refusal};

// Why something is refused. Each cause has a number, of document 01 or of document 02.
pub trait Refused {
    ghost refusal_number: { Self → ℕ };

    fn number(self) -> u64
        ensures { result ≡ refusal_number self };
}

// The number of what refuses, and 0 where nothing is refused.
pub fn refusal<T: Drop, E: Refused>(given: Result<T, E>) -> u64
    ensures { result ≡ refusal E.refusal_number given }
{
    match given {
        Ok(_) => 0,
        Err(why) => why.number(),
    }
}
