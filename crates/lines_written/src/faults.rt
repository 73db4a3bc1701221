// The line for a line that is no call, as bytes: docs/ORACLE.md, "Answer lines", the reasons. No `Display`, as `texts` says.
#![tactic(auto)]

ghost use Rattle.std.specs.Prelude.{◌≡◌};
ghost use Rattle.texts.specs.Text.{put};
ghost use Rattle.lines_written.specs.faults.Faults.{fault_text};

use call_lines::Fault;
use texts::Output;

#[tactic(auto, unfolding(crate::specs::faults::Faults::fault_text))]
fn reason(fault: Fault) -> &'static [u8]
    ensures { result.now ≡ fault_text fault }
{
    match fault {
        Fault::NotDecimal => b"bad line: not decimal numbers\n",
        Fault::NumberAboveLimit => b"bad line: number above 18446744073709551615\n",
        Fault::TooLong => b"bad line: too long\n",
        Fault::UnknownKind => b"bad line: unknown kind\n",
        Fault::WrongCount => b"bad line: wrong count of numbers\n",
        Fault::NotFlag => b"bad line: not a flag\n",
        Fault::NoSuchMode => b"bad line: no such mode\n",
        Fault::NoSuchPromise => b"bad line: no such promise\n",
        Fault::PlaceAboveLimit => b"bad line: table place above its limit\n",
    }
}

pub fn put_fault(out: &mut Output, fault: Fault)
    ensures { out.new ≡ put (fault_text fault) out.old }
{
    out.put_bytes(reason(fault));
}
