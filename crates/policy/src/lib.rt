// The policy file: the lengths of its records, its limits, and the ranges of its values. What it means stands in specs/.
#![tactic(auto)]

ghost use Rattle.std.specs.Prelude.{◌≡◌};
ghost use Rattle.snapshot.specs.Ranges.{any_of};
ghost use Rattle.policy.specs.Policy.{clause_asn_tests};

// The bytes of a session's record, of the clauses', and of the record that sets MED: kind byte and body.
pub const SESSION_SIZE: usize = 6;

pub const EXACT_SIZE: usize = 10;

pub const DIRECT_SIZE: usize = 9;

pub const ANY_SIZE: usize = 5;

pub const ZERO_SIZE: usize = 1;

// The most sessions of a policy, and clauses of a session.
pub const MOST_SESSIONS: u32 = 64;

pub const MOST_CLAUSES: u32 = 32;

// The preference of a session or route that no clause fits.
pub const USUAL: u32 = 100;

// Whether a neighbour AS of a clause is outside its range.
pub fn clause_asn_bad(asn: u32) -> bool
    ensures { result ≡ any_of (clause_asn_tests asn) }
{
    (asn == 0) | (snapshot::LAST_ASN < asn)
}
