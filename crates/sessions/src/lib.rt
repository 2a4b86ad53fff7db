// One pass over a policy file: the whole input is judged, record by record, and of what was read only the latest session is kept.
#![tactic(auto)]

ghost use Rattle.std.specs.Prelude.{◌≡◌, ◌+◌, ◌≤◌, ◌<◌, length, get_or};
ghost use Rattle.cursor.specs.Steps.{finding, body_of, body_length, opening_checks};
ghost use Rattle.policy.specs.Policy.{policy_forms, most_sessions, most_clauses};
ghost use Rattle.policy.specs.Reading.{reading};
ghost use Rattle.sessions.specs.Sessions.{said, said_of, astray_of, full_of, session_faults, faults_of, next_of, Known, Listed, Entered, Follows};

use cursor::Cursor;
use refusal::{Refusal, Refused};

// What was read so far says about the next record: the number of sessions, and of the latest its router, its peer address, whether
// nothing but its name was read, and the number of its clauses.
#[derive(Clone, Copy, Default)]
struct Latest {
    sessions: u32,
    router: u32,
    peer: u32,
    bare: bool,
    clauses: u32,
}

// Kinds 0 and 7 to 255 are refused as KIND.
fn body_length(kind: u8) -> Result<usize, Refusal>
    ensures { result ≡ body_of policy_forms kind }
{
    match kind {
        1 => Ok(5),
        2 => Ok(9),
        3 => Ok(8),
        4 => Ok(4),
        5 => Ok(0),
        6 => Ok(4),
        0 | 7..=255 => Err(Refusal::Kind),
    }
}

impl Latest {
    // The checks of a record before its values. PLACE: no session before it, or a kind 5 not right behind its session. FULL: a 65th
    // session, or a 33rd clause.
    fn opening(self, c: Cursor, input: &[u8], kind: u8) -> Result<(), Refused>
        requires { get_or input.now c.at 0 ≡ kind }
        ensures { result ≡ finding c.at (opening_checks policy_forms input.now c.at kind (astray_of kind self) (full_of kind self)) }
    {
        let astray = (kind != 1) & ((self.sessions == 0) | ((kind == 5) & !self.bare));
        let full = ((kind == 1) & (policy::MOST_SESSIONS <= self.sessions))
            | ((kind != 1) & (kind != 5) & (policy::MOST_CLAUSES <= self.clauses));
        c.opens(input, body_length(kind), kind, astray, full)
    }

    // A session's peer address is not 0, and it rises above the latest session, by router, then peer address. Before the first both are 0.
    fn session_faults(self, c: Cursor, router: u32, peer: u32) -> Result<(), Refused>
        ensures { result ≡ finding c.at (session_faults self router peer) }
    {
        let order = !snapshot::late(self.router, self.peer, router, peer);
        c.demand(peer != 0, Refusal::Field)?;
        c.demand(order, Refusal::Order)
    }

    // The checks of a record's values, by its kind.
    fn faults(self, c: Cursor, input: &[u8], kind: u8) -> Result<(), Refused>
        requires { c.at + body_length policy_forms kind < length input.now }
        ensures { result ≡ finding c.at (faults_of kind self input.now c.at) }
    {
        let at = c.at;
        match kind {
            1 => self.session_faults(c, wire::get8(input, at + 1), wire::get32(input, at + 2)),
            2 => {
                let bad = snapshot::prefix_bad(
                    wire::get32(input, at + 1),
                    wire::get8(input, at + 5),
                );
                c.demand(!bad, Refusal::Field)
            }
            3 => {
                let bad = policy::clause_asn_bad(wire::get32(input, at + 1));
                c.demand(!bad, Refusal::Field)
            }
            _ => Ok(()),
        }
    }

    // What is kept behind a record, by its kind.
    fn next(self, input: &[u8], at: usize, kind: u8) -> Latest
        requires { (at + body_length policy_forms kind < length input.now) × (self.sessions ≤ most_sessions) × (self.clauses ≤ most_clauses) }
        ensures { result ≡ next_of kind self input.now at }
    {
        match kind {
            1 => Latest {
                sessions: self.sessions + 1,
                router: wire::get8(input, at + 1),
                peer: wire::get32(input, at + 2),
                bare: true,
                clauses: 0,
            },
            5 => Latest {
                bare: false,
                ..self
            },
            _ => Latest {
                bare: false,
                clauses: self.clauses + 1,
                ..self
            },
        }
    }
}

// A record of the kinds 1 to 5, of so many bytes.
fn entry(
    c: Cursor,
    input: &[u8],
    k: Latest,
    kind: u8,
    size: usize,
) -> Result<(Cursor, Latest), Refused>
    requires { Known input.now c k × Listed kind size × (get_or input.now c.at 0 ≡ kind) }
    ensures { Entered input.now c result }
{
    k.opening(c, input, kind)?;
    k.faults(c, input, kind)?;
    Ok((c.past(size), k.next(input, c.at, kind)))
}

// One record, with which the next follows; whatever is none of an entry must be the end.
fn one_record(c: Cursor, input: &[u8], k: Latest) -> Result<Option<(Cursor, Latest)>, Refused>
    requires { Known input.now c k }
    ensures { Follows input.now c result }
{
    let kind = cursor::kind_at(input, c.at);
    match kind {
        1 => entry(c, input, k, 1, policy::SESSION_SIZE).map(Some),
        2 => entry(c, input, k, 2, policy::EXACT_SIZE).map(Some),
        3 => entry(c, input, k, 3, policy::DIRECT_SIZE).map(Some),
        4 => entry(c, input, k, 4, policy::ANY_SIZE).map(Some),
        5 => entry(c, input, k, 5, policy::ZERO_SIZE).map(Some),
        _ => {
            c.ends(input, body_length(kind))?;
            Ok(None)
        }
    }
}

// Judges a whole input: it is a policy file, or it earns a refusal. The loop is that of scan's last section: one function for both, over a
// closure, would need a trait that says what is known at a place, and be longer.
pub fn judge(input: &[u8]) -> Result<(), Refused>
    ensures { said result ≡ said_of (reading input.now) }
{
    let mut c = Cursor::default();
    let mut k = Latest {
        bare: true,
        ..Default::default()
    };
    while let Some((next, more)) = one_record(c, input, k)? {
        c = next;
        k = more;
    }
    Ok(())
}
