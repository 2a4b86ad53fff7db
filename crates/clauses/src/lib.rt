// A policy file that was judged sound is walked again to apply it: its sessions, their clauses, and the first that fits.
#![tactic(auto)]

ghost use Rattle.std.specs.Prelude.{◌≡◌, true, ◌≤◌, length, map, take, drop, if◌then◌else◌, Some, None};
ghost use Rattle.policy.specs.Policy.{most_clauses};
ghost use Rattle.policy.specs.Rewriting.{fits, preferred};
ghost use Rattle.clauses.specs.Walking.{clause_at, size_at, is_clause, clauses_from, behind_clauses, clause_of, is_session, named_at};

// A session's name, whether MED is set to 0 on it, and where its first clause stands.
#[derive(Clone, Copy)]
pub struct Named {
    pub router: u32,
    pub peer: u32,
    pub zero: bool,
    pub first: usize,
}

// The routes that a clause is for: those of one prefix, those whose path is one AS alone, or all.
#[derive(Clone, Copy)]
pub enum Scope {
    Prefix { address: u32, bits: u32 },
    Direct { asn: u32 },
    All,
}

// A clause, and the preference that it gives.
#[derive(Clone, Copy)]
pub struct Clause {
    pub scope: Scope,
    pub preference: u32,
}

// What clauses look at of a route: its prefix, the number of ASes in its path, and its neighbour.
#[derive(Clone, Copy)]
pub struct Announced {
    pub address: u32,
    pub bits: u32,
    pub path: u32,
    pub neighbour: u32,
}

// The bytes of a preference, with which each clause ends.
const PREFERENCE_SIZE: usize = 4;

// The most clauses that are taken apart.
const MOST_CLAUSES: usize = policy::MOST_CLAUSES as usize;

// The session whose whole record stands at a place.
pub fn session_at(policy: &[u8], at: usize) -> Option<Named>
    requires { at ≤ length policy.now }
    ensures { result ≡ (if is_session policy.now at then Some (named_at policy.now at) else None) }
{
    let behind = at + policy::SESSION_SIZE;
    if (cursor::kind_at(policy, at) != 1) | (policy.len() < behind) {
        return None;
    }
    let zero = cursor::kind_at(policy, behind) == 5;
    Some(Named {
        router: wire::get8(policy, at + 1),
        peer: wire::get32(policy, at + 2),
        zero,
        first: behind + zero as usize * policy::ZERO_SIZE,
    })
}

// The bytes of the clause whose whole record stands at a place.
fn clause_size(policy: &[u8], at: usize) -> Option<usize>
    requires { at ≤ length policy.now }
    ensures { result ≡ (if is_clause policy.now at then Some (size_at policy.now at) else None) }
{
    let size = match cursor::kind_at(policy, at) {
        2 => policy::EXACT_SIZE,
        3 => policy::DIRECT_SIZE,
        4 => policy::ANY_SIZE,
        _ => return None,
    };
    (at + size <= policy.len()).then_some(size)
}

// The clause at a place, of so many bytes.
fn clause_at(policy: &[u8], at: usize, size: usize) -> Clause
    requires { (is_clause policy.now at ≡ true) × (size ≡ size_at policy.now at) }
    ensures { clause_of result ≡ clause_at policy.now at }
{
    let scope = match policy[at] {
        2 => Scope::Prefix {
            address: wire::get32(policy, at + 1),
            bits: wire::get8(policy, at + 5),
        },
        3 => Scope::Direct {
            asn: wire::get32(policy, at + 1),
        },
        _ => Scope::All,
    };
    Clause {
        scope,
        preference: wire::get32(policy, at + size - PREFERENCE_SIZE),
    }
}

// Takes the clauses from a place on apart, as many as a session may have, and says how many: so that a session's routes need not walk
// them in the file's bytes, where each place is known only from the kind before it.
pub fn take_apart(policy: &[u8], at: usize, clauses: &mut [Clause]) -> usize
    requires inside { at ≤ length policy.now }
    requires room { most_clauses ≤ length clauses.old }
    ensures few { result ≤ most_clauses }
    ensures taken { map clause_of (take result clauses.new) ≡ take most_clauses (clauses_from policy.now at) }
    ensures others { drop result clauses.new ≡ drop result clauses.old }
{
    let mut at = at;
    for (n, room) in clauses[..MOST_CLAUSES].iter_mut().enumerate() {
        let Some(size) = clause_size(policy, at) else {
            return n;
        };
        *room = clause_at(policy, at, size);
        at += size;
    }
    MOST_CLAUSES
}

impl Clause {
    // Whether it fits a route.
    fn fits(&self, route: &Announced) -> bool
        ensures { result ≡ fits (clause_of self.now) route.now.address route.now.bits route.now.path route.now.neighbour }
    {
        match self.scope {
            Scope::Prefix { address, bits } => (address == route.address) & (bits == route.bits),
            Scope::Direct { asn } => (route.path == 1) & (asn == route.neighbour),
            Scope::All => true,
        }
    }
}

// The preference that clauses give to a route: that of the first that fits.
pub fn preferred(clauses: &[Clause], route: &Announced) -> u32
    ensures { result ≡ preferred (map clause_of clauses.now) route.now.address route.now.bits route.now.path route.now.neighbour }
{
    clauses
        .iter()
        .find(|c| c.fits(route))
        .map_or(policy::USUAL, |c| c.preference)
}

// The place behind the clauses that stand from a place on.
pub fn behind_clauses(policy: &[u8], at: usize) -> usize
    requires { at ≤ length policy.now }
    ensures { (result ≡ behind_clauses policy.now at) × (result ≤ length policy.now) }
{
    let mut at = at;
    while let Some(size) = clause_size(policy, at) {
        at += size;
    }
    at
}
