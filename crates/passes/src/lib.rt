// The passes of a policy's sessions along the columns of the routes: every preference is set to 100, and then each session goes along the
// rows once and rewrites those that were heard on it.
#![tactic(auto)]

ghost use Rattle.std.specs.Prelude.{◌≡◌, ◌+◌, ◌≤◌, ◌<◌, length, map};
ghost use Rattle.model.specs.Rows.{column, start};
ghost use Rattle.snapshot.specs.Limits.{most_prefixes, most_routes};
ghost use Rattle.snapshot.specs.Lent.{tables_of, lent_tables};
ghost use Rattle.policy.specs.Rewriting.{usual, with_rows};
ghost use Rattle.clauses.specs.Walking.{clause_of, session_of, session_by, sessions_from};
ghost use Rattle.passes.specs.Passes.{rewrite_columns, rewrite_tables, LendsOn, KeepsRewrite, entries, Owned, of_row, prefix_field, ruled_row, passed, passed_all, applied, Long, Told, Lent};

use clauses::{Announced, Clause, Named, Scope};
use snapshot::{Columns, LentTables, Tables};

// The most routes that tables hold.
const MOST_ROWS: usize = snapshot::MOST_ROUTES as usize;

// The most clauses of a session.
const MOST_CLAUSES: usize = policy::MOST_CLAUSES as usize;

// What stands where no clause was taken apart.
const NO_CLAUSE: Clause = Clause {
    scope: Scope::All,
    preference: policy::USUAL,
};

// The tables of a snapshot, whose preferences, marks and MEDs are lent to be rewritten.
#[derive(Drop)]
pub struct RewriteTables<'a> {
    pub ids: &'a [u32],
    pub distances: &'a [u32],
    pub address: &'a [u32],
    pub bits: &'a [u32],
    pub routes: &'a [u32],
    pub router: &'a [u32],
    pub asn: &'a [u32],
    pub preference: &'a mut [u32],
    pub path: &'a [u32],
    pub origin: &'a [u32],
    pub mark: &'a mut [u32],
    pub med: &'a mut [u32],
    pub nid: &'a [u32],
    pub peer: &'a [u32],
}

impl<'a> RewriteTables<'a> {
    // The same tables, to be read.
    pub fn view(&self) -> Tables<'_>
        ensures { tables_of result ≡ rewrite_tables self.now }
    {
        Tables {
            ids: self.ids,
            distances: self.distances,
            address: self.address,
            bits: self.bits,
            routes: self.routes,
            rows: Columns {
                router: self.router,
                asn: self.asn,
                preference: &*self.preference,
                path: self.path,
                origin: self.origin,
                mark: &*self.mark,
                med: &*self.med,
                nid: self.nid,
                peer: self.peer,
            },
        }
    }
}

// Tables that were lent to be filled are lent on to be rewritten.
impl<'a> From<LentTables<'a>> for RewriteTables<'a> {
    ghost from_gives = { λ lent tables. (rewrite_tables tables ≡ lent_tables lent) × LendsOn lent tables };

    fn from(lent: LentTables<'a>) -> RewriteTables<'a> {
        let LentTables {
            ids,
            distances,
            address,
            bits,
            routes,
            router,
            asn,
            preference,
            path,
            origin,
            mark,
            med,
            nid,
            peer,
        } = lent;
        RewriteTables {
            ids,
            distances,
            address,
            bits,
            routes,
            router,
            asn,
            preference,
            path,
            origin,
            mark,
            med,
            nid,
            peer,
        }
    }
}

// Marks the rows of so many prefixes, each with the number of its prefix.
fn mark_owners(prefixes: usize, routes: &[u32], owner: &mut [u16])
    requires few { prefixes ≤ most_prefixes }
    requires counted { prefixes ≤ length routes.now }
    requires room { start routes.now prefixes ≤ length owner.old }
    ensures { Owned routes.now prefixes owner.new }
{
    let mut row = 0;
    for (p, count) in routes[..prefixes].iter().enumerate() {
        let end = row + *count as usize;
        owner[row..end].fill(p as u16);
        row = end;
    }
}

// Sets the preferences of so many rows to 100.
fn set_usual(rows: usize, preference: &mut [u32])
    requires { rows ≤ length preference.old }
    ensures { preference.new ≡ entries rows (λ q. usual) preference.old }
{
    preference[..rows].fill(policy::USUAL);
}

// Rewrites the route in a row, of the prefix p, by a session's clauses, and by whether MED is set to 0 on it.
fn rule(clauses: &[Clause], zero: bool, p: usize, q: usize, tables: &mut RewriteTables<'_>)
    requires prefix { p < length tables.old.address.now × (p < length tables.old.bits.now) }
    requires row { Long (q + 1) (rewrite_columns tables.old) }
    ensures rewritten { rewrite_tables tables.new
        ≡ with_rows (rewrite_tables tables.old) (ruled_row (map clause_of clauses.now) zero (column tables.old.address.now p) (column tables.old.bits.now p) q (rewrite_columns tables.old)) }
    ensures kept { KeepsRewrite tables.old tables.new }
{
    let route = Announced {
        address: tables.address[p],
        bits: tables.bits[p],
        path: tables.path[q],
        neighbour: tables.asn[q],
    };
    tables.preference[q] = clauses::preferred(clauses, &route);
    if zero {
        tables.mark[q] = 1;
        tables.med[q] = 0;
    }
}

// One session goes along the rows: those that were heard on it are rewritten. `owner` has the number of each row's prefix. Inlined, its loop
// is slower by half: it would share the registers with all tables.
#[inline(never)]
fn pass(clauses: &[Clause], s: &Named, owner: &[u16], tables: &mut RewriteTables<'_>)
    requires told { Told owner.now (rewrite_tables tables.old) }
    requires long { Long (length owner.now) (rewrite_columns tables.old) }
    ensures rewritten { rewrite_tables tables.new
        ≡ with_rows (rewrite_tables tables.old) (passed (session_of s.now (map clause_of clauses.now)) (of_row tables.old.address.now owner.now) (of_row tables.old.bits.now owner.now) (length owner.now) (rewrite_columns tables.old)) }
    ensures kept { KeepsRewrite tables.old tables.new }
{
    let router = tables.router;
    let peer = tables.peer;
    for (q, p) in owner.iter().enumerate() {
        if (s.router == router[q]) & (s.peer == peer[q]) {
            rule(clauses, s.zero, *p as usize, q, tables);
        }
    }
}

// A session's clauses are taken apart, and it goes along the rows.
fn pass_session(policy: &[u8], s: &Named, owner: &[u16], tables: &mut RewriteTables<'_>)
    requires inside { s.now.first ≤ length policy.now }
    requires told { Told owner.now (rewrite_tables tables.old) }
    requires long { Long (length owner.now) (rewrite_columns tables.old) }
    ensures rewritten { rewrite_tables tables.new
        ≡ with_rows (rewrite_tables tables.old) (passed (session_by policy.now s.now) (of_row tables.old.address.now owner.now) (of_row tables.old.bits.now owner.now) (length owner.now) (rewrite_columns tables.old)) }
    ensures kept { KeepsRewrite tables.old tables.new }
{
    let mut clauses = [NO_CLAUSE; MOST_CLAUSES];
    let count = clauses::take_apart(policy, s.first, &mut clauses);
    pass(&clauses[..count], s, owner, tables);
}

// Each session of a policy goes along the rows once, in order.
fn pass_all(policy: &[u8], owner: &[u16], tables: &mut RewriteTables<'_>)
    requires told { Told owner.now (rewrite_tables tables.old) }
    requires long { Long (length owner.now) (rewrite_columns tables.old) }
    ensures rewritten { rewrite_tables tables.new
        ≡ with_rows (rewrite_tables tables.old) (passed_all (sessions_from policy.now 0) (of_row tables.old.address.now owner.now) (of_row tables.old.bits.now owner.now) (length owner.now) (rewrite_columns tables.old)) }
    ensures kept { KeepsRewrite tables.old tables.new }
{
    let mut at = 0;
    while let Some(s) = clauses::session_at(policy, at) {
        at = clauses::behind_clauses(policy, s.first);
        pass_session(policy, &s, owner, tables);
    }
}

// Applies a policy to the routes of so many prefixes: every preference is set to 100, then its sessions pass.
pub fn apply(policy: &[u8], prefixes: usize, rows: usize, tables: &mut RewriteTables<'_>)
    requires lent { Lent prefixes rows (rewrite_tables tables.old) }
    requires few { rows ≤ most_routes }
    ensures rewritten { rewrite_tables tables.new
        ≡ with_rows (rewrite_tables tables.old) (applied (sessions_from policy.now 0) (prefix_field tables.old.address.now tables.old.routes.now prefixes) (prefix_field tables.old.bits.now tables.old.routes.now prefixes) rows (rewrite_columns tables.old)) }
    ensures kept { KeepsRewrite tables.old tables.new }
{
    let mut marks = [0u16; MOST_ROWS];
    let owner = &mut marks[..rows];
    mark_owners(prefixes, tables.routes, owner);
    set_usual(rows, tables.preference);
    pass_all(policy, owner, tables);
}
