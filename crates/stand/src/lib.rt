// The rows of its own at which each router stands when the contest of a prefix comes to rest, early and late, over lent columns.
#![tactic(auto)]

ghost use Rattle.std.specs.Prelude.{◌≡◌, ℕ, ◌≤◌, ◌<◌, true, false, length};
ghost use Rattle.model.specs.Rows.{table, column, start};
ghost use Rattle.model.specs.Lent.{Inside};
ghost use Rattle.model.specs.Columns.{most_routers, most_rows, Fits};
ghost use Rattle.model.specs.Listing.{counts_in, gathered, groups_in, stands_at, settled_by, rest_in, Ready, RestRows};
ghost use Rattle.rows.specs.Lent.{columns_in};

use rows::Routes;
use settle::Contest;

// For each router the contender that stands at the place which the state gives it, or none.
fn rows_at(order: &[u16], ends: &[u32], state: &[u32], own: &mut [u16])
    requires few { length order.now ≤ most_rows }
    requires whole { start ends.now (length ends.now) ≡ length order.now }
    requires lengths { (length state.now ≡ length ends.now) × (length own.old ≡ length ends.now) }
    ensures { own.new ≡ table (length ends.now) (stands_at order.now ends.now state.now) }
{
    let mut rest = order;
    // Of a zip over iter_mut the kit's proofs do not know what it leaves in the slice, so ends and places are read by number.
    for (r, row) in own.iter_mut().enumerate() {
        let (mine, others) = rest.split_at(ends[r] as usize);
        *row = mine.get(state[r] as usize).copied().unwrap_or(rows::NONE);
        rest = others;
    }
}

// The early and the late rows at which the routers stand in a contest whose contenders are these rows.
fn rest_of(contest: &Contest<'_>, order: &[u16], early: &mut [u16], late: &mut [u16])
    requires order_len { length order.now ≡ length contest.now.group.now }
    requires lengths { (length early.old ≡ length contest.now.ends.now) × (length late.old ≡ length contest.now.ends.now) }
    ensures early_rows { early.new ≡ table (length contest.now.ends.now) (stands_at order.now contest.now.ends.now (settled_by false contest.now.group.now contest.now.med.now contest.now.ends.now)) }
    ensures late_rows { late.new ≡ table (length contest.now.ends.now) (stands_at order.now contest.now.ends.now (settled_by true contest.now.group.now contest.now.med.now contest.now.ends.now)) }
{
    let mut places = settle::unplaced();
    let state = &mut places[..contest.ends.len()];
    contest.earliest(state);
    rows_at(order, contest.ends, state, early);
    contest.latest(state);
    rows_at(order, contest.ends, state, late);
}

// The early and the late rows at which the routers stand, where the contenders are listed in order.
fn rest_rows(routes: &Routes<'_>, order: &[u16], early: &mut [u16], late: &mut [u16])
    requires inside { Inside (length routes.now.router.now) order.now × (length routes.now.asn.now ≡ length routes.now.router.now) × (length routes.now.med.now ≡ length routes.now.router.now) }
    requires owned { (q : ℕ) → q < length routes.now.router.now → column routes.now.router.now q < length early.old }
    requires few { (length order.now ≤ most_rows) × (length early.old ≤ most_routers) }
    requires late_len { length late.old ≡ length early.old }
    requires ready { Ready (groups_in routes.now.asn.now order.now) (gathered routes.now.med.now order.now) (counts_in routes.now.router.now (length early.old) order.now) }
    ensures early_rows { early.new ≡ rest_in false (length early.old) routes.now.router.now routes.now.asn.now routes.now.med.now order.now }
    ensures late_rows { late.new ≡ rest_in true (length early.old) routes.now.router.now routes.now.asn.now routes.now.med.now order.now }
{
    let mut group = rows::past();
    let mut med = rows::past();
    let mut ends = settle::unplaced();
    let contenders = order.len();
    let routers = early.len();
    group::groups(routes.asn, order, &mut group[..contenders]);
    rows::gather(routes.med, order, &mut med[..contenders]);
    contender::ends(routes.router, order, &mut ends[..routers]);
    let contest = Contest::new(&group[..contenders], &med[..contenders], &ends[..routers]);
    rest_of(&contest, order, early, late);
}

// The rows of its own at which each router stands when the contest comes to rest: early and late.
pub fn own_rows(routes: &Routes<'_>, early: &mut [u16], late: &mut [u16])
    requires fits { Fits (length early.old) (columns_in routes.now) }
    requires late_len { length late.old ≡ length early.old }
    ensures { RestRows (length early.old) (columns_in routes.now) early.new late.new }
{
    let mut list = rows::unlisted();
    let mut order = rows::unlisted();
    let mut counts = settle::unplaced();
    let rows = routes.router.len();
    let m = contender::contenders(
        routes,
        &mut counts[..early.len()],
        &mut list[..rows],
        &mut order[..rows],
    );
    rest_rows(routes, &order[..m], early, late);
}
