// Choosing among what is available: the eight steps of the decision process over a lent mesh, in their order.
#![tactic(auto)]

ghost use Rattle.std.specs.Prelude.{◌≡◌, cond, ◌||◌, ℕ, ◌+◌, ◌*◌, ◌≤◌, ◌<◌, length, get_or, eqb};
ghost use Rattle.model.specs.Rows.{keep, some, span, column, keep_least, keep_greatest};
ghost use Rattle.model.specs.Decision.{none, beats_by, unbeaten_by, nearest};
ghost use Rattle.model.specs.Lent.{Inside, Front, Packed, after_two};
ghost use Rattle.model.specs.Columns.{most_routers, most_rows, choice_of, distance_in, Placed};
ghost use Rattle.rows.specs.Lent.{columns_in, mesh_in};

use rows::{Mesh, Routes};

// Whether the route q is available to r: it is r's own, or its owner holds it.
fn offered(router: &[u32], held: &[u16], q: usize, r: u32) -> bool
    requires { (q < length router.now) × (column router.now q < length held.now) }
    ensures { result ≡ (eqb (column router.now q) r || eqb (get_or held.now (column router.now q) none) q) }
{
    let owner = router[q] as usize;
    let row = held[owner] as usize;
    (router[q] == r) | (row == q)
}

// To a router are available: its own routes, and for each other router the route which that router holds, if it is that other
// router's own. They are listed at the front of `rows`, so many.
fn available(router: &[u32], held: &[u16], r: u32, rows: &mut [u16]) -> usize
    requires { (length router.now ≤ most_rows) × (length rows.old ≡ length router.now) × ((q : ℕ) → q < length router.now → column router.now q < length held.now) }
    ensures { Front result rows.new (keep (λ q. eqb (column router.now q) r || eqb (get_or held.now (column router.now q) none) q) (span 0 (length router.now))) }
{
    rows::keep_all(rows);
    rows::keep(rows, |q| offered(router, held, q, r))
}

// 1. The highest local preference. 2. The shortest AS path. 3. The lowest origin (0 IGP, 1 EGP, 2 incomplete).
pub fn preferred(routes: &Routes<'_>, rows: &mut [u16]) -> usize
    requires { Inside (length routes.now.preference.now) rows.old × Inside (length routes.now.path.now) rows.old × Inside (length routes.now.origin.now) rows.old }
    ensures { Packed result (after_two (column routes.now.preference.now) (column routes.now.path.now) rows.old) rows.new (keep_least (column routes.now.origin.now) (keep_least (column routes.now.path.now) (keep_greatest (column routes.now.preference.now) rows.old))) }
{
    let high = rows::keep_highest(rows, |q| routes.preference[q]);
    let short = rows::keep_lowest(&mut rows[..high], |q| routes.path[q]);
    rows::keep_lowest(&mut rows[..short], |q| routes.origin[q])
}

// Whether the row p has the same neighbour AS as q and a lower MED.
fn beats(asn: &[u32], med: &[u32], p: usize, q: usize) -> bool
    requires { (p < length asn.now) × (q < length asn.now) × (p < length med.now) × (q < length med.now) }
    ensures { result ≡ beats_by (column asn.now) (column med.now) p q }
{
    (asn[p] == asn[q]) & (med[p] < med[q])
}

// 4. Routes for which no route still kept has the same neighbour AS and a lower MED: out as soon as one kept same-neighbour route
// has a lower MED. It looks at the whole kept list, so its answer goes into another.
pub fn unbeaten(asn: &[u32], med: &[u32], rows: &[u16], left: &mut [u16]) -> usize
    requires { Inside (length asn.now) rows.now × Inside (length med.now) rows.now × (length rows.now ≤ length left.old) }
    ensures { Packed result left.old left.new (unbeaten_by (beats_by (column asn.now) (column med.now)) rows.now rows.now) }
{
    let mut n = 0;
    for q in rows {
        let mut stays = true;
        'scan: for p in rows {
            if beats(asn, med, *p as usize, *q as usize) {
                stays = false;
                break 'scan;
            }
        }
        if stays {
            left[n] = *q;
            n += 1;
        }
    }
    n
}

// 5. The router's own routes, if any is kept: where none is, the list stays as it was.
fn own_if_any(router: &[u32], r: u32, rows: &mut [u16]) -> usize
    requires { Inside (length router.now) rows.old }
    ensures { Front result rows.new (cond (some (λ q. eqb (column router.now q) r) rows.old) (keep (λ q. eqb (column router.now q) r) rows.old) rows.old) }
{
    let own = rows::keep(rows, |q| router[q] == r);
    if own == 0 { rows.len() } else { own }
}

// The interior distance from r to the router that owns the route q (0 for one's own).
fn far(router: &[u32], distances: &[u32], q: usize, r: u32) -> u32
    requires { (q < length router.now) × (column router.now q < most_routers) × (r < most_routers) × (most_routers * most_routers ≤ length distances.now) }
    ensures { result ≡ cond (eqb (column router.now q) r) 0 (distance_in distances.now r (column router.now q)) }
{
    let owner = router[q];
    if owner == r {
        return 0;
    }
    let at = (r as usize) * rows::MOST_ROUTERS + owner as usize;
    distances[at]
}

// The neighbour's id for an own route, the owning router's id otherwise.
fn tie_id(router: &[u32], nid: &[u32], ids: &[u32], q: usize, r: u32) -> u32
    requires { (q < length router.now) × (q < length nid.now) × (column router.now q < length ids.now) }
    ensures { result ≡ cond (eqb (column router.now q) r) (column nid.now q) (column ids.now (column router.now q)) }
{
    let owner = router[q];
    if owner == r {
        return nid[q];
    }
    ids[owner as usize]
}

// 6. The lowest interior distance to the router that owns the route (0 for one's own). 7. The lowest id: the neighbour's id for an own
// route, the owning router's id otherwise. 8. The lowest peer address. How many routers there are plays no part.
fn nearest(mesh: &Mesh<'_>, r: u32, rows: &mut [u16]) -> usize
    requires inside { Inside (length mesh.now.routes.router.now) rows.old × (length mesh.now.routes.nid.now ≡ length mesh.now.routes.router.now) × (length mesh.now.routes.peer.now ≡ length mesh.now.routes.router.now) }
    requires most_routers_in_bounds { (most_routers * most_routers ≤ length mesh.now.distances.now) × (r < most_routers) × ((q : ℕ) → q < length mesh.now.routes.router.now → (column mesh.now.routes.router.now q < most_routers) × (column mesh.now.routes.router.now q < length mesh.now.ids.now)) }
    ensures { Front result rows.new (nearest (mesh_in 0 mesh.now) r rows.old) }
{
    let routes = &mesh.routes;
    let near = rows::keep_lowest(rows, |q| far(routes.router, mesh.distances, q, r));
    let low = rows::keep_lowest(
        &mut rows[..near],
        |q| tie_id(routes.router, routes.nid, mesh.ids, q, r),
    );
    rows::keep_lowest(&mut rows[..low], |q| routes.peer[q])
}

// The row that the eight steps give r of what is available to it where each router holds what `held` says, or none.
pub fn choose(mesh: &Mesh<'_>, held: &[u16], r: u32) -> u16
    requires placed { Placed (length held.now) mesh.now.ids.now mesh.now.distances.now (columns_in mesh.now.routes) }
    requires r_in_bounds { r < length held.now }
    ensures { result ≡ choice_of (length held.now) mesh.now.ids.now mesh.now.distances.now (columns_in mesh.now.routes) held.now r }
{
    let routes = &mesh.routes;
    let mut list = rows::unlisted();
    let mut left = rows::unlisted();
    let rows = &mut list[..routes.router.len()];
    let offers = available(routes.router, held, r, rows);
    let kept = preferred(routes, &mut rows[..offers]);
    let free = unbeaten(routes.asn, routes.med, &rows[..kept], &mut left);
    let own = own_if_any(routes.router, r, &mut left[..free]);
    let near = nearest(mesh, r, &mut left[..own]);
    rows::first(&left[..near])
}
