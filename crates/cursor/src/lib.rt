// The reader's place in a snapshot. A cursor is passed by value; each of its methods judges the record at its place as one kind of
// record and hands back the next cursor with what the record says, or a refusal with its place. `opens` and `ends` serve every file of
// this record habit: they go by the body that the file's own table of kinds gives.
#![tactic(auto)]

ghost use Rattle.std.specs.Prelude.{◌≡◌, cond, [], ◌∷◌, ◌+◌, ◌<◌, ◌≤◌, length, get_or, drop};
ghost use Rattle.snapshot.specs.Limits.{most_prefixes, most_in_prefix, most_routes};
ghost use Rattle.snapshot.specs.Plain.{route_is};
ghost use Rattle.snapshot.specs.Records.{forms, count_form, router_form, distance_form, prefix_form, route_form_by, route_forms, size, form_at, values_at};
ghost use Rattle.snapshot.specs.Reading.{count_record, router_record, distance_record, end_record};
ghost use Rattle.cursor.specs.Steps.{
  finding,
  refused_at,
  body_of,
  opening_by,
  opening_checks,
  end_by,
  behind,
  after,
  due,
  route_faults_in,
  prefix_next,
  route_next,
  id_at,
  given_before,
  router_place,
  ids_at,
  network_at,
  more_prefix,
  more_route,
  bits_behind,
  route_behind,
  route_at,
  took,
  step_said,
  prefix_said,
  route_said,
  end_said,
  judged_at,
  ending,
};

use refusal::{Refusal, Refused};
use snapshot::Route;

// The bytes of a route behind its neighbour AS, in both kinds.
const BEHIND_ASN: usize = 20;

// A place between records, and how many records stand before it.
#[derive(Clone, Copy, Default)]
pub struct Cursor {
    pub at: usize,
    pub records: usize,
}

// What the prefixes and routes read so far say about the next: how many there are, the latest prefix, and the latest route in it.
#[derive(Clone, Copy, Default)]
pub struct Sofar {
    pub routers: u32,
    pub prefixes: u32,
    pub routes: u32,
    pub inside: u32,
    pub address: u32,
    pub bits: u32,
    pub router: u32,
    pub peer: u32,
}

// A prefix without its routes.
#[derive(Clone, Copy)]
pub struct Network {
    pub address: u32,
    pub bits: u32,
}

// Kinds 0 and 8 to 255 are refused as KIND.
fn body_length(kind: u8) -> Result<usize, Refusal>
    ensures { result ≡ body_of forms kind }
{
    match kind {
        1 => Ok(1),
        2 => Ok(5),
        3 => Ok(6),
        4 => Ok(5),
        5 => Ok(23),
        6 => Ok(4),
        7 => Ok(25),
        0 | 8..=255 => Err(Refusal::Kind),
    }
}

// Whether an id is one of the first `given` ones, which are read where they stand in the input.
fn twin(input: &[u8], first: usize, given: usize, id: u32) -> bool
    requires { router_place first given ≤ length input.now }
    ensures { result ≡ given_before id (ids_at input.now first given) }
{
    (0..given).any(|i| id == id_at(input, first + snapshot::ROUTER_SIZE * i))
}

// The id of the router record at a place.
pub fn id_at(input: &[u8], at: usize) -> u32
    requires { at + 6 ≤ length input.now }
    ensures { result ≡ id_at input.now at }
{
    wire::get32(input, at + 2)
}

// The prefix of the record at a place.
pub fn network_at(input: &[u8], at: usize) -> Network
    requires { at + 6 ≤ length input.now }
    ensures { result ≡ network_at input.now at }
{
    Network {
        address: wire::get32(input, at + 1),
        bits: wire::get8(input, at + 5),
    }
}

// How many bits of the four bytes from a route's neighbour AS on stand behind it.
fn bits_behind(four: bool) -> u32
    ensures { result ≡ bits_behind four }
{
    if four { 0 } else { 16 }
}

// The neighbour AS of the route record at a place, of kind 7 or of kind 5. Four bytes are read for both and shifted, which takes no branch.
fn asn_at(input: &[u8], at: usize, four: bool) -> u32
    requires { at + size (route_form_by four) ≤ length input.now }
    ensures { result ≡ get_or (values_at (route_form_by four) input.now at) 1 0 }
{
    let bytes = wire::get32(input, at + 2);
    bytes >> bits_behind(four)
}

// The route of a router and a neighbour AS whose other fields, the same in both kinds, stand from a place on.
fn route_behind(input: &[u8], at: usize, router: u32, asn: u32) -> Route
    requires { at + 20 ≤ length input.now }
    ensures { result ≡ route_behind input.now at router asn }
{
    Route {
        router,
        asn,
        preference: wire::get32(input, at),
        path: wire::get16(input, at + 4),
        origin: wire::get8(input, at + 6),
        mark: wire::get8(input, at + 7),
        med: wire::get32(input, at + 8),
        nid: wire::get32(input, at + 12),
        peer: wire::get32(input, at + 16),
    }
}

// The route of the record at a place, of kind 7 or of kind 5.
pub fn route_at(input: &[u8], at: usize, four: bool) -> Route
    requires { at + size (route_form_by four) ≤ length input.now }
    ensures { result ≡ route_at input.now at four }
{
    let router = wire::get8(input, at + 1);
    let asn = asn_at(input, at, four);
    let fields = at + (snapshot::route_size(four) - BEHIND_ASN);
    route_behind(input, fields, router, asn)
}

// The kind byte at a place; 0, which is no kind, where there is none.
pub fn kind_at(input: &[u8], at: usize) -> u8
    ensures { result ≡ get_or input.now at 0 }
{
    if at < input.len() {
        return input[at];
    }
    0
}

impl Sofar {
    // With one more prefix, which has no routes yet.
    pub fn with_prefix(self, p: Network) -> Sofar
        requires { self.prefixes < most_prefixes }
        ensures { result ≡ more_prefix self p }
    {
        Sofar {
            prefixes: self.prefixes + 1,
            inside: 0,
            address: p.address,
            bits: p.bits,
            router: 0,
            peer: 0,
            ..self
        }
    }

    // With one more route of the latest prefix.
    pub fn with_route(self, r: Route) -> Sofar
        requires { (self.routes < most_routes) × (self.inside < most_in_prefix) }
        ensures { result ≡ more_route self r }
    {
        Sofar {
            routes: self.routes + 1,
            inside: self.inside + 1,
            router: r.router,
            peer: r.peer,
            ..self
        }
    }
}

impl Cursor {
    // One check of the record here.
    pub fn demand(self, holds: bool, refusal: Refusal) -> Result<(), Refused>
        ensures { result ≡ cond holds (Ok tt) (Err (refused_at self.at refusal)) }
    {
        if holds {
            return Ok(());
        }
        Err(Refused {
            refusal,
            place: self.at,
        })
    }

    // The checks that every record has before its values: CUT for the kind byte, KIND, PLACE, FULL, CUT for the body. Given is the body
    // of the kind that stands there.
    pub fn opens(
        self,
        input: &[u8],
        body: Result<usize, Refusal>,
        due: u8,
        astray: bool,
        full: bool,
    ) -> Result<(), Refused>
        ensures { result ≡ finding self.at (opening_by body input.now self.at due astray full) }
    {
        let place = self.at;
        self.demand(place < input.len(), Refusal::Cut)?;
        let size = body.map_err(|refusal| Refused { refusal, place })?;
        self.demand(kind_at(input, place) == due, Refusal::Place)?;
        self.demand(!astray, Refusal::Place)?;
        self.demand(!full, Refusal::Full)?;
        self.demand(size < input.len() - place, Refusal::Cut)
    }

    // The opening of a record of a snapshot.
    fn opening(self, input: &[u8], due: u8, astray: bool, full: bool) -> Result<(), Refused>
        ensures { result ≡ finding self.at (opening_checks forms input.now self.at due astray full) }
    {
        let body = body_length(kind_at(input, self.at));
        self.opens(input, body, due, astray, full)
    }

    // The cursor behind a record of so many bytes.
    pub fn past(self, size: usize) -> Cursor
        requires { (self.records ≤ self.at) × (self.at + size ≤ 9223372036854775807) × (1 ≤ size) }
        ensures { result ≡ behind self size }
    {
        Cursor {
            at: self.at + size,
            records: self.records + 1,
        }
    }

    // Kind 1: the number of routers.
    #[tactic(auto, using(crate::specs::StepsLaws::count_found))]
    pub fn count(self, input: &[u8]) -> Result<(Cursor, u32), Refused>
        requires { self.records ≤ self.at }
        ensures { step_said result ≡ judged_at self.at (count_record (drop self.at input.now))
            (took (after self count_form) (values_at count_form input.now self.at)) }
    {
        self.opening(input, 1, false, false)?;
        let n = wire::get8(input, self.at + 1);
        self.demand(!snapshot::count_bad(n), Refusal::Field)?;
        Ok((self.past(snapshot::COUNT_SIZE), n))
    }

    // Kind 2: the id of the router whose index is due, where `given` router records stand before it, from a place on.
    #[tactic(auto, using(crate::specs::StepsLaws::router_found))]
    pub fn router(
        self,
        input: &[u8],
        routers: u32,
        first: usize,
        given: usize,
    ) -> Result<(Cursor, u32), Refused>
        requires { (self.records ≤ self.at) × (self.at ≡ router_place first given) }
        ensures { step_said result ≡ judged_at self.at (router_record routers (ids_at input.now first given) (drop self.at input.now))
            (took (after self router_form) (get_or (values_at router_form input.now self.at) 1 0 ∷ [])) }
    {
        self.opening(input, 2, false, false)?;
        let index = wire::get8(input, self.at + 1);
        let id = id_at(input, self.at);
        let field = !((routers <= index) | snapshot::id_bad(id));
        self.demand(field, Refusal::Field)?;
        self.demand(index as usize == given, Refusal::Order)?;
        self.demand(!twin(input, first, given, id), Refusal::Twin)?;
        Ok((self.past(snapshot::ROUTER_SIZE), id))
    }

    // Kind 3: the distance of the pair that is due.
    #[tactic(auto, using(crate::specs::StepsLaws::distance_found))]
    pub fn distance(
        self,
        input: &[u8],
        routers: u32,
        due_from: u32,
        due_to: u32,
    ) -> Result<(Cursor, u32), Refused>
        requires { self.records ≤ self.at }
        ensures { step_said result ≡ judged_at self.at (distance_record routers (due due_from due_to) (drop self.at input.now))
            (took (after self distance_form) (get_or (values_at distance_form input.now self.at) 2 0 ∷ [])) }
    {
        self.opening(input, 3, false, false)?;
        let from = wire::get8(input, self.at + 1);
        let to = wire::get8(input, self.at + 2);
        let distance = wire::get32(input, self.at + 3);
        let field = !((routers <= from) | (routers <= to) | snapshot::distance_bad(distance));
        self.demand(field, Refusal::Field)?;
        self.demand(from == due_from, Refusal::Order)?;
        self.demand(to == due_to, Refusal::Order)?;
        Ok((self.past(snapshot::DISTANCE_SIZE), distance))
    }

    // Kind 4: a prefix, behind what was read so far.
    #[tactic(auto, using(crate::specs::StepsLaws::prefix_found))]
    pub fn prefix(self, input: &[u8], k: Sofar) -> Result<(Cursor, Network), Refused>
        requires { self.records ≤ self.at }
        ensures { prefix_said result ≡ judged_at self.at (prefix_next k (drop self.at input.now))
            (took (after self prefix_form) (values_at prefix_form input.now self.at)) }
    {
        self.opening(input, 4, false, snapshot::MOST_PREFIXES <= k.prefixes)?;
        let p = network_at(input, self.at);
        self.demand(!snapshot::prefix_bad(p.address, p.bits), Refusal::Field)?;
        let order = !((k.prefixes != 0) & snapshot::late(k.address, k.bits, p.address, p.bits));
        self.demand(order, Refusal::Order)?;
        Ok((self.past(snapshot::PREFIX_SIZE), p))
    }

    // The values of a route in a record of a kind: the AS tells which kind it is to be.
    fn route_values(self, k: Sofar, kind: u8, r: Route) -> Result<(), Refused>
        ensures { result ≡ finding self.at (route_faults_in k kind (route_is r)) }
    {
        let chosen = kind == snapshot::route_kind(snapshot::four_byte(r.asn));
        let order = !((k.inside != 0) & snapshot::late(k.router, k.peer, r.router, r.peer));
        self.demand(chosen, Refusal::Field)?;
        self.demand(!snapshot::route_bad(k.routers, r), Refusal::Field)?;
        self.demand(order, Refusal::Order)
    }

    // Kinds 5 and 7: a route, behind what was read so far.
    #[tactic(auto, using(crate::specs::StepsLaws::route_found))]
    pub fn route(self, input: &[u8], k: Sofar) -> Result<(Cursor, Route), Refused>
        requires { self.records ≤ self.at }
        ensures { route_said result ≡ judged_at self.at (route_next k (drop self.at input.now))
            (took (after self (form_at route_forms input.now self.at)) (values_at (form_at route_forms input.now self.at) input.now self.at)) }
    {
        let four = kind_at(input, self.at) == 7;
        let kind = snapshot::route_kind(four);
        let full = (snapshot::MOST_IN_PREFIX <= k.inside) | (snapshot::MOST_ROUTES <= k.routes);
        self.opening(input, kind, k.prefixes == 0, full)?;
        let r = route_at(input, self.at, four);
        self.route_values(k, kind, r)?;
        Ok((self.past(snapshot::route_size(four)), r))
    }

    // Kind 6 in every file: the end, with a body of 4 bytes, and then nothing. Given is the body of the kind that stands there.
    #[tactic(auto, using(crate::specs::StepsLaws::end_found))]
    pub fn ends(self, input: &[u8], body: Result<usize, Refusal>) -> Result<(), Refused>
        requires { get_or input.now self.at 0 ≡ 6 → body ≡ Ok 4 }
        ensures { end_said result ≡ judged_at self.at (end_by body self.records input.now self.at)
            (ending input.now (self.at + 5)) }
    {
        self.opens(input, body, 6, false, false)?;
        let number = wire::get32(input, self.at + 1);
        self.demand(number as usize == self.records, Refusal::Count)?;
        let behind = Cursor {
            at: self.at + snapshot::END_SIZE,
            ..self
        };
        behind.demand(input.len() <= behind.at, Refusal::Tail)
    }

    // The end of a snapshot.
    #[tactic(auto, using(crate::specs::StepsLaws::end_table_found))]
    pub fn end(self, input: &[u8]) -> Result<(), Refused>
        ensures { end_said result ≡ judged_at self.at (end_record forms self.records (drop self.at input.now))
            (ending input.now (self.at + 5)) }
    {
        let body = body_length(kind_at(input, self.at));
        self.ends(input, body)
    }
}
