// One prefix decided on a lent mesh: each router's early and late row, and which routers differ.
#![tactic(auto)]

ghost use Rattle.std.specs.Prelude.{◌≡◌, length};
ghost use Rattle.model.specs.Columns.{Placed};
ghost use Rattle.rows.specs.Lent.{columns_in, mesh_in};
ghost use Rattle.decide.specs.Decide.{Decided};

use rows::Mesh;

// The routers whose early and late rows differ: bit r for router r, and how many there are.
#[derive(Clone, Copy)]
pub struct Differing {
    pub word: u64,
    pub number: u32,
}

// The early and the late row of each router for a mesh, and the routers that differ. There is one router for each entry of `early`.
pub fn decided(mesh: &Mesh<'_>, early: &mut [u16], late: &mut [u16]) -> Differing
    requires { Placed (length early.old) mesh.now.ids.now mesh.now.distances.now (columns_in mesh.now.routes) × (length late.old ≡ length early.old) }
    ensures { Decided (mesh_in (length early.old) mesh.now) result early.new late.new }
{
    hold::forecast_rows(mesh, early, late);
    let bits = word::differing(early, late);
    Differing {
        word: bits,
        number: word::ones(bits),
    }
}
