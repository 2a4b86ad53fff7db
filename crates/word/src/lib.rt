// The word of differing routers: one bit per router whose two rows differ, bit r for router r. Its ones are the open number.
#![tactic(auto)]

ghost use Rattle.std.specs.Prelude.{◌≡◌, ◌≤◌, length};
ghost use Rattle.std.specs.Int.Count.{ones as Count·ones};
ghost use Rattle.word.specs.Word.{word, differing_in};

// The word of the routers whose two rows differ.
pub fn differing(early: &[u16], late: &[u16]) -> u64
    requires { (length early.now ≤ 64) × (length late.now ≡ length early.now) }
    ensures { result ≡ word (differing_in early.now late.now) }
{
    let mut bits = 0;
    for (r, row) in early.iter().enumerate() {
        if *row != late[r] {
            bits += 1u64 << r;
        }
    }
    bits
}

// How many routers differ.
pub fn ones(bits: u64) -> u32
    ensures { result ≡ Count·ones bits }
{
    u64::count_ones(bits)
}
