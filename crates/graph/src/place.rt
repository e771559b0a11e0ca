// From a walk to the order: the blocks left, the last first, and then the blocks never met.
ghost use Rattle.std.specs.Prelude.{◌≡◌, ◌+◌, ◌≤◌, length, take, drop};
ghost use Rattle.std.proofs.lemmas.List.Edits.{sets};
ghost use Rattle.utils.specs.Limits.{most_blocks};
ghost use Rattle.graph.specs.Walk.{never_met};
ghost use Rattle.graph.specs.Frames.{waiting};

use utils::{limits, put_cells};

// The blocks left stand from `at` on. How many there are.
pub fn put_left(left: &[u32; limits::BLOCKS], at: usize, out: &mut [u32; limits::BLOCKS]) -> usize
    requires { (at ≤ most_blocks) × (length left.now ≡ most_blocks) }
    ensures { (result + at ≡ most_blocks)
        × (out.new ≡ sets out.old 0 (drop at left.now)) }
{
    put_cells(out, 0, &left[at..]);
    limits::BLOCKS - at
}

// The blocks whose flag is 0, by rising block number, from the place `start` on.
pub fn put_unmet(met: &[u8; limits::BLOCKS], n: u32, out: &mut [u32; limits::BLOCKS], start: usize)
    requires { (start + waiting (take n met.now) ≤ most_blocks) × (n ≤ most_blocks)
        × (length met.now ≡ most_blocks) }
    ensures { out.new ≡ sets out.old start (never_met 0 (take n met.now)) }
{
    let mut at = start;
    for k in 0..n {
        if met[k as usize] == 0 {
            out[at] = k;
            at += 1;
        }
    }
}

// The flags of the n blocks.
pub fn put_flags(flags: &[u8; limits::BLOCKS], n: u32, out: &mut [u8; limits::BLOCKS])
    requires { (n ≤ most_blocks) × (length flags.now ≡ most_blocks) }
    ensures { out.new ≡ sets out.old 0 (take n flags.now) }
{
    put_cells(out, 0, &flags[..n as usize]);
}
