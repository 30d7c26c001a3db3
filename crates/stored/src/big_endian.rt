//! A number of a width at a place of an account's bytes, high byte first. Each field has a fixed
//! place in a fixed array.
ghost use Rattle.std.specs.Prelude.{◌≡◌, [], ◌∷◌, ◌+◌, ◌^◌, ◌≤◌, ◌<◌};
ghost use Rattle.std.proofs.lemmas.List.Edits.{sets};
ghost use Rattle.stored.specs.Packing.{big_endian, big_endian_at, packed, unpacked, slice};
ghost use Rattle.stored.specs.Layout.{account_width};

use crate::SIZE;

pub(crate) fn get(b: &[u8; SIZE], at: usize, width: usize) -> u64
    requires inside { (at + width ≤ account_width) × (width ≤ 8) }
    ensures is { result ≡ big_endian_at width at b.now }
    ensures fits { result < 256 ^ width }
{
    let mut eight = [0; 8];
    eight[8 - width..].copy_from_slice(&b[at..at + width]);
    u64::from_be_bytes(eight)
}

pub(crate) fn put(b: &mut [u8; SIZE], at: usize, width: usize, n: u64)
    requires inside { (at + width ≤ account_width) × (width ≤ 8) }
    ensures { b.new ≡ sets b.old at (big_endian width n []) }
{
    b[at..at + width].copy_from_slice(&n.to_be_bytes()[8 - width..]);
}

fn get_two(b: &[u8; SIZE], at: usize) -> u16
    requires inside { at + 2 ≤ account_width }
    ensures is { result ≡ big_endian_at 2 at b.now }
{
    get(b, at, 2) as u16
}

// Four numbers of two bytes each, one after another.
pub(crate) fn get_four(b: &[u8; SIZE], at: usize) -> [u16; 4]
    requires inside { at + 8 ≤ account_width }
    ensures is { result ≡ unpacked (2 ∷ 2 ∷ 2 ∷ 2 ∷ []) at b.now }
{
    [
        get_two(b, at),
        get_two(b, at + 2),
        get_two(b, at + 4),
        get_two(b, at + 6),
    ]
}

#[tactic(auto, unfolding(crate::specs::Packing::big_endian))]
pub(crate) fn put_four(b: &mut [u8; SIZE], at: usize, ns: [u16; 4])
    requires inside { at + 8 ≤ account_width }
    ensures { b.new ≡ sets b.old at (packed (2 ∷ 2 ∷ 2 ∷ 2 ∷ []) (slice 0 4 ns)) }
{
    put(b, at, 2, ns[0] as u64);
    put(b, at + 2, 2, ns[1] as u64);
    put(b, at + 4, 2, ns[2] as u64);
    put(b, at + 6, 2, ns[3] as u64);
}
