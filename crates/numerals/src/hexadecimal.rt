// Hexadecimal numbers: eight digits make a limb.
ghost use Rattle.std.specs.Prelude.{◌≤◌, length, drop};
ghost use Rattle.literals.specs.Numbers.{limbs, digits};
ghost use Rattle.values.specs.Kept.{Put};
ghost use Rattle.numerals.specs.Hexadecimal.{Leading, LimbBefore};

use crate::LIMB_BASE;
use values::digit;

// A limb, and where the digits that it is made of begin.
#[derive(Clone, Copy)]
pub(crate) struct Limb {
    pub value: u32,
    pub start: usize,
}

// Where the first digit that isn't 0 stands, from `prefix` on. What stands before it doesn't count.
fn leading(source: &[u8], prefix: usize) -> usize
    ensures { Leading source.now prefix result }
{
    for i in prefix..source.len() {
        if let Some(digit) = digit::nibble(source[i] as u32) {
            if digit != 0 {
                return i;
            }
        }
    }
    source.len()
}

// The last eight digits before byte `end`, from `prefix` on, or as many as there are.
fn limb_before(source: &[u8], prefix: usize, end: usize) -> Limb
    requires { end ≤ length source.now }
    ensures { LimbBefore source.now prefix end result.value result.start }
{
    let mut value: u64 = 0;
    // What the next digit counts.
    let mut unit: u64 = 1;
    let mut i = end;
    // A `for` was tried: it took a tenth longer.
    while prefix < i {
        if unit == LIMB_BASE {
            return Limb {
                value: value as u32,
                start: i,
            };
        }
        i -= 1;
        let c = source[i] as u32;
        if let Some(digit) = digit::nibble(c) {
            value += digit as u64 * unit;
            unit *= 16;
        }
    }
    Limb {
        value: value as u32,
        start: i,
    }
}

// The limbs of the number that the digits of `source` from `prefix` on make, in front of `room`: how many there are, if there is
// room for them. All that is no digit is passed over.
pub(crate) fn put(source: &[u8], prefix: usize, room: &mut [u32]) -> Option<usize>
    ensures { Put (limbs (digits 16 0 (drop prefix source.now))) room.old result room.new }
{
    // From here on the number isn't 0 before its digits end, so each limb of it counts.
    let first = leading(source, prefix);
    let mut end = source.len();
    let mut n = 0;
    // The step isn't one: it is as many bytes as the digits of a limb take.
    while first < end {
        if room.len() <= n {
            return None;
        }
        let l = limb_before(source, first, end);
        room[n] = l.value;
        end = l.start;
        n += 1;
    }
    Some(n)
}
