// Digits.
ghost use Rattle.std.specs.Prelude.{◌≡◌, ◌≤◌};
ghost use Rattle.literals.specs.Numbers.{nibble};
ghost use Rattle.values.specs.Digits.{option, Under, Worth};

// What a digit counts, and a letter from A or a on, for a character from 48 on. Past F and f that is more than 15.
fn worth(c: u32) -> u32
    requires { 48 ≤ c }
    ensures { Worth c result }
{
    if c <= 57 {
        return c - 48;
    }
    (c - 1) % 32 + 10
}

// `parse_nibble`: what a character counts as a digit. Digits and letters go one way, since which comes next can't be foreseen.
pub fn nibble(c: u32) -> Option<u32>
    ensures { (option result ≡ nibble c) × Under 16 result }
{
    if c < 48 || 127 < c {
        return None;
    }
    let d = worth(c);
    if 15 < d {
        return None;
    }
    Some(d)
}
