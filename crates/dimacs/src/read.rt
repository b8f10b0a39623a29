// The request as it is read.
ghost use Rattle.std.specs.Prelude.{◌≡◌, ◌-◌, ◌≤◌, length};
ghost use Rattle.wording.specs.Decimal.{value_of};
ghost use Rattle.wording.specs.Request.{front as front·of, asked, width_asked};

// How many digits stand in front.
fn front(s: &[u8]) -> usize
    ensures { (result ≡ front·of s.now) × (result ≤ length s.now) }
{
    s.iter().take_while(|b| b.is_ascii_digit()).count()
}

// What at most five digits say.
fn value(s: &[u8]) -> u32
    requires { length s.now ≤ 5 }
    ensures { result ≡ value_of s.now }
{
    let mut v: u32 = 0;
    for b in s {
        v = v * 10 + u32::from(b.saturating_sub(b'0'));
    }
    v
}

// Behind a constant and the space.
#[tactic(auto, using(wording::proofs::Asking::width_tests))]
fn read_width(c: u32, s: &[u8]) -> Option<(u32, u32)>
    ensures { result ≡ width_asked c s.now }
{
    let (digits, rest) = s.split_at(front(s));
    match (digits.len(), rest) {
        (1..=2, [b'\n']) => Some((c, value(digits))),
        _ => None,
    }
}

#[tactic(auto, using(wording::proofs::Asking::request_tests))]
pub(crate) fn read_request(s: &[u8]) -> Option<(u32, u32)>
    ensures { result ≡ asked s.now }
{
    let (digits, rest) = s.split_at(front(s));
    match (digits.len(), rest) {
        (1..=5, [b' ', rest @ ..]) => read_width(value(digits), rest),
        _ => None,
    }
}
