ghost use Rattle.std.specs.Prelude.{◌≡◌, ◌<◌, ◌≤◌, MatchOption};
ghost use Rattle.model_pixel.specs.Composition.{mul, share, composed, comp};
ghost use Rattle.r9_chan.specs.Op.{number};

use super::colour::Colour;

/// The operators of Porter and Duff under the names and numbers of draw(2): S is the source, D the destination.
#[derive(Clone, Copy, PartialEq, Eq, Debug)]
pub enum Op {
    Clear = 0,
    DoutS = 1,
    SoutD = 2,
    DxorS = 3,
    DinS = 4,
    D = 5,
    DatopS = 6,
    DoverS = 7,
    SinD = 8,
    SatopD = 9,
    S = 10,
    SoverD = 11,
}

impl Op {
    /// The operator of a number; none above 11.
    pub fn of_byte(b: u8) -> Option<Op>
        ensures { MatchOption result (11 < b) (λ op. number op ≡ b) }
    {
        match b {
            0 => Some(Op::Clear),
            1 => Some(Op::DoutS),
            2 => Some(Op::SoutD),
            3 => Some(Op::DxorS),
            4 => Some(Op::DinS),
            5 => Some(Op::D),
            6 => Some(Op::DatopS),
            7 => Some(Op::DoverS),
            8 => Some(Op::SinD),
            9 => Some(Op::SatopD),
            10 => Some(Op::S),
            11 => Some(Op::SoverD),
            _ => None,
        }
    }
}

// The number of an operator. Its bits 8, 2, 4 and 1 keep a part of the source or of the destination.
fn number(op: Op) -> u8
    ensures value { result ≡ number op }
    ensures range { result ≤ 11 }
{
    op as u8
}

// The product of two fractions of 255, rounded to the nearest.
pub fn mul(a: u8, b: u8) -> u8
    ensures { result ≡ mul a b }
{
    ((2 * u32::from(a) * u32::from(b) + 255) / 510) as u8
}

// What is kept of a component: the part inside the other colour, whose alpha is given, the part outside it, both or
// neither.
fn share(inside: bool, outside: bool, value: u8, alpha: u8) -> u8
    ensures { result ≡ share inside outside value alpha }
{
    match (inside, outside) {
        (true, true) => value,
        (true, false) => mul(value, alpha),
        (false, true) => mul(value, 255 - alpha),
        (false, false) => 0,
    }
}

// One component of the composition of a source and a destination.
#[tactic(auto, unfolding(model_pixel::specs::Composition::composed))]
fn composed(op: u8, s: u8, sa: u8, d: u8, da: u8) -> u8
    ensures { result ≡ composed op s sa d da }
{
    let source = share(op / 8 % 2 == 1, op / 2 % 2 == 1, s, da);
    let destination = share(op / 4 % 2 == 1, op % 2 == 1, d, sa);
    source.saturating_add(destination)
}

/// The composition of a source, seen through a mask value, onto a destination. The colours are premultiplied, and a
/// component that would pass 255 stops there.
pub fn comp(op: Op, s: Colour, m: u8, d: Colour) -> Colour
    ensures { result ≡ comp (number op) s m d }
{
    let op = number(op);
    let sa = mul(s.a, m);
    Colour {
        r: composed(op, mul(s.r, m), sa, d.r, d.a),
        g: composed(op, mul(s.g, m), sa, d.g, d.a),
        b: composed(op, mul(s.b, m), sa, d.b, d.a),
        a: composed(op, sa, sa, d.a, d.a),
    }
}
