// What the session program reads and prints (document 01, "The session program"): kinds and numbers in bytes, decimals and lines.
#![tactic(auto)]

ghost use Rattle.std.specs.Prelude.{◌≡◌, [], ◌∷◌, ◌+◌, ◌<◌, ◌≤◌, length, drop};
ghost use Rattle.laws.specs.Bytes.{little_endian};
ghost use Rattle.lines.specs.Kinds.{payload_bytes, kind_of};
ghost use Rattle.lines.specs.Lines.{digit, decimal, spaced, line, longest_line, longest_number, text, write};

use laws::Key;

#[derive(Clone, Copy, Debug, PartialEq, Eq)]
pub enum Operation {
    Insert,
    Delete,
    Lookup,
    Band,
    Replace,
}

// What a kind byte says: the length of the body, and the operation.
#[derive(Clone, Copy, Debug, PartialEq, Eq)]
pub struct Kind {
    pub length: usize,
    pub operation: Operation,
}

impl Kind {
    pub const PAYLOAD_BYTES: usize = 8;

    // Nobody calls it: its contract says that the constant is that of the definitions.
    pub fn limits()
        ensures { Kind.PAYLOAD_BYTES ≡ payload_bytes }
    {}
}

#[tactic(auto, unfolding(crate::specs::Kinds::kind_of))]
pub fn kind_of(byte: u8) -> Option<Kind>
    ensures { result ≡ kind_of byte }
{
    let (length, operation) = match byte {
        1 => (Key::BYTES + Kind::PAYLOAD_BYTES, Operation::Insert),
        2 => (Key::BYTES, Operation::Delete),
        3 => (Key::BYTES, Operation::Lookup),
        4 => (Key::BYTES + Key::BYTES, Operation::Band),
        5 => (Key::BYTES + Kind::PAYLOAD_BYTES, Operation::Replace),
        0 | 6..=255 => return None,
    };
    Some(Kind { length, operation })
}

// The key in the 6 bytes from p on.
pub fn key_at(bytes: &[u8], p: usize) -> u64
    requires { p + 6 ≤ length bytes.now }
    ensures { result ≡ little_endian 6 (drop p bytes.now) }
{
    laws::little_endian::<{ Key::BYTES }>(bytes, p)
}

// The payload in the 8 bytes from p on.
pub fn payload_at(bytes: &[u8], p: usize) -> u64
    requires { p + 8 ≤ length bytes.now }
    ensures { result ≡ little_endian 8 (drop p bytes.now) }
{
    laws::little_endian::<{ Kind::PAYLOAD_BYTES }>(bytes, p)
}

#[tactic(auto, unfolding(crate::specs::Lines::write))]
fn put(b: u8, out: &mut [u8], at: usize) -> usize
    requires { at + 1 ≤ length out.old }
    ensures result_after { text out.new result ≡ write (text out.old at) (b ∷ []) }
    ensures value { (result ≡ at + 1) × (length out.new ≡ length out.old) }
{
    out[at] = b;
    at + 1
}

fn put_digit(d: u64, out: &mut [u8], at: usize) -> usize
    requires { (d < 10) × (at + 1 ≤ length out.old) }
    ensures result_after { text out.new result ≡ write (text out.old at) (digit d ∷ []) }
    ensures value { (result ≡ at + 1) × (length out.new ≡ length out.old) }
{
    put(b'0' + d as u8, out, at)
}

// The digits of a number, the most significant first. By hand, since what std prints without a heap doesn't say them: `write!` to a
// slice promises no bytes, and `InlineText` that it is the number's text or ends in dots.
#[tactic(auto, using(crate::proofs::Decimals::decimal_one, crate::proofs::Decimals::decimal_longer))]
fn put_decimal(n: u64, out: &mut [u8], at: usize) -> usize
    requires { at + length (decimal n) ≤ length out.old }
    ensures result_after { text out.new result ≡ write (text out.old at) (decimal n) }
    ensures value { (result ≡ at + length (decimal n)) × (length out.new ≡ length out.old) }
{
    if n < 10 {
        return put_digit(n, out, at);
    }
    let end = put_decimal(n / 10, out, at);
    put_digit(n % 10, out, end)
}

#[tactic(auto, using(crate::proofs::Decimals::decimal_fits))]
fn put_spaced(n: u64, out: &mut [u8], at: usize) -> usize
    requires { at + longest_number ≤ length out.old }
    ensures result_after { text out.new result ≡ write (text out.old at) (spaced n) }
    ensures upper_bound { (result ≤ at + longest_number) × (length out.new ≡ length out.old) }
{
    let next = put(b' ', out, at);
    put_decimal(n, out, next)
}

// A line: its first byte, and then the numbers.
pub fn line(head: u8, numbers: &[u64], out: &mut [u8], at: usize) -> usize
    requires few { length numbers.now ≤ 3 }
    requires room { at + longest_line ≤ length out.old }
    ensures result_after { text out.new result ≡ write (text out.old at) (line head numbers.now) }
    ensures upper_bound { (result ≤ at + longest_line) × (length out.new ≡ length out.old) }
{
    let mut end = put(head, out, at);
    for n in numbers {
        end = put_spaced(*n, out, end);
    }
    put(b'\n', out, end)
}
