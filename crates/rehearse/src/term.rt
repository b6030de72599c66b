// How a script writes numbers, stations, public keys, keys and lists of them.
use crate::fault::Fault;
use crate::show::Show;
use kinds::{Bytes32, Named, Ordered, Seat, Station};
use std::alloc::Global;
use std::str::FromStr;

// A kind that a script can name.
pub(crate) trait Term: Ordered + Show {
    fn read(text: &str) -> Option<Self>;
}

// A decimal number: digits and nothing else.
pub(crate) fn number<N: FromStr>(text: &str) -> Option<N>
where
    N::Err: Drop,
{
    // `parse` takes a sign too.
    if !text.starts_with(|c: char| c.is_ascii_digit()) {
        return None;
    }
    text.parse().ok()
}

// A number, or what was expected.
pub(crate) fn number_or<N: FromStr>(text: &str, expected: &'static str) -> Result<N, Fault>
where
    N::Err: Drop,
{
    number(text).ok_or(Fault::Expected(expected))
}

// Two hexadecimal digits, one by one: `from_str_radix` takes a sign too.
fn byte(pair: &[u8]) -> Option<u8> {
    let [high, low] = pair else {
        return None;
    };
    let high = char::from(*high).to_digit(16)?;
    let low = char::from(*low).to_digit(16)?;
    u8::try_from(high.wrapping_mul(16).wrapping_add(low)).ok()
}

// 64 hexadecimal digits.
fn bytes32(text: &str) -> Option<Bytes32> {
    let digits = text.as_bytes();
    if digits.len() != 64 {
        return None;
    }
    let mut bytes = [0u8; 32];
    for (place, pair) in bytes.iter_mut().zip(digits.chunks_exact(2)) {
        *place = byte(pair)?;
    }
    Some(Bytes32::new(bytes))
}

impl Term for Station {
    fn read(text: &str) -> Option<Station> {
        Some(Station(number(text)?))
    }
}

impl<R> Term for Named<R> {
    fn read(text: &str) -> Option<Named<R>> {
        Some(Named::new(bytes32(text)?))
    }
}

impl Term for Seat {
    fn read(text: &str) -> Option<Seat> {
        let (performance, seat) = text.split_once(':')?;
        Some(Seat {
            performance: number(performance)?,
            seat: number(seat)?,
        })
    }
}

// What stands between commas, each part read by itself.
pub(crate) fn parts<T: Drop, F: Fn(&str) -> Option<T>>(
    heap: Global,
    text: &str,
    read: F,
    expected: &'static str,
) -> Result<Vec<T>, Fault>
    requires { F.IsAlwaysCallable read }
{
    let mut all = Vec::new(heap);
    for part in text.split(',') {
        all.push(read(part).ok_or(Fault::Expected(expected))?)?;
    }
    Ok(all)
}

// A list such as `1,2,3`; the empty one is `-`.
pub(crate) fn list<T: Term>(heap: Global, text: &str) -> Result<Vec<T>, Fault> {
    if text == "-" {
        return Ok(Vec::new(heap));
    }
    parts(
        heap,
        text,
        |part| T::read(part),
        "a list of stations, as 1,2,3, or -",
    )
}
